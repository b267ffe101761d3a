/// The bytes of a line: 28 columns and a line feed.
pub const LINE: usize = 29;

/// The most session records that a sheet may have.
pub const MAX_RECORDS: usize = 200;

/// The bytes of the longest sheet: `MAX_RECORDS` lines, and the line of the totals.
pub const MAX_SHEET: usize = LINE * (MAX_RECORDS + 1);

/// The greatest session number that a line has room for: six digits.
pub const MAX_SESSION: u32 = 999_999;

/// The greatest number of records sent, or taken in, in one session. So the total of a sheet has at most seven digits.
pub const MAX_COUNT: usize = 49_999;

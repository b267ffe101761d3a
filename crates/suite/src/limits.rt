/// The most bytes that the data of a record may have; `Suite::seal` takes none to this many.
pub const MAX_DATA: usize = 200;

/// The highest number that a kind of suite may give a record, 2 to the power 24 less 1.
pub const MAX_NUMBER: u32 = 16_777_215;

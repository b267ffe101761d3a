ghost use Rattle.std.specs.Prelude.{◌≡◌, ◌<◌, ◌≤◌, ◌+◌, ◌*◌, ◌^◌, [], ◌∷◌, ◌++◌, length, take, decimal, true, IfOk, OnOk};
ghost use Rattle.buffers.specs.Buffers.{length_result, buffer_after};
ghost use Rattle.service_sheet.specs.Letters.{service_letters};
ghost use Rattle.service_sheet.specs.Sheets.{blanks, right_aligned, line_feed, record_columns, total_columns, total_sent, total_taken, is_in_range, are_in_range, sheet_result};
ghost use Rattle.service_sheet.specs.Readings.{TellsRecords};

use super::limits::{LINE, MAX_COUNT, MAX_RECORDS, MAX_SESSION};
use super::record::SheetRecord;
use super::refusal::Refusal;
use frame::Service;
use itoa::write_digits;

// How many columns of a line stand before its counts.
const FRONT: usize = 11;

// How many records were sent, and taken in: in one session, or in all of a sheet.
#[derive(Clone, Copy)]
struct Counts {
    sent: usize,
    taken: usize,
}

#[tactic(auto, using(crate::proofs::Ranges::sent_more_below, crate::proofs::Ranges::taken_more_below))]
fn sums(records: &[SheetRecord]) -> Counts
    requires few { length records.now ≤ MAX_RECORDS }
    requires in_range { are_in_range records.now ≡ true }
    ensures sent { result.sent ≡ total_sent records.now }
    ensures taken { result.taken ≡ total_taken records.now }
{
    let mut totals = Counts { sent: 0, taken: 0 };
    for session in records {
        totals.sent += session.sent;
        totals.taken += session.taken;
    }
    totals
}

fn letters(service: Service) -> &'static [u8; 3]
    ensures { result.now ≡ service_letters service }
{
    match service {
        Service::Sse => b"SSE",
        Service::Sch => b"SCH",
    }
}

// Writes a number at the right of a field, and blanks before it.
fn right_align(number: u64, field: &mut [u8])
    requires { length (decimal number) ≤ length field.old }
    ensures { field.new ≡ right_aligned (length field.old) number }
{
    let start = write_digits(number, field, field.len());
    field[..start].fill(b' ');
}

// Returns a line from its first columns, both counts and its last column. Columns are counted from 0 here.
fn line_of(front: &[u8; FRONT], counts: Counts, last: u8) -> [u8; LINE]
    requires sent { counts.sent < 10 ^ 7 }
    requires taken { counts.taken < 10 ^ 7 }
    ensures { result ≡ front.now ++ right_aligned 7 counts.sent ++ blanks 1 ++ right_aligned 7 counts.taken ++ blanks 1 ++ (last ∷ []) ++ line_feed }
{
    let mut line = [b' '; LINE];
    line[..FRONT].copy_from_slice(front);
    right_align(counts.sent as u64, &mut line[11..18]);
    right_align(counts.taken as u64, &mut line[19..26]);
    line[27] = last;
    line[28] = b'\n';
    line
}

fn record_line(session: &SheetRecord) -> [u8; LINE]
    requires { is_in_range session.now ≡ true }
    ensures { result ≡ record_columns session.now ++ line_feed }
{
    let mut front = [b' '; FRONT];
    right_align(u64::from(session.number), &mut front[..6]);
    front[7..10].copy_from_slice(letters(session.service));
    let counts = Counts {
        sent: session.sent,
        taken: session.taken,
    };
    line_of(&front, counts, session.end.letter())
}

fn total_line(totals: Counts) -> [u8; LINE]
    requires sent { totals.sent < 10 ^ 7 }
    requires taken { totals.taken < 10 ^ 7 }
    ensures { result ≡ total_columns totals.sent totals.taken ++ line_feed }
{
    line_of(b"TOTAL      ", totals, b' ')
}

fn are_in_range(records: &[SheetRecord]) -> bool
    ensures { result ≡ are_in_range records.now }
{
    records.iter().all(|session| {
        session.number <= MAX_SESSION && session.sent <= MAX_COUNT && session.taken <= MAX_COUNT
    })
}

// Returns the length of the sheet, or why it is refused.
fn sheet_length(records: &[SheetRecord], room: usize) -> Result<usize, Refusal>
    ensures answer { result ≡ length_result (sheet_result records.now room) }
    ensures few { OnOk result (length records.now ≤ MAX_RECORDS) }
    ensures in_range { OnOk result (are_in_range records.now ≡ true) }
    ensures has_room { OnOk result (LINE * (length records.now + 1) ≤ room) }
    ensures within { IfOk result (λ n. n ≤ room) }
{
    if records.len() > MAX_RECORDS {
        return Err(Refusal::TooManyRecords);
    }
    if !are_in_range(records) {
        return Err(Refusal::NumberTooGreat);
    }
    let length = LINE * (records.len() + 1);
    if room < length {
        return Err(Refusal::SmallBuffer);
    }
    Ok(length)
}

/// Writes the service sheet of session records to the front of `out`, and returns its length: 29 bytes for each line. Each session record
/// gives one line, in their order, and the last line has the totals. Bytes of `out` past the sheet stay as they were.
///
/// Refusals, tried in this order, with nothing written: 15 for more than 200 session records; 16 for a session number above 999,999 or a
/// count above 49,999; 17 for a buffer of fewer than 29 bytes a line, that of the totals included.
#[tactic(auto, using(crate::proofs::Ranges::in_range_at, crate::proofs::Ranges::total_sent_below, crate::proofs::Ranges::total_taken_below))]
pub fn write(records: &[SheetRecord], out: &mut [u8]) -> Result<usize, Refusal>
    ensures answer { result ≡ length_result (sheet_result records.now (length out.old)) }
    ensures within { IfOk result (λ n. n ≤ length out.old) }
    ensures buffer { out.new ≡ buffer_after (sheet_result records.now (length out.old)) out.old }
    ensures told { IfOk result (λ n. TellsRecords records.now (take n out.new)) }
{
    let length = sheet_length(records, out.len())?;
    let mut at = 0;
    for session in records {
        out[at..at + LINE].copy_from_slice(&record_line(session));
        at += LINE;
    }
    out[at..at + LINE].copy_from_slice(&total_line(sums(records)));
    Ok(length)
}

ghost use Rattle.std.specs.Prelude.{◌≡◌, IfOk};
ghost use Rattle.replay.specs.LogViews.{logged_calls};
ghost use Rattle.replay.specs.Entries.{transcript_history};
ghost use Rattle.replay.specs.SheetRecords.{sheet_records, TellsEveryRun, TellsReplay};

use super::entry::Entry;
use super::logged::LoggedCall;
use super::session::Sessions;
use service_sheet::SheetRecord;
use std::alloc::{AllocError, Global};

/// Returns a session record for each session that was confirmed and is over, in the order in which they ended, for the service sheet: from
/// a log, and the entries that a replay told of it. The error is that there is no memory.
pub fn sheet_records(
    alloc: Global,
    log: &[LoggedCall<'_>],
    entries: &[Entry],
) -> Result<Vec<SheetRecord>, AllocError>
    ensures promised { TellsEveryRun }
    ensures records { IfOk result (λ v. v.items ≡ sheet_records (transcript_history (logged_calls log.now) entries.now)) }
    ensures told { IfOk result (λ v. TellsReplay (logged_calls log.now) entries.now v.items) }
{
    let mut records = Vec::new(alloc);
    let mut sessions = Sessions::new();
    for (logged, entry) in log.iter().zip(entries) {
        if let Some(ended) = sessions.add(logged, entry) {
            records.push(ended)?;
        }
    }
    Ok(records)
}

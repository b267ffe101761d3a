ghost use Rattle.std.specs.Prelude.{◌≡◌};
ghost use Rattle.replay.specs.Entries.{handed_count, has_handed_record};

use super::entry::{Direction, Entry, SessionRecord};

// Returns whether the entry has a record that the user was handed.
fn hands_over(entry: &Entry) -> bool
    ensures { result ≡ has_handed_record entry.now.record }
{
    matches!(
        entry.record,
        Some(SessionRecord {
            direction: Direction::Handed,
            ..
        })
    )
}

/// Returns how many records the user was handed according to these entries, in all sessions together: the number to be charged where each
/// record handed over is paid for.
pub fn handed_count(entries: &[Entry]) -> usize
    ensures { result ≡ handed_count entries.now }
{
    entries.iter().filter(|entry| hands_over(entry)).count()
}

ghost use Rattle.std.specs.Prelude.{◌≡◌, ℕ, ◌<◌, ◌≤◌, length, All, slice_index};
ghost use Rattle.entity.specs.Views.{view};
ghost use Rattle.replay.specs.LogViews.{logged_calls};
ghost use Rattle.replay.specs.Replays.{IsReplay};

use super::entry::Entry;
use super::logged::LoggedCall;
use super::make::make;
use super::note::{next_session, note};
use entity::Entity;
use suite::Suite;

// Returns the length of the longest buffer that a call of the log had.
pub(crate) fn longest(log: &[LoggedCall<'_>]) -> usize
    ensures { All (λ x. x.room ≤ result) log.now }
{
    let mut most = 0;
    for logged in log {
        most = most.max(logged.room);
    }
    most
}

// Makes the calls of a log in turn, and writes the entry of each to its place in `entries`.
pub(crate) fn play<S: Suite>(
    entity: &mut Entity<S>,
    log: &[LoggedCall<'_>],
    buffer: &mut [u8],
    entries: &mut [Entry],
)
    requires rooms { All (λ x. x.room ≤ length buffer.old) log.now }
    requires places { length entries.old ≡ length log.now }
    ensures { IsReplay S.scheme (view S.meaning entity.old) (logged_calls log.now) (view S.meaning entity.new) entries.new }
{
    let mut session = 0;
    for i in 0..log.len() {
        log[i].given();
        let (answer, written) = make(entity, &log[i], buffer);
        entries[i] = note(session, &log[i], answer, written);
        session = next_session(session, answer);
    }
}

ghost use Rattle.std.specs.Prelude.{◌≡◌, ◌≤◌, length, Ok, IfOk};
ghost use Rattle.histories.specs.Histories.{is_member, serials_destroyed_in};
ghost use Rattle.histories.specs.Records.{records_in, next_session};
ghost use Rattle.replay.specs.LogViews.{logged_call};
ghost use Rattle.replay.specs.Entries.{written_bytes, records_of, history_entry, FitsSend};

use super::entry::{Direction, Entry, SessionRecord, WrittenBytes};
use super::logged::LoggedCall;
use entity::Call;
use protocol::{Confirmation, Outcome, Refusal};

// Returns whether an answer reports the key with this serial destroyed. 0 is no key.
pub(crate) fn is_reported_destroyed(serial: u32, answer: Result<Outcome, Refusal>) -> bool
    ensures { result ≡ is_member serial (serials_destroyed_in answer) }
{
    match answer {
        Ok(Outcome { destroyed, .. }) => {
            serial != 0 && (destroyed.link == serial || destroyed.secret == serial)
        }
        Err(_) => false,
    }
}

// Returns the link session that runs after a call, by its key's serial: 0 for none.
pub(crate) fn next_session(session: u32, answer: Result<Outcome, Refusal>) -> u32
    ensures { result ≡ next_session session answer }
{
    let Ok(outcome) = answer else {
        return session;
    };
    if outcome.confirmation == Confirmation::Established && outcome.made != 0 {
        return outcome.made;
    }
    if is_reported_destroyed(session, answer) {
        return 0;
    }
    session
}

// Returns the record that a call sent or handed over, if it did.
fn record(
    session: u32,
    logged: &LoggedCall<'_>,
    answer: Result<Outcome, Refusal>,
    written: WrittenBytes,
) -> Option<SessionRecord>
    requires { FitsSend (logged_call logged.now) answer }
    ensures { records_of result ≡ records_in session (record { call = logged_call logged.now; answer = answer; written = written_bytes written }) }
{
    let outcome = answer.ok()?;
    let (direction, plain) = match logged.call {
        Call::Send { plain } if outcome.confirmation == Confirmation::DataSent => {
            (Direction::Sent, WrittenBytes::new(plain))
        }
        Call::RetrieveData => (Direction::Handed, written),
        _ => return None,
    };
    Some(SessionRecord {
        session,
        direction,
        plain,
    })
}

// Returns the entry of a call that was made in that session.
pub(crate) fn note(
    session: u32,
    logged: &LoggedCall<'_>,
    answer: Result<Outcome, Refusal>,
    written: WrittenBytes,
) -> Entry
    requires { FitsSend (logged_call logged.now) answer }
    ensures told { history_entry (logged_call logged.now) result ≡ record { call = logged_call logged.now; answer = answer; written = written_bytes written } }
    ensures record { records_of result.record ≡ records_in session (history_entry (logged_call logged.now) result) }
{
    Entry {
        answer,
        written,
        record: record(session, logged, answer, written),
    }
}

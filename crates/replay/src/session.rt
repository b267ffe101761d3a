ghost use Rattle.std.specs.Prelude.{◌≡◌, ℕ, ◌<◌, ◌+◌, ◌-◌, [], ◌∷◌, length, Option, option_to_list};
ghost use Rattle.histories.specs.Histories.{Entry as HistoryEntry, History, data_sent_in, frames_received_in};
ghost use Rattle.replay.specs.LogViews.{logged_call};
ghost use Rattle.replay.specs.Entries.{history_entry};
ghost use Rattle.replay.specs.SessionCounts.{counted_session, IsAfter, HasCountsTo};
ghost use Rattle.replay.specs.SheetRecords.{OpenSession, end_by, last_made, open_session, records_closed, session_after, session_begun};

use super::entry::Entry;
use super::logged::LoggedCall;
use super::note::is_reported_destroyed;
use entity::Call;
use frame::Service;
use protocol::{Confirmation, Outcome, Refusal};
use service_sheet::{End, SheetRecord};

// A session that runs: what its record has so far.
#[derive(Clone, Copy)]
pub(crate) struct SessionSoFar {
    service: Service,
    number: u32,
    sent: usize,
    taken: usize,
}

impl SessionSoFar {
    // Returns the session with one more call in it.
    fn with_call(self, logged: &LoggedCall<'_>, entry: &Entry) -> SessionSoFar
        requires sent { self.sent < usize.MAX }
        requires taken { self.taken < usize.MAX }
        ensures { result ≡ record self { sent = self.sent + length (data_sent_in (history_entry (logged_call logged.now) entry.now)); taken = self.taken + length (frames_received_in (history_entry (logged_call logged.now) entry.now)) } }
    {
        let Ok(outcome) = entry.answer else {
            return self;
        };
        match (logged.call, outcome.confirmation) {
            (Call::Send { .. }, Confirmation::DataSent) => SessionSoFar {
                sent: self.sent + 1,
                ..self
            },
            (Call::Frame { .. }, Confirmation::DataAvailable) => SessionSoFar {
                taken: self.taken + 1,
                ..self
            },
            _ => self,
        }
    }

    // Returns its record, by how it ended.
    fn ended(self, end: End) -> SheetRecord
        ensures { result ≡ record { number = self.number; service = self.service; sent = self.sent; taken = self.taken; end = end } }
    {
        let SessionSoFar {
            service,
            number,
            sent,
            taken,
        } = self;
        SheetRecord {
            number,
            service,
            sent,
            taken,
            end,
        }
    }
}

// Returns how a session ended, by its last call.
fn end_by(logged: &LoggedCall<'_>, entry: &Entry) -> End
    ensures { result ≡ end_by (history_entry (logged_call logged.now) entry.now) }
{
    match entry.answer {
        Ok(outcome) if outcome.confirmation == Confirmation::Error => End::Error,
        _ if matches!(logged.call, Call::Release) => End::Released,
        _ => End::Terminated,
    }
}

// Returns the session that an answer starts, if it starts one. `newest` is the serial of the key that was made last before, 0 if none was.
fn session_begun(newest: u32, answer: Result<Outcome, Refusal>) -> Option<SessionSoFar>
    ensures session { (h : History) → newest ≡ last_made h → result ≡ counted_session (session_begun h answer) }
    ensures counts { HasCountsTo 0 result }
{
    let outcome = answer.ok()?;
    let (service, number) = match outcome.made {
        0 => (Service::Sse, newest),
        made => (Service::Sch, made),
    };
    if outcome.confirmation != Confirmation::Established || number == 0 {
        return None;
    }
    Some(SessionSoFar {
        service,
        number,
        sent: 0,
        taken: 0,
    })
}

// Returns the serial of the key that was made last, after one more answer.
fn newest_made(newest: u32, answer: Result<Outcome, Refusal>) -> u32
    ensures { (h : History) (e : HistoryEntry) → e.answer ≡ answer → newest ≡ last_made h → result ≡ last_made (e ∷ h) }
{
    match answer {
        Ok(outcome) if outcome.made != 0 => outcome.made,
        _ => newest,
    }
}

// Returns a session that ran after one more call, if it goes on.
fn session_after(
    running: Option<SessionSoFar>,
    logged: &LoggedCall<'_>,
    entry: &Entry,
) -> Option<SessionSoFar>
    requires { HasCountsTo (usize.MAX - 1) running }
    ensures session { (x : Option OpenSession) → running ≡ counted_session x → result ≡ counted_session (session_after x (history_entry (logged_call logged.now) entry.now)) }
    ensures counts { (n : ℕ) → HasCountsTo n running → HasCountsTo (n + 1) result }
{
    let session = running?;
    if is_reported_destroyed(session.number, entry.answer) {
        return None;
    }
    Some(session.with_call(logged, entry))
}

// Returns the record of a session that ran, if it ends with one more call.
fn record_closed(
    running: Option<SessionSoFar>,
    logged: &LoggedCall<'_>,
    entry: &Entry,
) -> Option<SheetRecord>
    requires { HasCountsTo (usize.MAX - 1) running }
    ensures { (x : Option OpenSession) → running ≡ counted_session x → option_to_list result ≡ records_closed x (history_entry (logged_call logged.now) entry.now) }
{
    let session = running?;
    if !is_reported_destroyed(session.number, entry.answer) {
        return None;
    }
    Some(
        session
            .with_call(logged, entry)
            .ended(end_by(logged, entry)),
    )
}

// What the calls so far tell of sessions.
#[derive(Clone, Copy)]
pub(crate) struct Sessions {
    // The serial of the key that was made last, 0 if none was.
    newest: u32,
    running: Option<SessionSoFar>,
}

impl Sessions {
    pub(crate) fn new() -> Sessions
        ensures after { IsAfter [] result }
        ensures counts { HasCountsTo 0 result.running }
    {
        Sessions {
            newest: 0,
            running: None,
        }
    }

    // Takes one more call, and returns the record of the session that ends with it, if one ends.
    pub(crate) fn add(&mut self, logged: &LoggedCall<'_>, entry: &Entry) -> Option<SheetRecord>
        requires { HasCountsTo (usize.MAX - 1) self.old.running }
        ensures after { (h : History) → IsAfter h self.old → IsAfter (history_entry (logged_call logged.now) entry.now ∷ h) self.new }
        ensures closed { (h : History) → IsAfter h self.old → option_to_list result ≡ records_closed (open_session h) (history_entry (logged_call logged.now) entry.now) }
        ensures counts { (n : ℕ) → HasCountsTo n self.old.running → HasCountsTo (n + 1) self.new.running }
    {
        let closed = record_closed(self.running, logged, entry);
        let goes_on = session_after(self.running, logged, entry);
        self.running = session_begun(self.newest, entry.answer).or(goes_on);
        self.newest = newest_made(self.newest, entry.answer);
        closed
    }
}

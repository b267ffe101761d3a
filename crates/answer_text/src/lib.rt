// What a call of an entity returned and wrote, as text in two forms. A program prints its own names before it.
#![tactic(auto)]

ghost use Rattle.std.specs.Prelude.{◌≡◌, IfOk, Some, string_bytes};
ghost use Rattle.answer_text.specs.Texts.{bytes_text, fault_text, keys_text, report_text, plain_text, worded_text};

use protocol::{Fault, Outcome, Refusal, State};
use std::alloc::{AllocError, Global};
use std::fmt;

/// What a call of an entity returned and wrote, and the state that it left the entity in. `Plain` and `Worded` print it.
#[derive(Clone, Copy, Debug)]
pub struct Answer<'a> {
    /// The outcome, or the refusal with its number, 1 to 10.
    pub answer: Result<Outcome, Refusal>,
    /// The text of the bytes that the call wrote, as `bytes_text` returns it.
    pub wrote: &'a str,
    /// The entity's state after the call.
    pub state: State,
    /// The entity's number after the call: that of the newest record, or 0 where no link session runs.
    pub number: u32,
}

/// Prints an answer by numbers alone, as `refused 9; state 5, number 1`.
#[derive(Clone, Copy, Debug)]
pub struct Plain<'a>(pub Answer<'a>);

impl<'a> fmt::Display for Plain<'a> {
    ghost output = { λ plain.
        Some (plain_text plain.0.answer plain.0.wrote.now plain.0.state plain.0.number) };

    fn fmt<W: fmt::Write>(&self, f: &mut fmt::Formatter<W>) -> fmt::Result {
        let Answer {
            answer,
            wrote,
            state,
            number,
        } = self.0;
        let state = state.mark();
        match answer {
            Ok(outcome) => {
                let confirmation = outcome.confirmation.number();
                let report = ReportText { outcome, wrote };
                write!(
                    f,
                    "confirmation {confirmation}, {report}; state {state}, number {number}"
                )
            }
            Err(refusal) => {
                let refusal = refusal.number();
                write!(f, "refused {refusal}; state {state}, number {number}")
            }
        }
    }
}

/// Prints an answer with the words for its confirmation or refusal and for the state, as
/// `refused 9, no data is held; Confirmed_SCH, number 1`.
#[derive(Clone, Copy, Debug)]
pub struct Worded<'a>(pub Answer<'a>);

impl<'a> fmt::Display for Worded<'a> {
    ghost output = { λ worded.
        Some (worded_text worded.0.answer worded.0.wrote.now worded.0.state worded.0.number) };

    fn fmt<W: fmt::Write>(&self, f: &mut fmt::Formatter<W>) -> fmt::Result {
        let Answer {
            answer,
            wrote,
            state,
            number,
        } = self.0;
        match answer {
            Ok(outcome) => {
                let words = outcome.confirmation;
                let confirmation = words.number();
                let report = ReportText { outcome, wrote };
                write!(
                    f,
                    "confirmation {confirmation} {words}, {report}; {state}, number {number}"
                )
            }
            Err(words) => {
                let refusal = words.number();
                write!(f, "refused {refusal}, {words}; {state}, number {number}")
            }
        }
    }
}

// What both forms have in common: an outcome without its confirmation.
#[derive(Clone, Copy)]
struct ReportText<'a> {
    outcome: Outcome,
    wrote: &'a str,
}

impl<'a> fmt::Display for ReportText<'a> {
    ghost output = { λ report. Some (report_text report.outcome report.wrote.now) };

    fn fmt<W: fmt::Write>(&self, f: &mut fmt::Formatter<W>) -> fmt::Result {
        let wrote = self.wrote;
        let keys = KeysText(self.outcome);
        let fault = FaultText(self.outcome.fault);
        write!(f, "wrote {wrote}, {keys}, {fault}")
    }
}

// The serials of the keys that a call made and destroyed, each 0 for none.
#[derive(Clone, Copy)]
struct KeysText(Outcome);

impl fmt::Display for KeysText {
    ghost output = { λ keys. Some (keys_text keys.0) };

    fn fmt<W: fmt::Write>(&self, f: &mut fmt::Formatter<W>) -> fmt::Result {
        let made = self.0.made;
        let destroyed = self.0.destroyed;
        write!(f, "made {made}, {destroyed}")
    }
}

#[derive(Clone, Copy)]
struct FaultText(Option<Fault>);

impl fmt::Display for FaultText {
    ghost output = { λ fault. Some (fault_text fault.0) };

    fn fmt<W: fmt::Write>(&self, f: &mut fmt::Formatter<W>) -> fmt::Result {
        let Some(fault) = self.0 else {
            return f.write_str("fault none");
        };
        let code = fault.code();
        let place = code.place;
        let state = fault.machine.state.mark();
        let message = fault.message;
        write!(
            f,
            "fault {code} place {place} state {state} message {message}"
        )
    }
}

/// Returns the text of the bytes that a call wrote: a dash for none, else two capital hexadecimal digits for each. The error is that there
/// is no memory for it.
pub fn bytes_text(heap: Global, bytes: &[u8]) -> Result<String, AllocError>
    ensures { IfOk result (λ text. string_bytes text ≡ bytes_text bytes.now) }
{
    match bytes {
        [] => String::from_str(heap, "-"),
        _ => hex_text::encode(heap, bytes),
    }
}

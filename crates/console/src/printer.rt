// Prints the lines of a peer.
use super::call::{Action, Name};
use answer_text::{Answer, Plain, bytes_text};
use entity::Entity;
use protocol::{Outcome, Refusal};
use std::{fmt, io};
use suite::Suite;

#[derive(Clone, Copy)]
pub(super) struct Printer<'a> {
    pub(super) rt: &'a HostRuntime,
    pub(super) name: Name,
}

impl<'a> Printer<'a> {
    pub(super) fn says(
        &self,
        what: &impl fmt::Display,
        text: &impl fmt::Display,
    ) -> io::Result<()> {
        let name = self.name;
        println!(self.rt; "{name} {what}: {text}")
    }

    // Prints what a call of an entity returned and wrote, and the state that it left the entity in.
    pub(super) fn answered<S: Suite>(
        &self,
        action: &Action,
        entity: &Entity<S>,
        answer: Result<Outcome, Refusal>,
        bytes: &[u8],
    ) -> io::Result<()> {
        let wrote = bytes_text(self.rt.alloc(), bytes)?;
        let text = Plain(Answer {
            answer,
            wrote: &wrote,
            state: entity.state(),
            number: entity.number(),
        });
        self.says(action, &text)
    }
}

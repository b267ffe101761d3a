ghost use Rattle.std.specs.Prelude.{◌≡◌, ◌≤◌, true, [], length, replicate};
ghost use Rattle.protocol.specs.Models.{has_link};
ghost use Rattle.protocol.specs.Steps.{HasEffect, is_record_length, sequence_check, on_enc};
ghost use Rattle.entity.specs.Views.{view};

use super::Entity;
use crate::bytes::wipe;
use crate::held::Held;
use buffers::{MAX_FRAME, MAX_PAYLOAD};
use protocol::{Cause, Confirmation, MachineFault, Outcome, SuiteFault, in_state};
use suite::{MAX_DATA, Suite};

// Returns whether the data of a record may have that many bytes: 1 to 200.
pub(super) fn is_record_length(length: usize) -> bool
    ensures { result ≡ is_record_length length }
{
    (1..=MAX_DATA).contains(&length)
}

impl<S: Suite> Entity<S> {
    // The sequence check (clause 12.3) of an opened record. Returns true for the next one, and false for one with the number of the newest,
    // which is dropped; S5 or Q1 for any other.
    fn is_next(&self, opened: (u8, u32, usize)) -> Result<bool, Cause>
        ensures { result ≡ sequence_check S.scheme (view S.meaning self.now) opened }
    {
        let (role, number, length) = opened;
        if !is_record_length(length) {
            return Err(SuiteFault::BadRecord.into());
        }
        if number == self.number {
            return Ok(false);
        }
        if role == self.role.byte() {
            return Err(SuiteFault::BadRecord.into());
        }
        if self.number.checked_add(1) != Some(number) || number > S::numbers().last_number {
            return Err(Cause::WrongNumber);
        }
        Ok(true)
    }

    // Opens a record into the scratch bytes, and keeps its data if it is the next one.
    fn receive(
        &mut self,
        payload: &[u8],
        scratch: &mut [u8; MAX_FRAME],
    ) -> Result<Outcome, MachineFault>
        requires state { has_link self.old.state ≡ true }
        requires payload { length payload.now ≤ MAX_PAYLOAD }
        ensures { HasEffect (view S.meaning self.old) (on_enc S.scheme (view S.meaning self.old) payload.now) (view S.meaning self.new) result [] [] }
    {
        let opened = in_state(self.state, self.open(payload, scratch))?;
        if !in_state(self.state, self.is_next(opened))? {
            return Ok(Outcome::ongoing(Confirmation::Dropped, 0, 0));
        }
        let (_, number, length) = opened;
        self.number = number;
        self.held = Held::new(&scratch[..length]);
        Ok(Outcome::ongoing(Confirmation::DataAvailable, 0, 0))
    }

    // Clears the scratch bytes after, since data lay in them. The caller lends them, because a contract cannot speak of a local variable.
    fn receive_cleanly(
        &mut self,
        payload: &[u8],
        scratch: &mut [u8; MAX_FRAME],
    ) -> Result<Outcome, MachineFault>
        requires state { has_link self.old.state ≡ true }
        requires payload { length payload.now ≤ MAX_PAYLOAD }
        ensures step { HasEffect (view S.meaning self.old) (on_enc S.scheme (view S.meaning self.old) payload.now) (view S.meaning self.new) result [] [] }
        ensures cleared { scratch.new ≡ replicate MAX_FRAME 0 }
    {
        let received = self.receive(payload, scratch);
        wipe(scratch);
        received
    }

    // ENC in Confirmed_SCH: a record. Without a fault there is no reply.
    pub(super) fn on_enc(&mut self, payload: &[u8]) -> Result<Outcome, MachineFault>
        requires state { has_link self.old.state ≡ true }
        requires payload { length payload.now ≤ MAX_PAYLOAD }
        ensures { HasEffect (view S.meaning self.old) (on_enc S.scheme (view S.meaning self.old) payload.now) (view S.meaning self.new) result [] [] }
    {
        self.receive_cleanly(payload, &mut [0; MAX_FRAME])
    }
}

ghost use Rattle.std.specs.Prelude.{[], length, Ok};
ghost use Rattle.protocol.specs.Calls.{MakesCall, invoke as invocation, send as sends, retrieve_data as retrieves, retrieve_secret as reveals, terminate as terminates, release as releases};
ghost use Rattle.entity.specs.Views.{view};

use super::Entity;
use super::records::is_record_length;
use crate::bytes::{has_room, seed_bytes, write_message};
use crate::held::Held;
use crate::slip::Slip;
use buffers::{MAX_FRAME, write_front};
use frame::{Body, Service};
use protocol::{Confirmation, Outcome, Refusal, State};
use suite::{Role, Suite};

// Each request decides by the state, and is refused (5) in a state that does not allow it; `release` is allowed in all.
impl<S: Suite> Entity<S> {
    /// Asks the peer for a service, by the PID of the suite and a new random seed of 16 bytes. The reply is the ACT_REQ to be sent; the
    /// entity is then the Sender, in Select (annex A.2). Confirmation 0.
    ///
    /// Refused: 1 (reply buffer below 255 bytes), 2 (seed not of 16 bytes), 5 (not in Idle), 6 (not the suite's PID).
    pub fn invoke(
        &mut self,
        service: Service,
        pid: u8,
        seed: &[u8],
        reply: &mut [u8],
    ) -> Result<Outcome, Refusal>
        ensures { MakesCall S.scheme (view S.meaning self.old) (invocation service pid seed.now (length reply.old)) (view S.meaning self.new) result reply.old reply.new }
    {
        has_room(reply)?;
        let seed = seed_bytes(seed)?;
        match self.state {
            State::Idle => {
                if pid != S::numbers().pid {
                    return Err(Refusal::OtherPid);
                }
                let mut scratch = [0; MAX_FRAME];
                let offer = self.offer(seed, &mut scratch);
                let length = write_message(service, Body::ActReq(pid, offer), reply);
                self.state = State::Select;
                self.service = service;
                self.role = Role::Sender;
                self.seed = *seed;
                Ok(Outcome::ongoing(Confirmation::Nothing, length, 0))
            }
            _ => Err(Refusal::WrongState),
        }
    }

    /// Protects data of 1 to 200 bytes under the next number (clauses 9.3 and 12.3). The reply is the ENC to be sent. Confirmation 2. To
    /// send a record again, the same frame is sent: another call makes a new record.
    ///
    /// Refused: 1 (reply buffer below 255 bytes), 5 (not in Confirmed_SCH), 7 (data of no byte, or more than 200), 8 (the number is the
    /// last).
    pub fn send(&mut self, plain: &[u8], reply: &mut [u8]) -> Result<Outcome, Refusal>
        ensures { MakesCall S.scheme (view S.meaning self.old) (sends plain.now (length reply.old)) (view S.meaning self.new) result reply.old reply.new }
    {
        has_room(reply)?;
        match self.state {
            State::ConfirmedSch => {
                if !is_record_length(plain.len()) {
                    return Err(Refusal::DataLength);
                }
                if self.number >= S::numbers().last_number {
                    return Err(Refusal::NumberSpent);
                }
                let number = self.number + 1;
                let mut scratch = [0; MAX_FRAME];
                let payload = self.seal(number, plain, &mut scratch);
                let length = write_message(Service::Sch, Body::Enc(payload), reply);
                self.number = number;
                Ok(Outcome::ongoing(Confirmation::DataSent, length, 0))
            }
            _ => Err(Refusal::WrongState),
        }
    }

    /// Writes the data of the record received last to `out`, and empties its place (annex A.2). The length of the outcome says how many
    /// bytes it has, 1 to 200. Confirmation 0.
    ///
    /// Refused: 5 (not in Confirmed_SCH), 9 (no data is held), 10 (`out` is shorter than the data).
    pub fn retrieve_data(&mut self, out: &mut [u8]) -> Result<Outcome, Refusal>
        ensures { MakesCall S.scheme (view S.meaning self.old) (retrieves (length out.old)) (view S.meaning self.new) result out.old out.new }
    {
        match self.state {
            State::ConfirmedSch => {
                if self.held.is_empty() {
                    return Err(Refusal::NothingHeld);
                }
                let length = write_front(self.held.bytes(), out).ok_or(Refusal::SmallBuffer)?;
                self.held = Held::nothing();
                Ok(Outcome::ongoing(Confirmation::Nothing, length, 0))
            }
            _ => Err(Refusal::WrongState),
        }
    }

    /// Writes the 16 bytes of the shared secret of a session of service SSE to `out` (annex A.2). It alters nothing, and can be called
    /// again. It requires a slip, which has to be handed in later with a buffer to be cleared. Confirmation 0.
    ///
    /// Refused: 5 (not in Confirmed_SSE), 10 (`out` below 16 bytes).
    pub fn retrieve_secret(&self, _slip: &Slip, out: &mut [u8]) -> Result<Outcome, Refusal>
        ensures { MakesCall S.scheme (view S.meaning self.now) (reveals (length out.old)) (view S.meaning self.now) result out.old out.new }
    {
        match self.state {
            State::ConfirmedSse => {
                if out.len() < 16 {
                    return Err(Refusal::SmallBuffer);
                }
                let length = self.suite.reveal(self.secret, out).unwrap();
                Ok(Outcome::ongoing(Confirmation::Nothing, length, 0))
            }
            _ => Err(Refusal::WrongState),
        }
    }

    /// Ends the session (annex A.2, clause 9.4). The reply is the TMN to be sent. Confirmation 4, with the keys destroyed.
    ///
    /// Refused: 1 (reply buffer below 255 bytes), 5 (in neither Confirmed state).
    pub fn terminate(&mut self, reply: &mut [u8]) -> Result<Outcome, Refusal>
        ensures { MakesCall S.scheme (view S.meaning self.old) (terminates (length reply.old)) (view S.meaning self.new) result reply.old reply.new }
    {
        has_room(reply)?;
        match self.state {
            State::ConfirmedSse | State::ConfirmedSch => {
                let length = write_message(self.service, Body::Tmn(&[]), reply);
                Ok(self.end(Confirmation::Terminated, length, None))
            }
            _ => Err(Refusal::WrongState),
        }
    }

    /// Ends the session because the link below is gone (clause 9.4). Nothing is written, and it is never refused. Confirmation 4, with the
    /// keys destroyed; 0 in Idle.
    pub fn release(&mut self) -> Outcome
        ensures { MakesCall S.scheme (view S.meaning self.old) releases (view S.meaning self.new) (Ok result) [] [] }
    {
        let confirmation = match self.state {
            State::Idle => Confirmation::Nothing,
            _ => Confirmation::Terminated,
        };
        self.end(confirmation, 0, None)
    }
}

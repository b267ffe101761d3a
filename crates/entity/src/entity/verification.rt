ghost use Rattle.std.specs.Prelude.{◌≡◌, ◌≤◌, true, length, []};
ghost use Rattle.std.specs.Str.{bytes_eq};
ghost use Rattle.protocol.specs.Models.{has_secret};
ghost use Rattle.protocol.specs.Steps.{HasEffect, verification, service_start, on_vfy_req, on_vfy_res};
ghost use Rattle.entity.specs.Views.{view};
ghost use Rattle.entity.specs.ResultViews.{serial_of_start, model_of_start};

use super::Entity;
use super::suite_calls::derive;
use crate::bytes::write_message;
use buffers::MAX_FRAME;
use frame::{Body, Service};
use protocol::{Confirmation, MachineFault, Outcome, State, SuiteFault, in_state};
use suite::{Role, Suite};

impl<S: Suite> Entity<S> {
    // Compares the peer's check value with that of its role (clause 9.2).
    fn verify(&self, role: Role, payload: &[u8]) -> Result<(), SuiteFault>
        requires { has_secret self.now.state ≡ true }
        ensures { result ≡ verification S.scheme (view S.meaning self.now) role payload.now }
    {
        let mut scratch = [0; MAX_FRAME];
        if payload == self.check_value(role, &mut scratch) {
            Ok(())
        } else {
            Err(SuiteFault::WrongCheck)
        }
    }

    // Puts the service into effect, and returns the serial of the link key made for it: 0 for SSE, which needs none.
    fn confirm(&mut self) -> Result<u32, SuiteFault>
        requires { has_secret self.old.state ≡ true }
        ensures model { view S.meaning self.new ≡ model_of_start (view S.meaning self.old) (service_start S.scheme (view S.meaning self.old) self.old.service) }
        ensures answer { result ≡ serial_of_start (service_start S.scheme (view S.meaning self.old) self.old.service) }
    {
        match self.service {
            Service::Sse => {
                self.state = State::ConfirmedSse;
                Ok(0)
            }
            Service::Sch => {
                self.link = derive(&mut self.suite, self.secret)?;
                self.number = S::numbers().first_number;
                self.state = State::ConfirmedSch;
                Ok(self.link)
            }
        }
    }

    // VFY_REQ in Established_Recipient: the Recipient compares, and replies with its own check value.
    pub(super) fn on_vfy_req(
        &mut self,
        payload: &[u8],
        reply: &mut [u8],
    ) -> Result<Outcome, MachineFault>
        requires state { has_secret self.old.state ≡ true }
        requires room { MAX_FRAME ≤ length reply.old }
        ensures { HasEffect (view S.meaning self.old) (on_vfy_req S.scheme (view S.meaning self.old) payload.now) (view S.meaning self.new) result reply.old reply.new }
    {
        let state = self.state;
        in_state(state, self.verify(Role::Sender, payload))?;
        let mut scratch = [0; MAX_FRAME];
        let own = self.check_value(Role::Recipient, &mut scratch);
        let made = in_state(state, self.confirm())?;
        let length = write_message(self.service, Body::VfyRes(own), reply);
        Ok(Outcome::ongoing(Confirmation::Established, length, made))
    }

    // VFY_RES in Established_Sender: the Sender compares.
    pub(super) fn on_vfy_res(&mut self, payload: &[u8]) -> Result<Outcome, MachineFault>
        requires { has_secret self.old.state ≡ true }
        ensures { HasEffect (view S.meaning self.old) (on_vfy_res S.scheme (view S.meaning self.old) payload.now) (view S.meaning self.new) result [] [] }
    {
        let state = self.state;
        in_state(state, self.verify(Role::Recipient, payload))?;
        let made = in_state(state, self.confirm())?;
        Ok(Outcome::ongoing(Confirmation::Established, 0, made))
    }
}

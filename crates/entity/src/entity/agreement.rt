ghost use Rattle.std.specs.Prelude.{◌≤◌, length};
ghost use Rattle.protocol.specs.Steps.{HasEffect, on_act_req, on_act_res};
ghost use Rattle.entity.specs.Views.{view};

use super::Entity;
use super::suite_calls::agree;
use crate::bytes::write_message;
use buffers::MAX_FRAME;
use frame::{Body, Service};
use protocol::{Confirmation, MachineFault, Outcome, State, SuiteFault, in_state};
use suite::{Role, Suite};

impl<S: Suite> Entity<S> {
    // ACT_REQ in Idle: the peer asks for a service. The entity becomes the Recipient, makes the shared secret, and replies with its offer.
    pub(super) fn on_act_req(
        &mut self,
        service: Service,
        pid: u8,
        offer: &[u8],
        seed: &[u8; 16],
        reply: &mut [u8],
    ) -> Result<Outcome, MachineFault>
        requires { MAX_FRAME ≤ length reply.old }
        ensures { HasEffect (view S.meaning self.old) (on_act_req S.scheme (view S.meaning self.old) service pid offer.now seed.now) (view S.meaning self.new) result reply.old reply.new }
    {
        if pid != S::numbers().pid {
            return Err(self.fault(SuiteFault::OtherPid.into()));
        }
        let made = in_state(
            self.state,
            agree(&mut self.suite, seed, offer, Role::Recipient),
        )?;
        self.state = State::EstablishedRecipient;
        self.service = service;
        self.role = Role::Recipient;
        self.secret = made;
        let mut scratch = [0; MAX_FRAME];
        let own = self.offer(seed, &mut scratch);
        let length = write_message(service, Body::ActRes(own), reply);
        Ok(Outcome::ongoing(Confirmation::Nothing, length, made))
    }

    // ACT_RES in Select: the peer takes part. The Sender makes the shared secret, and replies with its check value.
    pub(super) fn on_act_res(
        &mut self,
        offer: &[u8],
        reply: &mut [u8],
    ) -> Result<Outcome, MachineFault>
        requires { MAX_FRAME ≤ length reply.old }
        ensures { HasEffect (view S.meaning self.old) (on_act_res S.scheme (view S.meaning self.old) offer.now) (view S.meaning self.new) result reply.old reply.new }
    {
        let made = in_state(
            self.state,
            agree(&mut self.suite, &self.seed, offer, Role::Sender),
        )?;
        self.state = State::EstablishedSender;
        self.secret = made;
        let mut scratch = [0; MAX_FRAME];
        let check = self.check_value(Role::Sender, &mut scratch);
        let length = write_message(self.service, Body::VfyReq(check), reply);
        Ok(Outcome::ongoing(Confirmation::Nothing, length, made))
    }
}

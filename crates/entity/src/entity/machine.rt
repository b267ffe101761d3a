ghost use Rattle.std.specs.Prelude.{◌≡◌, ◌≤◌, length, IfOk};
ghost use Rattle.frame.specs.Frames.{bytes_after_sep, parts_of};
ghost use Rattle.protocol.specs.Steps.{HasEffect, reading_effect};
ghost use Rattle.entity.specs.CallViews.{fitted_ancillary};
ghost use Rattle.entity.specs.Views.{view};
ghost use Rattle.entity.specs.ResultViews.{reading_parts, session_result};

use super::Entity;
use crate::ancillary::FittedAncillary;
use buffers::{MAX_FRAME, MAX_PAYLOAD};
use frame::{Body, CodecFault, Message, Service};
use protocol::{Cause, Confirmation, FaultInState, MachineFault, Outcome, State, in_state};
use suite::Suite;

impl<S: Suite> Entity<S> {
    // Returns the fault of a cause that is met in the present state.
    pub(super) fn fault(&self, cause: Cause) -> MachineFault
        ensures { result ≡ record { cause = cause; state = self.now.state } }
    {
        FaultInState {
            fault: cause,
            state: self.state,
        }
        .into()
    }

    // M2 for a message of another service than the session's.
    fn in_session(&self, service: Service) -> Result<(), MachineFault>
        ensures { result ≡ session_result (view S.meaning self.now) service }
    {
        if service != self.service {
            return Err(self.fault(Cause::OtherService));
        }
        Ok(())
    }

    // The state and the message together decide the step (annex A). An ERROR ends the session in every state.
    pub(super) fn step(
        &mut self,
        received: Result<Message<'_>, CodecFault>,
        beside: FittedAncillary<'_>,
        reply: &mut [u8],
    ) -> Result<Outcome, MachineFault>
        requires room { MAX_FRAME ≤ length reply.old }
        requires short { IfOk received (λ m. length (bytes_after_sep (parts_of m).contents) ≤ MAX_PAYLOAD) }
        ensures { HasEffect (view S.meaning self.old) (reading_effect S.scheme (view S.meaning self.old) (fitted_ancillary beside.entry) (reading_parts received.entry)) (view S.meaning self.new) result reply.old reply.new }
    {
        let Message { service, body } = in_state(self.state, received)?;
        match (self.state, body) {
            (_, Body::Error(_)) => Ok(self.end(Confirmation::Error, 0, None)),
            (State::Idle, Body::ActReq(pid, offer)) => {
                self.on_act_req(service, pid, offer, beside.seed, reply)
            }
            (State::Select, Body::ActRes(offer)) => {
                self.in_session(service)?;
                self.on_act_res(offer, reply)
            }
            (State::EstablishedSender, Body::VfyRes(check)) => {
                self.in_session(service)?;
                self.on_vfy_res(check)
            }
            (State::EstablishedRecipient, Body::VfyReq(check)) => {
                self.in_session(service)?;
                self.on_vfy_req(check, reply)
            }
            (State::ConfirmedSse | State::ConfirmedSch, Body::Tmn(_)) => {
                self.in_session(service)?;
                Ok(self.end(Confirmation::Terminated, 0, None))
            }
            (State::ConfirmedSch, Body::Enc(payload)) => {
                self.in_session(service)?;
                self.on_enc(payload)
            }
            _ => Err(self.fault(Cause::NotAllowed)),
        }
    }
}

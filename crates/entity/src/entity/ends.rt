ghost use Rattle.std.specs.Prelude.{◌≡◌, ◌%◌, ◌≤◌, length, Ok};
ghost use Rattle.protocol.specs.Models.{without_key, idle_model, session_keys};
ghost use Rattle.protocol.specs.Steps.{HasEffect};
ghost use Rattle.protocol.specs.Calls.{error_effect, error_service};
ghost use Rattle.entity.specs.Views.{view};

use super::Entity;
use crate::bytes::write_message;
use crate::held::Held;
use buffers::MAX_FRAME;
use frame::{Body, Service};
use protocol::{Confirmation, Destroyed, Fault, Outcome, State};
use suite::Suite;

// The service of an ERROR: that of the session; in Idle that of the frame, SSE where its service bits name none.
fn error_service(service: Service, sep: u8, state: State) -> Service
    ensures { result ≡ error_service service sep state }
{
    match state {
        State::Idle if (sep >> 4) % 4 == Service::Sch.code() => Service::Sch,
        State::Idle => Service::Sse,
        _ => service,
    }
}

// Destroys the key of that serial; no key has serial 0.
fn destroy<S: Suite>(suite: &mut S, key: u32)
    ensures { S.meaning suite.new ≡ without_key (S.meaning suite.old) key }
{
    if key != 0 {
        let _ = suite.destroy(key);
    }
}

impl<S: Suite> Entity<S> {
    // Destroys the keys, the link key first, and sets all that was kept to zeros (clause 9.4).
    pub(super) fn enter_idle(&mut self) -> Destroyed
        ensures model { view S.meaning self.new ≡ idle_model (view S.meaning self.old) }
        ensures destroyed { result ≡ session_keys (view S.meaning self.old) }
    {
        let destroyed = Destroyed {
            link: self.link,
            secret: self.secret,
        };
        destroy(&mut self.suite, self.link);
        destroy(&mut self.suite, self.secret);
        self.state = State::Idle;
        self.seed = [0; 16];
        self.number = 0;
        self.held = Held::nothing();
        self.secret = 0;
        self.link = 0;
        destroyed
    }

    // Ends the session, after a reply of that length was written.
    pub(super) fn end(
        &mut self,
        confirmation: Confirmation,
        length: usize,
        fault: Option<Fault>,
    ) -> Outcome
        ensures model { view S.meaning self.new ≡ idle_model (view S.meaning self.old) }
        ensures answer { result ≡ record { confirmation = confirmation; length = length; made = 0; destroyed = session_keys (view S.meaning self.old); fault = fault } }
    {
        Outcome {
            confirmation,
            length,
            made: 0,
            destroyed: self.enter_idle(),
            fault,
        }
    }

    // Answers a fault by an ERROR with letter, digit and 00 (clause 12.1), and ends the session.
    pub(super) fn fail(&mut self, sep: u8, fault: Fault, reply: &mut [u8]) -> Outcome
        requires room { MAX_FRAME ≤ length reply.old }
        requires message { fault.message ≡ sep % 16 }
        ensures { HasEffect (view S.meaning self.old) (error_effect (view S.meaning self.old) sep fault.machine) (view S.meaning self.new) (Ok result) reply.old reply.new }
    {
        let code = fault.code();
        let service = error_service(self.service, sep, fault.machine.state);
        let payload = [code.letter, code.digit, 0];
        let length = write_message(service, Body::Error(&payload), reply);
        self.end(Confirmation::Error, length, Some(fault))
    }
}

// A device with its entity. Each call is entered in a log, and prints a line: the call, what it returned and wrote, and the state that it
// left the entity in.
use super::log::{Frame, OWN_SEED, StationCall};
use super::stopped::Stopped;
use activation::Agreed;
use answer_text::{Answer, Worded, bytes_text};
use entity::{Call, Entity, Slip};
use frame::{MAX_FRAME, Service};
use protocol::{Outcome, Refusal};
use std::alloc::AllocError;
use suite::Suite;

// Makes a call, and returns what it returned and wrote. The buffer is cleared, since data or a secret may lie in it.
fn ask<S: Suite>(entity: &mut Entity<S>, call: &Call<'_>) -> (Result<Outcome, Refusal>, Frame) {
    let slip = Slip::take_out();
    let mut buffer = [0; MAX_FRAME];
    let answer = entity.call(call, &slip, &mut buffer);
    let wrote = Frame::new(answer, buffer);
    slip.hand_in(&mut buffer);
    (answer, wrote)
}

pub(super) struct Station<'a, S: Suite> {
    rt: &'a HostRuntime,
    name: &'static str,
    entity: Entity<S>,
    log: Vec<StationCall>,
}

impl<'a, S: Suite> Station<'a, S> {
    pub(super) fn new(
        rt: &'a HostRuntime,
        name: &'static str,
        activation: Agreed,
        suite: S,
    ) -> Station<'a, S> {
        Station {
            rt,
            name,
            entity: Entity::new(activation, suite),
            log: Vec::new(rt.alloc()),
        }
    }

    // Returns the entity, to be put away, and the log of its calls.
    pub(super) fn into_parts(self) -> (Entity<S>, Vec<StationCall>) {
        let Station {
            rt: _,
            name: _,
            entity,
            log,
        } = self;
        (entity, log)
    }

    fn says(
        &self,
        call: &str,
        answer: Result<Outcome, Refusal>,
        bytes: &[u8],
    ) -> Result<(), Stopped> {
        let name = self.name;
        let wrote = bytes_text(self.rt.alloc(), bytes)?;
        let text = Worded(Answer {
            answer,
            wrote: &wrote,
            state: self.entity.state(),
            number: self.entity.number(),
        });
        Ok(println!(self.rt; "  {name} {call}: {text}")?)
    }

    // Enters a call in the log, makes it and prints it.
    fn make(&mut self, call: &str, made: StationCall) -> Result<Frame, Stopped> {
        self.log.push(made).map_err(AllocError::from)?;
        let (answer, wrote) = ask(&mut self.entity, &made.logged().call);
        self.says(call, answer, wrote.bytes())?;
        Ok(wrote)
    }

    pub(super) fn invoke(&mut self, service: Service, pid: u8) -> Result<Frame, Stopped> {
        let seed = &OWN_SEED;
        self.make(
            "invoke",
            StationCall::Asked(Call::Invoke { service, pid, seed }),
        )
    }

    pub(super) fn receive(&mut self, frame: &Frame) -> Result<Frame, Stopped> {
        self.make("frame", StationCall::Received(*frame))
    }

    pub(super) fn send(&mut self, record: &'static str) -> Result<Frame, Stopped> {
        let plain = record.as_bytes();
        self.make("send", StationCall::Asked(Call::Send { plain }))
    }

    pub(super) fn terminate(&mut self) -> Result<Frame, Stopped> {
        self.make("terminate", StationCall::Asked(Call::Terminate))
    }

    // Drops what was written, which is data and not a frame: it is printed.
    pub(super) fn retrieve(&mut self) -> Result<(), Stopped> {
        let _data = self.make("data", StationCall::Asked(Call::RetrieveData))?;
        Ok(())
    }

    pub(super) fn lost(&self) -> Result<(), Stopped> {
        let name = self.name;
        Ok(println!(self.rt; "  {name}'s frame is lost")?)
    }
}

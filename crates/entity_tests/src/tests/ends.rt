// An entity whose calls are compared with what they must return and write.
use activation::{Agreed, Offered};
use entity::{Ancillary, Entity};
use frame::Service;
use protocol::{Confirmation, Outcome, Refusal};
use std::process::Abort;
use suite::Suite;

pub const ROOT: [u8; 16] = [0; 16];

fn activated(rt: &impl Abort) -> Agreed {
    match Offered::new(0x80).agree(0x9F) {
        Ok(agreed) => agreed,
        Err(_) => panic!(rt; "no activation"),
    }
}

pub fn entity<S: Suite>(rt: &impl Abort, suite: S) -> Entity<S> {
    Entity::new(activated(rt), suite)
}

pub type Answer = Result<Outcome, Refusal>;

// Whether a buffer that was full of nines has these bytes in front, and nines past them.
fn holds(out: &[u8; 255], bytes: &[u8]) -> bool {
    out.strip_prefix(bytes)
        .is_some_and(|rest| rest.iter().all(|b| *b == 9))
}

// What a call confirms, and how many bytes it writes.
type Told = Result<(Confirmation, usize), Refusal>;

fn told(answer: Answer) -> Told {
    let outcome = answer?;
    Ok((outcome.confirmation, outcome.length))
}

fn wanted_of(wanted: Result<Confirmation, Refusal>, length: usize) -> Told {
    Ok((wanted?, length))
}

// Asserts that a call confirmed, or was refused, as wanted, and wrote these bytes to a buffer that was full of nines.
pub fn wrote(
    rt: &impl Abort,
    answer: Answer,
    out: &[u8; 255],
    wanted: Result<Confirmation, Refusal>,
    bytes: &[u8],
) {
    assert_eq!(rt; told(answer), wanted_of(wanted, bytes.len()));
    assert!(rt; holds(out, bytes));
}

#[derive(Drop)]
pub struct End<'a, R, S: Suite> {
    rt: &'a R,
    entity: &'a mut Entity<S>,
    seed: [u8; 16],
}

impl<'a, R: Abort, S: Suite> End<'a, R, S> {
    pub fn of(rt: &'a R, entity: &'a mut Entity<S>, seed: u8) -> End<'a, R, S> {
        End {
            rt,
            entity,
            seed: [seed; 16],
        }
    }

    pub fn invokes(&mut self, service: Service, pid: u8, frame: &[u8]) {
        let mut out = [9; 255];
        let answer = self.entity.invoke(service, pid, &self.seed, &mut out);
        wrote(self.rt, answer, &out, Ok(Confirmation::Nothing), frame);
    }

    pub fn hears(&mut self, frame: &[u8], wanted: Result<Confirmation, Refusal>, reply: &[u8]) {
        let mut out = [9; 255];
        let beside = Ancillary { seed: &self.seed };
        let answer = self.entity.frame(frame, beside, &mut out);
        wrote(self.rt, answer, &out, wanted, reply);
    }

    pub fn sends(&mut self, data: &[u8], wanted: Result<Confirmation, Refusal>, frame: &[u8]) {
        let mut out = [9; 255];
        let answer = self.entity.send(data, &mut out);
        wrote(self.rt, answer, &out, wanted, frame);
    }

    pub fn retrieves(&mut self, data: &[u8]) {
        let mut out = [9; 255];
        let answer = self.entity.retrieve_data(&mut out);
        wrote(self.rt, answer, &out, Ok(Confirmation::Nothing), data);
    }
}

// Frames over the bench suite, byte for byte.
use super::ends::*;
use bench_suite::Bench;
use entity::Entity;
use frame::Service;
use protocol::{Confirmation, Destroyed, Refusal, State};
use std::process::Abort;
use suite::Suite;

const OFFER: [u8; 18] = [0x10, 0xF0, 1, 1, 1, 1, 1, 1, 1, 1, 1, 1, 1, 1, 1, 1, 1, 1];

const ANSWER: [u8; 17] = [0x11, 2, 2, 2, 2, 2, 2, 2, 2, 2, 2, 2, 2, 2, 2, 2, 2];

const ASKED: [u8; 5] = [0x12, 1, 3, 3, 3];

const VERIFIED: [u8; 5] = [0x13, 2, 3, 3, 3];

// Two peers with a secure channel, from the seeds 01 .. and 02 ..
fn establish<R: Abort, S: Suite, T: Suite>(
    sender: &mut End<'_, R, S>,
    recipient: &mut End<'_, R, T>,
) {
    sender.invokes(Service::Sch, 0xF0, &OFFER);
    recipient.hears(&OFFER, Ok(Confirmation::Nothing), &ANSWER);
    sender.hears(&ANSWER, Ok(Confirmation::Nothing), &ASKED);
    recipient.hears(&ASKED, Ok(Confirmation::Established), &VERIFIED);
    sender.hears(&VERIFIED, Ok(Confirmation::Established), &[]);
}

const BOTH: Destroyed = Destroyed { link: 2, secret: 1 };

fn ends(rt: &impl Abort, entity: Entity<Bench>, wanted: Destroyed) {
    let (suite, destroyed) = entity.put_away();
    assert_eq!(rt; (suite.close(), destroyed), (ROOT, wanted));
}

// The data of a record is held until it is retrieved; after that the same record is dropped. Both peers count on from the newest record.
#[test]
fn records(rt: HostRuntime) {
    const FIRST: [u8; 9] = [0x14, 1, 0, 0, 0, 1, 0x18, 0x1B, 0x35];
    const SECOND: [u8; 8] = [0x14, 2, 0, 0, 0, 2, 0x1A, 0x1E];
    let mut one = entity(&rt, Bench::new(ROOT));
    let mut two = entity(&rt, Bench::new(ROOT));
    let mut sender = End::of(&rt, &mut one, 1);
    let mut recipient = End::of(&rt, &mut two, 2);
    establish(&mut sender, &mut recipient);
    sender.sends(&[0x41, 0x42], Ok(Confirmation::DataSent), &FIRST);
    recipient.hears(&FIRST, Ok(Confirmation::DataAvailable), &[]);
    recipient.hears(&FIRST, Err(Refusal::DataHeld), &[]);
    recipient.sends(&[4; 201], Err(Refusal::DataLength), &[]);
    recipient.retrieves(&[0x41, 0x42]);
    recipient.hears(&FIRST, Ok(Confirmation::Dropped), &[]);
    recipient.sends(&[0x43], Ok(Confirmation::DataSent), &SECOND);
    sender.hears(&SECOND, Ok(Confirmation::DataAvailable), &[]);
    assert_eq!(rt; (one.number(), one.state()), (2, State::ConfirmedSch));
    ends(&rt, one, BOTH);
    ends(&rt, two, BOTH);
}

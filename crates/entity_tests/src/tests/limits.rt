// The last number of a session, and a shared secret.
use super::ends::*;
use bench_suite::Bench;
use entity::{Ancillary, Slip};
use frame::Service;
use protocol::{Confirmation, Refusal};

// As many records are sent as there are numbers. The next one is refused.
#[test]
fn last_number(rt: HostRuntime) {
    let mut one = entity(&rt, Bench::new(ROOT));
    let beside = Ancillary { seed: &[0; 16] };
    let mut reply = [0; 255];
    let _ = one.invoke(Service::Sch, 0xF0, &[1; 16], &mut reply);
    let _ = one.frame(
        &[0x11, 2, 2, 2, 2, 2, 2, 2, 2, 2, 2, 2, 2, 2, 2, 2, 2],
        beside,
        &mut reply,
    );
    let _ = one.frame(&[0x13, 2, 3, 3, 3], beside, &mut reply);
    for _ in 0..65_534 {
        let _ = one.send(b"A", &mut reply);
    }
    assert_eq!(rt; one.number(), 65_534);
    assert_eq!(rt;
        one.send(b"A", &mut reply).map(|o| o.confirmation),
        Ok(Confirmation::DataSent)
    );
    assert_eq!(rt; one.number(), 65_535);
    assert_eq!(rt; one.send(b"A", &mut reply), Err(Refusal::NumberSpent));
    let (suite, _) = one.put_away();
    let _root = suite.close();
}

// The secret of two bench suites is the XOR of both offers.
#[test]
fn secret(rt: HostRuntime) {
    let mut one = entity(&rt, Bench::new(ROOT));
    let beside = Ancillary { seed: &[0; 16] };
    let mut reply = [0; 255];
    let _ = one.invoke(Service::Sse, 0xF0, &[1; 16], &mut reply);
    let _ = one.frame(
        &[0x01, 2, 2, 2, 2, 2, 2, 2, 2, 2, 2, 2, 2, 2, 2, 2, 2],
        beside,
        &mut reply,
    );
    let _ = one.frame(&[0x03, 2, 3, 3, 3], beside, &mut reply);
    let slip = Slip::take_out();
    let mut secret = [9; 17];
    let answer = one.retrieve_secret(&slip, &mut secret);
    assert_eq!(rt; answer.map(|o| o.length), Ok(16));
    assert_eq!(rt; secret, [3, 3, 3, 3, 3, 3, 3, 3, 3, 3, 3, 3, 3, 3, 3, 3, 9]);
    slip.hand_in(&mut secret);
    assert_eq!(rt; secret, [0; 17]);
    let (suite, _) = one.put_away();
    let _root = suite.close();
}

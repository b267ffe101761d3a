// The bench suite on worked values, and its key store.
use bench_suite::Bench;
use key_store::KeyStore;
use std::process::Abort;
use suite::{Denial, KeyKind, Role, Suite};

// A suite takes a role as a byte.
const SENDER: u8 = Role::Sender as u8;

const RECIPIENT: u8 = Role::Recipient as u8;

// What a suite returns of its kind and of its serials.
#[test]
fn numbers(rt: HostRuntime) {
    let mut suite = Bench::new([7; 16]);
    let made = (
        suite.is_fit(&[2; 16]),
        suite.agree(&[1; 16], &[2; 16], SENDER),
    );
    let serials = (suite.newest_serial(), suite.last_serial());
    assert_eq!(rt; (made, serials), ((true, Ok(1)), (1, 4_294_967_295)));
    assert_eq!(rt; (suite.destroy(1), suite.close()), (Ok(()), [7; 16]));
    let n = Bench::numbers();
    assert_eq!(rt; (n.pid, n.first_number, n.last_number), (0xF0, 0, 65_535));
    assert_eq!(rt; (n.offer_length, n.check_length, n.overhead), (16, 4, 6));
}

// Asserts that a call returned the length of these bytes, and wrote them to the front of `out`.
fn wrote(rt: &impl Abort, answer: Result<usize, Denial>, out: &[u8; 255], bytes: &[u8]) {
    assert_eq!(rt; answer, Ok(bytes.len()));
    assert!(rt; out.starts_with(bytes));
}

// Both peers of one agreement, with the seeds 01 .. and 02 ..
fn secrets_agree(rt: &impl Abort, sender: &mut Bench, recipient: &mut Bench) {
    let mut out = [0; 255];
    wrote(rt, sender.offer(&[1; 16], &mut out), &out, &[1; 16]);
    let secrets = (
        sender.agree(&[1; 16], &[2; 16], SENDER),
        recipient.agree(&[2; 16], &[1; 16], RECIPIENT),
    );
    assert_eq!(rt; secrets, (Ok(1), Ok(1)));
    wrote(rt, sender.reveal(1, &mut out), &out, &[3; 16]);
    wrote(
        rt,
        recipient.check(1, RECIPIENT, &mut out),
        &out,
        &[2, 3, 3, 3],
    );
}

const RECORD: [u8; 8] = [1, 0, 0, 0, 1, 0x18, 0x1B, 0x35];

fn record_crosses(rt: &impl Abort, sender: &mut Bench, recipient: &mut Bench) {
    let mut out = [0; 255];
    assert_eq!(rt; (sender.derive(1), recipient.derive(1)), (Ok(2), Ok(2)));
    wrote(
        rt,
        sender.seal(2, SENDER, 1, &[0x41, 0x42], &mut out),
        &out,
        &RECORD,
    );
    assert_eq!(rt; recipient.open(2, &RECORD, &mut out), Ok(Some((1, 1, 2))));
    assert!(rt; out.starts_with(&[0x41, 0x42]));
}

#[test]
fn exchange(rt: HostRuntime) {
    let mut sender = Bench::new([7; 16]);
    let mut recipient = Bench::new([8; 16]);
    secrets_agree(&rt, &mut sender, &mut recipient);
    record_crosses(&rt, &mut sender, &mut recipient);
    assert_eq!(rt; (sender.close(), recipient.close()), ([7; 16], [8; 16]));
}

#[test]
fn store(rt: HostRuntime) {
    let mut store = KeyStore::new();
    let puts = [
        store.put(KeyKind::SharedSecret, &[5; 16]),
        store.put(KeyKind::LinkKey, &[6; 16]),
    ];
    assert_eq!(rt; (puts, store.newest()), ([Ok(1), Ok(2)], 2));
    assert!(rt; store.remove(1));
    assert_eq!(rt; store.value_of(KeyKind::LinkKey, 2), Some(&[6; 16]));
    store.clear();
    store.end().unwrap();
}

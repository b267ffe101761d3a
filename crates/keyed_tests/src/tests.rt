use keyed_suite::KeyedSuite;
use std::process::Abort;
use suite::{Denial, Role, Suite};

const ROOT: [u8; 16] = [7; 16];

const SENDER: u8 = Role::Sender as u8;

const RECIPIENT: u8 = Role::Recipient as u8;

// The secret of the seeds 01 .. and 02 .., and its link key, under the serials 1 and 2.
fn with_link(rt: &impl Abort) -> KeyedSuite {
    let mut suite = KeyedSuite::new(ROOT);
    assert_eq!(rt; suite.agree(&[1; 16], &[2; 16], SENDER), Ok(1));
    assert_eq!(rt; suite.derive(1), Ok(2));
    suite
}

// Asserts that a call returned the length of these bytes, and wrote them to the front of `out`.
fn wrote(rt: &impl Abort, answer: Result<usize, Denial>, out: &[u8; 255], bytes: &[u8]) {
    assert_eq!(rt; answer, Ok(bytes.len()));
    assert!(rt; out.starts_with(bytes));
}

#[test]
fn numbers(rt: HostRuntime) {
    let n = KeyedSuite::numbers();
    assert_eq!(rt;
        (n.pid, n.first_number, n.last_number),
        (0xF1, 0, 16_777_215)
    );
    assert_eq!(rt; (n.offer_length, n.check_length, n.overhead), (16, 8, 13));
}

// Both peers make the same secret: the offers are taken in the order of the roles.
#[test]
fn secrets(rt: HostRuntime) {
    const SECRET: [u8; 16] = [
        0xF3, 0x17, 0x69, 0x47, 0xCF, 0x17, 0x30, 0x50, 0xD4, 0xD7, 0x89, 0xEA, 0x77, 0xE5, 0x55,
        0x17,
    ];
    let mut out = [0; 255];
    let mut sender = KeyedSuite::new(ROOT);
    let mut recipient = KeyedSuite::new(ROOT);
    assert_eq!(rt; sender.agree(&[1; 16], &[2; 16], SENDER), Ok(1));
    assert_eq!(rt; recipient.agree(&[2; 16], &[1; 16], RECIPIENT), Ok(1));
    wrote(&rt, sender.reveal(1, &mut out), &out, &SECRET);
    wrote(&rt, recipient.reveal(1, &mut out), &out, &SECRET);
    assert_eq!(rt; (sender.close(), recipient.close()), (ROOT, ROOT));
}

#[test]
fn checks(rt: HostRuntime) {
    let mut out = [0; 255];
    let suite = with_link(&rt);
    let sender = [0x9C, 0x22, 0x9E, 0x7F, 0xF8, 0x5F, 0x77, 0x0B];
    let recipient = [0x16, 0x9F, 0x90, 0xA8, 0x08, 0x9E, 0x31, 0xBF];
    wrote(&rt, suite.check(1, SENDER, &mut out), &out, &sender);
    wrote(&rt, suite.check(1, RECIPIENT, &mut out), &out, &recipient);
    assert_eq!(rt; suite.close(), ROOT);
}

const RECORD: [u8; 15] = [
    1, 0, 0, 0, 1, 0x39, 0xF4, 0x85, 0x38, 0x35, 0x43, 0xD0, 0xAB, 0xB2, 0xDC,
];

#[test]
fn records(rt: HostRuntime) {
    let mut out = [0; 255];
    let suite = with_link(&rt);
    wrote(
        &rt,
        suite.seal(2, SENDER, 1, b"AB", &mut out),
        &out,
        &RECORD,
    );
    assert_eq!(rt; suite.open(2, &RECORD, &mut out), Ok(Some((1, 1, 2))));
    assert!(rt; out.starts_with(b"AB"));
    let answer = [
        2, 0, 0, 0, 2, 0x4C, 0xA3, 0xFB, 0xF6, 0x47, 0x05, 0xDC, 0x17, 0x6B,
    ];
    wrote(
        &rt,
        suite.seal(2, RECIPIENT, 2, b"C", &mut out),
        &out,
        &answer,
    );
    assert_eq!(rt; suite.close(), ROOT);
}

// The highest number, and the longest data: 200 bytes take thirteen blocks of the stream, the last of them in part.
#[test]
fn longest(rt: HostRuntime) {
    let mut out = [0; 255];
    let suite = with_link(&rt);
    assert_eq!(rt;
        suite.seal(2, SENDER, 16_777_215, &[4; 200], &mut out),
        Ok(213)
    );
    assert!(rt; out.starts_with(&[1, 0, 0xFF, 0xFF, 0xFF, 0x38, 0x9F, 0x03, 0x6B]));
    assert_eq!(rt;
        &out[197..213],
        [
            0x04, 0xFE, 0x92, 0x83, 0x88, 0x28, 0xAC, 0x3E, 0x20, 0x32, 0xC5, 0x6D, 0xD5, 0x0C,
            0xBF, 0x87,
        ]
        .as_slice()
    );
    assert_eq!(rt; suite.close(), ROOT);
}

// A payload without data at the highest number of four bytes is good, and nothing is written. One with a right tag but no role is not good.
#[test]
fn payloads(rt: HostRuntime) {
    const HIGHEST: [u8; 13] = [
        2, 255, 255, 255, 255, 0xCB, 0x66, 0xE3, 0x7B, 0xC7, 0x88, 0xBE, 0x47,
    ];
    const NO_ROLE: [u8; 13] = [
        3, 0, 0, 0, 1, 0x20, 0xE2, 0xE6, 0x11, 0xCD, 0x2A, 0xF3, 0xEB,
    ];
    let suite = with_link(&rt);
    let mut out = [9; 255];
    let opened = [
        suite.open(2, &HIGHEST, &mut out),
        suite.open(2, &NO_ROLE, &mut out),
    ];
    assert_eq!(rt; opened, [Ok(Some((2, 4_294_967_295, 0))), Ok(None)]);
    assert_eq!(rt; (out, suite.close()), ([9; 255], ROOT));
}

ghost use Rattle.std.specs.Prelude.{◌≡◌};
ghost use Rattle.keyed_suite.specs.Keyed.{keyed_functions};
ghost use Rattle.keyed_suite.specs.KeyedProofs.{keyed_lawful};

use super::stream::add_stream;
use aes128::Aes128;
use cmac::cmac;
use suite::{KindNumbers, Role};
use suite_of::{Kind, SuiteOf};

const NUMBERS: KindNumbers = KindNumbers {
    pid: 0xF1,
    offer_length: 16,
    check_length: 8,
    overhead: 13,
    first_number: 0,
    last_number: 16_777_215,
};

/// The kind of the keyed suite, PID F1: AES-CMAC makes keys, check values and tags, AES-128 the stream of a record.
#[derive(Clone, Copy)]
pub struct KeyedKind;

/// A keyed suite: offers of 16 bytes, check values of 8, payloads 13 bytes longer than their data, numbers 0 to 16,777,215.
pub type KeyedSuite = SuiteOf<KeyedKind>;

impl Kind for KeyedKind {
    ghost functions = { keyed_functions };

    ghost lawful = { keyed_lawful };

    fn numbers() -> KindNumbers {
        NUMBERS
    }

    fn secret(root: &[u8; 16], role: Role, seed: &[u8; 16], offer: &[u8; 16]) -> [u8; 16] {
        let (first, second) = match role {
            Role::Sender => (seed, offer),
            Role::Recipient => (offer, seed),
        };
        cmac(root, [*first, *second].as_flattened())
    }

    fn check(value: &[u8; 16], role: Role) -> [u8; 16] {
        let mut block = [0; 16];
        block[0] = role.byte();
        cmac(value, &block)
    }

    fn link(value: &[u8; 16]) -> [u8; 16] {
        cmac(value, &[3; 16])
    }

    fn stream(value: &[u8; 16], role: Role, number: u32, bytes: &mut [u8]) {
        let cipher = Aes128::new(&cmac(value, &[5; 16]));
        add_stream(&cipher, role, number, bytes);
    }

    fn field(value: &[u8; 16], body: &[u8]) -> [u8; 16] {
        cmac(&cmac(value, &[4; 16]), body)
    }
}

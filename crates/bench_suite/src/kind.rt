ghost use Rattle.std.specs.Prelude.{◌≡◌};
ghost use Rattle.bench_suite.specs.Benches.{bench_functions};
ghost use Rattle.bench_suite.specs.BenchProofs.{bench_lawful};

use super::sums::sum_byte;
use std::array;
use suite::{KindNumbers, Role};
use suite_of::{Kind, SuiteOf};

const NUMBERS: KindNumbers = KindNumbers {
    pid: 0xF0,
    offer_length: 16,
    check_length: 4,
    overhead: 6,
    first_number: 0,
    last_number: 65_535,
};

/// The kind of the bench suite, PID F0, whose steps can be followed by hand. It protects nothing: it is for trials.
#[derive(Clone, Copy)]
pub struct BenchKind;

/// A bench suite: offers of 16 bytes, check values of 4, payloads 6 bytes longer than their data, numbers 0 to 65,535.
pub type Bench = SuiteOf<BenchKind>;

impl Kind for BenchKind {
    ghost functions = { bench_functions };

    ghost lawful = { bench_lawful };

    fn numbers() -> KindNumbers {
        NUMBERS
    }

    fn secret(_root: &[u8; 16], _role: Role, seed: &[u8; 16], offer: &[u8; 16]) -> [u8; 16] {
        array::from_fn(|i| seed[i] ^ offer[i])
    }

    fn check(value: &[u8; 16], role: Role) -> [u8; 16] {
        let mut block = *value;
        block.copy_within(..3, 1);
        block[0] = role.byte();
        block
    }

    fn link(value: &[u8; 16]) -> [u8; 16] {
        value.map(|byte| byte ^ 0x5A)
    }

    fn stream(value: &[u8; 16], _role: Role, _number: u32, bytes: &mut [u8]) {
        for (i, byte) in bytes.iter_mut().enumerate() {
            *byte ^= value[i % 16];
        }
    }

    fn field(_value: &[u8; 16], body: &[u8]) -> [u8; 16] {
        let mut block = [0; 16];
        block[0] = sum_byte(body);
        block
    }
}

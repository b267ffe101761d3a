// Blocks of sixteen bytes: XOR, doubling and padding.
ghost use Rattle.std.specs.Prelude.{◌≡◌, ◌+◌, ◌*◌, ◌/◌, ◌%◌, ◌<◌, length};
ghost use Rattle.cmac.specs.Cmac.{xor_block, shift_left, double, padding};

use std::array;

pub(super) fn xor_block(a: [u8; 16], b: [u8; 16]) -> [u8; 16]
    ensures { result ≡ xor_block a b }
{
    array::from_fn(|i| a[i] ^ b[i])
}

// The byte a after the shift, into which the highest bit of the byte b after it moves.
fn shifted(a: u8, b: u8) -> u8
    ensures { result ≡ a * 2 % 256 + b / 128 }
{
    (a % 128) * 2 + b / 128
}

fn shift_left(s: [u8; 16]) -> [u8; 16]
    ensures { result ≡ shift_left s }
{
    array::from_fn(|i| shifted(s[i], if i < 15 { s[i + 1] } else { 0 }))
}

// What doubling adds where a bit fell out.
const RB: [u8; 16] = [0, 0, 0, 0, 0, 0, 0, 0, 0, 0, 0, 0, 0, 0, 0, 0x87];

pub(super) fn doubled(s: [u8; 16]) -> [u8; 16]
    ensures { result ≡ double s }
{
    let t = shift_left(s);
    if s[0] < 128 { t } else { xor_block(t, RB) }
}

// The bytes, then one bit that is ONE, then zeros.
pub(super) fn pad(m: &[u8]) -> [u8; 16]
    requires { length m.now < 16 }
    ensures { result ≡ padding m.now }
{
    let mut block = [0; 16];
    block[..m.len()].copy_from_slice(m);
    block[m.len()] = 0x80;
    block
}

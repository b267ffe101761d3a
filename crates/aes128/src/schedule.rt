// The key expansion (FIPS 197, section 5.2).
ghost use Rattle.std.specs.Prelude.{◌≡◌};
ghost use Rattle.aes128.specs.Cipher.{sub_word, rot_word, schedule};
ghost use Rattle.aes128.specs.Fours.{key_after, words_of_round_keys};

use super::rounds::{sub_column, words};

// The round constants, each in its word's highest byte.
const RCON: [u32; 10] = [
    0x0100_0000,
    0x0200_0000,
    0x0400_0000,
    0x0800_0000,
    0x1000_0000,
    0x2000_0000,
    0x4000_0000,
    0x8000_0000,
    0x1b00_0000,
    0x3600_0000,
];

// SubWord after RotWord.
fn rotated(w: u32) -> u32
    ensures { result ≡ sub_word (rot_word w) }
{
    let [a, b, c, d] = w.to_be_bytes();
    sub_column([b, c, d, a])
}

// The round key after another one.
fn next_key(key: &[u32; 4], rcon: u32) -> [u32; 4]
    ensures { result ≡ key_after key.now rcon }
{
    let [a, b, c, d] = *key;
    let a = a ^ (rotated(d) ^ rcon);
    let b = b ^ a;
    let c = c ^ b;
    [a, b, c, d ^ c]
}

// The key schedule, each key from the one before it. By index, since no proof knows what is written through an adapter of `iter_mut`.
pub(super) fn expand_key(key: &[u8; 16]) -> [[u32; 4]; 11]
    ensures { words_of_round_keys result ≡ schedule key.now }
{
    let mut keys = [words(key); 11];
    for (i, rcon) in RCON.iter().enumerate() {
        keys[i + 1] = next_key(&keys[i], *rcon);
    }
    keys
}

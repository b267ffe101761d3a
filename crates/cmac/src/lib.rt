// AES-CMAC (RFC 4493).
#![tactic(auto)]

ghost use Rattle.std.specs.Prelude.{◌≡◌, ◌≤◌, length};
ghost use Rattle.aes128.specs.Keys.{words_of};
ghost use Rattle.cmac.specs.Cmac.{subkey1, subkey2, last_block, cmac_with, cmac as mac_of};

mod blocks;

use aes128::Aes128;
use blocks::{doubled, pad, xor_block};

/// Returns the subkeys K1 and K2 of an expanded key, 16 bytes each (RFC 4493, section 2).
pub fn subkeys(cipher: &Aes128) -> ([u8; 16], [u8; 16])
    ensures first { result.0 ≡ subkey1 (words_of cipher.now) }
    ensures second { result.1 ≡ subkey2 (words_of cipher.now) }
{
    let k1 = doubled(cipher.encrypt(&[0; 16]));
    (k1, doubled(k1))
}

// The last block: a whole one XOR K1, a shorter one padded and XOR K2.
fn last_block(cipher: &Aes128, rest: &[u8]) -> [u8; 16]
    requires { length rest.now ≤ 16 }
    ensures { result ≡ last_block (words_of cipher.now) rest.now }
{
    let (k1, k2) = subkeys(cipher);
    match rest.as_array() {
        Some(block) => xor_block(*block, k1),
        None => xor_block(pad(rest), k2),
    }
}

/// Returns the tag of a text of any length, 16 bytes, under an expanded key (RFC 4493, section 2).
pub fn tag(cipher: &Aes128, text: &[u8]) -> [u8; 16]
    ensures { result ≡ cmac_with (words_of cipher.now) text.now }
{
    let mut x = [0; 16];
    let mut rest = text;
    while let Some((block, after)) = rest.split_first_chunk() {
        if after.is_empty() {
            break;
        }
        x = cipher.encrypt(&xor_block(x, *block));
        rest = after;
    }
    cipher.encrypt(&xor_block(last_block(cipher, rest), x))
}

/// Returns the same tag under a key of 16 bytes.
pub fn cmac(key: &[u8; 16], text: &[u8]) -> [u8; 16]
    ensures { result ≡ mac_of key.now text.now }
{
    tag(&Aes128::new(key), text)
}

// AES-128 encryption (FIPS 197). There is no decryption, since no suite needs it.
#![tactic(auto)]

ghost use Rattle.std.specs.Prelude.{◌≡◌};
ghost use Rattle.aes128.specs.Keys.{words_of};
ghost use Rattle.aes128.specs.Cipher.{schedule as schedule_of, cipher_with};

mod rounds;
mod schedule;
mod tables;

use rounds::encrypt_with;
use schedule::expand_key;
pub use tables::sbox;

/// An AES-128 key, expanded once for any number of blocks. It stays in memory until its place is used again.
#[derive(Drop)]
pub struct Aes128 {
    keys: [[u32; 4]; 11],
}

impl Aes128 {
    /// Expands a key of 16 bytes to 11 round keys (FIPS 197, section 5.2).
    pub fn new(key: &[u8; 16]) -> Aes128
        ensures { words_of result ≡ schedule_of key.now }
    {
        Aes128 {
            keys: expand_key(key),
        }
    }

    /// Encrypts a block of 16 bytes, and returns the 16 bytes of its cipher (FIPS 197, section 5.1).
    pub fn encrypt(&self, block: &[u8; 16]) -> [u8; 16]
        ensures { result ≡ cipher_with (words_of self.now) block.now }
    {
        encrypt_with(&self.keys, block)
    }
}

ghost use Rattle.std.specs.Prelude.{◌≡◌};
ghost use Rattle.aes128.specs.Keys.{words_of};
ghost use Rattle.suite.specs.Numbers.{role_byte};
ghost use Rattle.suite_of.specs.Streams.{xor_stream};
ghost use Rattle.keyed_suite.specs.Keyed.{counter_block, keystream_byte};

use aes128::Aes128;
use suite::Role;

// The block whose cipher is the block j of a record's stream. Of j it has the lowest four bytes, more than a record needs.
fn counter(role: Role, number: u32, j: usize) -> [u8; 16]
    ensures { result ≡ counter_block (role_byte role) number j }
{
    let [a, b, c, d] = number.to_be_bytes();
    let [.., e, f, g, h] = j.to_be_bytes();
    [role.byte(), a, b, c, d, 0, 0, 0, 0, 0, 0, 0, e, f, g, h]
}

// XORs the stream of a record into its data, from the block 0 on.
pub(super) fn add_stream(cipher: &Aes128, role: Role, number: u32, bytes: &mut [u8])
    ensures { bytes.new ≡ xor_stream (keystream_byte (words_of cipher.now) (role_byte role) number) 0 bytes.old }
{
    let mut block = [0; 16];
    for (i, byte) in bytes.iter_mut().enumerate() {
        if i % 16 == 0 {
            block = cipher.encrypt(&counter(role, number, i / 16));
        }
        *byte ^= block[i % 16];
    }
}

// The rounds, on words: the four columns of the state, the byte of row 0 highest.
ghost use Rattle.std.specs.Prelude.{◌≡◌, [], ◌∷◌, slice_index};
ghost use Rattle.aes128.specs.Field.{sub_byte};
ghost use Rattle.aes128.specs.Words.{word_bytes, word_of};
ghost use Rattle.aes128.specs.Cipher.{block as block_by, mix_column, sub_bytes, shift_rows, mix_columns, add_round_key, key_words, state_of, cipher_with};
ghost use Rattle.aes128.specs.Fours.{state_of_columns, words_of_round_keys};

use super::tables::{mixed, sbox};

// The four words of sixteen bytes.
pub(super) fn words(block: &[u8; 16]) -> [u32; 4]
    ensures value { result ≡ key_words block.now 0 }
    ensures bytes { state_of result ≡ block_by (λ k. slice_index block.now k) }
{
    [
        u32::from_be_bytes([block[0], block[1], block[2], block[3]]),
        u32::from_be_bytes([block[4], block[5], block[6], block[7]]),
        u32::from_be_bytes([block[8], block[9], block[10], block[11]]),
        u32::from_be_bytes([block[12], block[13], block[14], block[15]]),
    ]
}

// The columns of a state, byte by byte.
fn columns(s: [u32; 4]) -> [[u8; 4]; 4]
    ensures { state_of_columns result ≡ state_of s }
{
    let [a, b, c, d] = s;
    [
        a.to_be_bytes(),
        b.to_be_bytes(),
        c.to_be_bytes(),
        d.to_be_bytes(),
    ]
}

// The sixteen bytes of four words, column after column.
fn state_bytes(s: [u32; 4]) -> [u8; 16]
    ensures { result ≡ state_of s }
{
    let [
        [c00, c01, c02, c03],
        [c10, c11, c12, c13],
        [c20, c21, c22, c23],
        [c30, c31, c32, c33],
    ] = columns(s);
    [
        c00, c01, c02, c03, c10, c11, c12, c13, c20, c21, c22, c23, c30, c31, c32, c33,
    ]
}

// The columns after ShiftRows.
fn shifted(s: [u32; 4]) -> [[u8; 4]; 4]
    ensures { state_of_columns result ≡ shift_rows (state_of s) }
{
    let [
        [c00, c01, c02, c03],
        [c10, c11, c12, c13],
        [c20, c21, c22, c23],
        [c30, c31, c32, c33],
    ] = columns(s);
    [
        [c00, c11, c22, c33],
        [c10, c21, c32, c03],
        [c20, c31, c02, c13],
        [c30, c01, c12, c23],
    ]
}

// SubBytes at a column, for the last round and the key schedule, which mix no columns.
pub(super) fn sub_column(column: [u8; 4]) -> u32
    ensures value { result ≡ word_of (sub_byte (slice_index column 0)) (sub_byte (slice_index column 1)) (sub_byte (slice_index column 2)) (sub_byte (slice_index column 3)) }
    ensures bytes { word_bytes result ≡ sub_byte (slice_index column 0) ∷ sub_byte (slice_index column 1) ∷ sub_byte (slice_index column 2) ∷ sub_byte (slice_index column 3) ∷ [] }
{
    let [a, b, c, d] = column;
    u32::from_be_bytes([sbox(a), sbox(b), sbox(c), sbox(d)])
}

// SubBytes and MixColumns at a column.
fn mixed_column(column: [u8; 4]) -> u32
    ensures { word_bytes result ≡ mix_column (sub_byte (slice_index column 0)) (sub_byte (slice_index column 1)) (sub_byte (slice_index column 2)) (sub_byte (slice_index column 3)) }
{
    let [a, b, c, d] = column;
    mixed::<0>(a) ^ mixed::<1>(b) ^ mixed::<2>(c) ^ mixed::<3>(d)
}

fn add_round_key(key: &[u32; 4], s: [u32; 4]) -> [u32; 4]
    ensures { state_of result ≡ add_round_key key.now 0 (state_of s) }
{
    let [k0, k1, k2, k3] = *key;
    let [a, b, c, d] = s;
    [a ^ k0, b ^ k1, c ^ k2, d ^ k3]
}

// SubBytes at every column.
fn sub_columns(columns: [[u8; 4]; 4]) -> [u32; 4]
    ensures { state_of result ≡ sub_bytes (state_of_columns columns) }
{
    columns.map(sub_column)
}

// SubBytes and MixColumns at every column.
fn mixed_columns(columns: [[u8; 4]; 4]) -> [u32; 4]
    ensures { state_of result ≡ mix_columns (sub_bytes (state_of_columns columns)) }
{
    columns.map(mixed_column)
}

// One block, under an expanded key. Each round begins with its key: where it ends with the next one, the compiler makes vectors of the
// state, which takes a third longer. The keys are taken by index, since the check does not cover a pattern of a borrowed array of arrays.
pub(super) fn encrypt_with(keys: &[[u32; 4]; 11], input: &[u8; 16]) -> [u8; 16]
    ensures { result ≡ cipher_with (words_of_round_keys keys.now) input.now }
{
    let mut s = words(input);
    for key in &keys[..9] {
        s = mixed_columns(shifted(add_round_key(key, s)));
    }
    s = sub_columns(shifted(add_round_key(&keys[9], s)));
    state_bytes(add_round_key(&keys[10], s))
}

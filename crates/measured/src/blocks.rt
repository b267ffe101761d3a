ghost use Rattle.std.specs.Prelude.{◌≡◌};
ghost use Rattle.measured.specs.Repeats.{are_blocks, can_tag, encrypted_block, tagged_text};

use aes128::Aes128;

/// Encrypts a block under a key, then the result, and so on, `times` times, and returns true. Returns false, and changes nothing, if one of
/// the two does not have 16 bytes.
#[unsafe(no_mangle)]
pub extern "C" fn measured_encrypt(key: &[u8], block: &mut [u8], times: u32) -> bool
    ensures answer { result ≡ are_blocks key.now block.old }
    ensures block { block.new ≡ encrypted_block key.now times block.old }
{
    let Some(key) = key.as_array() else {
        return false;
    };
    let Some(first) = block.as_array() else {
        return false;
    };
    let cipher = Aes128::new(key);
    let mut last = *first;
    for _ in 0..times {
        last = cipher.encrypt(&last);
    }
    block.copy_from_slice(&last);
    true
}

/// Writes the tag of a text over its first 16 bytes, then the tag of the result, and so on, `times` times, and returns true. Returns false,
/// and changes nothing, if the key does not have 16 bytes or the text has fewer.
#[unsafe(no_mangle)]
pub extern "C" fn measured_tag(key: &[u8], text: &mut [u8], times: u32) -> bool
    ensures answer { result ≡ can_tag key.now text.old }
    ensures text { text.new ≡ tagged_text key.now times text.old }
{
    let Some(key) = key.as_array() else {
        return false;
    };
    if text.len() < 16 {
        return false;
    }
    let cipher = Aes128::new(key);
    for _ in 0..times {
        let tag = cmac::tag(&cipher, text);
        text[..16].copy_from_slice(&tag);
    }
    true
}

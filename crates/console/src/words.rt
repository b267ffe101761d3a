// Reads the words of a line.
use super::stopped::Unreadable;
use std::alloc::{AllocError, Global};

// The longest buffer that a call may be given.
const MAX_SIZE: u32 = 4096;

pub(super) fn words<'a>(heap: Global, line: &'a str) -> Result<Vec<&'a str>, AllocError> {
    line.split_whitespace().collect(heap)
}

// Any number of bytes in hexadecimal, a dash for none.
pub(super) fn bytes(heap: Global, word: &str) -> Result<Vec<u8>, Unreadable> {
    match word {
        "-" => Ok(Vec::new(heap)),
        _ => Ok(hex_text::decode(heap, word.as_bytes())?),
    }
}

fn array<const N: usize>(heap: Global, word: &str) -> Result<[u8; N], Unreadable> {
    bytes(heap, word)?
        .as_array::<N>()
        .copied()
        .ok_or(Unreadable::ByteCount(N))
}

pub(super) fn byte(heap: Global, word: &str) -> Result<u8, Unreadable> {
    let [byte] = array::<1>(heap, word)?;
    Ok(byte)
}

pub(super) fn root(heap: Global, word: &str) -> Result<[u8; 16], Unreadable> {
    array::<16>(heap, word)
}

fn number(word: &str, most: u32) -> Result<u32, Unreadable> {
    match word.parse::<u32>() {
        Ok(number) if number <= most => Ok(number),
        _ => Err(Unreadable::Number(most)),
    }
}

pub(super) fn count(word: &str) -> Result<u32, Unreadable> {
    number(word, u32::MAX)
}

// The length of a buffer.
pub(super) fn size(word: &str) -> Result<usize, Unreadable> {
    Ok(number(word, MAX_SIZE)? as usize)
}

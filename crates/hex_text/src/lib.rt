// Bytes as hexadecimal text.
#![tactic(auto)]

ghost use Rattle.std.specs.Prelude.{◌≡◌, IfOk, Ok, Some, vec_items, string_bytes};
ghost use Rattle.hex_text.specs.Hex.{digit_value as value_of, is_blank, byte_of_digits as byte_of, digits_of, bytes_of, Decodes};
ghost use Rattle.hex_text.specs.Words.{error_words};
ghost use Rattle.hex_text.specs.declared.HexError.TheVariants.{NoMemory};

use std::alloc::{AllocError, AllocFailed, Global};
use std::error::Error;
use std::fmt;

/// Why a text is not read as bytes.
#[derive(Clone, Copy, Debug, PartialEq, Eq)]
pub enum HexError {
    /// What stands at this place, counted in bytes from 0, is neither a blank nor two digits. It is the first such place.
    NotHex(usize),
    /// There is no memory for the bytes.
    NoMemory,
}

impl fmt::Display for HexError {
    ghost output = { λ error. Some (error_words error) };

    fn fmt<W: fmt::Write>(&self, f: &mut fmt::Formatter<W>) -> fmt::Result {
        match self {
            HexError::NotHex(place) => {
                let column = place.saturating_add(1);
                write!(
                    f,
                    "not hexadecimal: no byte of two digits at column {column}"
                )
            }
            HexError::NoMemory => f.write_str("too long for the memory"),
        }
    }
}

impl Error for HexError {}

impl<T: Drop> From<AllocFailed<T>> for HexError {
    ghost from_gives = { λ x r. r ≡ NoMemory };

    fn from(_refused: AllocFailed<T>) -> Self {
        Self::NoMemory
    }
}

fn is_blank(c: u8) -> bool
    ensures { result ≡ is_blank c }
{
    matches!(c, b' ' | b'\t' | b'\r')
}

// By ranges of bytes, since `char::to_digit` returns a u32 and would need casts on both sides.
fn value(c: u8) -> Option<u8>
    ensures { result ≡ value_of c }
{
    match c {
        b'0'..=b'9' => Some(c - b'0'),
        b'A'..=b'F' => Some(c - b'A' + 10),
        b'a'..=b'f' => Some(c - b'a' + 10),
        _ => None,
    }
}

fn byte(high: u8, low: u8) -> Option<u8>
    ensures { result ≡ byte_of (value_of high) (value_of low) }
{
    Some(value(high)? * 16 + value(low)?)
}

/// Returns the bytes of a text: two hexadecimal digits for each, of either case, with any blanks, tabs and carriage returns between bytes.
/// Errors: `NotHex` with the place of the first thing that is neither, `NoMemory`.
#[tactic(auto, using(crate::proofs::DecodeSteps::skips, crate::proofs::DecodeSteps::takes))]
pub fn decode(heap: Global, text: &[u8]) -> Result<Vec<u8>, HexError>
    ensures { Decodes vec_items text.now result }
{
    let mut bytes = Vec::new(heap);
    let mut rest = text;
    loop {
        let place = text.len() - rest.len();
        rest = match rest {
            [] => return Ok(bytes),
            [c, more @ ..] if is_blank(*c) => more,
            [high, low, more @ ..] => {
                bytes.push(byte(*high, *low).ok_or(HexError::NotHex(place))?)?;
                more
            }
            [_] => return Err(HexError::NotHex(place)),
        };
    }
}

/// Returns the text of bytes: two capital hexadecimal digits for each, with nothing between, which `decode` reads as these bytes. The error
/// is that there is no memory for it.
#[tactic(auto, using(crate::proofs::RoundTrips::written, crate::proofs::RoundTrips::read_back))]
pub fn encode(heap: Global, bytes: &[u8]) -> Result<String, AllocError>
    ensures text { IfOk result (λ t. string_bytes t ≡ digits_of bytes.now) }
    ensures back { IfOk result (λ t. bytes_of (string_bytes t) ≡ Ok bytes.now) }
{
    hex::encode_upper(heap, bytes)
}

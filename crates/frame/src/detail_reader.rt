ghost use Rattle.std.specs.Prelude.{◌≡◌, ◌==◌, position, ℕ, List, length, take, drop};
ghost use Rattle.frame.specs.Frames.{parts_of, contents_of, wire_bytes, error};
ghost use Rattle.frame.specs.Details.{part_before_zero, detail as detail_of, EndsAtZero};

use super::types::{Body, Message};

/// The detail of an ERROR (clause 11.5): the part of its payload before the first 00.
#[derive(Clone, Copy, Debug, PartialEq, Eq)]
pub struct Detail<'a> {
    /// The place in the frame of its first byte, from 0: always 1, right after SEP.
    pub place: usize,
    /// The part itself, borrowed from the frame; empty where there is none.
    pub bytes: &'a [u8],
}

fn first_zero(payload: &[u8]) -> Option<usize>
    ensures { result ≡ position (λ b. b == 0) payload.now }
{
    payload.iter().position(|b| *b == 0)
}

// Returns the bytes before the first zero, and no bytes where there is no zero.
#[tactic(auto, using(crate::proofs::Zeros::before_zero_found))]
fn before_zero(payload: &[u8]) -> &[u8]
    ensures { result.now ≡ part_before_zero payload.now }
{
    match first_zero(payload) {
        Some(end) => &payload[..end],
        None => &[],
    }
}

fn detail_bytes<'a>(body: &Body<'a>) -> &'a [u8]
    ensures { result.now ≡ detail_of (contents_of body.now) }
{
    match body {
        Body::Error(payload) => before_zero(payload),
        _ => &[],
    }
}

impl<'a> Message<'a> {
    /// Returns the detail of an ERROR. It is empty where the payload has no 00, and for any other message.
    pub fn detail(&self) -> Detail<'a>
        ensures place { result.place ≡ 1 }
        ensures bytes { result.bytes.now ≡ detail_of (contents_of self.now.body) }
        ensures part { result.bytes.now ≡ take (length result.bytes.now) (drop result.place (wire_bytes (parts_of self.now))) }
        ensures ends { (p : List ℕ) → contents_of self.now.body ≡ error p → EndsAtZero p result.bytes.now }
    {
        Detail {
            place: 1,
            bytes: detail_bytes(&self.body),
        }
    }
}

// Reads the words of a line.
ghost use Rattle.std.specs.Prelude.{◌≡◌, ◌↔◌, ◌∷◌, [], map, IsTrue, IsOk, IfOk, min};
ghost use Rattle.std.specs.Char.{to_ascii_lowercase};
ghost use Rattle.std.specs.Str.Parse.{IsNumeral, digits_value};
ghost use Rattle.service_sheet.specs.Letters.{service_letters, end_letter};

use super::stopped::Unreadable;
use frame::Service;
use service_sheet::End;
use std::alloc::{AllocError, Global};

pub(super) fn split<'a>(heap: Global, line: &'a str) -> Result<Vec<&'a str>, AllocError> {
    line.split_whitespace().collect(heap)
}

// Whether a word is one decimal digit or more, and nothing else.
fn is_numeral(word: &str) -> bool
    ensures { IsTrue result ↔ IsNumeral 10 word.now }
{
    !word.is_empty() && word.bytes().all(|byte| byte.is_ascii_digit())
}

// A count, or the room: a number of any length. In place of one that is too great for its type stands the greatest of the type.
pub(super) fn count(word: &str) -> Result<usize, Unreadable>
    ensures readable { IsOk result ↔ IsNumeral 10 word.now }
    ensures value { IfOk result (λ n. n ≡ min (digits_value 10 word.now) usize.MAX) }
{
    if !is_numeral(word) {
        return Err(Unreadable::Number);
    }
    Ok(word.parse().unwrap_or(usize::MAX))
}

// The same for a session number.
pub(super) fn number(word: &str) -> Result<u32, Unreadable>
    ensures readable { IsOk result ↔ IsNumeral 10 word.now }
    ensures value { IfOk result (λ n. n ≡ min (digits_value 10 word.now) u32.MAX) }
{
    Ok(u32::try_from(count(word)?).unwrap_or(u32::MAX))
}

// A service has the letters that a sheet has for it, in lower case.
pub(super) fn service(word: &str) -> Result<Service, Unreadable>
    ensures { (service : Service) →
        ((result ≡ Ok service) ↔ (word.now ≡ map to_ascii_lowercase (service_letters service))) }
{
    match word {
        "sse" => Ok(Service::Sse),
        "sch" => Ok(Service::Sch),
        _ => Err(Unreadable::Service),
    }
}

// An end has the letter of the sheet.
pub(super) fn end(word: &str) -> Result<End, Unreadable>
    ensures { (end : End) → ((result ≡ Ok end) ↔ (word.now ≡ end_letter end ∷ [])) }
{
    match word {
        "T" => Ok(End::Terminated),
        "E" => Ok(End::Error),
        "R" => Ok(End::Released),
        _ => Err(Unreadable::End),
    }
}

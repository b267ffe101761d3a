ghost use Rattle.std.specs.Prelude.{◌≡◌, Some};
ghost use Rattle.service_sheet.specs.Numbers.{refusal_number};
ghost use Rattle.service_sheet.specs.Words.{refusal_words};

use std::error::Error;
use std::fmt;

/// Why a sheet is refused. Nothing is written then.
#[derive(Clone, Copy, Debug, PartialEq, Eq)]
pub enum Refusal {
    /// 15: there are more than 200 session records.
    TooManyRecords = 15,
    /// 16: a session number is above 999,999, or a count above 49,999.
    NumberTooGreat = 16,
    /// 17: the buffer has fewer than 29 bytes for each line, that of the totals included.
    SmallBuffer = 17,
}

impl Refusal {
    /// Its number, 15 to 17. A method, since `u8::from` would not say which number it is.
    pub fn number(self) -> u8
        ensures { result ≡ refusal_number self }
    {
        self as u8
    }
}

impl fmt::Display for Refusal {
    ghost output = { λ refusal. Some (refusal_words refusal) };

    fn fmt<W: fmt::Write>(&self, f: &mut fmt::Formatter<W>) -> fmt::Result {
        f.write_str(match self {
            Refusal::TooManyRecords => "a sheet has at most 200 session records",
            Refusal::NumberTooGreat => "a session number is above 999,999, or a count above 49,999",
            Refusal::SmallBuffer => "the buffer has fewer than 29 bytes for each line of the sheet",
        })
    }
}

impl Error for Refusal {}

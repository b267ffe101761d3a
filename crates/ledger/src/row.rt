ghost use Rattle.std.specs.Prelude.{◌≡◌, Some};
ghost use Rattle.ledger.specs.Rows.{mark_number, unused_row};
ghost use Rattle.ledger.specs.Words.{mark_words};

use std::fmt;
use suite::KeyKind;

/// What became of a key that was made through a ledger.
#[derive(Clone, Copy, Debug, PartialEq, Eq)]
pub enum RowMark {
    /// 1: the key is live in the suite.
    Live = 1,
    /// 2: the key is no longer live.
    Destroyed = 2,
}

impl RowMark {
    /// Its number, 1 or 2. A method, since `u8::from` would not say which number it is.
    pub fn number(self) -> u8
        ensures { result ≡ mark_number self }
    {
        self as u8
    }
}

impl fmt::Display for RowMark {
    ghost output = { λ mark. Some (mark_words mark) };

    fn fmt<W: fmt::Write>(&self, f: &mut fmt::Formatter<W>) -> fmt::Result {
        f.write_str(match self {
            RowMark::Live => "live",
            RowMark::Destroyed => "destroyed",
        })
    }
}

/// One key that was made through a ledger.
#[derive(Clone, Copy, Debug, PartialEq, Eq)]
pub struct Row {
    /// The serial that the suite gave the key, from 1 on.
    pub serial: u32,
    /// Whether it is a shared secret or a link key.
    pub kind: KeyKind,
    /// Whether it is still live.
    pub mark: RowMark,
}

// What lies at an unused place of a table, since `ArrayVec` asks for a default. No key has serial 0.
impl Default for Row {
    ghost is_default = { λ row. row ≡ unused_row };

    fn default() -> Row {
        Row {
            serial: 0,
            kind: KeyKind::SharedSecret,
            mark: RowMark::Destroyed,
        }
    }
}

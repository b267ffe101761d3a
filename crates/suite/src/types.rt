ghost use Rattle.std.specs.Prelude.{◌≡◌, Some};
ghost use Rattle.suite.specs.Numbers.{role_byte, role_of, kind_number, denial_number};
ghost use Rattle.suite.specs.Words.{role_words, kind_words, denial_words};

use std::error::Error;
use std::fmt;

/// What a peer is in a session, whoever sends records later.
#[derive(Clone, Copy, Debug, PartialEq, Eq)]
pub enum Role {
    /// 01: it sent ACT_REQ.
    Sender = 1,
    /// 02: it received ACT_REQ.
    Recipient = 2,
}

impl Role {
    /// Its byte in check values and payloads, 01 or 02. A method, since `u8::from` would not say which number it is.
    pub fn byte(self) -> u8
        ensures { result ≡ role_byte self }
    {
        self as u8
    }
}

// Any byte other than 01 and 02 is unfit.
impl TryFrom<u8> for Role {
    type Error = Denial;

    ghost try_from_gives = { λ byte r. r ≡ role_of byte };

    fn try_from(byte: u8) -> Result<Role, Denial> {
        match byte {
            1 => Ok(Role::Sender),
            2 => Ok(Role::Recipient),
            _ => Err(Denial::Unfit),
        }
    }
}

// `Display` by hand, here and below: no derive writes it with a contract.
impl fmt::Display for Role {
    ghost output = { λ role. Some (role_words role) };

    fn fmt<W: fmt::Write>(&self, f: &mut fmt::Formatter<W>) -> fmt::Result {
        f.write_str(match self {
            Role::Sender => "Sender",
            Role::Recipient => "Recipient",
        })
    }
}

/// What a key is for.
#[derive(Clone, Copy, Debug, PartialEq, Eq)]
pub enum KeyKind {
    /// 1: what two peers agree on (clause 9.1). Check values and the link key are computed from it.
    SharedSecret = 1,
    /// 2: what protects the records of a secure channel (clause 9.3).
    LinkKey = 2,
}

impl KeyKind {
    /// Its number, 1 or 2. A method, since `u8::from` would not say which number it is.
    pub fn number(self) -> u8
        ensures { result ≡ kind_number self }
    {
        self as u8
    }
}

impl fmt::Display for KeyKind {
    ghost output = { λ kind. Some (kind_words kind) };

    fn fmt<W: fmt::Write>(&self, f: &mut fmt::Formatter<W>) -> fmt::Result {
        f.write_str(match self {
            KeyKind::SharedSecret => "shared secret",
            KeyKind::LinkKey => "link key",
        })
    }
}

/// Why a suite denies a call. A denied call writes nothing and changes nothing. Tried in the order unfit, unknown, S2, S3.
#[derive(Clone, Copy, Debug, PartialEq, Eq)]
pub enum Denial {
    /// 2, fault S2: the peer's offer is not fit.
    BadOffer = 2,
    /// 3, fault S3: two keys are live, or the newest serial is the last.
    Spent = 3,
    /// 8, unfit: an argument or a buffer is outside the limits that the call states.
    Unfit = 8,
    /// 9, unknown: no live key of the kind that the call needs has that serial.
    Unknown = 9,
}

impl Denial {
    /// Its number: 2, 3, 8 or 9. A method, since `u8::from` would not say which number it is.
    pub fn number(self) -> u8
        ensures { result ≡ denial_number self }
    {
        self as u8
    }
}

impl fmt::Display for Denial {
    ghost output = { λ denial. Some (denial_words denial) };

    fn fmt<W: fmt::Write>(&self, f: &mut fmt::Formatter<W>) -> fmt::Result {
        f.write_str(match self {
            Denial::BadOffer => "S2, the offer is not fit",
            Denial::Spent => "S3, no further key",
            Denial::Unfit => "unfit",
            Denial::Unknown => "unknown key",
        })
    }
}

impl Error for Denial {}

/// The six numbers that every suite of one kind has in common. Lengths are in bytes.
#[derive(Clone, Copy, Debug, PartialEq, Eq)]
pub struct KindNumbers {
    /// The PID: the byte that names the kind in ACT_REQ (clause 11.2).
    pub pid: u8,
    /// The length of an offer, at most 64.
    pub offer_length: usize,
    /// The length of a check value, at most 32.
    pub check_length: usize,
    /// How much longer a payload is than its data, at most 32.
    pub overhead: usize,
    /// The number before the first record of a session; no record that an entity sends has it. It is below the last.
    pub first_number: u32,
    /// The highest number of a record, at most 16,777,215.
    pub last_number: u32,
}

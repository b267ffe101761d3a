ghost use Rattle.std.specs.Prelude.{◌≡◌, Some};
ghost use Rattle.protocol.specs.Numbers.{confirmation_number};
ghost use Rattle.protocol.specs.Outcomes.{no_keys, ongoing_outcome};
ghost use Rattle.protocol.specs.Words.{confirmation_words, destroyed_words};

use super::faults::Fault;
use std::fmt;

/// What a call reports to the user, after ISO/IEC 13157-1, annex A.3.
#[derive(Clone, Copy, Debug, PartialEq, Eq)]
pub enum Confirmation {
    /// 0: nothing to report.
    Nothing = 0,
    /// 1: both peers are verified, and the service is in effect.
    Established = 1,
    /// 2: a record is sealed and is to be sent.
    DataSent = 2,
    /// 3: a record was received; its data can be retrieved.
    DataAvailable = 3,
    /// 4: the session ended by either user, or by the release of the link below.
    Terminated = 4,
    /// 5: the session ended by a fault, or by an ERROR from the peer.
    Error = 5,
    /// 6: a record came that has the number of the newest one. It is not shown to the user, and alters nothing (clause 12.3).
    Dropped = 6,
}

impl Confirmation {
    /// Its number, 0 to 6. A method, since `u8::from` would not say which number it is.
    pub fn number(self) -> u8
        ensures { result ≡ confirmation_number self }
    {
        self as u8
    }
}

impl fmt::Display for Confirmation {
    ghost output = { λ confirmation. Some (confirmation_words confirmation) };

    fn fmt<W: fmt::Write>(&self, f: &mut fmt::Formatter<W>) -> fmt::Result {
        f.write_str(match self {
            Confirmation::Nothing => "none",
            Confirmation::Established => "Established",
            Confirmation::DataSent => "Data Sent",
            Confirmation::DataAvailable => "Data Available",
            Confirmation::Terminated => "Terminated",
            Confirmation::Error => "Error",
            Confirmation::Dropped => "dropped",
        })
    }
}

/// The serials of the keys that a call destroyed, each 0 for none.
#[derive(Clone, Copy, Debug, PartialEq, Eq)]
pub struct Destroyed {
    /// Of the link key.
    pub link: u32,
    /// Of the shared secret.
    pub secret: u32,
}

impl Destroyed {
    /// No key destroyed: both serials are 0.
    pub fn nothing() -> Destroyed
        ensures { result ≡ no_keys }
    {
        Destroyed { link: 0, secret: 0 }
    }
}

impl fmt::Display for Destroyed {
    ghost output = { λ destroyed. Some (destroyed_words destroyed) };

    fn fmt<W: fmt::Write>(&self, f: &mut fmt::Formatter<W>) -> fmt::Result {
        let Destroyed { link, secret } = self;
        write!(f, "destroyed {link} {secret}")
    }
}

/// What a call returns that is not refused.
#[derive(Clone, Copy, Debug, PartialEq, Eq)]
pub struct Outcome {
    /// What happened, for the user.
    pub confirmation: Confirmation,
    /// How many bytes were written to the front of the buffer, at most 255; 0 for none.
    pub length: usize,
    /// The serial of the key that the call made, or 0.
    pub made: u32,
    /// The keys that the call destroyed.
    pub destroyed: Destroyed,
    /// What was wrong with the peer's frame, or `None`. With a fault the confirmation is 5.
    pub fault: Option<Fault>,
}

impl Outcome {
    /// The outcome of a call that meets no fault and destroys no key.
    pub fn ongoing(confirmation: Confirmation, length: usize, made: u32) -> Outcome
        ensures { result ≡ ongoing_outcome confirmation length made }
    {
        Outcome {
            confirmation,
            length,
            made,
            destroyed: Destroyed::nothing(),
            fault: None,
        }
    }
}

ghost use Rattle.std.specs.Prelude.{◌≡◌, Some};
ghost use Rattle.activation.specs.Activation.{answer_of, exchange_answer, refusal_number, sec_bit};
ghost use Rattle.activation.specs.Words.{refusal_words};

use std::error::Error;
use std::fmt;

// SECi in PPi, SECt in PPt: bit 7, counted from 0.
const SEC: u8 = 0x80;

/// An activation that one peer has offered with its own byte: PPi of the Initiator, PPt of the Target (ISO/IEC 13157-1, annex B.4).
/// It cannot be copied.
#[derive(Drop)]
pub struct Offered {
    own: u8,
}

/// An activation in which both peers support NFC-SEC. Only `Offered::agree` makes one. It cannot be copied, and an entity that is made
/// from it uses it up: one exchange of bytes makes at most one entity.
#[derive(Drop)]
pub struct Agreed {
    offer: Offered,
    peer: u8,
}

/// Why an activation is refused.
#[derive(Clone, Copy, Debug, PartialEq, Eq)]
pub enum Refusal {
    /// 11: bit 7 of one of the two bytes is ZERO, so that peer does not support NFC-SEC.
    NotSupported = 11,
}

/// A refused activation.
#[derive(Drop)]
pub struct Refused {
    /// Why it is refused, number 11.
    pub refusal: Refusal,
    /// The offer as it was, for another exchange.
    pub offer: Offered,
}

fn supports(pp: u8) -> bool
    ensures { result ≡ sec_bit pp }
{
    pp & SEC != 0
}

impl Refusal {
    /// Its number, 11. A method, since `u8::from` would not say which number it is.
    pub fn number(self) -> u8
        ensures { result ≡ refusal_number self }
    {
        self as u8
    }
}

impl fmt::Display for Refusal {
    ghost output = { λ refusal. Some (refusal_words refusal) };

    fn fmt<W: fmt::Write>(&self, f: &mut fmt::Formatter<W>) -> fmt::Result {
        f.write_str(match self {
            Refusal::NotSupported => "one of the peers does not support NFC-SEC",
        })
    }
}

impl Error for Refusal {}

impl Offered {
    /// An activation offered with this peer's own byte, PPi or PPt. Any byte can be offered.
    pub fn new(own: u8) -> Offered
        ensures { result.own ≡ own }
    {
        Self { own }
    }

    /// Takes the peer's byte and returns the agreed activation if bit 7 is ONE in both bytes. Otherwise it returns refusal 11 with the
    /// offer inside. The other bits have no effect.
    pub fn agree(self, peer: u8) -> Result<Agreed, Refused>
        ensures { answer_of result ≡ exchange_answer self.own peer }
    {
        if supports(self.own) && supports(peer) {
            Ok(Agreed { offer: self, peer })
        } else {
            Err(Refused {
                refusal: Refusal::NotSupported,
                offer: self,
            })
        }
    }
}

impl Agreed {
    /// This peer's own byte, PPi or PPt.
    pub fn own(&self) -> u8
        ensures { result ≡ self.now.offer.own }
    {
        self.offer.own
    }

    /// The other peer's byte, PPt or PPi.
    pub fn peer(&self) -> u8
        ensures { result ≡ self.now.peer }
    {
        self.peer
    }
}

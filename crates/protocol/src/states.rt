ghost use Rattle.std.specs.Prelude.{◌≡◌, Some};
ghost use Rattle.protocol.specs.Numbers.{state_mark};
ghost use Rattle.protocol.specs.Words.{state_words};

use std::fmt;

/// The state of an entity, by the states and substates of ISO/IEC 13157-1 (clause 10, table 1).
#[derive(Clone, Copy, Debug, PartialEq, Eq)]
pub enum State {
    /// 0: no session runs; it waits for a request or the peer's ACT_REQ.
    Idle = 0,
    /// 1: the entity is the Sender, and waits for ACT_RES.
    Select = 1,
    /// 2: the Sender waits for VFY_RES.
    EstablishedSender = 2,
    /// 3: the entity is the Recipient, and waits for VFY_REQ.
    EstablishedRecipient = 3,
    /// 4: the shared secret can be retrieved.
    ConfirmedSse = 4,
    /// 5: records can be sent and received: a link session runs.
    ConfirmedSch = 5,
}

impl State {
    /// Its number, 0 to 5. A method, since `u8::from` would not say which number it is.
    pub fn mark(self) -> u8
        ensures { result ≡ state_mark self }
    {
        self as u8
    }
}

// By the standard's name.
impl fmt::Display for State {
    ghost output = { λ state. Some (state_words state) };

    fn fmt<W: fmt::Write>(&self, f: &mut fmt::Formatter<W>) -> fmt::Result {
        f.write_str(match self {
            State::Idle => "Idle",
            State::Select => "Select",
            State::EstablishedSender => "Established_Sender",
            State::EstablishedRecipient => "Established_Recipient",
            State::ConfirmedSse => "Confirmed_SSE",
            State::ConfirmedSch => "Confirmed_SCH",
        })
    }
}

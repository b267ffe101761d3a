ghost use Rattle.std.specs.Prelude.{◌≡◌, ◌≤◌, [], length};
ghost use Rattle.buffers.specs.declared.limits.TheConstants.{MAX_FRAME};

use buffers::{MAX_FRAME, write_front};
use protocol::{Outcome, Refusal};

/// The bytes that a call wrote to the front of its buffer, or the data of a record: at most 255.
#[derive(Clone, Copy)]
pub struct WrittenBytes {
    bytes: [u8; MAX_FRAME],
    length: usize,
    ghost fits: { length ≤ MAX_FRAME },
}

impl WrittenBytes {
    ghost use Rattle.replay.specs.Entries.{written_bytes};

    pub(crate) fn nothing() -> WrittenBytes
        ensures { written_bytes result ≡ [] }
    {
        WrittenBytes {
            bytes: [0; MAX_FRAME],
            length: 0,
        }
    }

    pub(crate) fn new(written: &[u8]) -> WrittenBytes
        requires { length written.now ≤ MAX_FRAME }
        ensures { written_bytes result ≡ written.now }
    {
        let mut bytes = [0; MAX_FRAME];
        let length = write_front(written, &mut bytes).unwrap();
        WrittenBytes { bytes, length }
    }

    /// The bytes that were written, and no others.
    pub fn bytes(&self) -> &[u8]
        ensures { result.now ≡ written_bytes self.now }
    {
        &self.bytes[..self.length]
    }
}

/// Which way the data of a record went.
#[derive(Clone, Copy, Debug, PartialEq, Eq)]
pub enum Direction {
    /// The user of this peer sent it.
    Sent,
    /// The user of this peer was handed it.
    Handed,
}

/// A record that the user of a peer sent, or was handed, in one of its link sessions.
#[derive(Clone, Copy)]
pub struct SessionRecord {
    /// The serial of the session's link key at this peer; 0 where the log begins in mid-session.
    pub session: u32,
    /// Whether it was sent or handed over.
    pub direction: Direction,
    /// The record's data, 1 to 200 bytes.
    pub plain: WrittenBytes,
}

/// What one call of a log returned and wrote, and the record that it sent or handed over.
#[derive(Clone, Copy)]
pub struct Entry {
    /// The outcome, or the refusal with its number, 1 to 10.
    pub answer: Result<Outcome, Refusal>,
    /// A frame to the peer, or what was retrieved; no byte if the call was refused.
    pub written: WrittenBytes,
    /// The record sent or handed over by this call, if there is one. Records are counted by this alone: the data that is handed over
    /// stands in `written` too.
    pub record: Option<SessionRecord>,
}

ghost use Rattle.suite.specs.Meanings.{IsBytes};
ghost use Rattle.protocol.specs.Calls.{IsGivenBytes};
ghost use Rattle.replay.specs.LogViews.{logged_call};

use entity::Call;

/// A call as a log has it.
#[derive(Clone, Copy)]
pub struct LoggedCall<'a> {
    /// The call, with what it was given.
    pub call: Call<'a>,
    /// How many bytes the buffer had that was passed with it. It may be any number.
    pub room: usize,
}

impl LoggedCall<'_> {
    // Does nothing: its contract tells a proof that each number that a call was given is a byte.
    pub(crate) fn given(&self)
        ensures { IsGivenBytes (logged_call self.now) }
    {
        match self.call {
            Call::Invoke { seed, .. } => are_bytes(seed),
            Call::Send { plain } => are_bytes(plain),
            Call::Frame { bytes, beside } => {
                are_bytes(bytes);
                are_bytes(beside.seed);
            }
            _ => {}
        }
    }
}

// Does nothing either: each element of a slice of bytes is a byte.
fn are_bytes(slice: &[u8])
    ensures { IsBytes slice.now }
{}

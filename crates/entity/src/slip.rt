ghost use Rattle.std.specs.Prelude.{◌≡◌, length, replicate};

/// What a retrieval of the shared secret requires. It can be neither copied nor dropped, so whoever takes one out has to hand it in with a
/// buffer, which is then all zeros. It does not know into which buffer the secret went, and touches neither entity nor suite.
pub struct Slip {
    owed: (),
}

impl Slip {
    /// Takes a slip out, at any time.
    pub fn take_out() -> Slip {
        Slip { owed: () }
    }

    /// Hands the slip in, with the buffer into which the secret was written: each byte of it becomes zero.
    pub fn hand_in(self, buffer: &mut [u8])
        ensures { buffer.new ≡ replicate (length buffer.old) 0 }
    {
        let Slip { owed: () } = self;
        buffer.fill(0);
    }
}

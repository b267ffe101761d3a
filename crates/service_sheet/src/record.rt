ghost use Rattle.std.specs.Prelude.{◌≡◌};
ghost use Rattle.service_sheet.specs.Letters.{end_letter};

use frame::Service;

/// How a session ended.
#[derive(Clone, Copy, Debug, PartialEq, Eq)]
pub enum End {
    /// By the user's terminate, or a TMN from the peer: `T`.
    Terminated,
    /// A fault, or an ERROR frame: `E`.
    Error,
    /// The radio link was released: `R`.
    Released,
}

impl End {
    /// The letter that stands for it on a sheet: `T`, `E` or `R`.
    pub fn letter(self) -> u8
        ensures { result ≡ end_letter self }
    {
        match self {
            End::Terminated => b'T',
            End::Error => b'E',
            End::Released => b'R',
        }
    }
}

/// A session record: what a sheet says of one session.
#[derive(Clone, Copy, Debug, PartialEq, Eq)]
pub struct SheetRecord {
    /// The session's number: the serial of its link key, or of its shared secret if it was of SSE.
    pub number: u32,
    /// The service.
    pub service: Service,
    /// How many records were sent in it.
    pub sent: usize,
    /// How many records were taken in.
    pub taken: usize,
    /// How it ended.
    pub end: End,
}

use super::ancillary::Ancillary;
use frame::Service;

/// A call with what it is given, as a log has it. The buffer that it may write is passed to `Entity::call` beside it. Each is described at
/// the method of its name.
#[derive(Clone, Copy)]
pub enum Call<'a> {
    /// The user asks for a service, by the PID of the suite and a new random seed of 16 bytes.
    Invoke {
        service: Service,
        pid: u8,
        seed: &'a [u8],
    },
    /// The user sends the data of a record, 1 to 200 bytes.
    Send {
        plain: &'a [u8],
    },
    /// The user retrieves the data of the record that was received last.
    RetrieveData,
    /// The user retrieves the 16 bytes of the shared secret.
    RetrieveSecret,
    /// The user ends the session.
    Terminate,
    /// A frame came from the peer, 1 to 255 bytes; a seed is brought beside it.
    Frame {
        bytes: &'a [u8],
        beside: Ancillary<'a>,
    },
    /// The link below is gone.
    Release,
}

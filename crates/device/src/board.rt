// What a board brings: the radio, random seeds, and the application.
ghost use Rattle.std.specs.Prelude.{◌≡◌, OnErr};

use super::advice::Advice;
use nfc_sec::{ActivationRefusal, MAX_FRAME, Outcome, Refusal, Service};

/// A link of two devices: the bytes PPi and PPt that they exchanged, the device's own and the peer's.
#[derive(Clone, Copy)]
pub(super) struct Link {
    pub(super) own: u8,
    pub(super) peer: u8,
}

/// What happens on a link. The bytes lie in the buffer that was lent.
#[derive(Clone, Copy)]
pub(super) enum Event<'a> {
    /// The application asks for a service.
    Wanted(Service),
    /// A frame came from the peer, whole: 1 to 255 bytes.
    Frame(&'a [u8]),
    /// The application has a record to send, of 1 to 200 bytes.
    Record(&'a [u8]),
    /// The application is done with the service.
    Done,
}

/// What the main loop asks of a board. An error ends the loop, and the entity is put away.
pub(super) trait Board {
    type Error: Drop;

    /// Waits for the next link, and for the exchange of PPi and PPt; none when the device is switched off.
    fn next_link(&mut self) -> Result<Option<Link>, Self::Error>;

    /// Waits for what happens next on the link; none once it is released, by either device or because nothing came in time.
    fn next_event<'a>(
        &mut self,
        buffer: &'a mut [u8; MAX_FRAME],
    ) -> Result<Option<Event<'a>>, Self::Error>;

    /// Transmits a frame of 1 to 255 bytes. Returns whether the peer's radio acknowledged it.
    fn transmit(&mut self, frame: &[u8]) -> Result<bool, Self::Error>;

    /// Draws a seed: 16 random bytes, new each time, which nobody can foresee. Where the source fails, the seed is left as it was.
    fn draw_seed(&mut self, seed: &mut [u8; 16]) -> Result<(), Self::Error>
        ensures { OnErr result (seed.new ≡ seed.old) };

    /// A record came from the peer, 1 to 200 bytes. The loop clears them after this call, so what is needed has to be copied.
    fn take_record(&mut self, record: &[u8]) -> Result<(), Self::Error>;

    /// The secret that both devices share now. The loop clears it after this call, so what is needed has to be copied.
    fn take_secret(&mut self, secret: &[u8; 16]) -> Result<(), Self::Error>;

    /// What a call confirmed (0 to 6), and whether its frame was delivered; true also where it wrote none.
    fn confirmed(&mut self, outcome: &Outcome, delivered: bool) -> Result<(), Self::Error>;

    /// Why a call was refused (1 to 10), and what to do about it.
    fn refused(&mut self, refusal: Refusal, advice: Advice) -> Result<(), Self::Error>;

    /// Refusal 11: the link is one without NFC-SEC.
    fn unsupported(&mut self, refusal: ActivationRefusal) -> Result<(), Self::Error>;
}

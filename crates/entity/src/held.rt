ghost use Rattle.std.specs.Prelude.{◌≡◌, ℕ, ◌-◌, ◌≤◌, ◌==◌, List, [], length, take, drop, replicate};
ghost use Rattle.suite.specs.declared.limits.TheConstants.{MAX_DATA};

use buffers::write_front;
use std::marker::Model;
use suite::MAX_DATA;

/// The data of a received record until it is retrieved, at most 200 bytes. Past the data the place has zeros, so a place without data is
/// all zeros.
#[derive(Drop)]
pub struct Held {
    place: [u8; MAX_DATA],
    filled: usize,
}

impl Model for Held {
    ghost Value = { List ℕ };

    ghost view = { λ h. take h.filled h.place };

    ghost invariant = { λ h. (length h.place ≡ MAX_DATA) × (h.filled ≤ MAX_DATA) × (drop h.filled h.place ≡ replicate (MAX_DATA - h.filled) 0) };
}

impl Held {
    pub(crate) fn nothing() -> Held
        ensures { result ≡ [] }
    {
        Held {
            place: [0; MAX_DATA],
            filled: 0,
        }
    }

    #[tactic(auto, using(crate::proofs::Padding::padded))]
    pub(crate) fn new(plain: &[u8]) -> Held
        requires { length plain.now ≤ MAX_DATA }
        ensures { result ≡ plain.now }
    {
        let mut place = [0; MAX_DATA];
        let filled = write_front(plain, &mut place).unwrap();
        Held { place, filled }
    }

    pub(crate) fn is_empty(&self) -> bool
        ensures { result ≡ (length self.now == 0) }
    {
        self.filled == 0
    }

    pub(crate) fn bytes(&self) -> &[u8]
        ensures bytes { result.now ≡ self.now }
        ensures short { length result.now ≤ MAX_DATA }
    {
        &self.place[..self.filled]
    }
}

ghost use Rattle.std.specs.Prelude.{◌≡◌, ℕ, List, Result};
ghost use Rattle.suite.specs.declared.types.Denial.{Denial};
ghost use Rattle.suite.specs.declared.types.KeyKind.{KeyKind};
ghost use Rattle.suite.specs.declared.types.KeyKind.TheVariants.{SharedSecret, LinkKey};
ghost use Rattle.suite.specs.Meanings.{IsWellFormed, with_last};
ghost use Rattle.suite.specs.Calls.{agree_result, derive_result, serial_result, after_making, destroy_result, after_destroy};

use super::suite_trait::{HasMeaning, Suite};
use super::types::{Denial, KindNumbers};

/// A suite over another. Calls that make or destroy a key go through it; all others are passed to the suite below, by the impl of `Suite`
/// for every layer. It means what the suite below means, except for the last serial.
pub trait Layer: HasMeaning {
    /// The suite below.
    type Below: Suite;

    // What else this layer promises of a call that makes a key, by the key's value and what the call returned.
    ghost made: { Self → KeyKind → Result (List ℕ) Denial → Result ℕ Denial → Self → Type 0 };

    // The same of a call that destroys one.
    ghost destroyed: { Self → ℕ → Result (Unit {0}) Denial → Self → Type 0 };

    /// Returns the suite below.
    fn below(&self) -> &Self::Below
        ensures { Self.meaning self.now ≡ with_last (Self.Below.meaning result.now) (Self.meaning self.now).last };

    /// Returns the last serial through this layer, as `Suite::last_serial`.
    fn last_through(&self) -> u32
        ensures { result ≡ (Self.meaning self.now).last };

    /// Makes a shared secret through this layer, as `Suite::agree`: returns its serial. Denied: unfit, S2, S3.
    fn agree_through(&mut self, seed: &[u8], offer: &[u8], role: u8) -> Result<u32, Denial>
        ensures answer { result ≡ serial_result (Self.meaning self.old) (agree_result Self.Below.scheme (Self.meaning self.old) seed.now offer.now role) }
        ensures after { Self.meaning self.new ≡ after_making (Self.meaning self.old) SharedSecret (agree_result Self.Below.scheme (Self.meaning self.old) seed.now offer.now role) }
        ensures made { made self.old SharedSecret (agree_result Self.Below.scheme (Self.meaning self.old) seed.now offer.now role) result self.new };

    /// Makes a link key through this layer, as `Suite::derive`: returns its serial. Denied: unknown, S3.
    fn derive_through(&mut self, key: u32) -> Result<u32, Denial>
        ensures answer { result ≡ serial_result (Self.meaning self.old) (derive_result Self.Below.scheme (Self.meaning self.old) key) }
        ensures after { Self.meaning self.new ≡ after_making (Self.meaning self.old) LinkKey (derive_result Self.Below.scheme (Self.meaning self.old) key) }
        ensures made { made self.old LinkKey (derive_result Self.Below.scheme (Self.meaning self.old) key) result self.new };

    /// Destroys a key through this layer, as `Suite::destroy`. Denied: unknown.
    fn destroy_through(&mut self, key: u32) -> Result<(), Denial>
        ensures answer { result ≡ destroy_result (Self.meaning self.old) key }
        ensures after { Self.meaning self.new ≡ after_destroy (Self.meaning self.old) key }
        ensures destroyed { destroyed self.old key result self.new };

    // What every suite owes at every moment.
    ghost formed: { (x : Self) → IsWellFormed (Self.meaning x) };
}

// The calls that make or destroy a key repeat the trait's clauses, since clauses here stand in place of those, and add what the layer
// promises.
impl<L: Layer> Suite for L {
    ghost scheme = { L.Below.scheme };

    ghost lawful = { L.Below.lawful };

    ghost formed = { L.formed };

    fn numbers() -> KindNumbers {
        L::Below::numbers()
    }

    fn newest_serial(&self) -> u32 {
        self.below().newest_serial()
    }

    fn last_serial(&self) -> u32 {
        self.last_through()
    }

    fn is_fit(&self, offer: &[u8]) -> bool {
        self.below().is_fit(offer)
    }

    fn offer(&self, seed: &[u8], out: &mut [u8]) -> Result<usize, Denial> {
        self.below().offer(seed, out)
    }

    fn agree(&mut self, seed: &[u8], offer: &[u8], role: u8) -> Result<u32, Denial>
        ensures answer { result ≡ serial_result (L.meaning self.old) (agree_result L.Below.scheme (L.meaning self.old) seed.now offer.now role) }
        ensures after { L.meaning self.new ≡ after_making (L.meaning self.old) SharedSecret (agree_result L.Below.scheme (L.meaning self.old) seed.now offer.now role) }
        ensures made { L.made self.old SharedSecret (agree_result L.Below.scheme (L.meaning self.old) seed.now offer.now role) result self.new }
    {
        self.agree_through(seed, offer, role)
    }

    fn derive(&mut self, key: u32) -> Result<u32, Denial>
        ensures answer { result ≡ serial_result (L.meaning self.old) (derive_result L.Below.scheme (L.meaning self.old) key) }
        ensures after { L.meaning self.new ≡ after_making (L.meaning self.old) LinkKey (derive_result L.Below.scheme (L.meaning self.old) key) }
        ensures made { L.made self.old LinkKey (derive_result L.Below.scheme (L.meaning self.old) key) result self.new }
    {
        self.derive_through(key)
    }

    fn check(&self, key: u32, role: u8, out: &mut [u8]) -> Result<usize, Denial> {
        self.below().check(key, role, out)
    }

    fn reveal(&self, key: u32, out: &mut [u8]) -> Result<usize, Denial> {
        self.below().reveal(key, out)
    }

    fn seal(
        &self,
        key: u32,
        role: u8,
        number: u32,
        plain: &[u8],
        out: &mut [u8],
    ) -> Result<usize, Denial> {
        self.below().seal(key, role, number, plain, out)
    }

    fn open(
        &self,
        key: u32,
        payload: &[u8],
        out: &mut [u8],
    ) -> Result<Option<(u8, u32, usize)>, Denial> {
        self.below().open(key, payload, out)
    }

    fn destroy(&mut self, key: u32) -> Result<(), Denial>
        ensures answer { result ≡ destroy_result (L.meaning self.old) key }
        ensures after { L.meaning self.new ≡ after_destroy (L.meaning self.old) key }
        ensures destroyed { L.destroyed self.old key result self.new }
    {
        self.destroy_through(key)
    }
}

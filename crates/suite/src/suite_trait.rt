ghost use Rattle.std.specs.Prelude.{◌≡◌, length};
ghost use Rattle.buffers.specs.Buffers.{length_result, buffer_after};
ghost use Rattle.suite.specs.declared.types.KeyKind.TheVariants.{SharedSecret, LinkKey};
ghost use Rattle.suite.specs.Meanings.{Meaning, IsWellFormed, keyring_of};
ghost use Rattle.suite.specs.Schemes.{Scheme, IsLawful, numbers_of};
ghost use Rattle.suite.specs.Calls.{offer_result, agree_result, derive_result, check_result, reveal_result, seal_result, open_result, serial_result, after_making, open_lengths, buffer_after_open, destroy_result, after_destroy};

use super::types::{Denial, KindNumbers};

/// What a suite means: its root, its serials and its live keys. A trait apart from `Suite`, so that a type over a suite can have an
/// invariant that cites it: only one impl may fit the bound of a type, and `Suite` has two, for a suite with a store and for every layer.
pub trait HasMeaning {
    // What a suite means at one moment.
    ghost meaning: { Self → Meaning };
}

/// A cipher suite: all that an entity calls for keys. What a call returns, writes and leaves follows from the suite's meaning and the
/// arguments alone.
///
/// A key is named by its serial. A role is a byte, and every byte other than 01 and 02 is unfit. What a call writes is put into the front
/// of `out`, whose other bytes stay as they were. A denied call writes nothing and changes nothing.
pub trait Suite: HasMeaning {
    // What this kind of suite computes.
    ghost scheme: { Scheme };

    /// Returns the six numbers of this kind of suite.
    fn numbers() -> KindNumbers
        ensures { result ≡ numbers_of scheme };

    /// Returns the serial of the key made last, 0 before any.
    fn newest_serial(&self) -> u32
        ensures { result ≡ (Self.meaning self.now).newest };

    /// Returns the highest serial that the suite may give to a key, at most 4,294,967,295. It is at least the newest.
    fn last_serial(&self) -> u32
        ensures { result ≡ (Self.meaning self.now).last };

    /// Returns whether an offer of the peer's is fit, as `agree` requires.
    fn is_fit(&self, offer: &[u8]) -> bool
        ensures { result ≡ scheme.fit_of (keyring_of (Self.meaning self.now)) offer.now };

    /// Writes the offer of a seed, and returns its length, at most 64. Unfit: a seed not of 16 bytes, `out` below 255 bytes.
    fn offer(&self, seed: &[u8], out: &mut [u8]) -> Result<usize, Denial>
        ensures answer { result ≡ length_result (offer_result scheme (Self.meaning self.now) seed.now (length out.old)) }
        ensures buffer { out.new ≡ buffer_after (offer_result scheme (Self.meaning self.now) seed.now (length out.old)) out.old };

    /// Makes a shared secret from this peer's seed and the other peer's offer, and returns its serial (clause 9.1). `role` is this peer's.
    /// Denied, in this order: unfit (a seed not of 16 bytes, a role not 01 or 02), S2 (the offer is not fit), S3 (two keys are live, or the
    /// newest serial is the last).
    fn agree(&mut self, seed: &[u8], offer: &[u8], role: u8) -> Result<u32, Denial>
        ensures answer { result ≡ serial_result (Self.meaning self.old) (agree_result scheme (Self.meaning self.old) seed.now offer.now role) }
        ensures after { Self.meaning self.new ≡ after_making (Self.meaning self.old) SharedSecret (agree_result scheme (Self.meaning self.old) seed.now offer.now role) };

    /// Makes a link key from a live shared secret, and returns its serial. Denied, in this order: unknown (no live shared secret has that
    /// serial), S3 (two keys are live, or the newest serial is the last).
    fn derive(&mut self, key: u32) -> Result<u32, Denial>
        ensures answer { result ≡ serial_result (Self.meaning self.old) (derive_result scheme (Self.meaning self.old) key) }
        ensures after { Self.meaning self.new ≡ after_making (Self.meaning self.old) LinkKey (derive_result scheme (Self.meaning self.old) key) };

    /// Writes a shared secret's check value for a role, and returns its length, at most 32 (clause 9.2). Denied, in this order: unfit (a
    /// role not 01 or 02, `out` below 255 bytes), unknown (no live shared secret has that serial).
    fn check(&self, key: u32, role: u8, out: &mut [u8]) -> Result<usize, Denial>
        ensures answer { result ≡ length_result (check_result scheme (Self.meaning self.now) key role (length out.old)) }
        ensures buffer { out.new ≡ buffer_after (check_result scheme (Self.meaning self.now) key role (length out.old)) out.old };

    /// Writes the 16 bytes of a shared secret, and returns 16. Denied, in this order: unfit (`out` below 16 bytes), unknown (no live shared
    /// secret has that serial).
    fn reveal(&self, key: u32, out: &mut [u8]) -> Result<usize, Denial>
        ensures answer { result ≡ length_result (reveal_result (Self.meaning self.now) key (length out.old)) }
        ensures buffer { out.new ≡ buffer_after (reveal_result (Self.meaning self.now) key (length out.old)) out.old };

    /// Writes the payload that protects the data under a link key, and returns its length: that of the data and the overhead (clause 9.3).
    /// `role` and `number` are those of the record. Denied, in this order: unfit (a role not 01 or 02, data over 200 bytes, a number over
    /// 16,777,215, `out` below 255 bytes), unknown (no live link key has that serial).
    fn seal(
        &self,
        key: u32,
        role: u8,
        number: u32,
        plain: &[u8],
        out: &mut [u8],
    ) -> Result<usize, Denial>
        ensures answer { result ≡ length_result (seal_result scheme (Self.meaning self.now) key role number plain.now (length out.old)) }
        ensures buffer { out.new ≡ buffer_after (seal_result scheme (Self.meaning self.now) key role number plain.now (length out.old)) out.old };

    /// Writes the data of a payload, and returns role, number and data length; `None`, with nothing written, if the payload is not good
    /// (clause 9.3). They are a tuple of numbers, as the payload has them and the protocol compares them. Denied, in this order: unfit (a
    /// payload over 254 bytes, `out` below 255 bytes), unknown (no live link key has that serial).
    fn open(
        &self,
        key: u32,
        payload: &[u8],
        out: &mut [u8],
    ) -> Result<Option<(u8, u32, usize)>, Denial>
        ensures answer { result ≡ open_lengths (open_result scheme (Self.meaning self.now) key payload.now (length out.old)) }
        ensures buffer { out.new ≡ buffer_after_open (open_result scheme (Self.meaning self.now) key payload.now (length out.old)) out.old };

    /// Removes one live key of either kind. Denied: unknown (no live key has that serial).
    fn destroy(&mut self, key: u32) -> Result<(), Denial>
        ensures answer { result ≡ destroy_result (Self.meaning self.old) key }
        ensures after { Self.meaning self.new ≡ after_destroy (Self.meaning self.old) key };

    // The laws of its kind.
    ghost lawful: { IsLawful scheme };

    // What every suite owes at every moment.
    ghost formed: { (x : Self) → IsWellFormed (Self.meaning x) };
}

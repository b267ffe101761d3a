ghost use Rattle.std.specs.Prelude.{◌≡◌, ◌+◌, min, replicate, is_some, Err};
ghost use Rattle.suite.specs.declared.types.KeyKind.TheVariants.{SharedSecret};
ghost use Rattle.suite.specs.Calls.{agree_result, derive_result, after_making, after_destroy};
ghost use Rattle.suite.specs.Meanings.{value_in, with_last};
ghost use Rattle.quota.specs.Allowances.{limited_meaning, quota_meaning, keys_made};
ghost use Rattle.quota.specs.AllowanceProofs.{limited_meaning-formed};

use buffers::MAX_FRAME;
use suite::{Denial, HasMeaning, Layer, Role, Suite};

/// A layer that makes at most a given number of further keys; past them a call that would make one is denied (S3). Destroying a key gives
/// no allowance back. It cannot be dropped, only taken off by `into_below`, so that the suite below is not lost.
pub struct Quota<S> {
    below: S,
    // How many keys may still be made.
    left: u32,
}

impl<S: Suite> Quota<S> {
    /// Puts a quota of `k` further keys over a suite. The last serial is then the smaller of that below and the newest serial plus `k`.
    pub fn new(below: S, k: u32) -> Quota<S>
        ensures meaning { quota_meaning S.meaning result ≡ with_last (S.meaning below) (min (S.meaning below).last ((S.meaning below).newest + k)) }
        ensures below { result.below ≡ below }
        ensures left { result.left ≡ k }
    {
        Quota { below, left: k }
    }

    /// Takes the layer off, and returns the suite below.
    pub fn into_below(self) -> S
        ensures { result ≡ self.below }
    {
        let Quota { below, left: _ } = self;
        below
    }

    // Why a quota whose allowance is used up denies a shared secret: the same denials come first as where a key could be made.
    fn agree_denial(&self, seed: &[u8], offer: &[u8], role: u8) -> Denial
        ensures { Err result ≡ agree_result S.scheme (limited_meaning (S.meaning self.now.below) 0) seed.now offer.now role }
    {
        if seed.len() != 16 || Role::try_from(role).is_err() {
            Denial::Unfit
        } else if !self.below.is_fit(offer) {
            Denial::BadOffer
        } else {
            Denial::Spent
        }
    }

    // Why such a quota denies a link key.
    fn derive_denial(&self, key: u32) -> Denial
        ensures { Err result ≡ derive_result S.scheme (limited_meaning (S.meaning self.now.below) 0) key }
    {
        let mut scratch = [0; MAX_FRAME];
        if self.is_secret(key, &mut scratch) {
            Denial::Spent
        } else {
            Denial::Unknown
        }
    }

    // Returns whether a live shared secret has that serial: exactly then the suite below writes a check value of it. The scratch bytes are
    // zeros after. The caller lends them, because a contract cannot speak of a local variable.
    fn is_secret(&self, key: u32, scratch: &mut [u8; MAX_FRAME]) -> bool
        ensures answer { result ≡ is_some (value_in (S.meaning self.now.below).live SharedSecret key) }
        ensures cleared { scratch.new ≡ replicate MAX_FRAME 0 }
    {
        let found = self.below.check(key, Role::Sender.byte(), scratch).is_ok();
        scratch.fill(0);
        found
    }
}

impl<S: HasMeaning> HasMeaning for Quota<S> {
    ghost meaning = { quota_meaning S.meaning };
}

// Besides what every layer promises: what the suite below means after the call, and what is left of the allowance.
impl<S: Suite> Layer for Quota<S> {
    type Below = S;

    ghost made = { λ x kind value result y. (S.meaning y.below ≡ after_making (S.meaning x.below) kind value) × (y.left + keys_made result ≡ x.left) };

    ghost destroyed = { λ x key result y. (S.meaning y.below ≡ after_destroy (S.meaning x.below) key) × (y.left ≡ x.left) };

    ghost formed = { λ x. limited_meaning-formed (S.meaning x.below) x.left (S.formed x.below) };

    fn below(&self) -> &S {
        &self.below
    }

    fn last_through(&self) -> u32 {
        let newest = self.below.newest_serial();
        let unused = self.below.last_serial() - newest;
        newest + unused.min(self.left)
    }

    // Two methods: one for both calls that make a key, with the call below as a closure, would need four clauses to save four lines.
    fn agree_through(&mut self, seed: &[u8], offer: &[u8], role: u8) -> Result<u32, Denial> {
        if self.left == 0 {
            return Err(self.agree_denial(seed, offer, role));
        }
        let serial = self.below.agree(seed, offer, role)?;
        self.left -= 1;
        Ok(serial)
    }

    fn derive_through(&mut self, key: u32) -> Result<u32, Denial> {
        if self.left == 0 {
            return Err(self.derive_denial(key));
        }
        let serial = self.below.derive(key)?;
        self.left -= 1;
        Ok(serial)
    }

    fn destroy_through(&mut self, key: u32) -> Result<(), Denial> {
        self.below.destroy(key)
    }
}

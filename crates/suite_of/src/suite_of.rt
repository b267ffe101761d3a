ghost use Rattle.std.specs.Prelude.{◌≡◌, ℕ, ◌<◌, [], length, slice_index, Some, None, MatchResult};
ghost use Rattle.suite.specs.declared.types.Denial.TheVariants.{Unknown};
ghost use Rattle.suite.specs.Meanings.{value_in};
ghost use Rattle.suite.specs.Schemes.{DependsOnRootAndValue};
ghost use Rattle.suite.proofs.ByteLaws.{bytes16_from};
ghost use Rattle.key_store.proofs.StoreLaws.{kept_formed};
ghost use Rattle.key_store.specs.Stores.{keys_of};
ghost use Rattle.suite_of.specs.Kinds.{scheme_of};
ghost use Rattle.suite_of.specs.KindProofs.{lawful_scheme};

use super::kind::Kind;
use super::payload::{read_payload, write_payload};
use buffers::{MAX_FRAME, MAX_PAYLOAD, write_front};
use key_store::KeyStore;
use std::marker::PhantomData;
use suite::{Denial, HasMeaning, KeyKind, KindNumbers, MAX_DATA, MAX_NUMBER, Role, Suite};

/// A suite of the kind `K`: its root of 16 bytes, and its keys, of which at most two are live. An offer is the seed, and is fit if it has
/// 16 bytes. It cannot be copied or dropped, only closed, so that no live key is lost.
pub struct SuiteOf<K> {
    root: [u8; 16],
    keys: KeyStore,
    kind: PhantomData<K>,
    ghost long: { length root ≡ 16 },
    ghost bytes: { ((i : ℕ) → slice_index root i < 256) },
}

impl<K: Kind> SuiteOf<K> {
    ghost use Rattle.suite_of.specs.KindMeanings.{meaning_of};

    /// A suite with that root and no key. Its last serial is 4,294,967,295.
    pub fn new(root: [u8; 16]) -> SuiteOf<K>
        ensures meaning { meaning_of result ≡ record { root = root; last = 4294967295; newest = 0; live = [] } }

        // What exchanges ask of a kind of suite beyond its laws: it holds of every kind.
        ensures depends { DependsOnRootAndValue (scheme_of K.functions) }
    {
        SuiteOf {
            root,
            keys: KeyStore::new(),
            kind: PhantomData,
        }
    }

    /// Ends the suite: destroys the keys that are still live, and returns the root.
    pub fn close(mut self) -> [u8; 16]
        ensures { result ≡ self.root }
    {
        self.keys.clear();
        let SuiteOf {
            root: own,
            keys,
            kind: _,
        } = self;
        keys.end().unwrap();
        own
    }

    // Returns the value of the live key of that kind and serial; unknown if there is none.
    fn value(&self, kind: KeyKind, key: u32) -> Result<&[u8; 16], Denial>
        ensures { MatchResult result (λ v. Some v.now ≡ value_in (keys_of self.now.keys) kind key) (λ e. (e ≡ Unknown) × (None ≡ value_in (keys_of self.now.keys) kind key)) }
    {
        self.keys.value_of(kind, key).ok_or(Denial::Unknown)
    }
}

impl<K: Kind> HasMeaning for SuiteOf<K> {
    ghost use Rattle.suite_of.specs.KindMeanings.{meaning_of};

    ghost meaning = { meaning_of };
}

impl<K: Kind> Suite for SuiteOf<K> {
    ghost scheme = { scheme_of K.functions };

    ghost lawful = { lawful_scheme K.functions K.lawful };

    ghost formed = { λ x. kept_formed x.root x.keys (bytes16_from x.root x.long x.bytes) };

    fn numbers() -> KindNumbers {
        K::numbers()
    }

    fn newest_serial(&self) -> u32 {
        self.keys.newest()
    }

    fn last_serial(&self) -> u32 {
        u32::MAX
    }

    fn is_fit(&self, offer: &[u8]) -> bool {
        offer.len() == 16
    }

    fn offer(&self, seed: &[u8], out: &mut [u8]) -> Result<usize, Denial> {
        if seed.len() != 16 || out.len() < MAX_FRAME {
            return Err(Denial::Unfit);
        }
        Ok(write_front(seed, out).unwrap())
    }

    fn agree(&mut self, seed: &[u8], offer: &[u8], role: u8) -> Result<u32, Denial> {
        let role = Role::try_from(role)?;
        let seed = seed.as_array::<16>().ok_or(Denial::Unfit)?;
        let offer = offer.as_array::<16>().ok_or(Denial::BadOffer)?;
        let value = K::secret(&self.root, role, seed, offer);
        self.keys.put(KeyKind::SharedSecret, &value)
    }

    fn derive(&mut self, key: u32) -> Result<u32, Denial> {
        let value = K::link(self.value(KeyKind::SharedSecret, key)?);
        self.keys.put(KeyKind::LinkKey, &value)
    }

    fn check(&self, key: u32, role: u8, out: &mut [u8]) -> Result<usize, Denial> {
        let role = Role::try_from(role)?;
        if out.len() < MAX_FRAME {
            return Err(Denial::Unfit);
        }
        let value = self.value(KeyKind::SharedSecret, key)?;
        let block = K::check(value, role);
        Ok(write_front(&block[..K::numbers().check_length], out).unwrap())
    }

    fn reveal(&self, key: u32, out: &mut [u8]) -> Result<usize, Denial> {
        if out.len() < 16 {
            return Err(Denial::Unfit);
        }
        Ok(write_front(self.value(KeyKind::SharedSecret, key)?, out).unwrap())
    }

    fn seal(
        &self,
        key: u32,
        role: u8,
        number: u32,
        plain: &[u8],
        out: &mut [u8],
    ) -> Result<usize, Denial> {
        let role = Role::try_from(role)?;
        if plain.len() > MAX_DATA || number > MAX_NUMBER || out.len() < MAX_FRAME {
            return Err(Denial::Unfit);
        }
        let value = self.value(KeyKind::LinkKey, key)?;
        Ok(write_payload::<K>(value, role, number, plain, out))
    }

    fn open(
        &self,
        key: u32,
        payload: &[u8],
        out: &mut [u8],
    ) -> Result<Option<(u8, u32, usize)>, Denial> {
        if payload.len() > MAX_PAYLOAD || out.len() < MAX_FRAME {
            return Err(Denial::Unfit);
        }
        let value = self.value(KeyKind::LinkKey, key)?;
        Ok(read_payload::<K>(value, payload, out))
    }

    fn destroy(&mut self, key: u32) -> Result<(), Denial> {
        if self.keys.remove(key) {
            Ok(())
        } else {
            Err(Denial::Unknown)
        }
    }
}

ghost use Rattle.std.specs.Prelude.{◌≡◌, ◌^◌, ◌<◌, true, [], is_some};
ghost use Rattle.std.specs.Option.{option_map};
ghost use Rattle.suite.specs.Meanings.{value_in, is_live, keys_without};
ghost use Rattle.key_store.specs.Places.{HasSerialsTo, IsOlder};

use super::place::{Label, Place};
use std::mem;
use suite::{Denial, KeyKind};

// The places have names and are not an array, since `packed` and `ordered` say of the two that the older key lies in the first. There is no
// `Model`: the law that a suite's meaning is well formed reads these facts, and a view would hide them. So each clause names the newest
// serial or the live keys.

/// At most two live keys of 16 bytes each, with serials from 1 to the newest, the older key in the first place.
/// It cannot be dropped, only ended, so that no live key is lost.
pub struct KeyStore {
    newest: u32,
    first: Place,
    second: Place,
    ghost fits: { newest < 2 ^ 32 },
    ghost packed: { (is_some second.label ≡ true → is_some first.label ≡ true) },
    ghost firsts: { HasSerialsTo newest first },
    ghost seconds: { HasSerialsTo newest second },
    ghost ordered: { IsOlder first second },
}

impl KeyStore {
    ghost use Rattle.key_store.specs.Stores.{newest_of, keys_of, is_store_spent, put_result, put_newest, put_keys, end_result};

    /// A store without a key.
    pub fn new() -> KeyStore
        ensures newest { newest_of result ≡ 0 }
        ensures live { keys_of result ≡ [] }
    {
        KeyStore {
            newest: 0,
            first: Place::empty(),
            second: Place::empty(),
        }
    }

    /// Returns the serial of the key made last, or 0 before the first.
    pub fn newest(&self) -> u32
        ensures { result ≡ newest_of self.now }
    {
        self.newest // 0 before the first
    }

    /// Returns the value of the live key of that kind and serial, or `None` if there is no such key.
    pub fn value_of(&self, kind: KeyKind, serial: u32) -> Option<&[u8; 16]>
        ensures { option_map (λ x. x.now) result ≡ value_in (keys_of self.now) kind serial }
    {
        let label = Label { serial, kind };
        self.first
            .value_of(label)
            .or_else(|| self.second.value_of(label))
    }

    // Returns whether no further key can be put: two are live, or the serials are used up.
    fn is_spent(&self) -> bool
        ensures { result ≡ is_store_spent self.now }
    {
        !self.second.is_empty() || self.newest == u32::MAX
    }

    /// Keeps a new key, and returns its serial, the newest plus 1. S3 (`Denial::Spent`), and nothing changes, if two keys are live or the
    /// newest serial is the last, 4,294,967,295.
    pub fn put(&mut self, kind: KeyKind, value: &[u8; 16]) -> Result<u32, Denial>
        ensures answer { result ≡ put_result self.old }
        ensures newest { newest_of self.new ≡ put_newest self.old }
        ensures live { keys_of self.new ≡ put_keys self.old kind value.now }
    {
        if self.is_spent() {
            return Err(Denial::Spent);
        }
        let serial = self.newest + 1;
        let place = Place::holding(Label { serial, kind }, *value);
        if self.first.is_empty() {
            self.first = place;
        } else {
            self.second = place;
        }
        self.newest = serial;
        Ok(serial)
    }

    /// Removes the live key of that serial, and returns whether there was one, as a set does.
    pub fn remove(&mut self, serial: u32) -> bool
        ensures answer { result ≡ is_live (keys_of self.old) serial }
        ensures newest { newest_of self.new ≡ newest_of self.old }
        ensures live { keys_of self.new ≡ keys_without (keys_of self.old) serial }
    {
        if self.first.is_live(serial) {
            self.first = mem::replace(&mut self.second, Place::empty());
        } else if self.second.is_live(serial) {
            self.second = Place::empty();
        } else {
            return false;
        }
        true
    }

    /// Removes every live key. The newest serial stays.
    pub fn clear(&mut self)
        ensures newest { newest_of self.new ≡ newest_of self.old }
        ensures live { keys_of self.new ≡ [] }
    {
        self.first = Place::empty();
        self.second = Place::empty();
    }

    /// Ends the store if no key is live. Otherwise it returns the store as it was, in the `Err`.
    pub fn end(self) -> Result<(), KeyStore>
        ensures { result ≡ end_result self }
    {
        if !self.first.is_empty() {
            return Err(self);
        }
        let KeyStore {
            newest: _,
            first: _,
            second: _,
        } = self;
        Ok(())
    }
}

// A peer with its suite. Each action prints a line.
ghost use Rattle.std.specs.Prelude.{Some};
ghost use Rattle.trial.specs.Words.{key_words};

use super::stopped::Stopped;
use buffers::MAX_FRAME;
use std::{fmt, io};
use suite::{KeyKind, Role, Suite};

// A key that a suite made. `key_store` has the same two fields in its `Label`, which is private to that crate.
#[derive(Clone, Copy)]
pub(super) struct Key {
    kind: KeyKind,
    serial: u32,
}

impl fmt::Display for Key {
    ghost output = { λ key. Some (key_words key) };

    fn fmt<W: fmt::Write>(&self, f: &mut fmt::Formatter<W>) -> fmt::Result {
        write!(f, "{}, serial {}", self.kind, self.serial)
    }
}

pub(super) struct Peer<'a, S> {
    rt: &'a HostRuntime,
    role: Role,
    suite: S,
}

impl<'a, S: Suite> Peer<'a, S> {
    pub(super) fn new(rt: &'a HostRuntime, role: Role, suite: S) -> Peer<'a, S> {
        Peer { rt, role, suite }
    }

    pub(super) fn suite(&self) -> &S {
        &self.suite
    }

    pub(super) fn into_suite(self) -> S {
        let Peer {
            rt: _,
            role: _,
            suite,
        } = self;
        suite
    }

    // A fixed seed, sixteen times the role, so that a run can be followed. A device draws a new one each time.
    fn seed(&self) -> [u8; 16] {
        [self.role.byte(); 16]
    }

    fn says(&self, action: &str, what: &impl fmt::Display) -> io::Result<()> {
        let role = self.role;
        println!(self.rt; "  {role} {action} {what}")
    }

    fn says_bytes(&self, action: &str, bytes: &[u8]) -> io::Result<()> {
        self.says(action, &hex_text::encode(self.rt.alloc(), bytes)?)
    }

    pub(super) fn offer<'b>(&self, out: &'b mut [u8; MAX_FRAME]) -> Result<&'b [u8], Stopped> {
        let length = self.suite.offer(&self.seed(), out)?;
        let offer = &out[..length];
        self.says_bytes("offers", offer)?;
        Ok(offer)
    }

    pub(super) fn agree(&mut self, peer_offer: &[u8]) -> Result<Key, Stopped> {
        let seed = self.seed();
        let secret = Key {
            kind: KeyKind::SharedSecret,
            serial: self.suite.agree(&seed, peer_offer, self.role.byte())?,
        };
        self.says("agrees on", &secret)?;
        Ok(secret)
    }

    // Both peers compute the Sender's check value, so that the two lines can be compared.
    pub(super) fn check(&self, secret: Key) -> Result<(), Stopped> {
        let mut out = [0; MAX_FRAME];
        let length = self
            .suite
            .check(secret.serial, Role::Sender.byte(), &mut out)?;
        self.says_bytes("has the Sender's check value", &out[..length])?;
        Ok(())
    }

    pub(super) fn derive(&mut self, secret: Key) -> Result<Key, Stopped> {
        let link = Key {
            kind: KeyKind::LinkKey,
            serial: self.suite.derive(secret.serial)?,
        };
        self.says("derives", &link)?;
        Ok(link)
    }

    // Number 1, since each session of this program has one record.
    pub(super) fn seal<'b>(
        &self,
        link: Key,
        record: &[u8],
        out: &'b mut [u8; MAX_FRAME],
    ) -> Result<&'b [u8], Stopped> {
        let length = self
            .suite
            .seal(link.serial, self.role.byte(), 1, record, out)?;
        let payload = &out[..length];
        self.says_bytes("seals", payload)?;
        Ok(payload)
    }

    pub(super) fn open(&self, link: Key, payload: &[u8]) -> Result<(), Stopped> {
        let mut out = [0; MAX_FRAME];
        match self.suite.open(link.serial, payload, &mut out)? {
            Some((_role, _number, length)) => self.says_bytes("opens", &out[..length])?,
            None => self.says_bytes("finds not good", payload)?,
        }
        Ok(())
    }

    pub(super) fn destroy(&mut self, key: Key) -> Result<(), Stopped> {
        self.suite.destroy(key.serial)?;
        self.says("destroys", &key)?;
        Ok(())
    }
}

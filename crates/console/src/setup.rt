// How the two peers are set up.
use super::call::Name;
use super::stopped::Unreadable;
use super::words::{byte, count, root};
use std::alloc::Global;

#[derive(Clone, Copy)]
pub(super) enum Kind {
    Bench,
    Keyed,
}

// The layers over both suites, the upper one first, with the further keys that a quota allows.
#[derive(Clone, Copy)]
pub(super) enum Layers {
    Bare,
    Quota(u32),
    Ledger,
    QuotaOverLedger(u32),
    LedgerOverQuota(u32),
}

impl Layers {
    fn with_quota(self, keys: u32) -> Result<Layers, Unreadable> {
        match self {
            Layers::Bare => Ok(Layers::Quota(keys)),
            Layers::Ledger => Ok(Layers::QuotaOverLedger(keys)),
            _ => Err(Unreadable::LayerStands),
        }
    }

    fn with_ledger(self) -> Result<Layers, Unreadable> {
        match self {
            Layers::Bare => Ok(Layers::Ledger),
            Layers::Quota(keys) => Ok(Layers::LedgerOverQuota(keys)),
            _ => Err(Unreadable::LayerStands),
        }
    }
}

// What each peer has for itself: its root, and its activation byte, PPi or PPt.
#[derive(Clone, Copy)]
pub(super) struct Side {
    pub(super) root: [u8; 16],
    pub(super) sec: u8,
}

// A peer that supports NFC-SEC and was given no root.
const PLAIN: Side = Side {
    root: [0; 16],
    sec: 0x80,
};

#[derive(Clone, Copy)]
pub(super) struct Setup {
    pub(super) kind: Kind,
    pub(super) layers: Layers,
    pub(super) a: Side,
    pub(super) b: Side,
}

impl Setup {
    pub(super) fn new(kind: &str) -> Result<Setup, Unreadable> {
        let kind = match kind {
            "bench" => Kind::Bench,
            "keyed" => Kind::Keyed,
            _ => return Err(Unreadable::NoSuchLine),
        };
        Ok(Setup {
            kind,
            layers: Layers::Bare,
            a: PLAIN,
            b: PLAIN,
        })
    }

    fn side(&mut self, name: Name) -> &mut Side {
        match name {
            Name::A => &mut self.a,
            Name::B => &mut self.b,
        }
    }

    // Reads a set-up line after the one that chooses the suite.
    pub(super) fn set(&mut self, heap: Global, words: &[&str]) -> Result<(), Unreadable> {
        match words {
            ["layer", "quota", keys] => self.layers = self.layers.with_quota(count(keys)?)?,
            ["layer", "ledger"] => self.layers = self.layers.with_ledger()?,
            ["root", peer, value] => {
                let side = self.side(Name::read(peer)?);
                side.root = root(heap, value)?;
            }
            ["sec", peer, value] => {
                let side = self.side(Name::read(peer)?);
                side.sec = byte(heap, value)?;
            }
            _ => return Err(Unreadable::NoSuchLine),
        }
        Ok(())
    }
}

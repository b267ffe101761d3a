ghost use Rattle.std.specs.Prelude.{◌≡◌, ℕ, ◌<◌, length, slice_index};
ghost use Rattle.protocol.specs.Models.{HasLiveKeys, new_model, idle_model, session_keys};
ghost use Rattle.protocol.specs.Ends.{EveryCallEnds};

use crate::held::Held;
use activation::Agreed;
use frame::Service;
use protocol::{Destroyed, State};
use suite::{HasMeaning, Role, Suite};

mod agreement;
mod dispatch;
mod ends;
mod frames;
mod machine;
mod records;
mod requests;
mod suite_calls;
mod verification;

/// One peer of an NFC-SEC link, over a suite: the machine of ISO/IEC 13157-1, annex A. It can be neither copied nor dropped, only put away,
/// so that no live key is lost.
pub struct Entity<S: HasMeaning> {
    suite: S,
    state: State,
    // Of the session; in Idle, of the last session.
    service: Service,
    role: Role,
    // Kept from `invoke` on; zeros in Idle.
    seed: [u8; 16],
    // The number of the newest record of the session; 0 in Idle.
    number: u32,
    held: Held,
    // The serials of the two keys, 0 for none.
    secret: u32,
    link: u32,
    ghost long: { length seed ≡ 16 },
    ghost bytes: { ((i : ℕ) → slice_index seed i < 256) },
    ghost keys: { HasLiveKeys (S.meaning suite) state secret link },
}

impl<S: Suite> Entity<S> {
    ghost use Rattle.entity.specs.Views.{view};

    /// A new entity, in Idle. The activation is used up: another entity needs another exchange of activation bytes. Whatever the entity is
    /// called with, each call is either refused, which alters nothing, or returns an outcome; a fault is answered by an ERROR frame that
    /// says which it is, and then no key of the session is live.
    pub fn new(_activation: Agreed, suite: S) -> Entity<S>
        ensures model { view S.meaning result ≡ new_model (S.meaning suite) }
        ensures ends { EveryCallEnds S.scheme }
    {
        Entity {
            suite,
            state: State::Idle,
            service: Service::Sse,
            role: Role::Sender,
            seed: [0; 16],
            number: 0,
            held: Held::nothing(),
            secret: 0,
            link: 0,
        }
    }

    /// Ends the entity: enters Idle, and returns the suite and the serials of the two keys destroyed, each 0 for none.
    pub fn put_away(mut self) -> (S, Destroyed)
        ensures suite { S.meaning result.0 ≡ (idle_model (view S.meaning self)).means }
        ensures destroyed { result.1 ≡ session_keys (view S.meaning self) }
    {
        let destroyed = self.enter_idle();
        let Entity {
            suite,
            state: _,
            service: _,
            role: _,
            seed: _,
            number: _,
            held: _,
            secret: _,
            link: _,
        } = self;
        (suite, destroyed)
    }

    /// Returns the state (clause 10, table 1).
    pub fn state(&self) -> State
        ensures { result ≡ (view S.meaning self.now).state }
    {
        self.state
    }

    /// Returns the number of the newest record of the link session, sent or received, and the suite's first number before any; 0 where no
    /// link session runs (clause 12.3).
    pub fn number(&self) -> u32
        ensures { result ≡ (view S.meaning self.now).number }
    {
        self.number
    }
}

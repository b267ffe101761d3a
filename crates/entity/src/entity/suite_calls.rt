ghost use Rattle.std.specs.Prelude.{◌≡◌, ◌+◌, ◌≤◌, true, length, is_some, IfOk};
ghost use Rattle.std.specs.Result.{result_map_both};
ghost use Rattle.suite.specs.declared.types.KeyKind.TheVariants.{SharedSecret, LinkKey};
ghost use Rattle.suite.specs.Meanings.{keyring_of, value_in};
ghost use Rattle.suite.specs.Calls.{serial_result, after_making};
ghost use Rattle.protocol.specs.Models.{has_secret, has_link};
ghost use Rattle.protocol.specs.Steps.{agreement, derivation, check_value, sealed_record, opened_record};
ghost use Rattle.entity.specs.Views.{view};
ghost use Rattle.entity.specs.ResultViews.{record_result};

use super::Entity;
use buffers::{MAX_FRAME, MAX_PAYLOAD};
use protocol::SuiteFault;
use suite::{Denial, MAX_DATA, MAX_NUMBER, Role, Suite};

// The calls of the suite. Every key that they name is live, and all else is within the suite's limits, so the suite denies only what is a
// fault of the protocol (S2, S3). What it writes lies in the front of the scratch bytes, of which that part is returned.

impl<S: Suite> Entity<S> {
    pub(super) fn offer<'a>(&self, seed: &[u8; 16], scratch: &'a mut [u8; MAX_FRAME]) -> &'a [u8]
        ensures offer { result.now ≡ S.scheme.offer_of (keyring_of (S.meaning self.now.suite)) seed.now }
        ensures short { length result.now ≤ 64 }
    {
        let n = self.suite.offer(seed, scratch).unwrap();
        &scratch[..n]
    }

    pub(super) fn check_value<'a>(&self, role: Role, scratch: &'a mut [u8; MAX_FRAME]) -> &'a [u8]
        requires { has_secret self.now.state ≡ true }
        ensures value { result.now ≡ check_value S.scheme (view S.meaning self.now) role }
        ensures short { length result.now ≤ 32 }
    {
        let n = self.suite.check(self.secret, role.byte(), scratch).unwrap();
        &scratch[..n]
    }

    pub(super) fn seal<'a>(
        &self,
        number: u32,
        plain: &[u8],
        scratch: &'a mut [u8; MAX_FRAME],
    ) -> &'a [u8]
        requires state { has_link self.now.state ≡ true }
        requires data { length plain.now ≤ MAX_DATA }
        requires number { number ≤ MAX_NUMBER }
        ensures payload { result.now ≡ sealed_record S.scheme (view S.meaning self.now) number plain.now }
        ensures short { length result.now ≤ MAX_DATA + 32 }
    {
        let n = self
            .suite
            .seal(self.link, self.role.byte(), number, plain, scratch)
            .unwrap();
        &scratch[..n]
    }

    // Returns role, number and data length of a good payload, whose data lies in the front of the scratch bytes; S5 for any other payload.
    pub(super) fn open(
        &self,
        payload: &[u8],
        scratch: &mut [u8; MAX_FRAME],
    ) -> Result<(u8, u32, usize), SuiteFault>
        requires state { has_link self.now.state ≡ true }
        requires payload { length payload.now ≤ MAX_PAYLOAD }
        ensures record { record_result result scratch.new ≡ opened_record S.scheme (view S.meaning self.now) payload.now }
        ensures fits { IfOk result (λ t. t.2 ≤ MAX_FRAME) }
    {
        self.suite
            .open(self.link, payload, scratch)
            .unwrap()
            .ok_or(SuiteFault::BadRecord)
    }
}

// Makes a shared secret, and returns its serial.
pub(super) fn agree<S: Suite>(
    suite: &mut S,
    seed: &[u8; 16],
    offer: &[u8],
    role: Role,
) -> Result<u32, SuiteFault>
    ensures answer { result ≡ serial_result (S.meaning suite.old) (agreement S.scheme (S.meaning suite.old) seed.now offer.now role) }
    ensures after { S.meaning suite.new ≡ after_making (S.meaning suite.old) SharedSecret (agreement S.scheme (S.meaning suite.old) seed.now offer.now role) }
{
    suite
        .agree(seed, offer, role.byte())
        .map_err(|denial| match denial {
            Denial::BadOffer => SuiteFault::BadOffer,
            _ => SuiteFault::NoKey,
        })
}

// Makes a link key of a live shared secret, and returns its serial.
pub(super) fn derive<S: Suite>(suite: &mut S, secret: u32) -> Result<u32, SuiteFault>
    requires { is_some (value_in (S.meaning suite.old).live SharedSecret secret) ≡ true }
    ensures answer { result ≡ serial_result (S.meaning suite.old) (derivation S.scheme (S.meaning suite.old) secret) }
    ensures after { S.meaning suite.new ≡ after_making (S.meaning suite.old) LinkKey (derivation S.scheme (S.meaning suite.old) secret) }
{
    suite.derive(secret).map_err(|_| SuiteFault::NoKey)
}

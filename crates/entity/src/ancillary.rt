ghost use Rattle.std.specs.Prelude.{◌≡◌, cond, Ok, Err};
ghost use Rattle.std.specs.Result.{result_map_both};
ghost use Rattle.suite.specs.Calls.{is_wrong_seed};
ghost use Rattle.protocol.specs.declared.refusals.Refusal.TheVariants.{SeedLength};
ghost use Rattle.entity.specs.CallViews.{ancillary_of, fitted_ancillary};

use crate::bytes::seed_bytes;
use protocol::Refusal;

/// What is passed to an entity beside a frame.
#[derive(Clone, Copy)]
pub struct Ancillary<'a> {
    /// The seed that is used if the frame is an ACT_REQ that is agreed on. It must have 16 bytes with every frame (refusal 2). It has to be
    /// random and new for each call, for which the caller is responsible.
    pub seed: &'a [u8],
}

// The same with its length checked.
#[derive(Clone, Copy)]
pub(crate) struct FittedAncillary<'a> {
    pub(crate) seed: &'a [u8; 16],
}

impl<'a> Ancillary<'a> {
    // Checks the length.
    pub(crate) fn fit(self) -> Result<FittedAncillary<'a>, Refusal>
        ensures { result_map_both fitted_ancillary (λ e. e) result ≡ cond (is_wrong_seed self.entry.seed.now) (Err SeedLength) (Ok (ancillary_of self.entry)) }
    {
        Ok(FittedAncillary {
            seed: seed_bytes(self.seed)?,
        })
    }
}

// The activation of NFCIP-1 as far as NFC-SEC takes part in it (ISO/IEC 13157-1, annex B.4): an offer, and what two offers agree on.
#![tactic(auto)]

mod states;

pub use states::{Agreed, Offered, Refusal, Refused};

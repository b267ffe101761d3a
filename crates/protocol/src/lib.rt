// The protocol as far as it is the same for every suite: states, confirmations, refusals, faults and outcomes. What each call of an entity
// does is defined in specs/, over what its suite means.
#![tactic(auto)]

mod faults;
mod outcomes;
mod refusals;
mod states;

pub use faults::{
    Cause, Fault, FaultAtMessage, FaultInState, MachineFault, SuiteFault, at_message, in_state,
};
pub use outcomes::{Confirmation, Destroyed, Outcome};
pub use refusals::Refusal;
pub use states::State;

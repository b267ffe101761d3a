// No code: what exchanges whose frames are passed on unaltered have as their result. specs/ states it, proofs/ proves it, and the contract
// of a replay names it.
#![tactic(auto)]

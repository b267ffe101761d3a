// No code: what every run of calls promises. specs/ states it, proofs/ proves it, and the contract of a replay names it.
#![tactic(auto)]

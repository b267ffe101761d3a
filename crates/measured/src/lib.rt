// What the measurements call from C: each call encrypts, tags, or seals and opens many times over.
#![tactic(auto)]

mod blocks;
mod records;

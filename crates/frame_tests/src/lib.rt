// Frames by example: each kind of message, written and read again, and each fault.
#![tactic(auto)]

#[cfg(test)]
mod tests;

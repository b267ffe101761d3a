// Entities on worked frames, at the last number, and with a shared secret.
#![tactic(auto)]

#[cfg(test)]
mod tests;

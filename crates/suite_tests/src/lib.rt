// Suites and layers on worked values.
#![tactic(auto)]

#[cfg(test)]
mod tests;

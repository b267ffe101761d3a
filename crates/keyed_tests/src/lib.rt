// The keyed suite on values that OpenSSL computed.
#![tactic(auto)]

#[cfg(test)]
mod tests;

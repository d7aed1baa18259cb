//! Tests of crews, which run in threads.
#![tactic(auto)]

#[cfg(test)]
mod crews;
#[cfg(test)]
mod pins;

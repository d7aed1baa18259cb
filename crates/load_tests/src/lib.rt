//! Tests of what clients load, try, get and set.
#![tactic(auto)]

#[cfg(test)]
mod loading;
#[cfg(test)]
mod moving;

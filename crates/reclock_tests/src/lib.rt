//! Tests of operators.
#![tactic(auto)]

#[cfg(test)]
mod answers;
#[cfg(test)]
mod knowledge;
#[cfg(test)]
mod operators;
#[cfg(test)]
mod scenes;
#[cfg(test)]
mod shards;
#[cfg(test)]
mod single_rows;

//! Tests of a replica and of the records that it keeps, over the public calls of tw_replica.
//! A module is named after the crate that it tests.
#![tactic(auto)]

#[cfg(test)]
mod check;
#[cfg(test)]
mod replica;

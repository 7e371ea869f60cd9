//! The ends of a sync, whatever it answers: the path that it has gone through the chain, and the replica to which that leads.
//! It promises that each end leaves a replica in agreement with the chain, and that the next path starts at the end of the last one.
//! It stands on `tw_path` and `tw_state`.
#![tactic(auto)]

pub mod laws;

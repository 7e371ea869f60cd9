//! Tests of tasks, their operations, segments, snapshots, transformation, groups, paths, urgency and recurrence, over the public calls of
//! tw_model, tw_segment, tw_snapshot, tw_transform, tw_groups, tw_path, tw_urgency and tw_recur.
//! A module is named after the crate that it tests.
#![tactic(auto)]

#[cfg(test)]
mod groups;
#[cfg(test)]
mod model;
#[cfg(test)]
mod path;
#[cfg(test)]
mod recur;
#[cfg(test)]
mod segment;
#[cfg(test)]
mod snapshot;
#[cfg(test)]
mod transform;
#[cfg(test)]
mod urgency;

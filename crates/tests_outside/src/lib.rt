//! Tests of disks, folders, files and the journal, over the public calls of tw_world, tw_files, tw_streams and tw_journal.
//! A module is named after the crate that it tests.
#![tactic(auto)]

#[cfg(test)]
mod exchange;
#[cfg(test)]
mod files;
#[cfg(test)]
mod hooks;
#[cfg(test)]
mod journal;
#[cfg(test)]
mod streams;
#[cfg(test)]
mod world;

//! Tests of messages, the server and the sync, over the public calls of tw_http, tw_server and tw_sync.
//! A module is named after the crate that it tests.
#![tactic(auto)]

#[cfg(test)]
mod audit;
#[cfg(test)]
mod http;
#[cfg(test)]
mod link;
#[cfg(test)]
mod server;
#[cfg(test)]
mod server_files;
#[cfg(test)]
mod sync;
#[cfg(test)]
mod texts;

//! Tests of texts, moments, filters, command lines and settings, over the public calls of tw_text, tw_time, tw_filter, tw_settings and
//! tw_words. A module is named after the crate that it tests.
#![tactic(auto)]

#[cfg(test)]
mod filter;
#[cfg(test)]
mod settings;
#[cfg(test)]
mod table;
#[cfg(test)]
mod text;
#[cfg(test)]
mod time;
#[cfg(test)]
mod words;

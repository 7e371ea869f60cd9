// A server in memory, and a link to it.
pub(crate) mod exchange;
pub(crate) mod link;
pub(crate) mod script;
pub(crate) mod server;

// The steps of a replica that every command takes: made in place in memory, and then written.

pub(crate) mod edit;
pub(crate) mod prepare;
pub(crate) mod write;

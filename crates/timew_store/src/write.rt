pub(crate) mod change;
pub(crate) mod prepared;

// What the records of a journal lead to, and the one record that opening may write in their place.

pub(crate) mod renew;
pub(crate) mod replace;
pub(crate) mod replay;
pub(crate) mod shorten;

// The calls that keep the replica if they are refused. They are made on copies, since a replica that is lent may not be half changed.

pub(crate) mod commit;
pub(crate) mod finish_carried;
mod finish_from;
mod finish_partial;
mod finish_sync;
mod record;
mod undo;

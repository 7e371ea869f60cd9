// The words of each command.
pub mod annotate;
pub mod continue_;
pub mod delete;
pub mod export;
pub mod hours;
pub mod join;
pub mod lengthen;
pub mod move_to;
pub mod shorten;
pub mod split;
pub mod start;
pub mod stop;
pub mod summary;
pub mod tag;
pub mod track;
pub mod untag;

//! Intervals of time, lists of them in order, and edits of these, with the lines and month files as which they are written.
//! A list is in order and free of overlaps at any time, and an interval has one line.
//! It uses tw_time (moments), tw_text (digits) and tw_world (texts).
#![tactic(auto)]

mod characters;
mod edit;
mod interval;
pub mod laws;
mod line;
mod month;
mod name;

pub use characters::{is_control, is_escaped, is_special};
pub use edit::Edit;
pub use interval::Interval;
pub use interval::list::{Intervals, splice};
pub use interval::order::{goes_past, is_not_after, later_end};
pub use interval::tags::{add_tag, push_copy};
pub use interval::texts::Texts;
pub use line::{put_line, put_tail};
pub use month::write_month;
pub use name::{is_in_month, is_month_name, month_name, name_text};

//! Month files: the intervals of their lines, those of several files in one order, and what a change makes of files.
//! What is written of intervals is read back, the first bad line is reported, and a record of a change is read as it was written.
//! It uses timew_interval (intervals and their lines), tw_fields (bodies of records) and tw_time (moments).
#![tactic(auto)]

mod body;
mod changed;
pub mod laws;
mod months;
mod read;
mod write;

pub use body::{Record, change_body, read_record, undo_body};
pub use changed::{files_after, files_with};
pub use months::{KnownText, MonthFile, Months, NewFile, bytes_in};
pub use read::month::{MonthError, read_month};
pub use read::rows::{ReadRows, RowsError, read_known, read_rows};
pub use write::changes::changes_to;

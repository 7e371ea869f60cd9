//! What the commands of `tw task` make of tasks: the changes of those that are selected, added, copied or imported, and the marks of templates.
//! Each is an equation over tasks and words alone, with no replica in sight; its circles are paths of dependencies, whatever their length.
//! It uses `tw_words` and `tw_filter` for what was asked, `tw_import` for the JSON, and `tw_urgency` and `tw_model` for the tasks.
#![tactic(auto)]

mod circles;
mod editing;
mod effects;
mod input;
pub mod laws;
mod makes;
mod marks;
mod refusal;
mod request;
mod spacing;

pub use circles::{first_circle, is_judged};
pub use editing::changes_by;
pub use effects::Effect;
pub use input::Input;
pub use makes::add::{added, logged, recurs};
pub use makes::duplicate::copies;
pub use makes::import::imports_in;
pub use marks::{Mark, Sign, marks_of, mask_changes};
pub use refusal::Refusal;
pub use request::{Request, draw};
pub use spacing::{rest_text, spaced};

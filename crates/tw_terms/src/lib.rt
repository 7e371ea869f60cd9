//! The terms of filters: what one word asks, and whether a task has it (task(1), "FILTER", "ATTRIBUTE MODIFIERS", "VIRTUAL TAGS").
//! `push_word` gives the tokens that a word spells, or why it spells none; `term_holds` answers whether a term holds for a task.
//! It uses `tw_urgency` for what properties say, and `tw_time` for moments.
#![tactic(auto)]

mod attribute;
mod bad_word;
mod chosen;
mod facts;
mod holds;
mod id_range;
mod id_word;
mod ids;
mod modifier;
mod occurrence;
mod tag;
mod task_test;
mod term;
mod token;
mod value;
mod view;

pub use attribute::{is_priority, pair_in};
pub use bad_word::{BadWord, KindError, WordKind};
pub use chosen::chosen_of;
pub use facts::Facts;
pub use holds::{name_holds, term_holds};
pub use id_word::{Name, cut_part, number_in, uuid_of_36};
pub use ids::all_ids;
pub use tag::{is_virtual, tag_in};
pub use task_test::{has, is_within};
pub use term::{Term, Test};
pub use token::{Mark, Token, push_word};
pub use view::View;

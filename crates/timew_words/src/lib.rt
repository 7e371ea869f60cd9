//! The words of a line of `timew`, and the command that they give.
//! What words give is one function of the words, the moment and the zone; the first word that fits no part is named.
//! It uses timew_interval (sets of tags), tw_time (moments and lengths) and tw_text (cells).
#![tactic(auto)]

mod command;
mod commands;
mod error;
mod ids;
mod name;
mod parts;
mod range;
mod reading;
mod stretch;
mod word;

pub use command::{
    Annotate, Changing, Command, Continue, Join, Move, Resize, Showing, Start, Stop, Tagging,
    TimeReport, Track,
};
pub use error::{BadWord, WordKind, WordsError};
pub use ids::Ids;
pub use range::{Range, word_or};
pub use reading::read_words;

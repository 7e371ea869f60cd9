pub(crate) mod changes;
mod known;
mod month_texts;

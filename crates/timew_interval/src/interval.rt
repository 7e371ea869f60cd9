// Intervals: one, its tags, and lists of them.

pub(crate) mod list;
pub(crate) mod order;
pub(crate) mod same;
pub(crate) mod tags;
pub(crate) mod texts;

use crate::interval::texts::Texts;
use tw_world::Text;

/// A time that was tracked, from a start up to but not including an end, or not yet ended.
pub struct Interval {
    pub start: u64,
    pub end: Option<u64>,
    pub tags: Texts,
    pub annotation: Text,
}

// It is written out, so that a caller does not prove again how each part is dropped.
impl Drop for Interval {
    fn drop(self) {
        let Interval {
            start: _,
            end: _,
            tags: _,
            annotation: _,
        } = self;
    }
}

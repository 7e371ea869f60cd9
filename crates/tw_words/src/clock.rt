// A moment and a zone, by which dates are judged.
use tw_time::Zone;
use tw_world::Moment;

/// A moment and a zone, by which words of dates are judged: task(1), under "SPECIFYING DATES AND FREQUENCIES".
#[derive(Clone, Copy)]
pub struct Clock<'a> {
    pub now: Moment,
    pub zone: &'a Zone,
}

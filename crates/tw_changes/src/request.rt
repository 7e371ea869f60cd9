// What is asked for, and the uuids that are drawn for it.
ghost use Rattle.std.specs.Prelude.{◌≡◌};
ghost use Rattle.tw_changes.specs.Request.{drawn, after_draw};

use crate::input::Input;
use tw_filter::Filter;
use tw_settings::Settings;
use tw_time::Zone;
use tw_words::{Command, Line};
use tw_world::{IdWords, Moment};
use uuid::Uuid;

/// What is asked for: the command and the line that names it, the filter of its words, the settings with the line's overrides, the
/// moment and the zone at which all is read, and the input that `import` reads.
pub struct Request<'a> {
    pub command: Command,
    pub line: Line,
    pub filter: Filter,
    pub settings: Settings,
    pub at: Moment,
    pub zone: &'a Zone,
    pub input: Input,
}

// It is written out, so that a caller does not prove again how each part is dropped.
impl Drop for Request<'_> {
    fn drop(self) {
        let Request {
            command: _,
            line: _,
            filter: _,
            settings: _,
            at: _,
            zone: _,
            input: _,
        } = self;
    }
}

/// Draws a uuid.
pub fn draw(ids: &mut IdWords) -> Uuid
    ensures uuid { result ≡ drawn ids.old }
    ensures ids { ids.new ≡ after_draw ids.old }
{
    Uuid::from_bytes(ids.next())
}

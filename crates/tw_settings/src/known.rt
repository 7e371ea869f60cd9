// The names of settings that are known, and the values that may come after them.
ghost use Rattle.std.specs.Prelude.{◌≡◌, is_some};
ghost use Rattle.uuid.specs.Text.{parsed};
ghost use Rattle.tw_text.specs.Decimal.{thousandths};
ghost use Rattle.tw_time.specs.Tables.{look_up};
ghost use Rattle.tw_settings.specs.Settings.{known, is_include, is_switch, is_number_to, is_value_of, is_readable_as, is_readable, is_allowed};

use crate::address::parts_in;
use tw_text::{read_decimal3, read_u64};
use tw_time::look_up;
use tw_urgency::read_uuid;

/// What the value of a setting is: taskrc(5), under "CONFIGURATION VARIABLES".
#[derive(Clone, Copy, Drop)]
pub(crate) enum Kind {
    /// `on`, `yes` or `1`; `off`, `no` or `0`.
    Switch,
    /// A number from 1 to this one.
    UpTo(u64),
    /// Any text.
    Text,
    /// `http://`, a host, a colon and a port.
    Url,
    /// A uuid in any form.
    Uuid,
    /// A number of at most a million in size, with at most three decimals.
    Decimal,
    /// No value may come after the name.
    Nothing,
}

// The names that are known. Others have no effect.
const KNOWN: [(&str, Kind); 24] = [
    ("gc", Kind::Switch),
    ("recurrence", Kind::Switch),
    ("recurrence.limit", Kind::UpTo(100)),
    ("hooks", Kind::Switch),
    ("timetrack", Kind::Switch),
    ("data.location", Kind::Text),
    ("sync.server.url", Kind::Url),
    ("sync.server.client_id", Kind::Uuid),
    ("sync.encryption_secret", Kind::Nothing),
    ("urgency.age.max", Kind::UpTo(100_000)),
    ("urgency.user.tag.next.coefficient", Kind::Decimal),
    ("urgency.due.coefficient", Kind::Decimal),
    ("urgency.blocking.coefficient", Kind::Decimal),
    ("urgency.uda.priority.H.coefficient", Kind::Decimal),
    ("urgency.uda.priority.M.coefficient", Kind::Decimal),
    ("urgency.uda.priority.L.coefficient", Kind::Decimal),
    ("urgency.scheduled.coefficient", Kind::Decimal),
    ("urgency.active.coefficient", Kind::Decimal),
    ("urgency.age.coefficient", Kind::Decimal),
    ("urgency.annotations.coefficient", Kind::Decimal),
    ("urgency.tags.coefficient", Kind::Decimal),
    ("urgency.project.coefficient", Kind::Decimal),
    ("urgency.blocked.coefficient", Kind::Decimal),
    ("urgency.waiting.coefficient", Kind::Decimal),
];

#[tactic(auto, unfolding(crate::specs::Settings::is_include))]
pub(crate) fn is_include(name: &str) -> bool
    ensures { result ≡ is_include name.now }
{
    name == "include" || name.as_bytes().starts_with(b"include ")
}

// The words for on and off.
const SWITCHES: [(&str, bool); 6] = [
    ("on", true),
    ("yes", true),
    ("1", true),
    ("off", false),
    ("no", false),
    ("0", false),
];

// Whether a text is one of them.
#[tactic(auto, unfolding(crate::specs::Settings::is_switch))]
fn is_switch(value: &str) -> bool
    ensures { result ≡ is_switch value.now }
{
    look_up(value.as_bytes(), &SWITCHES).is_some()
}

fn is_number_to(most: u64, value: &str) -> bool
    ensures { result ≡ is_number_to most value.now }
{
    match read_u64(value) {
        Some(n) => 1 <= n && n <= most,
        None => false,
    }
}

fn is_uuid(text: &str) -> bool
    ensures { result ≡ is_some (parsed text.now) }
{
    read_uuid(text).is_some()
}

fn is_decimal(text: &str) -> bool
    ensures { result ≡ is_some (thousandths text.now) }
{
    read_decimal3(text).is_some()
}

pub(crate) fn is_value_of(kind: Kind, value: &str) -> bool
    ensures { result ≡ is_value_of kind value.now }
{
    match kind {
        Kind::Switch => is_switch(value),
        Kind::UpTo(most) => is_number_to(most, value),
        Kind::Text => true,
        Kind::Url => parts_in(value).is_some(),
        Kind::Uuid => is_uuid(value),
        Kind::Decimal => is_decimal(value),
        Kind::Nothing => false,
    }
}

fn is_readable_as(kind: Option<Kind>, value: &str) -> bool
    ensures { result ≡ is_readable_as kind value.now }
{
    match kind {
        Some(kind) => is_value_of(kind, value),
        None => true,
    }
}

/// What the value of a name is, if the name is known.
pub(crate) fn kind_of(name: &str) -> Option<Kind>
    ensures { result ≡ look_up name.now known }
{
    look_up(name.as_bytes(), &KNOWN)
}

// Whether a value can be read, where the name is known.
#[tactic(auto, unfolding(crate::specs::Settings::is_readable))]
fn is_readable(name: &str, value: &str) -> bool
    ensures { result ≡ is_readable name.now value.now }
{
    is_readable_as(kind_of(name), value)
}

/// Whether a value may come after a name: none may, and one that can be read.
#[tactic(auto, unfolding(crate::specs::Settings::is_allowed))]
pub(crate) fn is_allowed(name: &str, value: &str) -> bool
    ensures { result ≡ is_allowed name.now value.now }
{
    !is_include(name) && (value.is_empty() || is_readable(name, value))
}

// Why lines and overrides are no settings: taskrc(5), under "CONFIGURATION VARIABLES".
ghost use Rattle.std.specs.Prelude.{◌≡◌, is_some, is_none};
ghost use Rattle.tw_settings.specs.Settings.{trimmed, setting_in, allowed};
ghost use Rattle.tw_settings.specs.Reasons.{reason_of, why_unreadable, why_not_allowed, why_unpaired, why_unset, why_refused};

use crate::known::{Kind, is_include, is_value_of, kind_of};
use crate::pair::{is_blank, parted_at_equals, trimmed, uncommented};

/// Why a line or an override is no setting.
#[derive(Clone, Copy, Drop)]
pub enum Why {
    /// It is no text of UTF-8.
    NoText,
    /// It has no equals sign.
    NoPair,
    /// It would read another file.
    Include,
    /// Its value is none of the words for on and off.
    Switch,
    /// Its value is no number from 1 to this one.
    UpTo(u64),
    /// Its value is no `http://`, host, colon and port.
    Url,
    /// Its value is no uuid.
    Uuid,
    /// Its value is no number of at most a million in size, with at most three decimals.
    Decimal,
    /// It would turn encryption on.
    Encryption,
}

// Why a text is no value of this kind, if it is none.
fn reason_of(kind: Kind) -> Option<Why>
    ensures { result ≡ reason_of kind }
{
    match kind {
        Kind::Switch => Some(Why::Switch),
        Kind::UpTo(most) => Some(Why::UpTo(most)),
        Kind::Text => None,
        Kind::Url => Some(Why::Url),
        Kind::Uuid => Some(Why::Uuid),
        Kind::Decimal => Some(Why::Decimal),
        Kind::Nothing => Some(Why::Encryption),
    }
}

fn why_unreadable(kind: Option<Kind>, value: &str) -> Option<Why>
    ensures { result ≡ why_unreadable kind value.now }
{
    match kind {
        Some(kind) if !is_value_of(kind, value) => reason_of(kind),
        _ => None,
    }
}

#[tactic(auto, unfolding(crate::specs::Reasons::why_not_allowed))]
fn why_not_allowed(name: &str, value: &str) -> Option<Why>
    ensures { result ≡ why_not_allowed name.now value.now }
{
    if is_include(name) {
        return Some(Why::Include);
    }
    if value.is_empty() {
        return None;
    }
    why_unreadable(kind_of(name), value)
}

fn why_unpaired(text: &str) -> Why
    ensures { result ≡ why_unpaired text.now }
{
    if is_include(trimmed(text)) {
        Why::Include
    } else {
        Why::NoPair
    }
}

#[tactic(auto, unfolding(crate::specs::Reasons::why_unset))]
fn why_unset(text: &str) -> Option<Why>
    ensures { result ≡ why_unset text.now }
{
    if is_blank(text.as_bytes()) {
        return None;
    }
    match parted_at_equals(text) {
        Some((name, value)) => why_not_allowed(trimmed(name), trimmed(value)),
        None => Some(why_unpaired(text)),
    }
}

fn reason_in(line: &[u8]) -> Option<Why>
    ensures { result ≡ why_refused line.now }
{
    match std::str::from_utf8(line) {
        Ok(line) => why_unset(uncommented(line)),
        Err(_) => Some(Why::NoText),
    }
}

/// Why a line is no setting. None if it is one, or blank.
pub fn why_refused(line: &[u8]) -> Option<Why>
    ensures why { result ≡ why_refused line.now }
    ensures exactly { is_some (setting_in line.now) ≡ is_none result }
{
    reason_in(line)
}

/// Why an override of this name and value is none. None if it is one.
pub fn why_override_refused(name: &str, value: &str) -> Option<Why>
    ensures why { result ≡ why_not_allowed (trimmed name.now) (trimmed value.now) }
    ensures exactly { is_some (allowed (trimmed name.now) (trimmed value.now)) ≡ is_none result }
{
    why_not_allowed(trimmed(name), trimmed(value))
}

// The fields that words set.
ghost use Rattle.std.specs.Prelude.{◌≡◌};
ghost use Rattle.tw_words.specs.Modifications.{is_recur, set_by, field_named};

use tw_time::look_up;

/// A field that words set.
#[derive(Clone, Copy, Drop)]
pub(crate) enum Field {
    Description,
    Project,
    Priority,
    /// A moment, stored in seconds.
    Moment,
    /// Other tasks, each stored as a property of its own.
    Depends,
    Recur,
}

const FIELDS: [(&str, Field); 10] = [
    ("description", Field::Description),
    ("project", Field::Project),
    ("priority", Field::Priority),
    ("due", Field::Moment),
    ("wait", Field::Moment),
    ("scheduled", Field::Moment),
    ("until", Field::Moment),
    ("entry", Field::Moment),
    ("depends", Field::Depends),
    ("recur", Field::Recur),
];

fn is_recur(field: Field) -> bool
    ensures { result ≡ is_recur field }
{
    match field {
        Field::Recur => true,
        _ => false,
    }
}

// A new task alone may recur.
fn set_by(adding: bool, field: Option<Field>) -> Option<Field>
    ensures { result ≡ set_by adding field }
{
    match field {
        Some(field) if is_recur(field) && !adding => None,
        _ => field,
    }
}

/// The field that words set by a name. A new task alone may recur.
#[tactic(auto, unfolding(crate::specs::Modifications::field_named))]
pub(crate) fn field_named(adding: bool, name: &str) -> Option<Field>
    ensures { result ≡ field_named adding name.now }
{
    set_by(adding, look_up(name.as_bytes(), &FIELDS))
}

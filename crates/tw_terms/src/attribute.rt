// Attributes, and the words that begin with the name of one.
ghost use Rattle.std.specs.Prelude.{◌≡◌, option_map};
ghost use Rattle.std.specs.Option.{option_copied};
ghost use Rattle.tw_terms.specs.Cuts.{parted};
ghost use Rattle.tw_terms.specs.Attributes.{attribute_named, is_priority, head_in, attribute_in, pair_with, pair_in};

use tw_time::look_up;

/// What the values of an attribute are.
#[derive(Clone, Copy)]
pub(crate) enum Attribute {
    /// A text.
    Words,
    /// A text whose parts points part.
    Project,
    /// `H`, `M` or `L`.
    Priority,
    Moment,
    Status,
    /// A duration.
    Recur,
    /// Other tasks.
    Depends,
    Uuid,
    /// The task that this one is an instance of.
    Parent,
    /// One that no filter asks for.
    Other,
}

// The attributes, by their names.
const ATTRIBUTES: [(&str, Attribute); 21] = [
    ("description", Attribute::Words),
    ("project", Attribute::Project),
    ("priority", Attribute::Priority),
    ("due", Attribute::Moment),
    ("wait", Attribute::Moment),
    ("scheduled", Attribute::Moment),
    ("until", Attribute::Moment),
    ("entry", Attribute::Moment),
    ("modified", Attribute::Moment),
    ("start", Attribute::Moment),
    ("end", Attribute::Moment),
    ("status", Attribute::Status),
    ("recur", Attribute::Recur),
    ("depends", Attribute::Depends),
    ("uuid", Attribute::Uuid),
    ("parent", Attribute::Parent),
    ("mask", Attribute::Other),
    ("imask", Attribute::Other),
    ("urgency", Attribute::Other),
    ("id", Attribute::Other),
    ("tags", Attribute::Other),
];

/// The kind of an attribute, by its name.
#[tactic(auto, unfolding(crate::specs::Attributes::attribute_named))]
fn attribute_named(name: &str) -> Option<Attribute>
    ensures { result ≡ attribute_named name.now }
{
    look_up(name.as_bytes(), &ATTRIBUTES)
}

/// Whether a text is a priority: `H`, `M` or `L` (task(1), under "priority").
#[tactic(auto, unfolding(crate::specs::Attributes::is_priority))]
pub fn is_priority(value: &str) -> bool
    ensures { result ≡ is_priority value.now }
{
    match value {
        "H" | "M" | "L" => true,
        _ => false,
    }
}

// What is around the first point.
fn parted_at_point(text: &str) -> Option<(&str, &str)>
    ensures { option_map (λ x. (x.0.now, x.1.now)) result ≡ parted 46 text.now }
{
    text.split_once('.')
}

// What is around the first colon.
fn parted_at_colon(text: &str) -> Option<(&str, &str)>
    ensures { option_map (λ x. (x.0.now, x.1.now)) result ≡ parted 58 text.now }
{
    text.split_once(':')
}

/// What comes before a colon.
#[derive(Clone, Copy, Drop)]
pub(crate) struct Head<'a> {
    pub(crate) attribute: Attribute,
    pub(crate) name: &'a str,
    pub(crate) modifier: Option<&'a str>,
}

#[tactic(auto, unfolding(crate::specs::Attributes::head_in))]
fn head_in(text: &str) -> Option<Head<'_>>
    ensures { option_map (λ h. (h.attribute, h.name.now, option_copied h.modifier)) result ≡ head_in text.now }
{
    if let Some(attribute) = attribute_named(text) {
        return Some(Head {
            attribute,
            name: text,
            modifier: None,
        });
    }
    let (name, modifier) = parted_at_point(text)?;
    let attribute = attribute_named(name)?;
    Some(Head {
        attribute,
        name,
        modifier: Some(modifier),
    })
}

/// The parts of a word `name:value` or `name.modifier:value`, where the name is that of an attribute.
#[tactic(auto, unfolding(crate::specs::Attributes::attribute_in))]
pub(crate) fn attribute_in(word: &str) -> Option<(Head<'_>, &str)>
    ensures { option_map (λ x. ((x.0.attribute, x.0.name.now, option_copied x.0.modifier), x.1.now)) result ≡ attribute_in word.now }
{
    let (head, value) = parted_at_colon(word)?;
    let head = head_in(head)?;
    Some((head, value))
}

fn pair_with<'a>(head: Head<'a>, value: &'a str) -> Option<(&'a str, &'a str)>
    ensures { option_map (λ x. (x.0.now, x.1.now)) result ≡ pair_with head.entry.name.now value.now (option_copied head.entry.modifier) }
{
    match head.modifier {
        None => Some((head.name, value)),
        Some(_) => None,
    }
}

/// The parts of a word `name:value`, where the name is that of an attribute (task(1), "ATTRIBUTES AND METADATA") and no
/// modifier comes after it.
pub fn pair_in(word: &str) -> Option<(&str, &str)>
    ensures { option_map (λ x. (x.0.now, x.1.now)) result ≡ pair_in word.now }
{
    match attribute_in(word) {
        Some((head, value)) => pair_with(head, value),
        None => None,
    }
}

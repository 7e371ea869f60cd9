// How members are read, by their names.
ghost use Rattle.std.specs.Prelude.{◌≡◌, unwrap_or};
ghost use Rattle.tw_import.specs.Meanings.{kind_of};
ghost use Rattle.tw_import.specs.declared.kind.Kind.TheVariants.{Plain};

use tw_time::look_up;

/// How the value of a name is read.
#[derive(Clone, Copy)]
pub(crate) enum Kind {
    /// It is passed over.
    Passed,
    Identity,
    Description,
    Moment,
    Depends,
    Tags,
    Annotations,
    Status,
    Plain,
}

const KINDS: [(&str, Kind); 16] = [
    ("id", Kind::Passed),
    ("urgency", Kind::Passed),
    ("due", Kind::Moment),
    ("end", Kind::Moment),
    ("entry", Kind::Moment),
    ("modified", Kind::Moment),
    ("scheduled", Kind::Moment),
    ("start", Kind::Moment),
    ("until", Kind::Moment),
    ("wait", Kind::Moment),
    ("uuid", Kind::Identity),
    ("description", Kind::Description),
    ("depends", Kind::Depends),
    ("tags", Kind::Tags),
    ("annotations", Kind::Annotations),
    ("status", Kind::Status),
];

fn kind_or_plain(kind: Option<Kind>) -> Kind
    ensures { result ≡ unwrap_or kind Plain }
{
    match kind {
        Some(kind) => kind,
        None => Kind::Plain,
    }
}

/// How the value of a name is read.
#[tactic(auto, unfolding(crate::specs::Meanings::kind_of))]
pub(crate) fn kind_of(name: &str) -> Kind
    ensures { result ≡ kind_of name.now }
{
    kind_or_plain(look_up(name.as_bytes(), &KINDS))
}

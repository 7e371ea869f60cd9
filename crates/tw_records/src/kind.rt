// The kind of a record, which is the first byte of its body.
ghost use Rattle.std.specs.Prelude.{◌≡◌};
ghost use Rattle.tw_records.specs.Bodies.{is_kind};

pub(crate) fn is_kind(kind: u8, body: &[u8]) -> bool
    ensures { result ≡ is_kind kind body.now }
{
    match body {
        [first, ..] => *first == kind,
        [] => false,
    }
}

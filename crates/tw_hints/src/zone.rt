// The hint of a zone that is no rule.
ghost use Rattle.std.specs.Prelude.{◌≡◌, ◌++◌, string_bytes, IfOk, OnOk};
ghost use Rattle.tw_hints.specs.Lines.{lines_of};
ghost use Rattle.tw_hints.specs.Zone.{zone_rows};

use crate::lines::{push_cut, push_line};
use std::alloc::Global;
use tw_world::Memory;

fn push_zone(alloc: Global, out: &mut String, zone: &str, file: &str) -> Result<(), Memory>
    ensures { OnOk result (string_bytes out.new ≡ string_bytes out.old ++ lines_of (zone_rows zone.now file.now)) }
{
    push_cut(
        alloc,
        out,
        "TZ is \"%\", and tw takes its rule; set it by",
        zone,
    )?;
    push_line(alloc, out, "  export TZ=\"$(tail -n 1 %)\"", file, "")
}

/// What to do about a variable `TZ` that holds no rule: two lines for the standard error. The rule is the last line of a file of tzfile(5),
/// such as `/usr/share/zoneinfo/Europe/Berlin` or `/etc/localtime`.
pub fn zone_hint(alloc: Global, zone: &str, file: &str) -> Result<String, Memory>
    ensures { IfOk result (λ hint. string_bytes hint ≡ lines_of (zone_rows zone.now file.now)) }
{
    let mut hint = String::new(alloc);
    push_zone(alloc, &mut hint, zone, file)?;
    Ok(hint)
}

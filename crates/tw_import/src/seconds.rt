// Seconds without annotations.
ghost use Rattle.std.specs.Prelude.{◌≡◌, ◌+◌, IfOk, OnOk, OnErr};
ghost use Rattle.std.specs.Ordering.{nat_cmp};
ghost use Rattle.std.specs.BTreeMap.{insert_entry};
ghost use Rattle.std.specs.FinMap.{len};
ghost use Rattle.tw_import.specs.Import.{annotation_at, free_second};
ghost use Rattle.tw_import.specs.Seconds.{AreSkips, IsAfterTaken, IsFirstFree};

use std::alloc::Global;
use std::collections::BTreeMap;
use tw_model::TaskDraft;
use tw_world::{Memory, Text};

/// The property of the annotation at a second.
pub(crate) fn annotation_at(alloc: Global, second: u64) -> Result<Text, Memory>
    ensures { IfOk result (λ n. n ≡ annotation_at second) }
{
    let name = format!(in alloc; "annotation_{second}")?;
    Text::from_str(alloc, name.as_str())
}

// A second that those from this one up to it have annotations, if this one has.
fn after_taken(
    alloc: Global,
    draft: &TaskDraft,
    skips: &BTreeMap<u64, u64>,
    second: u64,
) -> Result<Option<u64>, Memory>
    requires { AreSkips draft.now skips.now.entries }
    ensures { IfOk result (λ o. IsAfterTaken draft.now second o) }
{
    if let Some(later) = skips.get(&second) {
        return Ok(Some(*later));
    }
    if !draft.has(&annotation_at(alloc, second)?) {
        return Ok(None);
    }
    Ok(Some(second.checked_add(1).ok_or(Memory)?))
}

fn put_skip(skips: &mut BTreeMap<u64, u64>, from: u64, to: u64) -> Result<(), Memory>
    ensures entries { OnOk result (skips.new.entries ≡ insert_entry nat_cmp skips.old.entries from to) }
    ensures kept { OnErr result (skips.new.entries ≡ skips.old.entries) }
{
    let _ = skips.insert(from, to)?;
    Ok(())
}

// The first second from this one on that has no annotation. `skips` leads from seconds over those that have one, so that many
// annotations of one moment find room in few steps.
fn first_free(
    alloc: Global,
    draft: &TaskDraft,
    skips: &mut BTreeMap<u64, u64>,
    at: u64,
) -> Result<u64, Memory>
    requires { AreSkips draft.now skips.old.entries }
    ensures skips { AreSkips draft.now skips.new.entries }
    ensures free { IfOk result (λ s. IsFirstFree draft.now at s) }
{
    let mut second = at;
    'seconds: loop {
        let Some(later) = after_taken(alloc, draft, skips, second)? else {
            return Ok(second);
        };
        let Some(latest) = after_taken(alloc, draft, skips, later)? else {
            return Ok(later);
        };
        put_skip(skips, second, latest)?;
        second = latest;
    }
}

// A sum. One that no number holds is more than memory has.
fn sum(a: u64, b: u64) -> Result<u64, Memory>
    ensures { IfOk result (λ n. n ≡ a + b) }
{
    a.checked_add(b).ok_or(Memory)
}

/// The second that the next annotation of a moment gets.
pub(crate) fn free_second(
    alloc: Global,
    draft: &TaskDraft,
    skips: &mut BTreeMap<u64, u64>,
    at: u64,
) -> Result<u64, Memory>
    requires { AreSkips draft.now skips.old.entries }
    ensures skips { AreSkips draft.now skips.new.entries }
    ensures value { IfOk result (λ s. s ≡ free_second (len draft.now) draft.now at) }
{
    let second = first_free(alloc, draft, skips, at)?;
    let most = sum(at, draft.len())?;
    if second <= most { Ok(second) } else { Ok(most) }
}

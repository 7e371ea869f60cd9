// The hooks of an event.
ghost use Rattle.std.specs.Prelude.{◌≡◌, map, string_bytes, IfOk, OnOk};
ghost use Rattle.tw_world.specs.Folder.{add_name};
ghost use Rattle.tw_hooks.specs.Names.{is_hook, hooks_of};

use crate::event::Event;
use std::alloc::Global;
use std::collections::BTreeSet;
use tw_world::{Memory, Text};

#[tactic(auto, unfolding(crate::specs::Names::is_hook))]
fn is_hook(event: Event, name: &str) -> bool
    ensures { result ≡ is_hook event name.now }
{
    match event {
        Event::Add => name.starts_with("on-add"),
        Event::Modify => name.starts_with("on-modify"),
    }
}

fn put_name(alloc: Global, names: &mut BTreeSet<Text>, name: &str) -> Result<(), Memory>
    ensures { OnOk result (names.new.keys ≡ add_name name.now names.old.keys) }
{
    let _ = names.insert(Text::from_str(alloc, name)?)?;
    Ok(())
}

/// The names of an event's hooks, in byte order.
pub(crate) fn hooks_of(
    alloc: Global,
    event: Event,
    names: &Vec<String>,
) -> Result<BTreeSet<Text>, Memory>
    ensures { IfOk result (λ hooks. hooks.keys ≡ hooks_of event (map string_bytes names.now.items)) }
{
    let mut hooks = BTreeSet::new(alloc);
    for name in names {
        if is_hook(event, name.as_str()) {
            put_name(alloc, &mut hooks, name.as_str())?;
        }
    }
    Ok(hooks)
}

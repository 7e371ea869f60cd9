// Carrying operations of a version across groups of local ones.
ghost use Rattle.std.specs.Prelude.{◌≡◌};
ghost use Rattle.tw_groups.specs.Cross.{cross};
ghost use Rattle.tw_groups.specs.Held.{groups_in};

use tw_model::SyncOp;
use tw_transform::{Steps, rebase};

/// Carries a version's operations across one group after another, and drops from all of them what the table of meetings drops. It takes
/// no memory.
pub fn cross(server: &mut Vec<SyncOp>, groups: &mut Vec<Vec<SyncOp>>)
    ensures { (server.new.items, groups_in groups.new.items) ≡ cross server.old.items (groups_in groups.old.items) }
{
    let mut at = 0;
    while at < groups.len() && !server.is_empty() {
        let mut steps = Steps::new();
        rebase(server, &mut groups[at], &mut steps);
        at += 1;
    }
}

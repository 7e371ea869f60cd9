// What a request looks at.
ghost use Rattle.std.specs.Prelude.{◌≡◌, IfOk};
ghost use Rattle.tw_replica.specs.Replica.{held_state};
ghost use Rattle.tw_terms.specs.Scenes.{scene_of};
ghost use Rattle.tw_commands.specs.Request.{scene_in, selected_in};

use std::alloc::Global;
use tw_changes::Request;
use tw_filter::{Filter, Looks, select};
use tw_replica::Replica;
use tw_terms::View;
use tw_world::Memory;
use uuid::Uuid;

/// What a request looks at.
pub(crate) fn view_of<'a>(request: &'a Request<'_>, replica: &'a Replica) -> View<'a>
    ensures { scene_of result ≡ scene_in request.now (held_state replica.now) }
{
    View {
        tasks: replica.tasks(),
        numbers: replica.numbers(),
        now: request.at,
        zone: request.zone,
    }
}

/// The uuids of the tasks that its filter selects, in byte order.
pub(crate) fn selected(
    alloc: Global,
    request: &Request<'_>,
    replica: &Replica,
) -> Result<Vec<Uuid>, Memory>
    ensures { IfOk result (λ rows. rows.items ≡ selected_in request.now (held_state replica.now)) }
{
    let view = view_of(request, replica);
    select(alloc, &request.filter, &view, &mut Looks::new())
}

// The tests of a scene's lengths: 8, 1, 2 and 7.
ghost use Rattle.std.specs.Prelude.{◌≡◌, ◌≤◌};
ghost use Rattle.rules.specs.Lent.{components_lent, connections_lent};
ghost use Rattle.rules.specs.Refusals.{first_refusal, need_of, refused, scene_limits, size_tests};
ghost use Rattle.scene.specs.Lent.{outputs_lent};
ghost use Rattle.scene.specs.Room.{room_tests};

use lengths::lengths_differ;
use rules::answers::{RecordKind, Refusal, RefusalKind};
use rules::lent::Scene;
use rules::limits::{MAX_COMPONENTS, MAX_CONNECTIONS};

// How many output lists the calls of a scene write; their numbers are from 0 on.
const LISTS: usize = 9;

fn refused(kind: RefusalKind, place: usize) -> Result<(), Refusal>
    ensures { result ≡ refused kind place }
{
    let place = place as u64;
    Err(Refusal { kind, place })
}

// The length that an output list needs for n components and m connections. A match on the list's number, not on an
// enum of lists: a caller, C too, may number lists past the last, which need nothing.
fn need_of(n: usize, m: usize, list: usize) -> usize
    requires { (n ≤ scene_limits.components) × (m ≤ scene_limits.connections) }
    ensures { result ≡ need_of n m list }
{
    match list {
        0 => m,
        1 => n,
        2 => m + n,
        3 => 2 * n + 1,
        4 => n,
        5 => n,
        6 => m,
        7 => 2 * m + n,
        8 => n,
        _ => 0,
    }
}

// 7: the first output list that is shorter than needed. room has the length of the shortest number list of each
// output list, from the list of number first on; past list 8 there is none to test.
fn check_room(n: usize, m: usize, first: usize, room: &[usize]) -> Result<(), Refusal>
    requires { (n ≤ scene_limits.components) × (m ≤ scene_limits.connections) }
    ensures { result ≡ first_refusal (room_tests n m first room.now) }
{
    for (list, &length) in (first..LISTS).zip(room) {
        if length < need_of(n, m, list) {
            return refused(RefusalKind::ListTooShort, list);
        }
    }
    Ok(())
}

// 8, 1, 2 and 7, in this order. first and room stand apart, as the public calls take them: a struct of the two would be
// made in each call and taken apart in check_room.
pub(crate) fn check_sizes(scene: &Scene<'_>, first: usize, room: &[usize]) -> Result<(), Refusal>
    ensures { result ≡ first_refusal (size_tests scene_limits (components_lent scene.now.components) (connections_lent scene.now.connections) (outputs_lent scene.now first room.now)) }
{
    let components = &scene.components;
    let n = components.ids.len();
    let component_lengths = [
        n,
        components.kinds.len(),
        components.delays.len(),
        components.locked.len(),
        components.xs.len(),
        components.ys.len(),
        components.zs.len(),
    ];
    if lengths_differ(&component_lengths) {
        return refused(RefusalKind::LengthsDiffer, RecordKind::Components as usize);
    }
    let connections = &scene.connections;
    let m = connections.sources.len();
    let connection_lengths = [m, connections.sinks.len(), connections.transfers.len()];
    if lengths_differ(&connection_lengths) {
        return refused(RefusalKind::LengthsDiffer, RecordKind::Connections as usize);
    }
    if MAX_COMPONENTS < n {
        return refused(RefusalKind::TooManyComponents, n);
    }
    if MAX_CONNECTIONS < m {
        return refused(RefusalKind::TooManyConnections, m);
    }
    check_room(n, m, first, room)
}

// The pass over lists that fit.
ghost use Rattle.std.specs.Prelude.{length};
ghost use Rattle.reconvergence.specs.Lent.{SamePathSums, SameSumRoom, Kept, sized, answered, timed, roomy, summed};

use crate::answers::{list_unequal, mark_settled};
use crate::lent::{Delays, PathSums, SumRoom};
use crate::start::start;
use crate::worklist::Worklist;
use graph::adjacency::index_edges;
use graph::edges::Edges;

// Marks, sums and the list of nodes with unequal delays; answers how many it lists. The lists come as the call is lent them: a
// struct of them would be made for this and taken apart at once.
pub(crate) fn find_unequal(
    edges: &Edges<'_>,
    delays: &Delays<'_>,
    order: &[usize],
    sums: &mut PathSums<'_>,
    unequal: &mut [usize],
    room: &mut SumRoom<'_>,
) -> usize
    requires { sized edges.now delays.now order.now sums.old unequal.old room.old }
    ensures same_sums { SamePathSums sums.old sums.new }
    ensures same_room { SameSumRoom room.old room.new }
    ensures answered { answered edges.now delays.now order.now sums.old sums.new unequal.old unequal.new result }
{
    let n = delays.low.len();
    // head is cut to the nodes, past which it would be cleared for nothing; next has to be as long as the edges
    let head = &mut *room.head;
    let next = &mut *room.next;
    index_edges(
        edges.sources,
        &mut head[..n],
        &mut next[..edges.sources.len()],
    );
    sum_paths(edges, delays, sums, room);
    mark_settled(&room.left[..n], &mut sums.settled[..n]);
    list_unequal(order, room.incoming, sums, unequal)
}

// The sums of the paths to each node, over linked edges; left is then 0 at the settled nodes.
fn sum_paths(
    edges: &Edges<'_>,
    delays: &Delays<'_>,
    sums: &mut PathSums<'_>,
    room: &mut SumRoom<'_>,
)
    requires { timed edges.now delays.now room.old × roomy (length delays.now.low.now) sums.old room.old }
    ensures same_sums { SamePathSums sums.old sums.new }
    ensures same_room { SameSumRoom room.old room.new }
    ensures summed { summed edges.now delays.now sums.new room.new }
    ensures kept { Kept (length delays.now.low.now) sums.old sums.new room.old room.new }
{
    let waiting = start(edges.sinks, delays.low.len(), sums, room);
    let mut worklist = Worklist {
        sums,
        room,
        waiting,
    };
    worklist.take_all(edges, delays);
}

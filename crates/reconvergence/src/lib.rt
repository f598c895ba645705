// Which nodes of a graph are settled, the smallest and largest sum of the paths to each node, and the nodes where paths
// of unequal delay meet.
#![tactic(auto)]

ghost use Rattle.reconvergence.specs.Lent.{SamePathSums, SameSumRoom, Reconvergence};

use crate::fits::reconvergence_fits;
use crate::lent::{Delays, PathSums, SumRoom};
use crate::pass::find_unequal;
use graph::edges::Edges;

pub mod lent; // lent.rt: the lists that are read, written and lent to work in
mod fits; // fits.rt: whether the lists fit
mod pass; // pass.rt: the pass over lists that fit
mod start; // start.rt: the lists before a node is taken
mod worklist; // worklist.rt: nodes taken one by one, each once all edges into it are relaxed
mod answers; // answers.rt: marks and positions from the lists at the end

// The graph has a node for each low delay. Writes 1 to settled where a node is settled, else 0, and to smallest and
// largest the sums of the paths to it. Of the nodes in order it lists in unequal, in that order, those with two edges or
// more into them whose two sums differ, and answers how many they are. The lists must fit: as many sinks as sources,
// high as long as low, each end and each entry of order a node; unequal with an entry for each of order at least, next
// with one for each edge, the others with one for each node. If they do not, the answer is None and every list keeps its
// content.
/// What the room's lists hold after an answer that is not None is open; they are the same lists.
pub fn reconvergent_delay_reasons(
    edges: &Edges<'_>,
    delays: &Delays<'_>,
    order: &[usize],
    sums: &mut PathSums<'_>,
    unequal: &mut [usize],
    room: &mut SumRoom<'_>,
) -> Option<usize>
    ensures same_sums { SamePathSums sums.old sums.new }
    ensures same_room { SameSumRoom room.old room.new }
    ensures reasons { Reconvergence edges.now delays.now order.now sums.old sums.new unequal.old unequal.new room.old room.new result }
{
    // No `then`: its contract says nothing of a list that the closure has borrowed where it is not called.
    if reconvergence_fits(edges, delays, order, sums, unequal, room) {
        Some(find_unequal(edges, delays, order, sums, unequal, room))
    } else {
        None
    }
}

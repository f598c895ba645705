// The lists before a node is taken: how many edges end at each node, sums of 0, and the nodes where no edge ends.
ghost use Rattle.std.specs.Prelude.{◌≡◌, ◌≤◌, length};
ghost use Rattle.graph.specs.Adjacency.{Below};
ghost use Rattle.reconvergence.specs.Lent.{SamePathSums, SameSumRoom, Kept, roomy};
ghost use Rattle.reconvergence.specs.Pass.{Waiting, Started};

use crate::lent::{PathSums, SumRoom};
use graph::end_counts::count_ends;

// Fills the lists for n nodes and answers how many nodes wait in queue.
pub(crate) fn start(
    sinks: &[usize],
    n: usize,
    sums: &mut PathSums<'_>,
    room: &mut SumRoom<'_>,
) -> usize
    requires { Below n sinks.now × roomy n sums.old room.old }
    ensures same_sums { SamePathSums sums.old sums.new }
    ensures same_room { SameSumRoom room.old room.new }
    ensures started { Started n sinks.now room.new.incoming.now room.new.left.now sums.new.smallest.now sums.new.largest.now room.new.queue.now result }
    ensures kept { Kept n sums.old sums.new room.old room.new }
{
    // cut to the nodes: the entries past them count nothing
    let incoming = &mut *room.incoming;
    let smallest = &mut *sums.smallest;
    let largest = &mut *sums.largest;
    count_ends(sinks, &mut incoming[..n]);
    smallest[..n].fill(0);
    largest[..n].fill(0);
    list_ready(n, room)
}

// All edges into a node are left; the nodes with none wait.
fn list_ready(n: usize, room: &mut SumRoom<'_>) -> usize
    requires { (n ≤ length room.old.incoming.now) × (n ≤ length room.old.left.now) × (n ≤ length room.old.queue.now) }
    ensures same { SameSumRoom room.old room.new }
    ensures ready { Waiting n room.new.incoming.now room.new.left.now room.new.queue.now result }
    ensures counts { room.new.incoming.now ≡ room.old.incoming.now }
    ensures heads { room.new.head.now ≡ room.old.head.now }
    ensures links { room.new.next.now ≡ room.old.next.now }
{
    let mut count = 0;
    // one index: v is the place in two lists, and what is written to the third; the count is the answer
    for v in 0..n {
        let edges = room.incoming[v];
        room.left[v] = edges;
        if edges == 0 {
            room.queue[count] = v;
            count += 1;
        }
    }
    count
}

// A group for each strongly connected component, by the algorithm of Kosaraju and Sharir, and marks from the groups.
ghost use Rattle.std.specs.Prelude.{◌≡◌, length};
ghost use Rattle.rules.specs.Graph.{edges_between};
ghost use Rattle.graph.specs.Groups.{Lent, Grouped, Rooted, group_marks};

use crate::adjacency::index_within;
use crate::collect::collect;
use crate::edges::{Edges, Links};
use crate::visit_order::visit_order;

// Gives each node a node of its strongly connected component, one and the same for all of them. The visits' order is
// taken from its end, and what is collected goes along the edges backwards: only then is it one component each time.
// The lists come one by one, head, next and group cut to the graph: from the room's struct each pass would cut its part anew,
// since head and next are made twice, which is no plainer.
pub(crate) fn strongly_connected_components(
    edges: &Edges<'_>,
    marks: &mut [u8],
    head: &mut [usize],
    next: &mut [usize],
    order: &mut [usize],
    group: &mut [usize],
)
    requires { Lent edges.now.sources.now edges.now.sinks.now marks.old head.old next.old order.old group.old }
    ensures { Grouped (edges_between edges.now.sources.now edges.now.sinks.now) (length marks.old) group.new }
{
    index_within(edges.sources, head, next);
    marks.fill(0);
    let forwards = Links {
        head,
        next,
        ends: edges.sinks,
    };
    let count = visit_order(&forwards, marks, order);
    index_within(edges.sinks, head, next);
    marks.fill(0);
    let backwards = Links {
        head,
        next,
        ends: edges.sources,
    };
    for &root in order[..count].iter().rev() {
        if marks[root] == 0 {
            collect(&backwards, marks, group, root, root);
        }
    }
}

// Marks each node that shares its group with a different one: a node that is not its group's root, and that root.
pub(crate) fn mark_shared(group: &[usize], marks: &mut [u8])
    requires { Rooted (length marks.old) group.now }
    ensures { marks.new ≡ group_marks group.now }
{
    marks.fill(0);
    for (u, &root) in group.iter().enumerate() {
        if root != u {
            marks[u] = 1;
            marks[root] = 1;
        }
    }
}

// Depth-first visits, and the order in which they leave the nodes: each after all that its visit met.
ghost use Rattle.std.specs.Prelude.{◌<◌, [], ◌∷◌, length};
ghost use Rattle.rules.specs.Lists.{indices};
ghost use Rattle.graph.specs.Adjacency.{ends};
ghost use Rattle.graph.specs.Visits.{Visitable, VisitedAlong};

use crate::edges::Links;

// Visits every node in turn, from marks that are the seen nodes, and answers how many nodes it wrote to order. The lists come
// one by one: each visit of a struct of them would have to promise besides that its links are the same, which is no plainer.
// The count stands beside order, since there is no heap.
pub(crate) fn visit_order(links: &Links<'_>, marks: &mut [u8], order: &mut [usize]) -> usize
    requires { Visitable links.now marks.old order.old 0 }
    ensures { VisitedAlong links.now (indices (length links.now.head.now)) marks.old order.old 0 marks.new order.new result }
{
    let mut count = 0;
    for u in 0..links.head.len() {
        count = visit(links, marks, order, count, u);
    }
    count
}

// Visits u if it was not seen, and all that it reaches through nodes not seen yet; order has count nodes so far.
#[cycle(visit_walk)]
fn visit(links: &Links<'_>, marks: &mut [u8], order: &mut [usize], count: usize, u: usize) -> usize
    requires { Visitable links.now marks.old order.old count × (u < length links.now.head.now) }
    ensures { VisitedAlong links.now (u ∷ []) marks.old order.old count marks.new order.new result }
{
    if marks[u] != 0 {
        return count;
    }
    marks[u] = 1;
    let done = walk(links, marks, order, count, links.head[u]);
    order[done] = u;
    done + 1
}

// Visits the ends of the edges on the chain from first on. A loop, so that the depth of the calls is that of the visits. They end:
// a visit leaves one node fewer unseen, and a walk visits only where an edge is left of its chain (`visits_left`).
#[cycle(visit_walk)]
fn walk(
    links: &Links<'_>,
    marks: &mut [u8],
    order: &mut [usize],
    count: usize,
    first: usize,
) -> usize
    requires { Visitable links.now marks.old order.old count }
    ensures { VisitedAlong links.now (ends links.now.next.now links.now.ends.now first) marks.old order.old count marks.new order.new result }
{
    let mut done = count;
    for e in links.chain(first) {
        let v = links.ends[e];
        // the same where it was seen: most edges lead there, and a call would take longer than this test
        if marks[v] == 0 {
            done = visit(links, marks, order, done, v);
        }
    }
    done
}

// Edges linked by the node that they leave: head[u] is the first edge that leaves u and next[e] the one after e, each
// past the last edge if there is none.
// Two lent arrays, and no list for each node: there is no heap, and together they have an entry for each node and each edge.
ghost use Rattle.std.specs.Prelude.{◌<◌, ◌≡◌, length, replicate};
ghost use Rattle.graph.specs.Adjacency.{Below, Indexed};
ghost use Rattle.graph.specs.Fits.{EdgesIndexed, ends_below};

// Links the edges by the ends in `ends`. There is a node for each entry of head, and next must have an entry for each
// edge and no more. If it does not, or an end is no node, the answer is false and both lists keep their contents.
/// By which number past the last edge a chain ends is open: any that is past it does.
pub fn index_edges(ends: &[usize], head: &mut [usize], next: &mut [usize]) -> bool
    ensures { EdgesIndexed ends.now head.old next.old head.new next.new result }
{
    if next.len() != ends.len() || !ends_below(ends, head.len()) {
        return false;
    }
    index_within(ends, head, next);
    true
}

// Whether each end is one of the nodes below n. Not inlined: in a large function its registers would change places in each
// turn.
#[inline(never)]
pub fn ends_below(ends: &[usize], n: usize) -> bool
    ensures { result ≡ ends_below n ends.now }
{
    // four in a turn take little more than half as long as one in each
    let mut rest = ends;
    while let Some((four, more)) = rest.split_first_chunk::<4>() {
        if !all_below(four, n) {
            return false;
        }
        rest = more;
    }
    all_below(rest, n)
}

// The same, one by one.
fn all_below(ends: &[usize], n: usize) -> bool
    ensures { result ≡ ends_below n ends.now }
{
    ends.iter().all(|&end| end < n)
}

// Links the edges by the ends in sources.
pub(crate) fn index_within(sources: &[usize], head: &mut [usize], next: &mut [usize])
    requires { (length next.old ≡ length sources.now) × Below (length head.old) sources.now }
    ensures { Indexed sources.now head.new next.new }
{
    // no edge leaves any node yet
    head.fill(sources.len());
    link_edges(sources, head, next);
}

// Puts the edges in front of their chains from the last to the first, so that each chain is in the edges' order.
fn link_edges(sources: &[usize], head: &mut [usize], next: &mut [usize])
    requires { (length next.old ≡ length sources.now) × Below (length head.old) sources.now × (head.old ≡ replicate (length head.old) (length sources.now)) }
    ensures { Indexed sources.now head.new next.new }
{
    for (e, &u) in sources.iter().enumerate().rev() {
        next[e] = head[u];
        head[u] = e;
    }
}

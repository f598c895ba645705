// Whether the lists fit, test by test.
ghost use Rattle.std.specs.Prelude.{◌≡◌, length};
ghost use Rattle.reconvergence.specs.Fits.{given_fits, answers_fit, work_fits, reconvergence_fits};
ghost use Rattle.reconvergence.specs.Lent.{lists_fit};

use crate::lent::{Delays, PathSums, SumRoom};
use graph::adjacency::ends_below;
use graph::edges::Edges;

// Whether all lists fit. They come as the call is lent them, as those of find_unequal do.
#[tactic(auto, unfolding(crate::specs::Fits::reconvergence_fits))]
pub(crate) fn reconvergence_fits(
    edges: &Edges<'_>,
    delays: &Delays<'_>,
    order: &[usize],
    sums: &PathSums<'_>,
    unequal: &[usize],
    room: &SumRoom<'_>,
) -> bool
    ensures { result ≡ lists_fit edges.now delays.now order.now sums.now unequal.now room.now }
{
    let n = delays.low.len();
    given_fits(edges, order, n, delays.high.len())
        && answers_fit(n, order.len(), sums, unequal.len())
        && work_fits(n, edges.sources.len(), room)
}

// Whether the edges, the delays and the positions to list are those of a graph of n nodes.
#[tactic(auto, unfolding(crate::specs::Fits::given_fits))]
fn given_fits(edges: &Edges<'_>, order: &[usize], n: usize, highs: usize) -> bool
    ensures { result ≡ given_fits edges.now.sources.now edges.now.sinks.now order.now n highs }
{
    edges.sinks.len() == edges.sources.len()
        && highs == n
        && ends_below(edges.sources, n)
        && ends_below(edges.sinks, n)
        && ends_below(order, n)
}

// Whether there is room for the answers. A test under a name, as the next: written out in its only caller it is no plainer.
#[tactic(auto, unfolding(crate::specs::Fits::answers_fit))]
fn answers_fit(n: usize, listed: usize, sums: &PathSums<'_>, unequal: usize) -> bool
    ensures { result ≡ answers_fit n listed (length sums.now.settled.now) (length sums.now.smallest.now) (length sums.now.largest.now) unequal }
{
    n <= sums.settled.len()
        && n <= sums.smallest.len()
        && n <= sums.largest.len()
        && listed <= unequal
}

// Whether there is room to work in, for n nodes and m edges.
#[tactic(auto, unfolding(crate::specs::Fits::work_fits))]
fn work_fits(n: usize, m: usize, room: &SumRoom<'_>) -> bool
    ensures { result ≡ work_fits n m (length room.now.head.now) (length room.now.next.now) (length room.now.incoming.now) (length room.now.left.now) (length room.now.queue.now) }
{
    n <= room.head.len()
        && m <= room.next.len()
        && n <= room.incoming.len()
        && n <= room.left.len()
        && n <= room.queue.len()
}

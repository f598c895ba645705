// The lists that are read, written and lent to work in.
ghost use Rattle.std.specs.Prelude.{◌≡◌, ◌<◌, length};
ghost use Rattle.reconvergence.specs.Worklist.{range_at};

use rules::delay::DelayRange;

// The delay of each node.
#[derive(Clone, Copy)]
pub struct Delays<'a> {
    pub low: &'a [u32],
    pub high: &'a [u32],
}

impl Delays<'_> {
    // The delay of node v.
    pub(crate) fn at(&self, v: usize) -> DelayRange
        requires { (v < length self.now.low.now) × (v < length self.now.high.now) }
        ensures { result ≡ range_at self.now.low.now self.now.high.now v }
    {
        range_at(self.low, self.high, v)
    }
}

// The answers for each node: whether it is settled, and the smallest and the largest sum of the paths to it. A list for each,
// and bytes where a bool would do, as C lends them.
#[derive(Drop)]
pub struct PathSums<'a> {
    pub settled: &'a mut [u8],
    pub smallest: &'a mut [u32],
    pub largest: &'a mut [u32],
}

impl PathSums<'_> {
    // The sums of the paths to node v.
    pub(crate) fn at(&self, v: usize) -> DelayRange
        requires { (v < length self.now.smallest.now) × (v < length self.now.largest.now) }
        ensures { result ≡ range_at self.now.smallest.now self.now.largest.now v }
    {
        range_at(self.smallest, self.largest, v)
    }
}

// The range whose ends the two lists have at v.
fn range_at(low: &[u32], high: &[u32], v: usize) -> DelayRange
    requires { (v < length low.now) × (v < length high.now) }
    ensures { result ≡ range_at low.now high.now v }
{
    DelayRange {
        minimum_redstone_ticks: low[v],
        maximum_redstone_ticks: high[v],
    }
}

// Room to work in: next has an entry for each edge, the others have one for each node.
#[derive(Drop)]
pub struct SumRoom<'a> {
    pub head: &'a mut [usize],
    pub next: &'a mut [usize],
    pub incoming: &'a mut [usize],
    pub left: &'a mut [usize],
    pub queue: &'a mut [usize],
}

// Marks and positions from the lists at the end of the pass.
ghost use Rattle.std.specs.Prelude.{◌≤◌, ◌≡◌, length};
ghost use Rattle.rules.specs.Lists.{keep, written};
ghost use Rattle.graph.specs.Adjacency.{Below};
ghost use Rattle.reconvergence.specs.Pass.{done_marks, differs_at};

use crate::lent::PathSums;

// Marks the nodes with no edge left.
pub(crate) fn mark_settled(left: &[usize], settled: &mut [u8])
    requires { length settled.old ≡ length left.now }
    ensures { settled.new ≡ done_marks left.now }
{
    // after `settled.iter_mut().zip(left)` the proof doesn't know what the entries hold
    for (v, &edges) in left.iter().enumerate() {
        settled[v] = u8::from(edges == 0);
    }
}

// Lists the nodes of order with two edges or more into them and two sums that differ, and answers how many they are. There is
// no heap for a Vec: the list is lent, and the count is the answer.
pub(crate) fn list_unequal(
    order: &[usize],
    incoming: &[usize],
    sums: &PathSums<'_>,
    unequal: &mut [usize],
) -> usize
    requires { Below (length incoming.now) order.now × Below (length sums.now.smallest.now) order.now × Below (length sums.now.largest.now) order.now × (length order.now ≤ length unequal.old) }
    ensures listed { unequal.new ≡ written unequal.old (keep (differs_at incoming.now sums.now.smallest.now sums.now.largest.now) order.now) }
    ensures counted { result ≡ length (keep (differs_at incoming.now sums.now.smallest.now sums.now.largest.now) order.now) }
{
    let mut count = 0;
    for &v in order {
        if 2 <= incoming[v] && sums.smallest[v] != sums.largest[v] {
            unequal[count] = v;
            count += 1;
        }
    }
    count
}

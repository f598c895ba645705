// The edges that chains begin with.
ghost use Rattle.std.specs.Prelude.{◌+◌, ◌<◌, ◌≤◌, length};
ghost use Rattle.projection.specs.Marking.{linked, firsts_by, Listable, RowWritten};

use crate::links::Links;

// Lists the edges out of the retained nodes, node by node in the given order, and answers how many there are.
pub(crate) fn list_first_edges(
    links: &Links<'_>,
    marks: &[u8],
    order: &[usize],
    firsts: &mut [usize],
) -> usize
    requires { Listable links.now.head.now links.now.next.now marks.now order.now firsts.old }
    ensures { RowWritten (firsts_by (linked links.now.head.now links.now.next.now) marks.now order.now) 0 firsts.old firsts.new result }
{
    let mut count = 0;
    for &v in order {
        if marks[v] != 0 {
            count = list_leaving(links, v, firsts, count);
        }
    }
    count
}

// Lists the edges out of v from the place count on, and answers the place after the last.
fn list_leaving(links: &Links<'_>, v: usize, list: &mut [usize], count: usize) -> usize
    requires { (v < length links.now.head.now) × (count + length (linked links.now.head.now links.now.next.now v) ≤ length list.old) }
    ensures { RowWritten (linked links.now.head.now links.now.next.now v) count list.old list.new result }
{
    let mut place = count;
    // counted by hand: the place after the last is the answer, and how long the chain is shows at its end
    for e in links.leaving(v) {
        list[place] = e;
        place += 1;
    }
    place
}

// The call for C that marks strongly connected components. C hands over its lists one by one: a list is a pointer and the
// number of its entries.
ghost use Rattle.graph.specs.Fits.{SharedMarked};

use graph::edges::{Edges, GroupRoom};
use graph::mark_shared_components;

// mark_shared_components for C.
/// What `head`, `next`, `order` and `group` hold after a call whose lists fit is open; else every list keeps its values.
#[unsafe(no_mangle)]
pub extern "C" fn sizhbanto_mark_shared_components(
    sources: &[usize],
    sinks: &[usize],
    marks: &mut [u8],
    head: &mut [usize],
    next: &mut [usize],
    order: &mut [usize],
    group: &mut [usize],
) -> bool
    ensures { SharedMarked sources.now sinks.now marks.old head.old next.old order.old group.old marks.new head.new next.new order.new group.new result }
{
    let edges = Edges { sources, sinks };
    let mut room = GroupRoom {
        head,
        next,
        order,
        group,
    };
    mark_shared_components(&edges, marks, &mut room)
}

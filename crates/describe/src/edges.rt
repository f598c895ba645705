// List 0: the timed edges, from the edges over positions.
ghost use Rattle.std.specs.Prelude.{◌≡◌, map, ◌≤◌, length};
ghost use Rattle.rules.specs.Lists.{indices, written};
ghost use Rattle.rules.specs.Refusals.{scene_limits};
ghost use Rattle.rules.specs.Lent.{SameTimedEdges};
ghost use Rattle.describe.specs.Rows.{timing_at_position, EdgeRoom, EdgesListed};

use graph::edges::Edges;
use rules::delay::DelayRange;
use rules::kinds::{EdgeBehavior, EdgeTiming};
use rules::lent::{Components, TimedEdgeLists};
use rules::limits::MAX_COMPONENTS;
use tables::kinds::edge_timing;

const UNTIMED: EdgeTiming = EdgeTiming {
    delay: DelayRange::ZERO,
    behavior: EdgeBehavior::Immediate,
};

// Writes what the edges out of each component take from it: the table is read once for each component, not for each edge.
// fill_delays of reasons goes alike: one function for both would take the look-up as a closure, with clauses on what it
// answers, and be no plainer.
fn fill_timings(components: &Components<'_>, timings: &mut [EdgeTiming])
    requires aligned { length components.now.delays.now ≡ length components.now.kinds.now }
    requires room { length components.now.kinds.now ≤ length timings.old }
    ensures { timings.new ≡ written timings.old (map (timing_at_position components.now.kinds.now components.now.delays.now) (indices (length components.now.kinds.now))) }
{
    // by index: of entries that `timings.iter_mut().zip(..)` lends, a proof knows nothing once the loop is over
    for (i, &kind) in components.kinds.iter().enumerate() {
        timings[i] = edge_timing(kind, components.delays[i]);
    }
}

// Writes an entry for each edge: the ids of its ends, and what it takes from its source.
pub(crate) fn list_timed_edges(
    components: &Components<'_>,
    edges: &Edges<'_>,
    lists: &mut TimedEdgeLists<'_>,
)
    requires room { EdgeRoom components.now edges.now lists.old }
    requires few { length components.now.ids.now ≤ scene_limits.components }
    ensures same { SameTimedEdges lists.old lists.new }
    ensures listed { EdgesListed components.now edges.now lists.old lists.new }
{
    let mut timings = [UNTIMED; MAX_COMPONENTS];
    fill_timings(components, &mut timings);
    // one index, of the sink and of the five lists that are written
    for (e, &start) in edges.sources.iter().enumerate() {
        let stop = edges.sinks[e];
        let timing = timings[start];
        lists.sources[e] = components.ids[start];
        lists.sinks[e] = components.ids[stop];
        lists.minimums[e] = timing.delay.minimum_redstone_ticks;
        lists.maximums[e] = timing.delay.maximum_redstone_ticks;
        lists.behaviors[e] = u8::from(timing.behavior);
    }
}

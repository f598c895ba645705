// Path sums, and labels from them.
ghost use Rattle.std.specs.Prelude.{◌≡◌, map, ◌≤◌, length};
ghost use Rattle.rules.specs.Lent.{SameLabels};
ghost use Rattle.rules.specs.Lists.{indices, written};
ghost use Rattle.rules.specs.Ordered.{key_at};
ghost use Rattle.rules.specs.Graph.{edges_between};
ghost use Rattle.reasons.specs.Lent.{labels_lent};
ghost use Rattle.reasons.specs.Over.{position_delay};
ghost use Rattle.reasons.specs.Sums.{Summable, PathsSummed, Cleared};

use graph::edges::Edges;
use reconvergence::lent::{Delays, PathSums, SumRoom};
use reconvergence::reconvergent_delay_reasons;
use rules::lent::{Components, LabelLists};
use rules::limits::{MAX_COMPONENTS, MAX_CONNECTIONS};
use tables::kinds::component_delay;

// Writes to the labels for each component whether it is settled and its smallest and largest path sum, and answers those
// positions of order where delays are unequal, written to the front of room.
pub(crate) fn sum_paths<'u>(
    components: &Components<'_>,
    edges: &Edges<'_>,
    order: &[usize],
    labels: &mut LabelLists<'_>,
    room: &'u mut [usize],
) -> &'u [usize]
    requires { (length components.now.delays.now ≡ length components.now.kinds.now) × Summable (length components.now.kinds.now) edges.now.sources.now edges.now.sinks.now order.now (labels_lent labels.old) room.old }
    ensures same { SameLabels labels.old labels.new }
    ensures summed { PathsSummed (edges_between edges.now.sources.now edges.now.sinks.now) (position_delay components.now.kinds.now components.now.delays.now) (length components.now.kinds.now) order.now (labels_lent labels.old) (labels_lent labels.new) result.now }
{
    let mut delays = [0u32; MAX_COMPONENTS];
    let front = &mut delays[..components.kinds.len()];
    fill_delays(components.kinds, components.delays, front);
    sum_delays(front, edges, order, labels, room)
}

// Writes the delay of each component.
fn fill_delays(kinds: &[u8], words: &[u16], delays: &mut [u32])
    requires { (length words.now ≡ length kinds.now) × (length delays.old ≡ length kinds.now) }
    ensures { delays.new ≡ map (position_delay kinds.now words.now) (indices (length kinds.now)) }
{
    // by index: of entries that iter_mut().zip(..) lends, a proof knows nothing; a zip of kinds and words alone took an eighth
    // longer
    for (i, &kind) in kinds.iter().enumerate() {
        delays[i] = component_delay(kind, words[i]);
    }
}

// The sums by the delays, which are both the low and the high ones. Its lists come as the pass over them takes them.
fn sum_delays<'u>(
    delays: &[u32],
    edges: &Edges<'_>,
    order: &[usize],
    labels: &mut LabelLists<'_>,
    room: &'u mut [usize],
) -> &'u [usize]
    requires { Summable (length delays.now) edges.now.sources.now edges.now.sinks.now order.now (labels_lent labels.old) room.old }
    ensures same { SameLabels labels.old labels.new }
    ensures summed { PathsSummed (edges_between edges.now.sources.now edges.now.sinks.now) (key_at delays.now) (length delays.now) order.now (labels_lent labels.old) (labels_lent labels.new) result.now }
{
    let count = reconvergent_delay_reasons(
        edges,
        &Delays {
            low: delays,
            high: delays,
        },
        order,
        &mut PathSums {
            settled: labels.settled,
            smallest: labels.lows,
            largest: labels.highs,
        },
        room,
        &mut SumRoom {
            head: &mut [0; MAX_COMPONENTS],
            next: &mut [0; MAX_CONNECTIONS],
            incoming: &mut [0; MAX_COMPONENTS],
            left: &mut [0; MAX_COMPONENTS],
            queue: &mut [0; MAX_COMPONENTS],
        },
    )
    .unwrap();
    &room[..count]
}

// Sets the sums of the first n components to 0 where they are not settled.
pub(crate) fn clear_unsettled(labels: &mut LabelLists<'_>, n: usize)
    requires { (n ≤ length labels.old.settled.now) × (n ≤ length labels.old.lows.now) × (n ≤ length labels.old.highs.now) }
    ensures same { SameLabels labels.old labels.new }
    ensures cleared { Cleared n (labels_lent labels.old) (labels_lent labels.new) }
{
    // one index: one list is read, and two are written
    for v in 0..n {
        if labels.settled[v] == 0 {
            labels.lows[v] = 0;
            labels.highs[v] = 0;
        }
    }
}

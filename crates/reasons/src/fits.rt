// Whether the lists of an assessment fit, test by test.
ghost use Rattle.std.specs.Prelude.{◌≡◌};
ghost use Rattle.rules.specs.Lent.{components_lent};
ghost use Rattle.reasons.specs.Fits.{edges_fit, components_fit, order_fits, reasons_fit};
ghost use Rattle.reasons.specs.Lent.{reasons_lent, labels_lent};

use graph::adjacency::ends_below;
use graph::edges::Edges;
use lengths::each_at_least;
use rules::lent::{Components, LabelLists, ReasonLists};
use rules::limits::{MAX_COMPONENTS, MAX_CONNECTIONS};

// Whether all of them fit. They come one by one, as assess_within says; assessment_room of assess has their lengths too, but
// takes the shortest, where here each is tested.
#[tactic(auto, unfolding(crate::specs::Fits::reasons_fit, crate::specs::Fits::reasons_room, crate::specs::Fits::labels_room))]
pub(crate) fn reasons_fit(
    components: &Components<'_>,
    edges: &Edges<'_>,
    order: &[usize],
    reasons: &ReasonLists<'_>,
    feedback_ids: &[u64],
    labels: &LabelLists<'_>,
) -> bool
    ensures { result ≡ reasons_fit (components_lent components.now) edges.now.sources.now edges.now.sinks.now order.now (reasons_lent reasons.now) feedback_ids.now (labels_lent labels.now) }
{
    let n = components.ids.len();
    let reason_lengths = [
        reasons.kinds.len(),
        reasons.components.len(),
        reasons.blocks.len(),
        reasons.minimums.len(),
        reasons.maximums.len(),
    ];
    let label_lengths = [
        feedback_ids.len(),
        labels.settled.len(),
        labels.lows.len(),
        labels.highs.len(),
    ];
    components_fit(components)
        && edges_fit(edges, n)
        && order_fits(order, n)
        && each_at_least(2 * n + 1, &reason_lengths)
        && each_at_least(n, &label_lengths)
}

// Whether each component has a kind, a delay word and a flag, and there are not too many.
#[tactic(auto, unfolding(crate::specs::Fits::components_fit))]
fn components_fit(components: &Components<'_>) -> bool
    ensures { result ≡ components_fit (components_lent components.now) }
{
    let n = components.ids.len();
    components.kinds.len() == n
        && components.delays.len() == n
        && components.locked.len() == n
        && n <= MAX_COMPONENTS
}

// Whether the edges are between n positions, and not too many.
#[tactic(auto, unfolding(crate::specs::Fits::edges_fit))]
pub(crate) fn edges_fit(edges: &Edges<'_>, n: usize) -> bool
    ensures { result ≡ edges_fit edges.now.sources.now edges.now.sinks.now n }
{
    edges.sinks.len() == edges.sources.len()
        && edges.sources.len() <= MAX_CONNECTIONS
        && ends_below(edges.sources, n)
        && ends_below(edges.sinks, n)
}

// Whether order has some of n positions, and no more.
#[tactic(auto, unfolding(crate::specs::Fits::order_fits))]
fn order_fits(order: &[usize], n: usize) -> bool
    ensures { result ≡ order_fits order.now n }
{
    order.len() <= n && ends_below(order, n)
}

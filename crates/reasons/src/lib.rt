// Reasons, Feedback ids, labels, scope and pattern of a scene whose edges are given over the positions of its components.
#![tactic(auto)]

ghost use Rattle.std.specs.Prelude.{length};
ghost use Rattle.rules.specs.Lent.{SameReasons, SameLabels, components_lent};
ghost use Rattle.reasons.specs.Assessed.{Assessable, OutputRoom, ReasonsFound, ReasonsCall};
ghost use Rattle.reasons.specs.Lent.{reasons_lent, labels_lent};

use crate::feedback::list_flagged;
use crate::fits::reasons_fit;
use crate::labels::{clear_unsettled, sum_paths};
use crate::pattern::classify_behavior_patterns;
use crate::rows::{list_temporal_reasons, list_unequal_reasons};
use crate::scope::temporal_scope;
use graph::edges::Edges;
use rules::answers::{BehaviorPattern, TemporalScope};
use rules::lent::{Components, LabelLists, ReasonLists};
use rules::limits::MAX_COMPONENTS;

pub mod feedback; // feedback.rt: the components of list 4
mod fits; // fits.rt: whether the lists fit
mod labels; // labels.rt: path sums, and labels from them
mod pattern; // pattern.rt: patterns
mod rows; // rows.rt: the reasons of list 3
mod scope; // scope.rt: the scope from the counts of reasons

// How many entries of lists 3 and 4 are used; scope and pattern.
#[derive(Clone, Copy, PartialEq, Eq, Debug)]
pub struct ReasonsAssessed {
    pub reasons: usize,
    pub feedback: usize,
    pub scope: TemporalScope,
    pub pattern: BehaviorPattern,
}

// Writes the reasons of list 3, the ids of list 4 and the labels of list 8, given the edges between positions of
// components; order has the positions at which unequal delays are looked for, by rising id where the scene calls it. The
// lists must fit: a kind, a delay word and a locked flag for each id and no more ids than a scene may have; as many sinks
// as sources and no more than a scene may have, each one a position; no more entries of order than ids, each a position;
// and the room that document 01 asks for lists 3, 4 and 8. If they do not, every list keeps its content and the answer is
// None.
#[tactic(auto, using(crate::proofs::Fitting::reasons_fitted))]
pub fn assess_reasons(
    components: &Components<'_>,
    edges: &Edges<'_>,
    order: &[usize],
    reasons: &mut ReasonLists<'_>,
    feedback_ids: &mut [u64],
    labels: &mut LabelLists<'_>,
) -> Option<ReasonsAssessed>
    ensures same_reasons { SameReasons reasons.old reasons.new }
    ensures same_labels { SameLabels labels.old labels.new }
    ensures assessed { ReasonsCall (components_lent components.now) edges.now.sources.now edges.now.sinks.now order.now (reasons_lent reasons.old) feedback_ids.old (labels_lent labels.old) (reasons_lent reasons.new) feedback_ids.new (labels_lent labels.new) result }
{
    // No `then`: its contract says nothing of lists that the closure has borrowed where it is not called.
    if reasons_fit(components, edges, order, reasons, feedback_ids, labels) {
        Some(assess_within(components, edges, order, reasons, feedback_ids, labels))
    } else {
        None
    }
}

// The same for lists that fit. The label columns first hold every path sum, also those of unsettled components, from which
// the unequal-delay reasons are listed. The lists come one by one, as the call is lent them: a struct of them would be made
// for this call and taken apart here.
fn assess_within(
    components: &Components<'_>,
    edges: &Edges<'_>,
    order: &[usize],
    reasons: &mut ReasonLists<'_>,
    feedback_ids: &mut [u64],
    labels: &mut LabelLists<'_>,
) -> ReasonsAssessed
    requires { Assessable (components_lent components.now) edges.now.sources.now edges.now.sinks.now order.now × OutputRoom (length components.now.ids.now) (reasons_lent reasons.old) feedback_ids.old (labels_lent labels.old) }
    ensures same_reasons { SameReasons reasons.old reasons.new }
    ensures same_labels { SameLabels labels.old labels.new }
    ensures found { ReasonsFound (components_lent components.now) edges.now.sources.now edges.now.sinks.now order.now (reasons_lent reasons.old) feedback_ids.old (labels_lent labels.old) (reasons_lent reasons.new) feedback_ids.new (labels_lent labels.new) result }
{
    let mut room = [0usize; MAX_COMPONENTS];
    let mut marks = [0u8; MAX_COMPONENTS];
    let Components { ids, kinds, .. } = *components;
    let unequal = sum_paths(components, edges, order, labels, &mut room);
    let feedback = list_flagged(ids, kinds, edges, labels, &mut marks, feedback_ids);
    let temporal = list_temporal_reasons(components, feedback, reasons);
    let all = list_unequal_reasons(ids, labels, unequal, temporal, reasons);
    clear_unsettled(labels, ids.len());
    ReasonsAssessed {
        reasons: all,
        feedback,
        scope: temporal_scope(temporal, unequal.len()),
        pattern: classify_behavior_patterns(kinds, &marks, feedback),
    }
}

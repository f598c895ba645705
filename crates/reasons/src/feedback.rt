// The components of list 4, from the edges over positions.
ghost use Rattle.std.specs.Prelude.{◌≡◌, not, ◌&&◌, ◌≤◌, eqb, length, take};
ghost use Rattle.rules.specs.Kinds.{kind_row};
ghost use Rattle.rules.specs.Lists.{written};
ghost use Rattle.rules.specs.Graph.{edges_between, shared_marks};
ghost use Rattle.rules.specs.Reasons.{passive};
ghost use Rattle.reasons.specs.Fits.{feedback_fits};
ghost use Rattle.reasons.specs.Listing.{Linked, Marked, Flagged, listed_ids, shared_ids};
ghost use Rattle.reasons.specs.FeedbackListed.{FeedbackIds};

use crate::fits::edges_fit;
use graph::edges::{Edges, GroupRoom};
use graph::mark_shared_components;
use rules::kinds::TemporalNodeKind;
use rules::lent::LabelLists;
use rules::limits::{MAX_COMPONENTS, MAX_CONNECTIONS};
use tables::kinds::kind_row;

// Lists the ids of list 4, given the edges between positions of components, and answers how many they are. The lists
// must fit: a kind for each id and no more of them than a scene may have, as many sinks as sources and no more than a
// scene may have, each one a position, and room for every id. If they do not, the answer is None and the list keeps its
// content.
#[tactic(auto, using(crate::proofs::Fitting::feedback_fitted))]
pub fn active_feedback_components(
    ids: &[u64],
    kinds: &[u8],
    edges: &Edges<'_>,
    feedback_ids: &mut [u64],
) -> Option<usize>
    ensures { FeedbackIds ids.now kinds.now edges.now.sources.now edges.now.sinks.now feedback_ids.old feedback_ids.new result }
{
    // No `then`: its contract says nothing of a list that the closure has borrowed where it is not called.
    if feedback_fits(edges, ids.len(), kinds.len(), feedback_ids.len()) {
        Some(list_within(ids, kinds, edges, feedback_ids))
    } else {
        None
    }
}

// Whether the edges, the kinds and list 4 fit n ids.
#[tactic(auto, unfolding(crate::specs::Fits::feedback_fits))]
fn feedback_fits(edges: &Edges<'_>, n: usize, kinds: usize, feedback: usize) -> bool
    ensures { result ≡ feedback_fits edges.now.sources.now edges.now.sinks.now n kinds feedback }
{
    kinds == n && n <= MAX_COMPONENTS && n <= feedback && edges_fit(edges, n)
}

// Lists the ids, with marks of its own. Linked is of edges and a number of nodes, and the call for list 4 is lent plain edges:
// a struct with the fact would be made here for three functions.
fn list_within(ids: &[u64], kinds: &[u8], edges: &Edges<'_>, feedback_ids: &mut [u64]) -> usize
    requires { Linked edges.now.sources.now edges.now.sinks.now (length ids.now) × (length kinds.now ≡ length ids.now) × (length ids.now ≤ length feedback_ids.old) }
    ensures ids { feedback_ids.new ≡ written feedback_ids.old (shared_ids ids.now kinds.now edges.now.sources.now edges.now.sinks.now) }
    ensures counted { result ≡ length (shared_ids ids.now kinds.now edges.now.sources.now edges.now.sinks.now) }
{
    let mut marks = [0u8; MAX_COMPONENTS];
    list_shared(ids, kinds, edges, &mut marks, feedback_ids)
}

// The same as list_shared, where flags tell which components are settled. If all are, none is on a cycle, and so none shares its
// strongly connected component with another: nothing is listed or marked, and no pass over the edges is made.
pub(crate) fn list_flagged(
    ids: &[u64],
    kinds: &[u8],
    edges: &Edges<'_>,
    labels: &LabelLists<'_>,
    marks: &mut [u8],
    feedback_ids: &mut [u64],
) -> usize
    requires { Linked edges.now.sources.now edges.now.sinks.now (length ids.now) × Marked ids.now kinds.now marks.old feedback_ids.old × Flagged edges.now.sources.now edges.now.sinks.now (length ids.now) labels.now.settled.now marks.old }
    ensures ids { feedback_ids.new ≡ written feedback_ids.old (shared_ids ids.now kinds.now edges.now.sources.now edges.now.sinks.now) }
    ensures counted { result ≡ length (shared_ids ids.now kinds.now edges.now.sources.now edges.now.sinks.now) }
    ensures marked { take (length ids.now) marks.new ≡ shared_marks (edges_between edges.now.sources.now edges.now.sinks.now) (length ids.now) }
{
    if labels.settled[..ids.len()].contains(&0) {
        list_shared(ids, kinds, edges, marks, feedback_ids)
    } else {
        0
    }
}

// Marks the positions in the front of marks, then lists. Ids and kinds come without the other columns, since the call for
// list 4 alone has no others; list 4 is lent for the call, and its count is what the call answers.
#[tactic(auto, unfolding(crate::specs::Listing::shared_ids))]
pub(crate) fn list_shared(
    ids: &[u64],
    kinds: &[u8],
    edges: &Edges<'_>,
    marks: &mut [u8],
    feedback_ids: &mut [u64],
) -> usize
    requires { Linked edges.now.sources.now edges.now.sinks.now (length ids.now) × Marked ids.now kinds.now marks.old feedback_ids.old }
    ensures ids { feedback_ids.new ≡ written feedback_ids.old (shared_ids ids.now kinds.now edges.now.sources.now edges.now.sinks.now) }
    ensures counted { result ≡ length (shared_ids ids.now kinds.now edges.now.sources.now edges.now.sinks.now) }
    ensures marked { take (length ids.now) marks.new ≡ shared_marks (edges_between edges.now.sources.now edges.now.sinks.now) (length ids.now) }
{
    let n = ids.len();
    mark_positions(edges, &mut marks[..n]);
    list_marked(ids, kinds, &marks[..n], feedback_ids)
}

// Marks each position that shares its strongly connected component with a different one.
fn mark_positions(edges: &Edges<'_>, marks: &mut [u8])
    requires { Linked edges.now.sources.now edges.now.sinks.now (length marks.old) }
    ensures { marks.new ≡ shared_marks (edges_between edges.now.sources.now edges.now.sinks.now) (length marks.old) }
{
    mark_shared_components(
        edges,
        marks,
        &mut GroupRoom {
            head: &mut [0; MAX_COMPONENTS],
            next: &mut [0; MAX_CONNECTIONS],
            order: &mut [0; MAX_COMPONENTS],
            group: &mut [0; MAX_COMPONENTS],
        },
    );
}

// Lists, in component order, the ids of the components that are neither Wire nor Conductor and have a mark.
fn list_marked(ids: &[u64], kinds: &[u8], marks: &[u8], feedback_ids: &mut [u64]) -> usize
    requires { Marked ids.now kinds.now marks.now feedback_ids.old }
    ensures ids { feedback_ids.new ≡ written feedback_ids.old (listed_ids ids.now kinds.now marks.now (length ids.now)) }
    ensures counted { result ≡ length (listed_ids ids.now kinds.now marks.now (length ids.now)) }
{
    let mut count = 0;
    for ((&id, &kind), &mark) in ids.iter().zip(kinds).zip(marks) {
        if is_listed(kind, mark) {
            feedback_ids[count] = id;
            count += 1;
        }
    }
    count
}

// Whether a component of this kind is neither Wire nor Conductor and its mark is set.
pub(crate) fn is_listed(kind: u8, mark: u8) -> bool
    ensures { result ≡ (not (passive (kind_row kind).node) && not (eqb mark 0)) }
{
    mark != 0
        && !matches!(
            kind_row(kind).node,
            TemporalNodeKind::Wire | TemporalNodeKind::Conductor
        )
}

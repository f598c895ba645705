// What the projection has to know of each component, by position.
ghost use Rattle.std.specs.Prelude.{◌≡◌, ◌≤◌, length};
ghost use Rattle.rules.specs.Lists.{written};
ghost use Rattle.rules.specs.Projection.{is_delayed_invert, compressible_kind};
ghost use Rattle.rules.specs.Refusals.{scene_limits};
ghost use Rattle.assess.specs.Nodes.{delays_of, inverts_of, compressible_of};

use rules::kinds::{EdgeBehavior, TemporalNodeKind};
use rules::lent::Components;
use rules::limits::MAX_COMPONENTS;
use tables::kinds::{delay_by, kind_row};

// The delay of each component, whether its edges invert and whether it is of a kind that may be compressed: 1 or 0, in
// lists of fixed length (no heap) that are lent to the projection, which asks for them apart and as numbers.
#[derive(Drop)]
pub(crate) struct NodeLists {
    pub low: [u32; MAX_COMPONENTS],
    pub inverts: [u8; MAX_COMPONENTS],
    pub compressible: [u8; MAX_COMPONENTS],
}

// Whether edges of a behaviour invert with a delay.
fn inverts(behavior: EdgeBehavior) -> bool
    ensures { result ≡ is_delayed_invert behavior }
{
    behavior == EdgeBehavior::DelayedInvert
}

// Whether a node is a Wire, Conductor or Delay. The kinds that is_listed of reasons passes over lack Delay, so there is no
// common test.
fn is_compressible(node: TemporalNodeKind) -> bool
    ensures { result ≡ compressible_kind node }
{
    matches!(
        node,
        TemporalNodeKind::Wire | TemporalNodeKind::Conductor | TemporalNodeKind::Delay
    )
}

// Fills the lists' fronts, one entry for each component.
#[tactic(auto, unfolding(crate::specs::Nodes::delays_of, crate::specs::Nodes::inverts_of, crate::specs::Nodes::compressible_of))]
pub(crate) fn fill_nodes(components: &Components<'_>, nodes: &mut NodeLists)
    requires aligned { length components.now.delays.now ≡ length components.now.kinds.now }
    requires few { length components.now.kinds.now ≤ scene_limits.components }
    ensures delays { nodes.new.low ≡ written nodes.old.low (delays_of components.now.kinds.now components.now.delays.now) }
    ensures inverts { nodes.new.inverts ≡ written nodes.old.inverts (inverts_of components.now.kinds.now) }
    ensures compressible { nodes.new.compressible ≡ written nodes.old.compressible (compressible_of components.now.kinds.now) }
{
    // one index for the three lists that are written
    for (i, &kind) in components.kinds.iter().enumerate() {
        let row = kind_row(kind);
        nodes.low[i] = delay_by(row.delay, components.delays[i]);
        nodes.inverts[i] = u8::from(inverts(row.behavior));
        nodes.compressible[i] = u8::from(is_compressible(row.node));
    }
}

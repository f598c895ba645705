// The tests of components, one by one: 4, then 3.
ghost use Rattle.std.specs.Prelude.{Some, None, ◌≡◌, cond, ◌||◌, ◌<◌, min, eqb, ltb, length, get_or};
ghost use Rattle.rules.specs.Lent.{components_lent};
ghost use Rattle.rules.specs.Ordered.{ordered};
ghost use Rattle.rules.specs.Refusals.{first_refusal, component_tests, rows};
ghost use Rattle.scene.specs.Steps.{FirstRepeat, Rows};

use rules::answers::{Refusal, RefusalKind};
use rules::kinds::BlockKind;
use rules::lent::Components;
use rules::limits::NO_DELAY;

// The smaller of first and q, where the ids at p and q are equal; first where they are not.
fn earlier_repeat(ids: &[u64], p: usize, q: usize, first: usize) -> usize
    requires { (p < length ids.now) × (q < length ids.now) }
    ensures { result ≡ cond (eqb (get_or ids.now p 0) (get_or ids.now q 0)) (min q first) first }
{
    if ids[p] == ids[q] {
        q.min(first)
    } else {
        first
    }
}

// The least position whose id an earlier one has. No Option: with the number of positions for none, the least is a min, and no
// component is at that place. Equal ids are neighbours in the ordered positions, the later one behind.
pub(crate) fn first_repeat(ids: &[u64], order: &[usize]) -> usize
    requires { order.now ≡ ordered ids.now }
    ensures { FirstRepeat ids.now result }
{
    let mut first = ids.len();
    for &[p, q] in order.array_windows::<2>() {
        first = earlier_repeat(ids, p, q, first);
    }
    first
}

// 4 where a value of a component is out of range.
fn range_refusal(kind: u8, delay: u16, locked: u8) -> Option<RefusalKind>
    ensures { result ≡ cond (ltb 12 kind || (ltb 256 delay || ltb 1 locked)) (Some RefusalKind.ComponentOutOfRange) None }
{
    let out = BlockKind::try_from(kind).is_err() || NO_DELAY < delay || 1 < locked;
    out.then_some(RefusalKind::ComponentOutOfRange)
}

// 3 where component i is the first whose id repeats.
fn repeat_refusal(i: usize, repeat: usize) -> Option<RefusalKind>
    ensures { result ≡ cond (eqb i repeat) (Some RefusalKind.IdUsedEarlier) None }
{
    (i == repeat).then_some(RefusalKind::IdUsedEarlier)
}

// Tests the components one by one. repeat is the first whose id repeats.
pub(crate) fn check_components(components: &Components<'_>, repeat: usize) -> Result<(), Refusal>
    requires { Rows (components_lent components.now) × FirstRepeat components.now.ids.now repeat }
    ensures { result ≡ first_refusal (rows (component_tests (components_lent components.now)) (length components.now.ids.now)) }
{
    let rows = components
        .kinds
        .iter()
        .zip(components.delays)
        .zip(components.locked);
    for (i, ((&kind, &delay), &locked)) in rows.enumerate() {
        let range = range_refusal(kind, delay, locked);
        let used = repeat_refusal(i, repeat);
        if let Some(kind) = range.or(used) {
            let place = i as u64;
            return Err(Refusal { kind, place });
        }
    }
    Ok(())
}

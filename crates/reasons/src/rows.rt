// The reasons of list 3, written to its columns.
ghost use Rattle.std.specs.Prelude.{◌≡◌, List, ◌++◌, map, ℕ, ◌+◌, ◌<◌, length, option_to_list, option_map};
ghost use Rattle.rules.specs.Lent.{SameReasons};
ghost use Rattle.rules.specs.Reasons.{feedback_reason, own_reason};
ghost use Rattle.reasons.specs.Lent.{reasons_lent};
ghost use Rattle.reasons.specs.Rows.{ReasonRoom, ReasonPut, ReasonsListed, plain, own_reasons, unequal_row, UnequalAsked};
ghost use Rattle.reasons.specs.Told.{told};

use rules::answers::ReasonKind;
use rules::kinds::BlockKind;
use rules::lent::{Components, LabelLists, ReasonLists};

// A reason, with what it carries.
// block is the kind's number, as list 3 has it: a BlockKind would be turned into the number again.
#[derive(Clone, Copy)]
enum Reason {
    UnequalReconvergentDelay {
        component: u64,
        minimum: u32,
        maximum: u32,
    },
    FeedbackLoop,
    StatefulOrMechanicalDevice {
        component: u64,
        block: u8,
    },
    LockedRepeater {
        component: u64,
    },
}

// Lists one Feedback where something is listed in list 4, then for each component in order its own reason; answers how
// many there are.
pub(crate) fn list_temporal_reasons(
    components: &Components<'_>,
    feedback: usize,
    reasons: &mut ReasonLists<'_>,
) -> usize
    requires { (length components.now.kinds.now ≡ length components.now.ids.now) × (length components.now.locked.now ≡ length components.now.ids.now) × ReasonRoom (1 + length components.now.ids.now) (reasons_lent reasons.old) }
    ensures same { SameReasons reasons.old reasons.new }
    ensures listed { (fs : List ℕ) → feedback ≡ length fs → ReasonsListed 0 (feedback_reason fs ++ own_reasons components.now.ids.now components.now.kinds.now components.now.locked.now (length components.now.ids.now)) (reasons_lent reasons.old) (reasons_lent reasons.new) result }
{
    let Components {
        ids,
        kinds,
        locked,
        ..
    } = *components;
    let mut count = 0;
    if 0 < feedback {
        write_reason(Reason::FeedbackLoop, 0, reasons);
        count = 1;
    }
    for ((&id, &kind), &lock) in ids.iter().zip(kinds).zip(locked) {
        if let Some(reason) = own_reason(id, kind, lock) {
            write_reason(reason, count, reasons);
            count += 1;
        }
    }
    count
}

// The reason that a component has of its own, if it has one.
fn own_reason(id: u64, kind: u8, locked: u8) -> Option<Reason>
    ensures { option_to_list (option_map told result) ≡ own_reason (plain id kind locked) }
{
    match BlockKind::try_from(kind).ok()? {
        BlockKind::Comparator | BlockKind::Piston => Some(Reason::StatefulOrMechanicalDevice {
            component: id,
            block: kind,
        }),
        BlockKind::Repeater => (locked == 1).then_some(Reason::LockedRepeater { component: id }),
        _ => None,
    }
}

// Lists the unequal delays at these positions, with the sums that the labels have for them, from start on; answers where
// they end.
pub(crate) fn list_unequal_reasons(
    ids: &[u64],
    labels: &LabelLists<'_>,
    unequal: &[usize],
    start: usize,
    reasons: &mut ReasonLists<'_>,
) -> usize
    requires { UnequalAsked ids.now labels.now.lows.now labels.now.highs.now unequal.now × ReasonRoom (start + length unequal.now) (reasons_lent reasons.old) }
    ensures same { SameReasons reasons.old reasons.new }
    ensures listed { ReasonsListed start (map (unequal_row ids.now labels.now.lows.now labels.now.highs.now) unequal.now) (reasons_lent reasons.old) (reasons_lent reasons.new) result }
{
    for (k, &v) in unequal.iter().enumerate() {
        let reason = Reason::UnequalReconvergentDelay {
            component: ids[v],
            minimum: labels.lows[v],
            maximum: labels.highs[v],
        };
        write_reason(reason, start + k, reasons);
    }
    start + unequal.len()
}

// Writes a reason to a place of list 3. A field that its case lacks holds 0. The place comes apart: list 3 is lent, and how far
// it is filled is what each function answers.
fn write_reason(reason: Reason, at: usize, reasons: &mut ReasonLists<'_>)
    requires { ReasonRoom (at + 1) (reasons_lent reasons.old) }
    ensures same { SameReasons reasons.old reasons.new }
    ensures put { ReasonPut at (told reason) (reasons_lent reasons.old) (reasons_lent reasons.new) }
{
    let (kind, component, block, minimum, maximum) = match reason {
        Reason::UnequalReconvergentDelay {
            component,
            minimum,
            maximum,
        } => (
            ReasonKind::UnequalReconvergentDelay,
            component,
            0,
            minimum,
            maximum,
        ),
        Reason::FeedbackLoop => (ReasonKind::FeedbackLoop, 0, 0, 0, 0),
        Reason::StatefulOrMechanicalDevice { component, block } => (
            ReasonKind::StatefulOrMechanicalDevice,
            component,
            block,
            0,
            0,
        ),
        Reason::LockedRepeater { component } => (ReasonKind::LockedRepeater, component, 0, 0, 0),
    };
    reasons.kinds[at] = u8::from(kind);
    reasons.components[at] = component;
    reasons.blocks[at] = block;
    reasons.minimums[at] = minimum;
    reasons.maximums[at] = maximum;
}

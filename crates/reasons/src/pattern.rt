// Patterns, from the marks of list 4's components.
ghost use Rattle.std.specs.Prelude.{◌≡◌};
ghost use Rattle.rules.specs.Kinds.{kind_row};
ghost use Rattle.rules.specs.Reasons.{is_inverter};
ghost use Rattle.reasons.specs.Pattern.{marked_pattern, has_listed_inverter, has_device};

use crate::feedback::is_listed;
use rules::answers::BehaviorPattern;
use rules::kinds::TemporalNodeKind;
use tables::kinds::{is_device, kind_row};

// The pattern, where so many components are listed by their marks.
#[tactic(auto, unfolding(crate::specs::Pattern::marked_pattern))]
pub(crate) fn classify_behavior_patterns(
    kinds: &[u8],
    marks: &[u8],
    listed: usize,
) -> BehaviorPattern
    ensures { result ≡ marked_pattern kinds.now marks.now listed }
{
    if 0 < listed {
        if any_inverter(kinds, marks) {
            BehaviorPattern::ClockCandidate
        } else {
            BehaviorPattern::LatchCandidate
        }
    } else if any_device(kinds) {
        BehaviorPattern::DelayedPath
    } else {
        BehaviorPattern::Nothing
    }
}

// Whether an Inverter is listed.
fn any_inverter(kinds: &[u8], marks: &[u8]) -> bool
    ensures { result ≡ has_listed_inverter kinds.now marks.now }
{
    kinds.iter().zip(marks).any(|(&kind, &mark)| is_listed(kind, mark) && is_inverter(kind))
}

fn is_inverter(kind: u8) -> bool
    ensures { result ≡ is_inverter (kind_row kind).node }
{
    kind_row(kind).node == TemporalNodeKind::Inverter
}

// Whether a component is a device. A test under a name, as the one above: written out in its only caller it is no plainer.
fn any_device(kinds: &[u8]) -> bool
    ensures { result ≡ has_device kinds.now }
{
    kinds.iter().any(|&kind| is_device(kind))
}

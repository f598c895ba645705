// The scope, from how many reasons there are.
ghost use Rattle.std.specs.Prelude.{◌≡◌, List, length};
ghost use Rattle.rules.specs.Reasons.{Reason};
ghost use Rattle.reasons.specs.Over.{scope_of};

use rules::answers::TemporalScope;

// temporal is the number of reasons of the first three kinds, unequal that of unequal delays.
#[tactic(auto, using(crate::proofs::PatternSteps::some_listed), unfolding(crate::specs::Over::scope_of))]
pub(crate) fn temporal_scope(temporal: usize, unequal: usize) -> TemporalScope
    ensures { (ts us : List Reason) → temporal ≡ length ts → unequal ≡ length us → result ≡ scope_of ts us }
{
    if 0 < temporal {
        TemporalScope::TemporalRequired
    } else if 0 < unequal {
        TemporalScope::TimingSensitive
    } else {
        TemporalScope::SteadyStateSafe
    }
}

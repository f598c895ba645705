// The call for C that writes lists 0, 1 and 2.
ghost use Rattle.std.specs.Prelude.{Result, ◌≡◌, [], ◌∷◌};
ghost use Rattle.rules.specs.Lent.{components_lent, connections_lent, description_lent, SameDescription};
ghost use Rattle.rules.specs.Refusals.{scene_limits};
ghost use Rattle.rules.specs.Describe.{description_numbers, DescribeCall};
ghost use Rattle.rules.specs.declared.answers.Description.{Description};
ghost use Rattle.rules.specs.declared.answers.Refusal.{Refusal};

use describe::describe::describe_scene;
use rules::answers::{Description, Refusal};
use rules::lent::{DescriptionLists, Scene};

// The number and place of a refusal, 0 and 0 where the scene is accepted; then how many entries of lists 0, 1 and 2
// are used, 0 under a refusal. C has no Result: an answer is its numbers.
#[repr(C)]
#[derive(Drop, Default)]
pub struct DescriptionNumbers {
    pub number: u32,
    pub place: u64,
    pub timed_edges: u64,
    pub devices: u64,
    pub evidence: u64,
}

impl From<Result<Description, Refusal>> for DescriptionNumbers {
    ghost from_gives = { λ answer numbers. numbers.number ∷ numbers.place ∷ numbers.timed_edges ∷ numbers.devices ∷ numbers.evidence ∷ [] ≡ description_numbers answer };

    fn from(answer: Result<Description, Refusal>) -> DescriptionNumbers {
        match answer {
            Ok(description) => DescriptionNumbers {
                number: 0,
                place: 0,
                timed_edges: description.timed_edges,
                devices: description.devices,
                evidence: description.evidence,
            },
            Err(refusal) => DescriptionNumbers {
                number: refusal.kind.into(),
                place: refusal.place,
                ..DescriptionNumbers::default()
            },
        }
    }
}

// describe_scene for C.
#[unsafe(no_mangle)]
pub extern "C" fn sizhbanto_describe_scene(
    scene: &Scene<'_>,
    lists: &mut DescriptionLists<'_>,
) -> DescriptionNumbers
    ensures same { SameDescription lists.old lists.new }
    ensures described { (answer : Result Description Refusal) × DescribeCall scene_limits (components_lent scene.now.components) (connections_lent scene.now.connections) (description_lent lists.old) (description_lent lists.new) answer × (result.number ∷ result.place ∷ result.timed_edges ∷ result.devices ∷ result.evidence ∷ [] ≡ description_numbers answer) }
{
    DescriptionNumbers::from(describe_scene(scene, lists))
}

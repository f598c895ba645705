// The calls for C that order keys and search in the order. C hands over its lists one by one: a list is a pointer and the
// number of its entries, and an answer is its numbers.
ghost use Rattle.std.specs.Prelude.{Option, ℕ, ◌≡◌};
ghost use Rattle.order.specs.Sorted.{SortedPositions};
ghost use Rattle.order.specs.Searched.{Searched, is_found, found_position};

use order::search::find_position;
use order::sort::sort_positions;

// sort_positions for C.
/// What `scratch` holds after an answer of true is open; after false both lists keep their values.
#[unsafe(no_mangle)]
pub extern "C" fn sizhbanto_sort_positions(
    keys: &[u64],
    order: &mut [usize],
    scratch: &mut [usize],
) -> bool
    ensures { SortedPositions keys.now order.old scratch.old order.new scratch.new result }
{
    sort_positions(keys, order, scratch)
}

// Whether the key was found, and its position; 0 where it was not. C has no Option: an answer is its numbers.
#[repr(C)]
#[derive(Drop)]
pub struct FoundNumbers {
    pub found: bool,
    pub position: usize,
}

impl From<Option<usize>> for FoundNumbers {
    ghost from_gives = { λ answer numbers. (numbers.found ≡ is_found answer) × (numbers.position ≡ found_position answer) };

    fn from(answer: Option<usize>) -> FoundNumbers {
        FoundNumbers {
            found: answer.is_some(),
            position: answer.unwrap_or(0),
        }
    }
}

// find_position for C.
/// Where `order` is not the ordered positions of the keys, which position is answered, if any, is open: one that is answered
/// has the key.
#[unsafe(no_mangle)]
pub extern "C" fn sizhbanto_find_position(keys: &[u64], order: &[usize], key: u64) -> FoundNumbers
    ensures { (answer : Option ℕ) × Searched keys.now order.now key answer × (result.found ≡ is_found answer) × (result.position ≡ found_position answer) }
{
    FoundNumbers::from(find_position(keys, order, key))
}

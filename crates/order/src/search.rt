// The first position of a key, by halving the ordered positions.
ghost use Rattle.order.specs.Searched.{Searched};

use crate::keys::key_at;

// Where `order` is the ordered positions of `keys`, answers the first position of the key, or that no position has it.
/// Which position is answered for another `order`, if any, is open: one that is answered has the key.
pub fn find_position(keys: &[u64], order: &[usize], key: u64) -> Option<usize>
    ensures { Searched keys.now order.now key result }
{
    let place = order.partition_point(|&position| key_at(keys, position) < key);
    let &position = order.get(place)?;
    let &found = keys.get(position)?;
    (found == key).then_some(position)
}

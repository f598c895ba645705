// Whether keys rise along a row of positions.
ghost use Rattle.std.specs.Prelude.{◌≡◌, map};
ghost use Rattle.rules.specs.Ordered.{key_at};
ghost use Rattle.order.specs.Rising.{rises};

use crate::keys::key_at;

// Whether along a row of positions each key is above the one before. A position past the last key counts as one of key 0.
pub fn rise_along(keys: &[u64], row: &[usize]) -> bool
    ensures { result ≡ rises (map (key_at keys.now) row.now) }
{
    row.is_sorted_by(|&before, &after| key_at(keys, before) < key_at(keys, after))
}

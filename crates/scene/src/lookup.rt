// The position of an id, by a hash table whose entries are guesses: each is checked, and where none holds the ordered ids are
// searched. So nothing is promised of the table. It is a fixed array: the project has no heap, and so no map.
ghost use Rattle.std.specs.Prelude.{◌≡◌, ◌<◌};
ghost use Rattle.rules.specs.Ordered.{position_of};
ghost use Rattle.scene.specs.Lookup.{GuessHolds, IdIndex};

use order::search::find_position;

// A power of two, eight times the most components that a scene may have: of ids that spread, the first slot guesses right in
// sixteen of seventeen look-ups.
pub(crate) const SLOTS: usize = 4096;

// In how many slots an id is looked for after its first.
const PROBES: usize = 8;

// 2^64 by the golden ratio, and odd: the upper bits of its multiples spread, of ids in a row too.
const SPREAD: u64 = 0x9E37_79B9_7F4A_7C15;

// The slot in which an id is looked for first.
fn first_slot(id: u64) -> usize
    ensures { result < 4096 }
{
    (id.wrapping_mul(SPREAD) >> 52) as usize
}

// The first of the slots in which an id is looked for then. Ids whose first slots crowd, as those that rise by 842, are spread here.
fn next_slot(id: u64) -> usize
    ensures { result < 4096 }
{
    let multiple = id.wrapping_mul(SPREAD);
    first_slot(multiple ^ (multiple >> 32))
}

// Gives each id a slot, which then has one more than its position. A slot without an id has 0.
pub(crate) fn fill_slots(ids: &[u64], slots: &mut [u16; SLOTS]) {
    for (position, &id) in ids.iter().enumerate() {
        if let Ok(link) = u16::try_from(position.wrapping_add(1)) {
            put(id, link, slots);
        }
    }
}

// An id for which no slot is free is found by the search alone.
fn put(id: u64, link: u16, slots: &mut [u16; SLOTS]) {
    if take(first_slot(id), link, slots) {
        return;
    }
    let next = next_slot(id);
    for step in 0..PROBES {
        if take(next + step, link, slots) {
            return;
        }
    }
}

// Gives a slot a link if it has none, and answers whether it does.
fn take(slot: usize, link: u16, slots: &mut [u16; SLOTS]) -> bool {
    let place = &mut slots[slot % SLOTS];
    let is_free = *place == 0;
    if is_free {
        *place = link;
    }
    is_free
}

// Ids that are all different, their positions in order, and slots of guesses at them.
#[derive(Clone, Copy)]
pub(crate) struct IndexedIds<'a> {
    pub ids: &'a [u64],
    pub order: &'a [usize],
    pub slots: &'a [u16; SLOTS],
    ghost indexed: { IdIndex ids.now order.now },
}

impl IndexedIds<'_> {
    // The position that a slot guesses, if it is the id's.
    fn guess(&self, slot: usize, id: u64) -> Option<usize>
        ensures { GuessHolds self.now.ids.now id result }
    {
        let position = usize::from(self.slots[slot % SLOTS]).wrapping_sub(1);
        let &found = self.ids.get(position)?;
        (found == id).then_some(position)
    }

    // The position of an id, or that no position has it.
    #[inline(always)]
    pub(crate) fn find(&self, id: u64) -> Option<usize>
        ensures { result ≡ position_of self.now.ids.now id }
    {
        match self.guess(first_slot(id), id) {
            Some(position) => Some(position),
            None => self.find_further(id),
        }
    }

    // The same by the slots after the first, then by the search.
    #[inline(never)]
    fn find_further(&self, id: u64) -> Option<usize>
        ensures { result ≡ position_of self.now.ids.now id }
    {
        let next = next_slot(id);
        for step in 0..PROBES {
            if let Some(position) = self.guess(next + step, id) {
                return Some(position);
            }
        }
        find_position(self.ids, self.order, id)
    }
}

// The edges on a chain of links, one after the other.
ghost use Rattle.std.specs.Prelude.{◌≡◌, ◌-◌, length};
ghost use Rattle.std.specs.Iterator.{at_most};
ghost use Rattle.graph.specs.Adjacency.{Rises};
ghost use Rattle.graph.specs.Chained.{chain_steps};

// The edges that are left from `at` on: next[e] is the one after e, and a number past the last edge ends the chain.
/// After its last edge it answers none however often it is asked, and stays where it is. It may be asked only where each link
/// leads to a later edge.
#[derive(Drop)]
pub struct Chain<'a> {
    pub next: &'a [usize],
    pub at: usize,
}

impl Iterator for Chain<'_> {
    type Item = usize;

    ghost can_next = { λ s. Rises s.next.now };

    ghost next_gives = { chain_steps };

    ghost remaining = { λ s. at_most (length s.next.now - s.at) };

    fn next(&mut self) -> Option<usize> {
        let e = self.at;
        self.at = *self.next.get(e)?;
        Some(e)
    }
}

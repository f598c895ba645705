// The lists that are read, written and lent to work in.

// The nodes of a graph: an id for each, its delay, whether its edges invert and whether it may be compressed (not 0). A list
// for each field, as the C interface lends a scene's, and u8 where bool would ask more of callers.
#[derive(Clone, Copy)]
pub struct Nodes<'a> {
    pub ids: &'a [u64],
    pub low: &'a [u32],
    pub high: &'a [u32],
    pub inverts: &'a [u8],
    pub compressible: &'a [u8],
}

// Room to work in: head and incoming have an entry for each node, next and firsts one for each edge.
#[derive(Drop)]
pub struct ProjectionRoom<'a> {
    pub head: &'a mut [usize],
    pub next: &'a mut [usize],
    pub incoming: &'a mut [usize],
    pub firsts: &'a mut [usize],
}

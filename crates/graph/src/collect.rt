// What a node reaches through nodes not seen yet.
ghost use Rattle.std.specs.Prelude.{◌<◌, ◌≡◌, [], ◌∷◌, length, get_or};
ghost use Rattle.graph.specs.Visits.{Collectable, CollectedAlong};

use crate::edges::Links;

// Marks u, which was not seen, and all that it reaches through nodes not seen yet, and gives each the group root.
pub(crate) fn collect(
    links: &Links<'_>,
    marks: &mut [u8],
    group: &mut [usize],
    root: usize,
    u: usize,
)
    requires { Collectable links.now marks.old group.old × (u < length links.now.head.now) × (get_or marks.old u 0 ≡ 0) }
    ensures { CollectedAlong links.now (u ∷ []) marks.old group.old root marks.new group.new }
{
    marks[u] = 1;
    for e in links.chain(links.head[u]) {
        let v = links.ends[e];
        if marks[v] == 0 {
            collect(links, marks, group, root, v);
        }
    }
    group[u] = root;
}

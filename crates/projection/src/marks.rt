// Nodes marked.
ghost use Rattle.std.specs.Prelude.{◌≡◌, ◌<◌, length};
ghost use Rattle.projection.specs.Marking.{compressed_by, Markable, Marked};

use crate::links::Links;

// Marks each node that may be compressed, with one edge in and one out, 0 and the others 1, and answers how many have 1.
pub(crate) fn mark_nodes(
    compressible: &[u8],
    incoming: &[usize],
    links: &Links<'_>,
    marks: &mut [u8],
) -> usize
    requires { Markable compressible.now incoming.now links.now.head.now marks.old }
    ensures { Marked compressible.now incoming.now links.now.head.now links.now.next.now marks.new result }
{
    // counted on the way: the count is the answer
    let mut retained = 0;
    for (v, mark) in marks.iter_mut().enumerate() {
        let kept = !is_compressed(compressible, incoming, links, v);
        *mark = u8::from(kept);
        retained += usize::from(kept);
    }
    retained
}

// Whether v may be compressed, and one edge leads there and one from there. The three lists come from three passes, and a
// struct of them would be taken apart here at once.
fn is_compressed(compressible: &[u8], incoming: &[usize], links: &Links<'_>, v: usize) -> bool
    requires { (v < length compressible.now) × (v < length incoming.now) × (v < length links.now.head.now) }
    ensures { result ≡ compressed_by compressible.now incoming.now links.now.head.now links.now.next.now v }
{
    compressible[v] != 0 && incoming[v] == 1 && links.leaves_once(v)
}

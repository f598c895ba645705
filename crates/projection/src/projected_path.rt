// The path of one projected edge.
ghost use Rattle.std.specs.Prelude.{◌≡◌, unwrap_or};
ghost use Rattle.rules.specs.Projection.{projected_path};
ghost use Rattle.projection.specs.PathPart.{empty_part, path_part};

// A part of list 7.
#[repr(C)]
#[derive(Clone, Copy)]
pub struct PathPart {
    pub start: usize,
    pub length: usize,
}

// The empty part, at the front.
const EMPTY: PathPart = PathPart {
    start: 0,
    length: 0,
};

// The part of list 7 that holds the path of one projected edge, by the starts and lengths of list 6. An edge past the
// end of list 6, or a stored start and length that don't lie within list 7, gives the empty part. Starts and lengths come
// apart: they are two lists for C.
#[tactic(auto, using(crate::proofs::PartSteps::part_within, crate::proofs::PartSteps::path_cut))]
pub fn projected_path<'a>(
    paths: &'a [u64],
    starts: &[usize],
    lengths: &[usize],
    edge: usize,
) -> &'a [u64]
    ensures { result.now ≡ projected_path paths.now starts.now lengths.now edge }
{
    let part = path_part(paths.len(), starts, lengths, edge);
    &paths[part.start..part.start + part.length]
}

// Where the path stands in a list 7 of so many ids; start and length are 0 where document 01 gives the empty part.
pub fn path_part(ids: usize, starts: &[usize], lengths: &[usize], edge: usize) -> PathPart
    ensures { result ≡ path_part ids starts.now lengths.now edge }
{
    stored_part(ids, starts, lengths, edge).unwrap_or(EMPTY)
}

// The stored start and length, if the edge has both and they lie within list 7.
#[tactic(auto, unfolding(crate::specs::PathPart::path_part))]
fn stored_part(ids: usize, starts: &[usize], lengths: &[usize], edge: usize) -> Option<PathPart>
    ensures { unwrap_or result empty_part ≡ path_part ids starts.now lengths.now edge }
{
    let &start = starts.get(edge)?;
    let &length = lengths.get(edge)?;
    let end = start.checked_add(length)?;
    (end <= ids).then_some(PathPart { start, length })
}

// The call for C that finds a projected edge's path. C hands over its lists one by one: a list is a pointer and the number
// of its entries.
ghost use Rattle.std.specs.Prelude.{◌≡◌, length, take, drop};
ghost use Rattle.rules.specs.Projection.{projected_path};
ghost use Rattle.projection.specs.PathPart.{path_part};

use projection::projected_path::{PathPart, path_part};

// projected_path for C: the path's start in list 7 and its length. Both are 0 where document 01 gives the empty part; a
// stored part of length 0 within list 7 keeps its start.
#[unsafe(no_mangle)]
pub extern "C" fn sizhbanto_projected_path(
    paths: &[u64],
    starts: &[usize],
    lengths: &[usize],
    edge: usize,
) -> PathPart
    ensures part { result ≡ path_part (length paths.now) starts.now lengths.now edge }
    ensures path { take result.length (drop result.start paths.now) ≡ projected_path paths.now starts.now lengths.now edge }
{
    path_part(paths.len(), starts, lengths, edge)
}

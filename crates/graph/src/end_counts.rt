// How often each node is an end of an edge.
ghost use Rattle.graph.specs.EndCounts.{EndsCounted};

// Counts the ends: there is a node for each entry of counts, and an end that is none of them is not counted.
pub fn count_ends(ends: &[usize], counts: &mut [usize])
    ensures { EndsCounted ends.now counts.new }
{
    counts.fill(0);
    for &v in ends {
        // not get_mut: after it a proof knows the list's length alone
        if v < counts.len() {
            counts[v] += 1;
        }
    }
}

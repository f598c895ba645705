// A projected edge and its path for each chain.
ghost use Rattle.rules.specs.Lent.{SameProjection};
ghost use Rattle.projection.specs.Lent.{graph_lent, projection_lent};
ghost use Rattle.projection.specs.Walking.{Fillable, Filled};

use crate::marked::MarkedGraph;
use rules::lent::ProjectionLists;

impl MarkedGraph<'_, '_, '_> {
    // Walks the chain of each first edge and writes its projected edge and its path, and answers how many ids the paths
    // have.
    pub(crate) fn fill(&self, firsts: &[usize], projected: &mut ProjectionLists<'_>) -> usize
        requires { Fillable (graph_lent self.now) firsts.now (projection_lent projected.old) }
        ensures same { SameProjection projected.old projected.new }
        ensures filled { Filled (graph_lent self.now) firsts.now (projection_lent projected.old) (projection_lent projected.new) result }
    {
        let ids = self.nodes.ids;
        let mut end = 0;
        // each k is a place in seven lists, and a chain of as many zips would read no plainer
        for (k, &first) in firsts.iter().enumerate() {
            let start = end;
            let walked = self.walk(projected.path_ids, start, first);
            end = walked.end;
            projected.sources[k] = ids[self.edges.sources[first]];
            projected.sinks[k] = ids[walked.sink];
            projected.inverted[k] = u8::from(walked.inverted);
            projected.minimums[k] = walked.delay.minimum_redstone_ticks;
            projected.maximums[k] = walked.delay.maximum_redstone_ticks;
            projected.starts[k] = start;
            projected.lengths[k] = end - start;
        }
        end
    }
}

// The call for C that sums paths. C hands over its lists one by one: a list is a pointer and the number of its entries.
ghost use Rattle.std.specs.Prelude.{Option, ℕ, ◌≡◌, is_some, unwrap_or};
ghost use Rattle.reconvergence.specs.Fits.{ReconvergentDelays};

use graph::edges::Edges;
use reconvergence::lent::{Delays, PathSums, SumRoom};
use reconvergence::reconvergent_delay_reasons;

// Whether the lists fit, and how many nodes are listed; 0 where they do not. C has no Option: an answer is its numbers.
// FoundNumbers is alike, but C reads the fields by their names.
#[repr(C)]
#[derive(Clone, Copy)]
pub struct Reconverged {
    pub fits: bool,
    pub unequal: usize,
}

impl From<Option<usize>> for Reconverged {
    ghost from_gives = { λ answer numbers. (numbers.fits ≡ is_some answer) × (numbers.unequal ≡ unwrap_or answer 0) };

    fn from(answer: Option<usize>) -> Reconverged {
        Reconverged {
            fits: answer.is_some(),
            unequal: answer.unwrap_or(0),
        }
    }
}

// reconvergent_delay_reasons for C.
/// What `head`, `next`, `incoming`, `left` and `queue` hold after a call whose lists fit is open; else every list keeps its
/// values.
#[unsafe(no_mangle)]
pub extern "C" fn sizhbanto_reconvergent_delay_reasons(
    sources: &[usize],
    sinks: &[usize],
    low: &[u32],
    high: &[u32],
    order: &[usize],
    settled: &mut [u8],
    smallest: &mut [u32],
    largest: &mut [u32],
    unequal: &mut [usize],
    head: &mut [usize],
    next: &mut [usize],
    incoming: &mut [usize],
    left: &mut [usize],
    queue: &mut [usize],
) -> Reconverged
    ensures { (answer : Option ℕ) × ReconvergentDelays sources.now sinks.now low.now high.now order.now settled.old smallest.old largest.old unequal.old head.old next.old incoming.old left.old queue.old settled.new smallest.new largest.new unequal.new head.new next.new incoming.new left.new queue.new answer × (result.fits ≡ is_some answer) × (result.unequal ≡ unwrap_or answer 0) }
{
    let edges = Edges { sources, sinks };
    let delays = Delays { low, high };
    let mut sums = PathSums {
        settled,
        smallest,
        largest,
    };
    let mut room = SumRoom {
        head,
        next,
        incoming,
        left,
        queue,
    };
    Reconverged::from(reconvergent_delay_reasons(
        &edges, &delays, order, &mut sums, unequal, &mut room,
    ))
}

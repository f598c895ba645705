// The tests of connections, one by one: 5, then 6; and the positions of the edges' ends, each looked up once.
ghost use Rattle.rules.specs.Lent.{connections_lent};
ghost use Rattle.scene.specs.Ends.{Joined, LookedUp, EndsFound, connection};

use crate::lookup::{IndexedIds, SLOTS, fill_slots};
use rules::answers::{Refusal, RefusalKind};
use rules::kinds::TransferKind;
use rules::lent::Connections;

// The positions of an edge's ends.
#[derive(Clone, Copy)]
pub(crate) struct Ends {
    pub start: usize,
    pub stop: usize,
}

// Tests one connection, and looks its ends up where it is an edge and no support.
#[inline(always)]
fn look_up(
    index: &IndexedIds<'_>,
    source: u64,
    sink: u64,
    transfer: u8,
) -> Result<Option<Ends>, RefusalKind>
    ensures { LookedUp index.now.ids.now (connection source sink transfer) result }
{
    let transfer = TransferKind::try_from(transfer).map_err(|_| RefusalKind::TransferOutOfRange)?;
    if transfer == TransferKind::StructuralSupport {
        return Ok(None);
    }
    let start = index.find(source).ok_or(RefusalKind::EndMissing)?;
    let stop = index.find(sink).ok_or(RefusalKind::EndMissing)?;
    Ok(Some(Ends { start, stop }))
}

// Tests the connections, and writes the positions of the edges' ends, in list order; answers how many edges there are.
fn look_up_rows(
    index: &IndexedIds<'_>,
    connections: &Connections<'_>,
    starts: &mut [usize],
    stops: &mut [usize],
) -> Result<usize, Refusal>
    requires { Joined index.now.ids.now index.now.order.now (connections_lent connections.now) starts.old stops.old }
    ensures { EndsFound index.now.ids.now (connections_lent connections.now) starts.new stops.new result }
{
    // counted by hand: supports are passed over, and how many edges are written is the answer
    let mut edges = 0;
    let rows = connections
        .sources
        .iter()
        .zip(connections.sinks)
        .zip(connections.transfers);
    for (j, ((&source, &sink), &transfer)) in rows.enumerate() {
        let place = j as u64;
        let ends = look_up(index, source, sink, transfer).map_err(|kind| Refusal { kind, place })?;
        if let Some(Ends { start, stop }) = ends {
            starts[edges] = start;
            stops[edges] = stop;
            edges += 1;
        }
    }
    Ok(edges)
}

// The same, of ids whose positions in order are known.
pub(crate) fn look_up_ends(
    ids: &[u64],
    order: &[usize],
    connections: &Connections<'_>,
    starts: &mut [usize],
    stops: &mut [usize],
) -> Result<usize, Refusal>
    requires { Joined ids.now order.now (connections_lent connections.now) starts.old stops.old }
    ensures { EndsFound ids.now (connections_lent connections.now) starts.new stops.new result }
{
    let mut slots = [0u16; SLOTS];
    fill_slots(ids, &mut slots);
    let index = IndexedIds {
        ids,
        order,
        slots: &slots,
    };
    look_up_rows(&index, connections, starts, stops)
}

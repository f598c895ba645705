// List 2: evidence from connections, then from devices.
ghost use Rattle.std.specs.Prelude.{◌≡◌, ◌+◌, ◌≤◌, length};
ghost use Rattle.rules.specs.Lists.{written};
ghost use Rattle.rules.specs.Lent.{SameEvidence};
ghost use Rattle.describe.specs.Rows.{evidence_kind_code, devices_of, EvidenceFits, EvidenceRoom, ConnectionsListed, DeviceEvidenceListed, EvidenceListed};

use rules::lent::{Components, Connections, EvidenceLists, Scene};
use tables::kinds::is_device;

// What an entry of the list is evidence of.
#[derive(Clone, Copy, PartialEq, Eq, Debug)]
enum EvidenceKind {
    VerifiedPhysicalConnection,
    DeviceSemantics,
}

impl From<EvidenceKind> for u8 {
    ghost from_gives = { λ kind code. code ≡ evidence_kind_code kind };

    fn from(kind: EvidenceKind) -> u8 {
        kind as u8
    }
}

// Copies a list to the front of another. Entry by entry: `copy_from_slice` would have the archive for C need memmove from
// outside.
fn copy_front(from: &[u64], to: &mut [u64])
    requires { length from.now ≤ length to.old }
    ensures { to.new ≡ written to.old from.now }
{
    // by index: of entries that `to.iter_mut().zip(from)` lends, a proof knows nothing once the loop is over
    for (j, &id) in from.iter().enumerate() {
        to[j] = id;
    }
}

// Writes an entry for each connection: its ends, as they are given.
#[tactic(auto, unfolding(rules::specs::Lists::written_from))]
fn list_connection_evidence(connections: &Connections<'_>, evidence: &mut EvidenceLists<'_>)
    requires pairs { length connections.now.sinks.now ≡ length connections.now.sources.now }
    requires fits { EvidenceFits (length connections.now.sources.now) evidence.old }
    ensures same { SameEvidence evidence.old evidence.new }
    ensures listed { ConnectionsListed connections.now evidence.old evidence.new }
{
    let m = connections.sources.len();
    // lent on one by one: of a part of `evidence.kinds` itself, a proof knows the length and not the entries
    let kinds = &mut *evidence.kinds;
    let sources = &mut *evidence.sources;
    let sinks = &mut *evidence.sinks;
    let components = &mut *evidence.components;
    let blocks = &mut *evidence.blocks;
    kinds[..m].fill(u8::from(EvidenceKind::VerifiedPhysicalConnection));
    copy_front(connections.sources, sources);
    copy_front(connections.sinks, sinks);
    components[..m].fill(0);
    blocks[..m].fill(0);
}

// Writes an entry for each device, from a place on.
fn list_device_evidence(components: &Components<'_>, first: usize, evidence: &mut EvidenceLists<'_>)
    requires kinds { length components.now.kinds.now ≡ length components.now.ids.now }
    requires fits { EvidenceFits (first + length components.now.ids.now) evidence.old }
    ensures same { SameEvidence evidence.old evidence.new }
    ensures listed { DeviceEvidenceListed components.now first evidence.old evidence.new }
{
    // the devices that `list_devices` finds too: a filter numbered from `first` on is no plainer than the test and the place
    let mut place = first;
    for (&id, &kind) in components.ids.iter().zip(components.kinds) {
        if is_device(kind) {
            evidence.kinds[place] = u8::from(EvidenceKind::DeviceSemantics);
            evidence.sources[place] = 0;
            evidence.sinks[place] = 0;
            evidence.components[place] = id;
            evidence.blocks[place] = kind;
            place += 1;
        }
    }
}

// Writes list 2: connections first, then devices, in component order.
pub(crate) fn list_evidence(scene: &Scene<'_>, evidence: &mut EvidenceLists<'_>)
    requires { EvidenceRoom scene.now evidence.old }
    ensures same { SameEvidence evidence.old evidence.new }
    ensures listed { EvidenceListed scene.now evidence.old evidence.new }
{
    list_connection_evidence(&scene.connections, evidence);
    list_device_evidence(&scene.components, scene.connections.sources.len(), evidence);
}

// The number lists that calls are lent, one for each field, in structs laid out as C lays them out: a list is a pointer, then
// the number of its entries. Those that a call reads are handed on by copies of the references; those that it writes are
// lent for the call, and how many entries of them are used is what the call answers.

// The components of a scene: a number list for each field, as long as one another where the tests of a call have passed. That
// they are is asked where it is used: public functions take components untested, and each pass needs other columns.
#[repr(C)]
#[derive(Clone, Copy)]
pub struct Components<'a> {
    pub ids: &'a [u64],
    pub kinds: &'a [u8],
    pub delays: &'a [u16],
    pub locked: &'a [u8],
    pub xs: &'a [i32],
    pub ys: &'a [i32],
    pub zs: &'a [i32],
}

// The connections of a scene, likewise.
#[repr(C)]
#[derive(Clone, Copy)]
pub struct Connections<'a> {
    pub sources: &'a [u64],
    pub sinks: &'a [u64],
    pub transfers: &'a [u8],
}

#[repr(C)]
#[derive(Clone, Copy)]
pub struct Scene<'a> {
    pub components: Components<'a>,
    pub connections: Connections<'a>,
}

// The events of a trace.
#[repr(C)]
#[derive(Clone, Copy)]
pub struct Events<'a> {
    pub ticks: &'a [u64],
    pub components: &'a [u64],
    pub powered: &'a [u8],
}

// The contracts by which a trace is judged.
#[repr(C)]
#[derive(Clone, Copy)]
pub struct Contracts<'a> {
    pub components: &'a [u64],
    pub intents: &'a [u8],
    pub powered: &'a [u8],
    pub polarities: &'a [u8],
    pub units: &'a [u8],
    pub smallest: &'a [u64],
    pub largest: &'a [u64],
}

// A trace: the number of its time unit, its events and its contracts.
#[repr(C)]
#[derive(Clone, Copy)]
pub struct Trace<'a> {
    pub unit: u8,
    pub events: Events<'a>,
    pub contracts: Contracts<'a>,
}

// List 0.
#[repr(C)]
#[derive(Drop)]
pub struct TimedEdgeLists<'a> {
    pub sources: &'a mut [u64],
    pub sinks: &'a mut [u64],
    pub minimums: &'a mut [u32],
    pub maximums: &'a mut [u32],
    pub behaviors: &'a mut [u8],
}

// List 1.
#[repr(C)]
#[derive(Drop)]
pub struct DeviceLists<'a> {
    pub components: &'a mut [u64],
    pub xs: &'a mut [i32],
    pub ys: &'a mut [i32],
    pub zs: &'a mut [i32],
    pub semantics: &'a mut [u8],
    pub delays: &'a mut [u32],
}

// List 2.
#[repr(C)]
#[derive(Drop)]
pub struct EvidenceLists<'a> {
    pub kinds: &'a mut [u8],
    pub sources: &'a mut [u64],
    pub sinks: &'a mut [u64],
    pub components: &'a mut [u64],
    pub blocks: &'a mut [u8],
}

// The lists that `describe_scene` writes.
#[repr(C)]
#[derive(Drop)]
pub struct DescriptionLists<'a> {
    pub edges: TimedEdgeLists<'a>,
    pub devices: DeviceLists<'a>,
    pub evidence: EvidenceLists<'a>,
}

// List 3.
#[repr(C)]
#[derive(Drop)]
pub struct ReasonLists<'a> {
    pub kinds: &'a mut [u8],
    pub components: &'a mut [u64],
    pub blocks: &'a mut [u8],
    pub minimums: &'a mut [u32],
    pub maximums: &'a mut [u32],
}

// Lists 6 and 7: the fields of the projected edges, and the ids of their paths.
#[repr(C)]
#[derive(Drop)]
pub struct ProjectionLists<'a> {
    pub sources: &'a mut [u64],
    pub sinks: &'a mut [u64],
    pub inverted: &'a mut [u8],
    pub minimums: &'a mut [u32],
    pub maximums: &'a mut [u32],
    pub starts: &'a mut [usize],
    pub lengths: &'a mut [usize],
    pub path_ids: &'a mut [u64],
}

// List 8.
#[repr(C)]
#[derive(Drop)]
pub struct LabelLists<'a> {
    pub settled: &'a mut [u8],
    pub lows: &'a mut [u32],
    pub highs: &'a mut [u32],
}

// The lists that `assess_scene` writes: 3 to 8.
#[repr(C)]
#[derive(Drop)]
pub struct AssessmentLists<'a> {
    pub reasons: ReasonLists<'a>,
    pub feedback_ids: &'a mut [u64],
    pub marks: &'a mut [u8],
    pub projected: ProjectionLists<'a>,
    pub labels: LabelLists<'a>,
}

// The lists that `analyze_scene` writes: 0 to 8.
#[repr(C)]
#[derive(Drop)]
pub struct SceneLists<'a> {
    pub description: DescriptionLists<'a>,
    pub assessment: AssessmentLists<'a>,
}

// List 9.
#[repr(C)]
#[derive(Drop)]
pub struct Findings<'a> {
    pub components: &'a mut [u64],
    pub polarities: &'a mut [u8],
    pub units: &'a mut [u8],
    pub start_ticks: &'a mut [u64],
    pub end_ticks: &'a mut [u64],
    pub widths: &'a mut [u64],
    pub steady: &'a mut [u8],
    pub baselines: &'a mut [usize],
    pub starts: &'a mut [usize],
    pub ends: &'a mut [usize],
    pub verdicts: &'a mut [u8],
    pub rationales: &'a mut [u8],
}

// The sizes that a scene may have; specs/Refusals.antt has the same numbers in `scene_limits`.
pub const MAX_COMPONENTS: usize = 512;

pub const MAX_CONNECTIONS: usize = 2048;

// The sizes that a trace, its contracts and a record may have; specs/Traces.antt has the same numbers in `trace_limits`.
pub const MAX_EVENTS: usize = 4096;

pub const MAX_CONTRACTS: usize = 512;

pub const MAX_TRACES: u64 = 64;

pub const MAX_FINDINGS_EACH: u64 = 4096;

// The bytes that a scene's text may have; specs/Text.antt has the same number in `max_text`.
pub const MAX_TEXT: usize = 65536;

// The delay word of a component that has none; specs/Refusals.antt refuses the words past it.
pub const NO_DELAY: u16 = 256;

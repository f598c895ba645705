// The kind table: what each block kind is in the timing analysis. Codes and delay words stay numbers: they are entries of lists
// that the C interface lends.
ghost use Rattle.std.specs.Prelude.{◌≡◌};
ghost use Rattle.rules.specs.Kinds.{kind_row, delay_by, component_delay, edge_timing, is_device};
ghost use Rattle.rules.specs.Describe.{meaning_code};

use rules::delay::DelayRange;
use rules::kinds::{
    BlockKind, EdgeBehavior, EdgeTiming, KindDelay, KindRow, TemporalNodeKind, TemporalSemantics,
};

const CONDUCTOR: KindRow = KindRow {
    node: TemporalNodeKind::Conductor,
    delay: KindDelay::Fixed(0),
    behavior: EdgeBehavior::Immediate,
    meaning: None,
};

const SOURCE: KindRow = KindRow {
    node: TemporalNodeKind::Source,
    delay: KindDelay::Fixed(0),
    behavior: EdgeBehavior::Immediate,
    meaning: None,
};

const WIRE: KindRow = KindRow {
    node: TemporalNodeKind::Wire,
    delay: KindDelay::Fixed(0),
    behavior: EdgeBehavior::OrderSensitive,
    meaning: None,
};

const TORCH: KindRow = KindRow {
    node: TemporalNodeKind::Inverter,
    delay: KindDelay::Fixed(1),
    behavior: EdgeBehavior::DelayedInvert,
    meaning: Some(TemporalSemantics::DelayedInvert),
};

const REPEATER: KindRow = KindRow {
    node: TemporalNodeKind::Delay,
    delay: KindDelay::Own(1),
    behavior: EdgeBehavior::DelayedForward,
    meaning: Some(TemporalSemantics::DelayedForward),
};

const COMPARATOR: KindRow = KindRow {
    node: TemporalNodeKind::Comparator,
    delay: KindDelay::Fixed(0),
    behavior: EdgeBehavior::Analog,
    meaning: Some(TemporalSemantics::CompareOrSubtract),
};

const PISTON: KindRow = KindRow {
    node: TemporalNodeKind::Actuator,
    delay: KindDelay::Fixed(1),
    behavior: EdgeBehavior::Mechanical,
    meaning: Some(TemporalSemantics::MechanicalActuation),
};

// By code: Air, Solid, Transparent, Lever, Button, PressurePlate, RedstoneLamp, RedstoneBlock, RedstoneWire,
// RedstoneTorch, Repeater, Comparator, Piston.
const KINDS: [KindRow; 13] = [
    CONDUCTOR, CONDUCTOR, CONDUCTOR, SOURCE, SOURCE, SOURCE, CONDUCTOR, SOURCE, WIRE, TORCH,
    REPEATER, COMPARATOR, PISTON,
];

// The row of a kind code. A code past the table, which the checks refuse, is given Air's.
pub fn kind_row(code: u8) -> KindRow
    ensures { result ≡ kind_row code }
{
    KINDS.get(usize::from(code)).copied().unwrap_or(CONDUCTOR)
}

// The delay by what a row says and a delay word. A word past the largest delay is that of an absent one.
#[tactic(auto, unfolding(rules::specs::Kinds::delay_by))]
pub fn delay_by(delay: KindDelay, word: u16) -> u32
    ensures { result ≡ delay_by delay word }
{
    match delay {
        KindDelay::Fixed(ticks) => u32::from(ticks),
        KindDelay::Own(absent) => u32::from(u8::try_from(word).unwrap_or(absent)),
    }
}

// The delay of a component by its kind code and its delay word.
#[tactic(auto, unfolding(rules::specs::Kinds::component_delay))]
pub fn component_delay(code: u8, word: u16) -> u32
    ensures { result ≡ component_delay code word }
{
    delay_by(kind_row(code).delay, word)
}

// What an edge takes from its source.
#[tactic(auto, unfolding(rules::specs::Kinds::component_delay))]
pub fn edge_timing(code: u8, word: u16) -> EdgeTiming
    ensures { result ≡ edge_timing code word }
{
    let row = kind_row(code);
    let ticks = delay_by(row.delay, word);
    EdgeTiming {
        delay: DelayRange {
            minimum_redstone_ticks: ticks,
            maximum_redstone_ticks: ticks,
        },
        behavior: row.behavior,
    }
}

// The kinds from the torch to the piston are devices.
const FIRST_DEVICE: u8 = BlockKind::RedstoneTorch as u8;

const LAST_DEVICE: u8 = BlockKind::Piston as u8;

// Whether a kind is a device. The code tells it without the row, which takes longer.
#[tactic(auto, using(crate::proofs::Table::device_range))]
pub fn is_device(code: u8) -> bool
    ensures { result ≡ is_device (kind_row code) }
{
    (FIRST_DEVICE..=LAST_DEVICE).contains(&code)
}

// The number of what a kind means as a device; 0 where it is none. List 1 of the C interface has numbers, so no Option.
pub fn meaning_code(code: u8) -> u8
    ensures { result ≡ meaning_code (kind_row code).meaning }
{
    kind_row(code).meaning.map_or(0, u8::from)
}

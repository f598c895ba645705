// What a row of the kind table says of a block kind, and what an edge takes from its source.
ghost use Rattle.std.specs.Prelude.{◌≡◌};
ghost use Rattle.rules.specs.Codes.{behavior_code, semantics_code};
ghost use Rattle.rules.specs.Decoded.{ReadsKind, ReadsTransfer};

use crate::delay::DelayRange;

// The block kinds, numbered by the kind table.
#[derive(Clone, Copy, PartialEq, Eq, Debug)]
pub enum BlockKind {
    Air,
    Solid,
    Transparent,
    Lever,
    Button,
    PressurePlate,
    RedstoneLamp,
    RedstoneBlock,
    RedstoneWire,
    RedstoneTorch,
    Repeater,
    Comparator,
    Piston,
}

// A code that names nothing.
#[derive(Clone, Copy, PartialEq, Eq, Debug)]
pub struct UnknownCode;

impl TryFrom<u8> for BlockKind {
    type Error = UnknownCode;

    ghost try_from_gives = { ReadsKind };

    fn try_from(code: u8) -> Result<Self, UnknownCode> {
        match code {
            0 => Ok(BlockKind::Air),
            1 => Ok(BlockKind::Solid),
            2 => Ok(BlockKind::Transparent),
            3 => Ok(BlockKind::Lever),
            4 => Ok(BlockKind::Button),
            5 => Ok(BlockKind::PressurePlate),
            6 => Ok(BlockKind::RedstoneLamp),
            7 => Ok(BlockKind::RedstoneBlock),
            8 => Ok(BlockKind::RedstoneWire),
            9 => Ok(BlockKind::RedstoneTorch),
            10 => Ok(BlockKind::Repeater),
            11 => Ok(BlockKind::Comparator),
            12 => Ok(BlockKind::Piston),
            _ => Err(UnknownCode),
        }
    }
}

// How power goes from a connection's source to its sink. A structural support carries none.
#[derive(Clone, Copy, PartialEq, Eq, Debug)]
pub enum TransferKind {
    DustPropagation,
    DirectSignal,
    WeakPower,
    StrongPower,
    DirectionalDevice,
    SideControl,
    StructuralSupport,
}

impl TryFrom<u8> for TransferKind {
    type Error = UnknownCode;

    ghost try_from_gives = { ReadsTransfer };

    fn try_from(code: u8) -> Result<Self, UnknownCode> {
        match code {
            0 => Ok(TransferKind::DustPropagation),
            1 => Ok(TransferKind::DirectSignal),
            2 => Ok(TransferKind::WeakPower),
            3 => Ok(TransferKind::StrongPower),
            4 => Ok(TransferKind::DirectionalDevice),
            5 => Ok(TransferKind::SideControl),
            6 => Ok(TransferKind::StructuralSupport),
            _ => Err(UnknownCode),
        }
    }
}

#[derive(Clone, Copy, PartialEq, Eq, Debug)]
pub enum TemporalNodeKind {
    Source,
    Wire,
    Inverter,
    Delay,
    Comparator,
    Actuator,
    Conductor,
}

#[derive(Clone, Copy, PartialEq, Eq, Debug)]
pub enum EdgeBehavior {
    Immediate,
    DelayedForward,
    DelayedInvert,
    Analog,
    Mechanical,
    OrderSensitive,
}

impl From<EdgeBehavior> for u8 {
    ghost from_gives = { λ behavior code. code ≡ behavior_code behavior };

    fn from(behavior: EdgeBehavior) -> u8 {
        behavior as u8
    }
}

#[derive(Clone, Copy, PartialEq, Eq, Debug)]
pub enum TemporalSemantics {
    DelayedForward,
    DelayedInvert,
    CompareOrSubtract,
    MechanicalActuation,
}

impl From<TemporalSemantics> for u8 {
    ghost from_gives = { λ semantics code. code ≡ semantics_code semantics };

    fn from(semantics: TemporalSemantics) -> u8 {
        semantics as u8
    }
}

// The delay of a kind: fixed, or the component's own with a number for an absent one.
#[derive(Clone, Copy, PartialEq, Eq, Debug)]
pub enum KindDelay {
    Fixed(u8),
    Own(u8),
}

// The meaning is what a kind means as a device, if it is one.
#[derive(Clone, Copy, PartialEq, Eq, Debug)]
pub struct KindRow {
    pub node: TemporalNodeKind,
    pub delay: KindDelay,
    pub behavior: EdgeBehavior,
    pub meaning: Option<TemporalSemantics>,
}

#[derive(Clone, Copy, PartialEq, Eq, Debug)]
pub struct EdgeTiming {
    pub delay: DelayRange,
    pub behavior: EdgeBehavior,
}

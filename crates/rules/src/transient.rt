// Pulses and verdicts.
ghost use Rattle.std.specs.Prelude.{◌≡◌};
ghost use Rattle.rules.specs.Codes.{polarity_code, unit_code, verdict_code, rationale_code};
ghost use Rattle.rules.specs.Decoded.{ReadsPolarity, ReadsUnit, ReadsIntent};

use crate::kinds::UnknownCode;

#[derive(Clone, Copy, PartialEq, Eq, Debug)]
pub enum PulsePolarity {
    High,
    Low,
}

impl From<PulsePolarity> for u8 {
    ghost from_gives = { λ polarity code. code ≡ polarity_code polarity };

    fn from(polarity: PulsePolarity) -> u8 {
        polarity as u8
    }
}

impl TryFrom<u8> for PulsePolarity {
    type Error = UnknownCode;

    ghost try_from_gives = { ReadsPolarity };

    fn try_from(code: u8) -> Result<Self, UnknownCode> {
        match code {
            0 => Ok(PulsePolarity::High),
            1 => Ok(PulsePolarity::Low),
            _ => Err(UnknownCode),
        }
    }
}

#[derive(Clone, Copy, PartialEq, Eq, Debug)]
pub enum TraceTimeUnit {
    RedstoneTick,
    GameTick,
}

impl From<TraceTimeUnit> for u8 {
    ghost from_gives = { λ unit code. code ≡ unit_code unit };

    fn from(unit: TraceTimeUnit) -> u8 {
        unit as u8
    }
}

impl TryFrom<u8> for TraceTimeUnit {
    type Error = UnknownCode;

    ghost try_from_gives = { ReadsUnit };

    fn try_from(code: u8) -> Result<Self, UnknownCode> {
        match code {
            0 => Ok(TraceTimeUnit::RedstoneTick),
            1 => Ok(TraceTimeUnit::GameTick),
            _ => Err(UnknownCode),
        }
    }
}

#[derive(Clone, Copy, PartialEq, Eq, Debug)]
pub enum TransientVerdict {
    PulseObserved,
    TransientDeviation,
    HazardCandidate,
    HazardConfirmed,
    IntentionalPulse,
}

impl From<TransientVerdict> for u8 {
    ghost from_gives = { λ verdict code. code ≡ verdict_code verdict };

    fn from(verdict: TransientVerdict) -> u8 {
        verdict as u8
    }
}

// The intents, numbered as a contract has them.
#[derive(Clone, Copy, PartialEq, Eq, Debug)]
pub enum IntentKind {
    SteadyStateOnly,
    Stable,
    IntentionalPulse,
    MaximumPulseWidth,
}

impl TryFrom<u8> for IntentKind {
    type Error = UnknownCode;

    ghost try_from_gives = { ReadsIntent };

    fn try_from(code: u8) -> Result<Self, UnknownCode> {
        match code {
            0 => Ok(IntentKind::SteadyStateOnly),
            1 => Ok(IntentKind::Stable),
            2 => Ok(IntentKind::IntentionalPulse),
            3 => Ok(IntentKind::MaximumPulseWidth),
            _ => Err(UnknownCode),
        }
    }
}

// What a contract says of a signal.
#[derive(Clone, Copy, PartialEq, Eq, Debug)]
pub enum SignalIntent {
    SteadyStateOnly,
    Stable {
        powered: bool,
    },
    IntentionalPulse {
        polarity: PulsePolarity,
        time_unit: TraceTimeUnit,
        minimum_width_ticks: u64,
        maximum_width_ticks: u64,
    },
    MaximumPulseWidth {
        polarity: PulsePolarity,
        time_unit: TraceTimeUnit,
        maximum_width_ticks: u64,
    },
}

// Why a verdict is given: each stands for one of the ten texts, Stable for four by the wanted level and the polarity.
#[derive(Clone, Copy, PartialEq, Eq, Debug)]
pub enum Rationale {
    NoIntent,
    SteadyStateOnly,
    Stable {
        wanted: bool,
        polarity: PulsePolarity,
    },
    PulseFits,
    PulseDiffers,
    WithinTolerance,
    PastTolerance,
}

impl From<Rationale> for u8 {
    ghost from_gives = { λ rationale code. code ≡ rationale_code rationale };

    fn from(rationale: Rationale) -> u8 {
        match rationale {
            Rationale::NoIntent => 0,
            Rationale::SteadyStateOnly => 1,
            Rationale::Stable { wanted, polarity } => {
                2 + 2 * u8::from(wanted) + u8::from(polarity)
            }
            Rationale::PulseFits => 6,
            Rationale::PulseDiffers => 7,
            Rationale::WithinTolerance => 8,
            Rationale::PastTolerance => 9,
        }
    }
}

#[derive(Clone, Copy, PartialEq, Eq, Debug)]
pub struct Judgement {
    pub verdict: TransientVerdict,
    pub rationale: Rationale,
}

// How many findings were written, how many contracts were given, and the tally of each verdict by its number.
#[derive(Clone, Copy, PartialEq, Eq, Debug)]
pub struct TransientAssessment {
    pub findings: u64,
    pub contracts_applied: u64,
    pub tallies: [u64; 5],
}

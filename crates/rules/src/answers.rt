// What the checks and the scene calls answer.
ghost use Rattle.rules.specs.Codes.{scope_code, pattern_code, refusal_code, reason_kind_code};
ghost use Rattle.rules.specs.Decoded.{ReadsReasonKind};
ghost use Rattle.std.specs.Prelude.{◌≡◌};

use crate::kinds::UnknownCode;

// The conditions of the table of refusals, numbered as they are there.
#[derive(Clone, Copy, PartialEq, Eq, Debug)]
pub enum RefusalKind {
    TooManyComponents = 1,
    TooManyConnections = 2,
    IdUsedEarlier = 3,
    ComponentOutOfRange = 4,
    TransferOutOfRange = 5,
    EndMissing = 6,
    ListTooShort = 7,
    LengthsDiffer = 8,
    TooManyEvents = 9,
    TooManyContracts = 10,
    TraceOutOfRange = 11,
    ContractsNotRising = 12,
    RecordFull = 13,
    TextNotInForm = 14,
    RecordFalse = 15,
}

impl From<RefusalKind> for u32 {
    ghost from_gives = { λ kind number. number ≡ refusal_code kind };

    fn from(kind: RefusalKind) -> u32 {
        kind as u32
    }
}

// Why a call is refused, and the place that the table gives.
#[derive(Clone, Copy, PartialEq, Eq, Debug)]
pub struct Refusal {
    pub kind: RefusalKind,
    pub place: u64,
}

// The record kinds, numbered as refusal 8 places them.
#[derive(Clone, Copy, PartialEq, Eq, Debug)]
pub enum RecordKind {
    Components,
    Connections,
    Events,
    Contracts,
}

// The output lists, numbered as document 01 numbers them.
#[derive(Clone, Copy, PartialEq, Eq, Debug)]
pub enum OutputList {
    TimedEdges,
    Devices,
    Evidence,
    Reasons,
    FeedbackIds,
    Marks,
    Projected,
    Paths,
    Labels,
    Findings,
}

// The kinds of list 3's reasons.
#[derive(Clone, Copy, PartialEq, Eq, Debug)]
pub enum ReasonKind {
    UnequalReconvergentDelay,
    FeedbackLoop,
    StatefulOrMechanicalDevice,
    LockedRepeater,
}

impl From<ReasonKind> for u8 {
    ghost from_gives = { λ kind code. code ≡ reason_kind_code kind };

    fn from(kind: ReasonKind) -> u8 {
        kind as u8
    }
}

impl TryFrom<u8> for ReasonKind {
    type Error = UnknownCode;

    ghost try_from_gives = { ReadsReasonKind };

    fn try_from(code: u8) -> Result<Self, UnknownCode> {
        match code {
            0 => Ok(ReasonKind::UnequalReconvergentDelay),
            1 => Ok(ReasonKind::FeedbackLoop),
            2 => Ok(ReasonKind::StatefulOrMechanicalDevice),
            3 => Ok(ReasonKind::LockedRepeater),
            _ => Err(UnknownCode),
        }
    }
}

// How many entries of list 4 are used, and how many Feedback reasons there are: one, or none.
#[derive(Clone, Copy, PartialEq, Eq, Debug)]
pub struct FeedbackListed {
    pub feedback: u64,
    pub reasons: u64,
}

#[derive(Clone, Copy, PartialEq, Eq, Debug)]
pub enum TemporalScope {
    SteadyStateSafe,
    TimingSensitive,
    TemporalRequired,
}

impl From<TemporalScope> for u8 {
    ghost from_gives = { λ scope code. code ≡ scope_code scope };

    fn from(scope: TemporalScope) -> u8 {
        scope as u8
    }
}

// The components of a candidate's loop are those of list 4.
#[derive(Clone, Copy, PartialEq, Eq, Debug)]
pub enum BehaviorPattern {
    DelayedPath,
    ClockCandidate,
    LatchCandidate,
    Nothing,
}

impl From<BehaviorPattern> for u8 {
    ghost from_gives = { λ pattern code. code ≡ pattern_code pattern };

    fn from(pattern: BehaviorPattern) -> u8 {
        pattern as u8
    }
}

// How many entries of lists 0, 1 and 2 are used.
#[derive(Clone, Copy, PartialEq, Eq, Debug)]
pub struct Description {
    pub timed_edges: u64,
    pub devices: u64,
    pub evidence: u64,
}

// How many entries of lists 3, 4, 6 and 7 are used, and of list 5 how many are 1 and 0; list 8 is used for
// every component.
#[derive(Clone, Copy, PartialEq, Eq, Debug)]
pub struct Assessment {
    pub scope: TemporalScope,
    pub pattern: BehaviorPattern,
    pub confidence: u8,
    pub reasons: u64,
    pub feedback: u64,
    pub retained: u64,
    pub compressed: u64,
    pub projected: u64,
    pub path_ids: u64,
}

// What the call says that writes lists 0 to 8.
#[derive(Clone, Copy, PartialEq, Eq, Debug)]
pub struct Analysis {
    pub description: Description,
    pub assessment: Assessment,
}

// Why a call is refused: a case for each number of the scope, with the position that is at fault, or the tick, where the number has one.
ghost use Rattle.std.specs.Prelude.{◌≡◌};
ghost use Rattle.model.specs.Refusal.{number_of, position_of};

#[derive(Clone, Copy, PartialEq, Eq)]
pub enum Refusal {
    NotATable,
    BadCores,
    BadRule,
    NoHead,
    NoRecord,
    RecordAgain,
    BadWidth(u32),
    BadTime(u32),
    LongHorizon,
    BadRange,
    ShortRows,
    PastMiss,
    TableMisses,
    NotARun,
    Late(u32),
    BadReport,
    NoMiss,
    ShortBuffer,
    BadFence,
    BadEmpty,
    NotFirm,
    NoPosition,
    SlackNotGiven,
    BadRow(u32),
    DeadlineMissed(u32),
    PhasesDiffer(u32),
}

impl Refusal {
    // Its number in the scope.
    pub fn number(self) -> u32
        ensures { result ≡ number_of self }
    {
        match self {
            Refusal::NotATable => 1,
            Refusal::BadCores => 2,
            Refusal::BadRule => 3,
            Refusal::NoHead => 4,
            Refusal::NoRecord => 5,
            Refusal::RecordAgain => 6,
            Refusal::BadWidth(_) => 7,
            Refusal::BadTime(_) => 8,
            Refusal::LongHorizon => 9,
            Refusal::BadRange => 10,
            Refusal::ShortRows => 11,
            Refusal::PastMiss => 12,
            Refusal::TableMisses => 13,
            Refusal::NotARun => 14,
            Refusal::Late(_) => 15,
            Refusal::BadReport => 16,
            Refusal::NoMiss => 17,
            Refusal::ShortBuffer => 18,
            Refusal::BadFence => 19,
            Refusal::BadEmpty => 20,
            Refusal::NotFirm => 21,
            Refusal::NoPosition => 22,
            Refusal::SlackNotGiven => 23,
            Refusal::BadRow(_) => 24,
            Refusal::DeadlineMissed(_) => 25,
            Refusal::PhasesDiffer(_) => 26,
        }
    }

    // The position at fault, from 1, or the tick; 0 where the number has neither.
    pub fn position(self) -> u32
        ensures { result ≡ position_of self }
    {
        match self {
            Refusal::BadWidth(position) | Refusal::BadTime(position) | Refusal::Late(position) =>
                position,
            Refusal::BadRow(tick) | Refusal::DeadlineMissed(tick) | Refusal::PhasesDiffer(tick) =>
                tick,
            _ => 0,
        }
    }
}

// The figures of documents 01 and 02 and their refusals with their numbers, as the code of all crates has them. The definitions are
// specs/Limits.antt and specs/Refusals.antt; a function that uses one of these is proved to meet a contract by the definition.
#![tactic(auto)]

ghost use Rattle.std.specs.Prelude.{◌≡◌};
ghost use Rattle.limits.specs.Refusals.{number_of, answer_of};

// The ring and the ranges of a run file.
pub const MOST_NODES: usize = 64;

pub const MOST_H: u64 = 1000;

pub const MOST_W: u64 = 65535;

pub const MOST_D: u64 = 255;

pub const MOST_TICK: u64 = 1000000;

pub const MOST_NUMBER: u64 = 999999;

pub const MOST_DELAYS: usize = 2048;

// The platform.
pub const MOST_IN_FLIGHT: usize = 2048;

pub const MOST_NEXT: u64 = 4_000_000_000_000;

pub const STORE_SIZE: usize = 65536;

// The dispatcher's part and its turns.
pub const MOST_STORES: usize = 8;

pub const MOST_TURN: u64 = 1000;

// Node records and messages.
pub const RECORD_SIZE: usize = 64;

pub const MOST_SENT: usize = 7;

pub const MESSAGE_SIZE: usize = 16;

// Lent parts: the longest run file, and the least length for an event's lines, for messages and for a run file.
pub const MOST_BYTES: usize = 65536;

pub const LOG_ROOM: usize = 80;

pub const PART_SIZE: usize = MOST_SENT * MESSAGE_SIZE;

pub const FILE_ROOM: usize = 65536;

// Why a call is refused.
#[derive(Clone, Copy, Debug, PartialEq, Eq)]
pub enum Refusal {
    BadLength,
    BadForm,
    OutOfRange,
    NotRising,
    ManyDelays,
    BadStore,
    TooMany,
    ShortPart,
    BadRecord,
    BadMessage,
    BadTick,
    NotEachOnce,
    BadPart,
    BadTurn,
}

impl Refusal {
    // The number that stands for it in an answer.
    pub fn number(self) -> u64
        ensures { result ≡ number_of self }
    {
        match self {
            Refusal::BadLength => 1,
            Refusal::BadForm => 2,
            Refusal::OutOfRange => 3,
            Refusal::NotRising => 5,
            Refusal::ManyDelays => 6,
            Refusal::BadStore => 7,
            Refusal::TooMany => 8,
            Refusal::ShortPart => 9,
            Refusal::BadRecord => 10,
            Refusal::BadMessage => 11,
            Refusal::BadTick => 12,
            Refusal::NotEachOnce => 13,
            Refusal::BadPart => 14,
            Refusal::BadTurn => 15,
        }
    }
}

// What a call answers that gives nothing else: 0, or the number of its refusal.
pub fn answer(outcome: Result<(), Refusal>) -> u64
    ensures { result ≡ answer_of outcome }
{
    match outcome {
        Ok(()) => 0,
        Err(refusal) => refusal.number(),
    }
}

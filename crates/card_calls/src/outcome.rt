//! The outcome of a call, and the result of an order.
ghost use Rattle.std.specs.Prelude.{◌≡◌, ◌≤◌, ◌<◌, ℕ, List, length};
ghost use Rattle.card_calls.specs.Telling.{CopiesNothing, CopiesOut, ReportsSpace, bit_of, outcome_number};
ghost use Rattle.card_calls.specs.Telling.{print_outcome, result_print};

use card_bench::LineResult;
use card_model::FreeSpace;

/// The outcome of a call. C sees its number.
#[derive(Clone, Copy)]
pub enum CallOutcome {
    /// It was done.
    Done,
    /// No answer: power is off, or power-on fails.
    Mute,
    /// Power was lost, and is off.
    Dark,
    /// The link was lost.
    Lost,
    /// A size or a number is out of its range, or a buffer has too little room. Nothing was done.
    Size,
    /// There is too little memory.
    Memory,
    /// The words are no valid card image.
    NoCard,
    /// The device of the card didn't store a write, in this call or an earlier one. It gets no more, and no call runs
    /// the card.
    Unstored,
    /// The handle is null.
    Absent,
    /// A reader's end has a block to send.
    Send,
    /// A reader's end resynchronised the link. It is unknown whether the command ran.
    Resynched,
    /// The answer that a reader's end received has a wrong length.
    BadAnswer,
    /// A reader's end has a command in progress, where it must have none, or none where it must have one. Nothing was
    /// done.
    OutOfTurn,
}

impl CallOutcome {
    /// Returns the number that C sees.
    pub fn number(self) -> i32
        ensures { result ≡ outcome_number self }
    {
        match self {
            CallOutcome::Done => 0,
            CallOutcome::Mute => 1,
            CallOutcome::Dark => 2,
            CallOutcome::Lost => 3,
            CallOutcome::Size => 4,
            CallOutcome::Memory => 5,
            CallOutcome::NoCard => 6,
            CallOutcome::Unstored => 7,
            CallOutcome::Absent => 8,
            CallOutcome::Send => 9,
            CallOutcome::Resynched => 10,
            CallOutcome::BadAnswer => 11,
            CallOutcome::OutOfTurn => 12,
        }
    }
}

/// The result of an order, and the number of its bytes, which are in the caller's buffer.
#[derive(Clone, Copy)]
pub struct OrderResult {
    pub came: LineResult,
    pub size: usize,
}

impl OrderResult {
    /// Returns the outcome.
    pub fn outcome(self) -> CallOutcome
        ensures { (answer block : List ℕ) → result ≡ print_outcome (result_print self answer block) }
    {
        match self.came {
            LineResult::Mute => CallOutcome::Mute,
            LineResult::Dark => CallOutcome::Dark,
            LineResult::Lost => CallOutcome::Lost,
            LineResult::Nothing
            | LineResult::Atr
            | LineResult::Answer
            | LineResult::Block
            | LineResult::Free(_) => CallOutcome::Done,
        }
    }

    /// Returns the free space, or none at all if the result is another one.
    pub fn space(self) -> FreeSpace
        ensures { (answer block : List ℕ) → ReportsSpace result.blocks result.entries
            (result_print self answer block) }
    {
        match self.came {
            LineResult::Free(free) => free,
            LineResult::Nothing
            | LineResult::Atr
            | LineResult::Mute
            | LineResult::Dark
            | LineResult::Lost
            | LineResult::Answer
            | LineResult::Block => FreeSpace {
                blocks: 0,
                entries: 0,
            },
        }
    }
}

/// Returns a number if a bit is set, else 0.
pub fn bit(is_set: bool, number: u32) -> u32
    ensures { result ≡ bit_of is_set number }
{
    if is_set { number } else { 0 }
}

/// Copies bytes to the start of a buffer, and returns their number.
pub fn copy(bytes: &[u8], out: &mut [u8]) -> usize
    requires { length bytes.now ≤ length out.old }
    ensures { CopiesOut bytes.now out.old out.new result }
{
    out[..bytes.len()].copy_from_slice(bytes);
    bytes.len()
}

/// Copies bytes to the start of a buffer if it has room for them all, and returns their number. Else it copies nothing,
/// and returns 0.
pub fn copy_if_fits(bytes: &[u8], out: &mut [u8]) -> usize
    ensures fits { length bytes.now ≤ length out.old → CopiesOut bytes.now out.old out.new result }
    ensures unfit { length out.old < length bytes.now → CopiesNothing out.old out.new result }
{
    if bytes.len() <= out.len() {
        copy(bytes, out)
    } else {
        0
    }
}

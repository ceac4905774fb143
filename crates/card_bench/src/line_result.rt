//! The result of a script line.
ghost use Rattle.std.specs.Prelude.{◌≡◌, ◌≢◌, ℕ, List, take, IfErr, OnErr, OnOk};
ghost use Rattle.std.specs.Io.KnownBytes.{Appends};
ghost use Rattle.card_bench.specs.DeskStates.{print_of};
ghost use Rattle.card_bench.specs.ExchangeValues.{ended_of};
ghost use Rattle.card_bench.specs.Exchanges.{printed_by};
ghost use Rattle.card_bench.specs.Performing.{shown};
ghost use Rattle.bench_turns.specs.Plays.{TellsItem};
ghost use Rattle.bench_lines.specs.Printouts.{prints_nothing, text_of};

use crate::reader_turns::Ending;
use bench_lines::{ATR, PrintedText, RunFault, print_bytes, print_free, write_line};
use bench_turns::TurnResult;
use card_model::FreeSpace;
use std::io::Write;
use t1_link::{BlockBytes, ReaderEnd};

/// The result of a line. Blocks and answers are in buffers, not in this value.
#[derive(Clone, Copy)]
pub enum LineResult {
    /// No output.
    Nothing,
    /// The answer to reset: the card booted.
    Atr,
    /// No answer: power is off, or power-on fails.
    Mute,
    /// Power was lost, and is off.
    Dark,
    /// The link was lost.
    Lost,
    /// The answer to a command, which the reader's end stores.
    Answer,
    /// The block that the card's end sent, which is in its buffer.
    Block,
    /// The free space.
    Free(FreeSpace),
}

impl LineResult {
    /// Returns the result of a line that plays a turn.
    pub fn of_turn(turned: TurnResult) -> LineResult
        ensures { (answer block : List ℕ) → TellsItem turned block (λ item. print_of result answer block ≡ shown item) }
    {
        match turned {
            TurnResult::Atr => LineResult::Atr,
            TurnResult::Quiet => LineResult::Nothing,
            TurnResult::Mute => LineResult::Mute,
            TurnResult::Dark => LineResult::Dark,
            TurnResult::Reply => LineResult::Block,
        }
    }

    /// Returns the result of a command, from the end of its exchange.
    pub fn of_command(ending: Ending) -> LineResult
        ensures { (answer block : List ℕ) → print_of result answer block ≡ printed_by (ended_of ending answer) }
    {
        match ending {
            Ending::Answered => LineResult::Answer,
            Ending::SetBack | Ending::Lost => LineResult::Lost,
            Ending::Dark => LineResult::Dark,
        }
    }

    /// Prints the result, and flushes. Without output it doesn't use the writer.
    /// The reader's end stores the answer to the last command, and the buffer the block that returned last.
    ///
    /// # Errors
    ///
    /// `Write` if the writer fails, or takes nothing.
    pub fn print<W: Write>(
        self,
        reader: &ReaderEnd,
        block: &BlockBytes,
        writer: &mut W,
        text: &mut PrintedText,
    ) -> Result<(), RunFault>
        ensures wrote { OnOk result (Appends (W.contents writer.old) (W.contents writer.new)
            (text_of (print_of self reader.now.answer block.now))) }
        ensures began { OnErr result ((size : ℕ) × Appends (W.contents writer.old) (W.contents writer.new)
            (take size (text_of (print_of self reader.now.answer block.now)))) }
        ensures fault { IfErr result (λ fault. fault ≡ RunFault.Write) }
        ensures speaks { OnErr result (print_of self reader.now.answer block.now ≢ prints_nothing) }
    {
        match self {
            LineResult::Nothing => Ok(()),
            LineResult::Atr => write_line(writer, ATR),
            LineResult::Mute => write_line(writer, b"mute\n"),
            LineResult::Dark => write_line(writer, b"dark\n"),
            LineResult::Lost => write_line(writer, b"lost\n"),
            LineResult::Answer => print_bytes(writer, reader.answer(), text),
            LineResult::Block => print_bytes(writer, block, text),
            LineResult::Free(free) => print_free(writer, free),
        }
    }
}

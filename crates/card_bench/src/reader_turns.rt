//! The reader's turns in an exchange: each gives the next block, or ends the exchange.
ghost use Rattle.std.specs.Prelude.{◌≡◌, ◌≢◌, IfErr, OnOk};
ghost use Rattle.card_model.specs.Requests.{HasBetween};
ghost use Rattle.t1_link.specs.declared.reader_end.Phase.TheVariants.{Busy};
ghost use Rattle.t1_link.specs.ReaderTable.{reader_sends, reader_step, reader_times_out};
ghost use Rattle.bench_lines.specs.declared.order.TheConstants.{COMMAND_LIMIT};
ghost use Rattle.card_bench.specs.Exchanges.{ReaderTurns};
ghost use Rattle.card_bench.specs.ExchangeValues.{flow_of, follows_of};

use std::ops::ControlFlow;
use t1_link::{BlockBytes, Next, ReaderEnd};

/// The most blocks of a command, in both directions together.
pub const LINE_BLOCKS: u16 = 1000;

/// The destination of the block under way.
#[derive(Clone, Copy)]
pub enum Toward {
    Card,
    Reader,
}

/// The buffers of the blocks under way, one toward each end.
#[derive(Drop)]
pub struct Blocks {
    pub toward_card: BlockBytes,
    pub toward_reader: BlockBytes,
}

/// How an exchange ended.
#[derive(Clone, Copy)]
pub enum Ending {
    /// With the answer that the reader's end stores.
    Answered,
    /// By a RESYNCH: it is unknown whether the command ran.
    SetBack,
    /// The reader's end gave up, or the limit of blocks was reached.
    Lost,
    /// Power was lost.
    Dark,
}

/// Gives a command to the reader's end.
pub fn begin(
    reader: &mut ReaderEnd,
    blocks: &mut Blocks,
    command: &[u8],
) -> ControlFlow<Ending, Toward>
    requires idle { reader.old.phase ≢ Busy }
    requires size { HasBetween 1 COMMAND_LIMIT command.now }
    ensures turns { ReaderTurns (reader_sends reader.old command.now) reader.new
        (follows_of result blocks.new reader.new.answer) }
    ensures busy { OnOk (follows_of result blocks.new reader.new.answer) (reader.new.phase ≡ Busy) }
    ensures idle { IfErr (follows_of result blocks.new reader.new.answer) (λ ended. reader.new.phase ≢ Busy) }
{
    saying(reader.send(command, &mut blocks.toward_card))
}

/// Lets the reader's end time out.
pub fn wait(reader: &mut ReaderEnd, blocks: &mut Blocks) -> ControlFlow<Ending, Toward>
    requires { reader.old.phase ≡ Busy }
    ensures turns { ReaderTurns (reader_times_out reader.old) reader.new
        (follows_of result blocks.new reader.new.answer) }
    ensures busy { OnOk (follows_of result blocks.new reader.new.answer) (reader.new.phase ≡ Busy) }
    ensures idle { IfErr (follows_of result blocks.new reader.new.answer) (λ ended. reader.new.phase ≢ Busy) }
{
    saying(reader.timed_out(&mut blocks.toward_card))
}

/// Gives the received block to the reader's end.
pub fn hear(reader: &mut ReaderEnd, blocks: &mut Blocks) -> ControlFlow<Ending, Toward>
    requires { reader.old.phase ≡ Busy }
    ensures turns { ReaderTurns (reader_step reader.old blocks.old.toward_reader) reader.new
        (follows_of result blocks.new reader.new.answer) }
    ensures busy { OnOk (follows_of result blocks.new reader.new.answer) (reader.new.phase ≡ Busy) }
    ensures idle { IfErr (follows_of result blocks.new reader.new.answer) (λ ended. reader.new.phase ≢ Busy) }
{
    saying(reader.got(&blocks.toward_reader, &mut blocks.toward_card))
}

/// Returns the step after the reader's end returned `next`.
fn saying(next: Next) -> ControlFlow<Ending, Toward>
    ensures { result ≡ flow_of next }
{
    match next {
        Next::Send => ControlFlow::Continue(Toward::Card),
        Next::Done => ControlFlow::Break(Ending::Answered),
        Next::Unknown => ControlFlow::Break(Ending::SetBack),
        Next::Failed(_) => ControlFlow::Break(Ending::Lost),
    }
}

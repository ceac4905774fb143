//! Exchanges a command and its answer through both ends of the link.
ghost use Rattle.std.specs.Prelude.{◌≡◌, ◌≢◌, IfErr, OnOk};
ghost use Rattle.card_model.specs.Requests.{HasBetween};
ghost use Rattle.t1_link.specs.declared.reader_end.Phase.TheVariants.{Busy};
ghost use Rattle.bench_lines.specs.declared.order.TheConstants.{COMMAND_LIMIT};
ghost use Rattle.bench_turns.specs.BenchStates.{IsOn};
ghost use Rattle.card_bench.specs.Exchanges.{Exchanged, Exchanges, GoesOn, Passes};
ghost use Rattle.card_bench.specs.EndsParts.{ends_of};
ghost use Rattle.card_bench.specs.ExchangeValues.{ended_of, follows_of, next_block, HasPower};
ghost use Rattle.bench_turns.specs.Plays.{IsGood};

use crate::line::Line;
use crate::reader_turns::{Blocks, Ending, LINE_BLOCKS, Toward, begin, hear, wait};
use bench_turns::{Turn, TurnPlayer, TurnResult};
use std::ops::ControlFlow;
use t1_link::ReaderEnd;

/// Both ends of the link, the line, and the blocks under way.
#[derive(Drop)]
pub(crate) struct Ends<P: TurnPlayer> {
    pub bench: P,
    /// Stores the answer to the last command that has one.
    pub reader: ReaderEnd,
    pub line: Line,
    pub blocks: Blocks,
}

/// Sends a command, and passes blocks until the exchange ends.
/// At most 1,000 blocks pass.
pub(crate) fn exchange<P: TurnPlayer>(ends: &mut Ends<P>, command: &[u8]) -> Ending
    requires idle { ends.old.reader.phase ≢ Busy }
    requires size { HasBetween 1 COMMAND_LIMIT command.now }
    requires bench { HasPower (P.state ends.old.bench) }
    ensures exchanged { Exchanged (ends_of P.state ends.old) command.now (ends_of P.state ends.new)
        (ended_of result ends.new.reader.answer) }
    ensures good { IsGood (P.state ends.new.bench) }
    ensures idle { GoesOn (ended_of result ends.new.reader.answer) → ends.new.reader.phase ≢ Busy }
{
    match begin(&mut ends.reader, &mut ends.blocks, command) {
        ControlFlow::Continue(first) => pass_blocks(ends, first, LINE_BLOCKS),
        ControlFlow::Break(ending) => ending,
    }
}

/// Passes at most `limit` blocks, until the exchange ends.
fn pass_blocks<P: TurnPlayer>(ends: &mut Ends<P>, first: Toward, limit: u16) -> Ending
    requires busy { ends.old.reader.phase ≡ Busy }
    requires bench { HasPower (P.state ends.old.bench) }
    ensures run { Exchanges limit (ends_of P.state ends.old) (next_block first ends.old.blocks)
        (ends_of P.state ends.new) (ended_of result ends.new.reader.answer) }
    ensures good { IsGood (P.state ends.new.bench) }
    ensures idle { GoesOn (ended_of result ends.new.reader.answer) → ends.new.reader.phase ≢ Busy }
{
    let mut toward = first;
    for _ in 0..limit {
        match pass(ends, toward) {
            ControlFlow::Continue(next) => toward = next,
            ControlFlow::Break(ending) => return ending,
        }
    }
    Ending::Lost
}

/// Passes a block, and returns the next destination or the end.
/// If the block doesn't arrive, the reader's end times out.
fn pass<P: TurnPlayer>(ends: &mut Ends<P>, toward: Toward) -> ControlFlow<Ending, Toward>
    requires busy { ends.old.reader.phase ≡ Busy }
    requires bench { HasPower (P.state ends.old.bench) }
    ensures good { IsGood (P.state ends.new.bench) }
    ensures power { OnOk (follows_of result ends.new.blocks ends.new.reader.answer) (IsOn (P.state ends.new.bench)) }
    ensures busy { OnOk (follows_of result ends.new.blocks ends.new.reader.answer) (ends.new.reader.phase ≡ Busy) }
    ensures idle { IfErr (follows_of result ends.new.blocks ends.new.reader.answer)
        (λ ended. GoesOn ended → ends.new.reader.phase ≢ Busy) }
    ensures passes { Passes (ends_of P.state ends.old) (next_block toward ends.old.blocks)
        (ends_of P.state ends.new) (follows_of result ends.new.blocks ends.new.reader.answer) }
{
    match toward {
        Toward::Card => {
            if !ends.line.put(&mut ends.blocks.toward_card) {
                return wait(&mut ends.reader, &mut ends.blocks);
            }
            match ends.bench.turn_well(
                Turn::Block(&ends.blocks.toward_card),
                &mut ends.blocks.toward_reader,
            ) {
                TurnResult::Reply => ControlFlow::Continue(Toward::Reader),
                // Power was on, so only its loss leaves a block without a reply.
                _ => ControlFlow::Break(Ending::Dark),
            }
        }
        Toward::Reader => {
            if !ends.line.put(&mut ends.blocks.toward_reader) {
                return wait(&mut ends.reader, &mut ends.blocks);
            }
            hear(&mut ends.reader, &mut ends.blocks)
        }
    }
}

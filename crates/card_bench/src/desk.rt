//! The desk of a script: a bench, the reader's end of the link, and the line between the ends.
ghost use Rattle.std.specs.Prelude.{◌≡◌, ◌≢◌, ◌≤◌, ◌⊎◌, ◌↔◌, ℕ, None, Some, Err, IsTrue, is_some, length, take};
ghost use Rattle.std.specs.Prelude.{true, false};
ghost use Rattle.std.specs.Prelude.{IfErr, OnErr, OnOk};
ghost use Rattle.card_bench.specs.Charges.{HasSecond, IsCharged, IsUncharged, MayCompare, TakesCharge};
ghost use Rattle.std.specs.Io.KnownBytes.{Appends};
ghost use Rattle.bench_lines.specs.declared.order.TheConstants.{COMMAND_LIMIT};
ghost use Rattle.bench_turns.specs.BenchStates.{IsOn, bench_facts, off, with_facts};
ghost use Rattle.card_model.specs.Requests.{HasBetween};
ghost use Rattle.t1_link.specs.declared.card_end.TheConstants.{LONGEST_ANSWER};
ghost use Rattle.card_bench.specs.DeskStates.{bytes_at, printed_at};
ghost use Rattle.bench_lines.specs.OrderViews.{order_with};
ghost use Rattle.bench_lines.specs.Orders.{IsOrderSized};
ghost use Rattle.card_bench.specs.Lines.{perfect_line};
ghost use Rattle.card_bench.specs.Prints.{LacksNoWrite};
ghost use Rattle.card_bench.specs.Performing.{Performs, PerformsCommand, TakesTurn, free_shown};
ghost use Rattle.bench_turns.specs.Plays.{IsGood};
ghost use Rattle.bench_lines.specs.Printouts.{prints_nothing, text_of};

use crate::charge::{ALL_WORDS, cuts_next, may_compare};
use crate::exchange::{Ends, exchange};
use crate::line::Line;
use crate::line_result::LineResult;
use crate::reader_turns::{Blocks, Ending};
use bench_lines::{Order, PrintedText, RunFault};
use bench_turns::{Turn, TurnPlayer, Twinned};
use core::mem::replace;
use simulated_boards::Followed;
use std::io::Write;
use std::marker::Model;
use t1_link::{BlockBytes, ReaderEnd};

/// A bench, the reader's end, and the line. Pending faults of the line survive a power-off.
#[derive(Drop)]
pub struct Desk<P: TurnPlayer> {
    ends: Ends<P>,
    /// True while the two ends are in step, so that commands go.
    in_step: bool,
}

impl<P: TurnPlayer> Model for Desk<P> {
    ghost use Rattle.std.specs.Coded.{codes};
    ghost use Rattle.std.specs.Prelude.{◌≢◌, IsTrue};
    ghost use Rattle.t1_link.specs.declared.reader_end.Phase.TheVariants.{Busy};
    ghost use Rattle.card_model.specs.Sessions.{session_code};
    ghost use Rattle.card_bench.specs.DeskStates.{DeskState, reader_there};

    ghost Value = { DeskState };

    ghost coded = { Prim.hlevel (codes, session_code) };

    ghost view = { λ d. record {
      desk = record {
        bench = P.state d.ends.bench;
        reader = reader_there d.in_step d.ends.reader;
        line = d.ends.line;
      };
      answer = d.ends.reader.answer;
      block = d.ends.blocks.toward_reader;
    } };

    ghost invariant = { λ d. IsTrue d.in_step → d.ends.reader.phase ≢ Busy };
}

impl<P: TurnPlayer> Desk<P> {
    /// Returns a desk with this board, power off, and a perfect line.
    pub fn new(board: P::Board) -> Desk<P>
        ensures bench { result.desk.bench ≡ off (record (P.Board.facts board) { dark = true }) }
        ensures reader { result.desk.reader ≡ None }
        ensures line { result.desk.line ≡ perfect_line }
    {
        Desk {
            ends: Ends {
                bench: P::new(board),
                reader: ReaderEnd::new(),
                line: Line::new(),
                blocks: Blocks {
                    toward_card: BlockBytes::new(),
                    toward_reader: BlockBytes::new(),
                },
            },
            in_step: false,
        }
    }

    /// The board, as it is.
    pub fn board(&self) -> &P::Board
        ensures { P.Board.facts result.now ≡ bench_facts self.now.desk.bench }
    {
        self.ends.bench.board()
    }

    /// The line between the ends.
    pub fn line(&self) -> Line
        ensures { result ≡ self.now.desk.line }
    {
        self.ends.line
    }

    /// Returns true if power is on.
    pub fn is_on(&self) -> bool
        ensures { IsTrue result ↔ IsOn self.now.desk.bench }
    {
        self.ends.bench.is_on()
    }

    /// The board, power off.
    pub fn into_board(self) -> P::Board
        ensures { P.Board.facts result ≡ record (bench_facts self.desk.bench) { dark = true } }
    {
        let Desk { ends, in_step: _ } = self;
        let Ends {
            bench,
            reader: _,
            line: _,
            blocks: _,
        } = ends;
        bench.into_board()
    }

    /// The bytes of the last line's result. None if it has none.
    pub fn bytes(&self, line_result: LineResult) -> &[u8]
        ensures bytes { result.now ≡ bytes_at line_result self.now }
        ensures fits { length result.now ≤ LONGEST_ANSWER }
    {
        match line_result {
            LineResult::Answer => self.ends.reader.answer(),
            LineResult::Block => self.ends.blocks.toward_reader.as_slice(),
            LineResult::Nothing
            | LineResult::Atr
            | LineResult::Mute
            | LineResult::Dark
            | LineResult::Lost
            | LineResult::Free(_) => &[],
        }
    }
}

impl<P: Twinned> Desk<P> {
    /// Returns a second desk in the same state, on a board that differs in its log at most.
    pub fn twin(&self, board: P::Board) -> Desk<P>
        requires { P.Board.facts board
            ≡ record (bench_facts self.now.desk.bench) { log = (P.Board.facts board).log } }
        ensures { result.desk
            ≡ record self.now.desk { bench = with_facts self.now.desk.bench (P.Board.facts board) } }
    {
        Desk {
            ends: Ends {
                bench: self.ends.bench.twin(board),
                reader: self.ends.reader.twin(),
                line: self.ends.line,
                blocks: Blocks {
                    toward_card: BlockBytes::new(),
                    toward_reader: BlockBytes::new(),
                },
            },
            in_step: self.in_step,
        }
    }
}

impl<P: TurnPlayer> Desk<P>
where
    P::Board: Followed,
{
    /// Prints the result of the last line, if the board's follower has all writes.
    /// Without output it asks neither the follower nor the writer.
    ///
    /// # Errors
    ///
    /// `Unkept` if the follower has not all writes: then nothing is written. `Write` as `LineResult::print`.
    pub(crate) fn answer<W: Write>(
        &self,
        line_result: LineResult,
        writer: &mut W,
        text: &mut PrintedText,
    ) -> Result<(), RunFault>
        ensures wrote { OnOk result
            (Appends (W.contents writer.old) (W.contents writer.new) (text_of (printed_at line_result self.now))) }
        ensures unwritten { result ≡ Err RunFault.Write → (size : ℕ) × Appends (W.contents writer.old)
            (W.contents writer.new) (take size (text_of (printed_at line_result self.now))) }
        ensures unkept { result ≡ Err RunFault.Unkept → W.contents writer.new ≡ W.contents writer.old }
        ensures kept { result ≢ Err RunFault.Unkept → printed_at line_result self.now ≢ prints_nothing
            → LacksNoWrite P.Board P.Board.facts P.Board.has_kept (bench_facts self.now.desk.bench) }
        ensures behind { result ≡ Err RunFault.Unkept → (board : P.Board)
            × (P.Board.facts board ≡ bench_facts self.now.desk.bench) × (P.Board.has_kept board ≡ false) }
        ensures fault { IfErr result (λ fault. (fault ≡ RunFault.Write) ⊎ (fault ≡ RunFault.Unkept)) }
        ensures speaks { OnErr result (printed_at line_result self.now ≢ prints_nothing) }
    {
        if !matches!(line_result, LineResult::Nothing) && !self.ends.bench.board().follows() {
            return Err(RunFault::Unkept);
        }
        let ends = &self.ends;
        line_result.print(&ends.reader, &ends.blocks.toward_reader, writer, text)
    }
}

impl<P: Twinned + Drop> Desk<P>
where
    P::Board: Followed + Drop,
{
    /// Gives the board's follower the first write of an order that can compare a PIN. The order is to run after it.
    /// The desk runs the order up to this write, and a second desk in the state before it, on the second board, takes
    /// its place. It asks for no memory.
    ///
    /// # Errors
    ///
    /// `Unkept` if the follower did not take the write, or an earlier one. Then nothing was compared.
    #[tactic(auto, using(crate::proofs::ChargeLaws::is_unlogged, crate::proofs::ChargeLaws::is_uncharged, crate::proofs::ChargeLaws::is_cut_next, crate::proofs::ChargeLaws::never_compares))]
    pub(crate) fn charge(
        &mut self,
        second: &mut Option<P::Board>,
        order: Order,
        given: &[u8],
    ) -> Result<(), RunFault>
        requires sized { IsOrderSized (order_with order given.now) }
        requires good { IsGood self.old.desk.bench }
        requires second { HasSecond P.Board.facts P.Board.can_copy second.old (bench_facts self.old.desk.bench) }
        ensures charged { OnOk result (IsCharged (order_with order given.now) self.old.desk self.new.desk) }
        ensures kept { OnOk result (MayCompare (order_with order given.now)
            → LacksNoWrite P.Board P.Board.facts P.Board.has_kept (bench_facts self.new.desk.bench)) }
        ensures fault { IfErr result (λ fault. (fault ≡ RunFault.Unkept) × MayCompare (order_with order given.now)) }
        ensures lacks { OnErr result ((board : P.Board) × (P.Board.has_kept board ≡ false)
            × IsUncharged (order_with order given.now) self.old.desk (P.Board.facts board)) }
        ensures second { HasSecond P.Board.facts P.Board.can_copy second.new (bench_facts self.new.desk.bench) }
    {
        if !may_compare(order, given) {
            return Ok(());
        }
        let board = self.board();
        if !board.follows() {
            return Err(RunFault::Unkept);
        }
        if cuts_next(board.pending_cut()) {
            return Ok(());
        }
        // (moved below, so that a line without a charge copies no board)
        match second {
            Some(_) => self.charge_followed(second, order, given),
            None => Ok(()),
        }
    }

    /// Gives the board's follower the first write of an order, over the second board. This is a function of its own, so
    /// that a line without a charge, the usual case, has no place for the boards.
    ///
    /// # Errors
    ///
    /// As `charge`.
    #[inline(never)]
    fn charge_followed(
        &mut self,
        second: &mut Option<P::Board>,
        order: Order,
        given: &[u8],
    ) -> Result<(), RunFault>
        requires sized { IsOrderSized (order_with order given.now) }
        requires good { IsGood self.old.desk.bench }
        requires some { is_some second.old ≡ true }
        requires second { HasSecond P.Board.facts P.Board.can_copy second.old (bench_facts self.old.desk.bench) }
        ensures charged { TakesCharge (order_with order given.now) self.old.desk self.new.desk }
        ensures kept { OnOk result (LacksNoWrite P.Board P.Board.facts P.Board.has_kept
            (bench_facts self.new.desk.bench)) }
        ensures fault { IfErr result (λ fault. fault ≡ RunFault.Unkept) }
        ensures lacks { OnErr result ((board : P.Board) × (P.Board.has_kept board ≡ false)
            × (P.Board.facts board ≡ bench_facts self.new.desk.bench)) }
        ensures second { HasSecond P.Board.facts P.Board.can_copy second.new (bench_facts self.new.desk.bench) }
    {
        let own = replace(second, None).unwrap();
        let (left, kept) = self.take_charge(own, order, given);
        *second = Some(left);
        if kept { Ok(()) } else { Err(RunFault::Unkept) }
    }

    /// Runs an order up to its first write, which the follower gets. Then a second desk in the state before it, on the
    /// second board, takes this one's place, and gives its state to the board with the follower. Returns the second
    /// board, and true if the follower took the write.
    fn take_charge(&mut self, mut second: P::Board, order: Order, given: &[u8]) -> (P::Board, bool)
        requires sized { IsOrderSized (order_with order given.now) }
        requires good { IsGood self.old.desk.bench }
        requires second { HasSecond P.Board.facts P.Board.can_copy (Some second) (bench_facts self.old.desk.bench) }
        ensures charged { TakesCharge (order_with order given.now) self.old.desk self.new.desk }
        ensures kept { (board : P.Board) × (P.Board.facts board ≡ bench_facts self.new.desk.bench)
            × (P.Board.has_kept board ≡ result.1) }
        ensures second { HasSecond P.Board.facts P.Board.can_copy (Some result.0) (bench_facts self.new.desk.bench) }
    {
        second.copy_from(self.board());
        let before = self.twin(second);
        let cut = Order::Cut {
            number: 1,
            mask: ALL_WORDS,
        };
        self.perform_apart(cut, &[]);
        self.perform_apart(order, given);
        let mut board = replace(self, before).into_board();
        board.copy_from(self.board());
        let kept = board.follows();
        let charged = self.twin(board);
        (replace(self, charged).into_board(), kept)
    }
}

impl<P: TurnPlayer> Desk<P> {
    /// Runs an order, as `perform`. This is a function of its own, so that `perform` is compiled into the loop over a
    /// script's lines as if only that called it.
    #[inline(never)]
    fn perform_apart(&mut self, order: Order, given: &[u8]) -> LineResult
        requires sized { IsOrderSized (order_with order given.now) }
        requires good { IsGood self.old.desk.bench }
        ensures good { IsGood self.new.desk.bench }
        ensures performs { Performs (order_with order given.now) self.old.desk self.new.desk
            (printed_at result self.new) }
    {
        self.perform(order, given)
    }

    /// Runs the order of a line, with its bytes, and returns the result.
    #[inline(always)]
    #[tactic(auto, using(crate::proofs::DeskTurns::off_taken, crate::proofs::DeskTurns::block_taken))]
    pub fn perform(&mut self, order: Order, given: &[u8]) -> LineResult
        requires sized { IsOrderSized (order_with order given.now) }
        requires good { IsGood self.old.desk.bench }
        ensures good { IsGood self.new.desk.bench }
        ensures performs { Performs (order_with order given.now) self.old.desk self.new.desk
            (printed_at result self.new) }
    {
        match order {
            Order::Nothing => LineResult::Nothing,
            Order::On => self.turn(Turn::On),
            Order::Off => self.turn(Turn::Off),
            Order::Free => self.free_space(),
            Order::Apdu => self.command(given),
            Order::Block => self.turn(Turn::Block(given)),
            Order::Cut { number, mask } => {
                self.ends.bench.arm_well(number, mask);
                LineResult::Nothing
            }
            Order::Lose(number) => {
                self.ends.line.lose(number);
                LineResult::Nothing
            }
            Order::Garble(number) => {
                self.ends.line.garble(number);
                LineResult::Nothing
            }
        }
    }

    /// Plays a turn at the bench.
    /// A successful power-on gives a fresh reader's end. After any other turn no command can be sent.
    fn turn(&mut self, turn: Turn<'_>) -> LineResult
        requires good { IsGood self.old.desk.bench }
        ensures good { IsGood self.new.desk.bench }
        ensures taken { TakesTurn turn.entry self.old.desk self.new.desk (printed_at result self.new) }
    {
        let turned = self
            .ends
            .bench
            .turn_well(turn, &mut self.ends.blocks.toward_reader);
        self.in_step = turned.is_started();
        self.ends.reader.reset();
        LineResult::of_turn(turned)
    }

    /// Returns the free space, valid while the board has no fault.
    fn free_space(&self) -> LineResult
        requires { IsGood self.now.desk.bench }
        ensures { printed_at result self.now ≡ free_shown self.now.desk.bench }
    {
        match self.ends.bench.free() {
            Some(free) => LineResult::Free(free),
            None => LineResult::Mute,
        }
    }

    /// Sends a command through both ends of the link.
    /// Power must be on, and the ends must be in step.
    fn command(&mut self, command: &[u8]) -> LineResult
        requires size { HasBetween 1 COMMAND_LIMIT command.now }
        requires good { IsGood self.old.desk.bench }
        ensures good { IsGood self.new.desk.bench }
        ensures performs { PerformsCommand self.old.desk.bench self.old.desk command.now self.new.desk
            (printed_at result self.new) }
    {
        if !self.ends.bench.is_on() {
            return LineResult::Mute;
        }
        if !self.in_step {
            return LineResult::Lost;
        }
        let ending = exchange(&mut self.ends, command);
        self.in_step = match ending {
            Ending::Answered | Ending::SetBack => true,
            Ending::Lost | Ending::Dark => false,
        };
        LineResult::of_command(ending)
    }
}

//! Runs a script, from its first line to its last.
ghost use Rattle.std.specs.Prelude.{◌≡◌, ◌≢◌, Err, IfSome, IfErr, OnOk, true, false};
ghost use Rattle.card_bench.specs.ScriptEndings.{IsRunToEnd, RunStopsBy, IsCardRun, StopsBehind};
ghost use Rattle.bench_turns.specs.BenchStates.{bench_facts};
ghost use Rattle.card_bench.specs.Charges.{HasSecond};
ghost use Rattle.card_bench.specs.Exchanges.{Desk as DeskValue};
ghost use Rattle.card_bench.specs.Prints.{IsFirstDesk, LacksNoWrite, IsUnfollowed, desk_of};
ghost use Rattle.bench_turns.specs.Plays.{IsGood};
ghost use Rattle.command_base.specs.Finding.{HasCard};

use crate::desk::Desk;
use crate::script_board::ScriptBoard;
use bench_lines::{
    GivenBytes, LineBytes, LineEnd, LineFault, NO_TEXT, Order, RunFault, SCRIPT_LIMIT, read_line,
};
use bench_turns::Twinned;
use card_boards::factory_board;
use nvm_board::has_no_fault;
use simulated_boards::{CutBoard, Followed};
use std::alloc::Global;
use std::io::{BufRead, Write};

/// Runs a script on the factory card, with power off at first.
/// It writes and flushes the output of a line before it reads the next one. It allocates all memory before it reads the
/// first byte.
///
/// # Errors
///
/// `Memory` before anything is read; `BadLine` at the first line that is invalid or too long, after the output of the
/// lines before it; `Read` if the reader fails, or the script has more than 16,777,216 bytes; `Write` if the writer
/// fails, or takes nothing.
pub fn run<P: Twinned<Board = CutBoard> + Drop, R: BufRead, W: Write>(
    alloc: Global,
    reader: &mut R,
    writer: &mut W,
) -> Result<(), RunFault>
    // At the end of the script, each of its lines is valid, and the writer contains their output, from the factory card
    // on.
    ensures done { OnOk result ((first : DeskValue) × IsFirstDesk first × IfSome (R.remaining reader.old)
        (λ script. IsRunToEnd IsUnfollowed first script (W.contents writer.old) (W.contents writer.new))) }

    // A bad line is the first one, and the writer contains the output of the lines before it. `Read` occurs within a
    // line, before its end and before it is too long. `Write` occurs in the output of the last line that was read.
    ensures stopped { result ≢ Err RunFault.Memory → IfErr result (λ fault. (first : DeskValue) × IsFirstDesk first
        × RunStopsBy IsUnfollowed first fault (R.remaining reader.old) (R.remaining reader.new)
        (W.contents writer.old) (W.contents writer.new)) }

    // With too little memory nothing was read or written.
    ensures unread { result ≡ Err RunFault.Memory → R.remaining reader.new ≡ R.remaining reader.old }
    ensures unwritten { result ≡ Err RunFault.Memory → W.contents writer.new ≡ W.contents writer.old }

    // This board has no follower.
    ensures kept { result ≢ Err RunFault.Unkept }
{
    let Ok(board) = factory_board(alloc) else {
        return Err(RunFault::Memory);
    };
    // (nothing follows this board, so this asks for no memory)
    let board = ScriptBoard::new(board).unwrap();
    run_on::<P, _, _>(board, reader, writer)
}

/// Runs a script on the card in a board's memory, as `run_on`. It takes all memory before it reads the first byte, and
/// none on a board without a follower.
///
/// # Errors
///
/// Those of `run_on`, and `Memory` before anything is read.
pub fn run_card<P: Twinned + Drop, R: BufRead, W: Write>(
    board: P::Board,
    reader: &mut R,
    writer: &mut W,
) -> Result<(), RunFault>
where
    P::Board: Followed + Drop,
    requires { HasCard (P.Board.facts board).words }
    ensures run { IsCardRun P.Board.facts P.Board.has_kept board result (R.remaining reader.old)
        (R.remaining reader.new) (W.contents writer.old) (W.contents writer.new) }
    ensures memory { result ≡ Err RunFault.Memory → P.Board.has_follower board ≡ true }
{
    match ScriptBoard::new(board) {
        Ok(board) => run_on::<P, _, _>(board, reader, writer),
        Err(_) => Err(RunFault::Memory),
    }
}

/// Runs a script on the card in a board's memory.
/// Power is off at the start. A line has an answer only if the board's follower has all writes. It asks for no memory.
///
/// # Errors
///
/// Those of `run` but `Memory`, and `Unkept` if the follower did not take a write: then the line has no answer, and no
/// line after it runs. If it did not take the charge of a PIN, the line itself does not run, and nothing is compared.
pub fn run_on<P: Twinned + Drop, R: BufRead, W: Write>(
    board: ScriptBoard<P::Board>,
    reader: &mut R,
    writer: &mut W,
) -> Result<(), RunFault>
where
    P::Board: Followed + Drop,
    requires { HasCard board.words }
    ensures done { OnOk result (IfSome (R.remaining reader.old)
        (λ script. IsRunToEnd (LacksNoWrite P.Board P.Board.facts P.Board.has_kept) (desk_of board)
        script (W.contents writer.old) (W.contents writer.new))) }
    ensures stopped { IfErr result (λ fault.
        RunStopsBy (LacksNoWrite P.Board P.Board.facts P.Board.has_kept) (desk_of board) fault
        (R.remaining reader.old) (R.remaining reader.new) (W.contents writer.old) (W.contents writer.new)) }
    ensures memory { result ≢ Err RunFault.Memory }
    // The board whose follower failed is that of the line without an answer, or that of the line without a charge.
    // It can't be the second board: that has no log, and the board that runs may have one.
    ensures behind { result ≡ Err RunFault.Unkept → (left : P.Board) × (P.Board.has_kept left ≡ false)
        × StopsBehind (LacksNoWrite P.Board P.Board.facts P.Board.has_kept) (desk_of board)
        (P.Board.facts left) (R.remaining reader.old) (R.remaining reader.new) (W.contents writer.old)
        (W.contents writer.new) }
{
    let ScriptBoard { board, second } = board;
    has_no_fault(&board);
    let mut desk: Desk<P> = Desk::new(board);
    run_lines(&mut desk, second, reader, writer)
}

/// Runs the lines of a script on a desk. This is a function of its own, so that its loop doesn't share the registers of
/// what runs before it.
#[inline(never)]
fn run_lines<P: Twinned + Drop, R: BufRead, W: Write>(
    desk: &mut Desk<P>,
    mut second: Option<P::Board>,
    reader: &mut R,
    writer: &mut W,
) -> Result<(), RunFault>
where
    P::Board: Followed + Drop,
    requires good { IsGood desk.old.desk.bench }
    requires second { HasSecond P.Board.facts P.Board.can_copy second (bench_facts desk.old.desk.bench) }
    ensures done { OnOk result (IfSome (R.remaining reader.old)
        (λ script. IsRunToEnd (LacksNoWrite P.Board P.Board.facts P.Board.has_kept) desk.old.desk script
        (W.contents writer.old) (W.contents writer.new))) }
    ensures stopped { IfErr result (λ fault.
        RunStopsBy (LacksNoWrite P.Board P.Board.facts P.Board.has_kept) desk.old.desk fault
        (R.remaining reader.old) (R.remaining reader.new) (W.contents writer.old) (W.contents writer.new)) }
    ensures memory { result ≢ Err RunFault.Memory }
    ensures behind { result ≡ Err RunFault.Unkept → (left : P.Board) × (P.Board.has_kept left ≡ false)
        × StopsBehind (LacksNoWrite P.Board P.Board.facts P.Board.has_kept) desk.old.desk (P.Board.facts left)
        (R.remaining reader.old) (R.remaining reader.new) (W.contents writer.old) (W.contents writer.new) }
{
    let mut line = LineBytes::new();
    let mut given = GivenBytes::new();
    let mut text = NO_TEXT;
    let mut taken = 0;
    // A script has at most as many lines as bytes, and one more without a line feed.
    for number in 1..=SCRIPT_LIMIT + 1 {
        let end = match read_line(reader, &mut taken, &mut line) {
            Ok(end) => end,
            Err(LineFault::Read) => return Err(RunFault::Read),
            Err(LineFault::TooMuch) => return Err(RunFault::Read),
            Err(LineFault::TooLong) => return Err(RunFault::BadLine(number)),
        };
        let Some(order) = Order::parse(line.as_slice(), &mut given) else {
            return Err(RunFault::BadLine(number));
        };
        let bytes = given.as_slice();
        desk.charge(&mut second, order, bytes)?;
        let line_result = desk.perform(order, bytes);
        desk.answer(line_result, writer, &mut text)?;
        match end {
            LineEnd::LineFeed => {}
            LineEnd::EndOfScript => return Ok(()),
        }
    }
    // More lines than that are more bytes than a script has.
    Err(RunFault::Read)
}

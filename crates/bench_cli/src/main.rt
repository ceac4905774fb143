//! The bench as a program: runs a script from standard input, and prints its output.
//! With `--card FILE` it runs the script on the card in FILE.
#![tactic(auto)]

ghost use Rattle.std.specs.Prelude.{◌≡◌, ◌&&◌, Err, MatchResult, is_some, true};
ghost use Rattle.bench_lines.specs.Faults.{status_of};
ghost use Rattle.card_bench.specs.ScriptEndings.{IsCardRun};
ghost use Rattle.card_files.specs.AskedBoards.{facts_of};
ghost use Rattle.command_base.specs.Finding.{HasCard};
ghost use Rattle.simulated_boards.specs.Kept.{kept_words};

use bench_lines::RunFault;
use card_bench::run_card;
use card_files::{Asked, CardBoard, CardFault, NoBoard, open_board, parse_bench_options};
use card_turns::Bench;
use std::env;
use std::io::{self, BufRead, BufReader, ErrorKind, Write};
use std::process::ExitCode;

/// The exit status if a file is not taken as a card's.
const NO_CARD: u8 = 6;

/// Reports a bad line, or a failed file, on standard error, and returns the exit status.
fn report_run_fault(rt: &impl Eprint, fault: &RunFault) -> u8
    ensures { result ≡ status_of fault.now }
{
    if let RunFault::BadLine(_) | RunFault::Unkept = fault {
        // The exit status reports the fault even if standard error fails.
        let _ = rt.eprintln(fault);
    }
    fault.status()
}

/// Returns the exit status of a run: 0, or that of its fault, which it reports.
fn status_at_end(rt: &impl Eprint, ended: &Result<(), RunFault>) -> u8
    ensures { MatchResult ended.now (λ _. result ≡ 0) (λ fault. result ≡ status_of fault) }
{
    match ended {
        Ok(()) => 0,
        Err(fault) => report_run_fault(rt, fault),
    }
}

/// Reports on standard error why a file is not taken as a card's, and returns the exit status.
fn report_card_fault(rt: &impl Eprint, fault: &CardFault) -> u8
    ensures { result ≡ 6 }
{
    let _ = rt.eprintln(format_args!("error card: {fault}"));
    NO_CARD
}

/// Returns what the command line asks for. A word that is not UTF-8 is no option.
fn asked(rt: &HostRuntime) -> Result<Asked, RunFault> {
    match env::args(rt) {
        Ok(mut words) => {
            let _program = words.next();
            Ok(parse_bench_options(words))
        }
        Err(error) if error.kind() == ErrorKind::OutOfMemory => Err(RunFault::Memory),
        Err(_) => Ok(Asked::Unknown),
    }
}

/// Runs the script from standard input on the card that the command line asks for.
///
/// # Errors
/// The file is not taken as a card's.
fn run_asked(rt: &HostRuntime) -> Result<Result<(), RunFault>, CardFault> {
    let Ok(mut reader) = BufReader::new(rt.alloc(), rt.reader()) else {
        return Ok(Err(RunFault::Memory));
    };
    let asked = match asked(rt) {
        Ok(asked) => asked,
        Err(fault) => return Ok(Err(fault)),
    };
    match open_board(rt, asked) {
        Ok(board) => Ok(run_script(board, &mut reader, &mut io::writer(rt))),
        Err(NoBoard::Memory) => Ok(Err(RunFault::Memory)),
        Err(NoBoard::Card(fault)) => Err(fault),
    }
}

/// Runs a script on the card in a board's memory, as `card_bench::run_card`.
///
/// # Errors
/// Those of `run_card`: `Memory` only if a file follows the board.
fn run_script<R: BufRead, W: Write>(
    board: CardBoard,
    reader: &mut R,
    writer: &mut W,
) -> Result<(), RunFault>
    requires { HasCard (kept_words board) }
    ensures run { IsCardRun facts_of (λ b. b.follows) board result (R.remaining reader.old) (R.remaining reader.new)
        (W.contents writer.old) (W.contents writer.new) }
    ensures memory { result ≡ Err RunFault.Memory → (board.follows && is_some board.follower) ≡ true }
{
    run_card::<Bench<_>, _, _>(board, reader, writer)
}

/// The exit status is 0, or that of the fault of the run.
fn main(rt: HostRuntime) -> ExitCode {
    match run_asked(&rt) {
        Ok(ran) => ExitCode::from(status_at_end(&rt, &ran)),
        Err(fault) => ExitCode::from(report_card_fault(&rt, &fault)),
    }
}

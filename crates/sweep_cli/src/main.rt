//! Sweeps a command: reads a sweep script from standard input, and prints what came of each cut of its command.
//! With `--card FILE` it sweeps the card in FILE, which it only reads. With `I/N` it tries part I of N of the cuts.
#![tactic(auto)]

ghost use Rattle.std.specs.Prelude.{◌≡◌, MatchResult};
ghost use Rattle.sweep_cli.specs.ProgramStatuses.{program_status_of};

mod fault;

use card_files::swept_board;
use card_sweeps::{Options, SweepFault, parse_sweep_options};
use card_turns::Bench;
use fault::ProgramFault;
use simulated_boards::CutBoard;
use std::env;
use std::io::{self, BufReader, ErrorKind};
use std::process::ExitCode;
use sweep_reports::report;

/// Returns what the command line asks for.
fn asked(rt: &HostRuntime) -> Result<Options, ProgramFault> {
    match env::args(rt) {
        Ok(mut words) => {
            let _program = words.next();
            parse_sweep_options(words).ok_or(ProgramFault::Usage)
        }
        Err(error) if error.kind() == ErrorKind::OutOfMemory => {
            Err(ProgramFault::NoReport(SweepFault::Memory))
        }
        Err(_) => Err(ProgramFault::Usage),
    }
}

/// Sweeps the card that the command line names, by the script from standard input.
fn sweep_card(rt: &HostRuntime) -> Result<(), ProgramFault> {
    let options = asked(rt)?;
    let board = swept_board(rt, options.card.as_deref())?;
    let Ok(mut reader) = BufReader::new(rt.alloc(), rt.reader()) else {
        return Err(ProgramFault::NoReport(SweepFault::Memory));
    };
    report::<Bench<CutBoard>, _, _>(
        rt.alloc(),
        &board,
        options.part,
        &mut reader,
        &mut io::writer(rt),
        rt,
    )?;
    Ok(())
}

/// Returns the exit status: 0, or that of the fault, which it names on standard error.
fn status_at_end(rt: &impl Eprint, ended: &Result<(), ProgramFault>) -> u8
    ensures { MatchResult ended.now (λ _. result ≡ 0) (λ fault. result ≡ program_status_of fault) }
{
    match ended {
        Ok(()) => 0,
        Err(fault) => {
            // The exit status reports the fault even if standard error fails.
            let _ = rt.eprintln(fault);
            fault.status()
        }
    }
}

/// Sweeps the script from standard input. The exit status is 0, or that of the fault.
fn main(rt: HostRuntime) -> ExitCode {
    let ended = sweep_card(&rt);
    ExitCode::from(status_at_end(&rt, &ended))
}

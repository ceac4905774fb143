//! The bench as a program, with the card on a simulated flash: runs a script from standard input, and prints its
//! output. Its first word, a number, chooses what power losses leave in the flash; with `--small-sectors` before it the
//! flash has small sectors. With `--card FILE` the flash is in FILE, else in memory with the factory card.
#![tactic(auto)]

ghost use Rattle.std.specs.Prelude.{◌≡◌, ◌≢◌, Err, IfNone, IfSome, MatchResult, map, take, true};
ghost use Rattle.std.specs.String.{string_bytes};
ghost use Rattle.std.specs.Vec.Iter.{into_iter_items, into_iter_len};
ghost use Rattle.bench_lines.specs.Faults.{status_of};
ghost use Rattle.card_bench.specs.ScriptEndings.{IsCardRun};
ghost use Rattle.command_base.specs.Finding.{HasCard};
ghost use Rattle.flash_cli.specs.SeedWords.{GiveFlash, GiveNoFlash, GiveNoSeed, GiveSeed};
ghost use Rattle.simulated_boards.specs.CutFlashFacts.{cut_flash_facts};

mod given;

use crate::given::{AnyFlash, Given, flash_given};
use bench_lines::RunFault;
use card_bench::run_card;
use card_files::{Asked, FlashCardFault, NoFlash, parse_bench_options};
use card_turns::Bench;
use simulated_boards::{CutFlashBoard, FollowedSocket, board_on_flash, board_on_sectors};
use std::env;
use std::io::{self, BufRead, BufReader, ErrorKind, Write};
use std::process::ExitCode;
use std::vec::IntoIter;

/// The exit status of a bad command line.
const BAD_COMMAND_LINE: u8 = 2;

/// The exit status if a file is not taken as that of a card.
const NO_CARD: u8 = 6;

/// What a bad command line is told.
const USAGE: &str = "usage: flash_cli [--small-sectors] SEED [--card FILE [--sync]], \
    with SEED from 0 to 18446744073709551615";

/// Reports a bad line, or a failed file, on standard error, and returns the exit status.
fn report_run_fault(rt: &impl Eprint, fault: &RunFault) -> u8
    ensures { result ≡ status_of fault.now }
{
    if let RunFault::BadLine(_) | RunFault::Unkept = fault {
        // The exit status reports the fault even if standard error fails.
        let _ = rt.eprintln(fault);
    }
    fault.status()
}

/// Returns the exit status of a run: 0, or that of its fault, which it reports.
fn status_at_end(rt: &impl Eprint, ended: &Result<(), RunFault>) -> u8
    ensures { MatchResult ended.now (λ _. result ≡ 0) (λ fault. result ≡ status_of fault) }
{
    match ended {
        Ok(()) => 0,
        Err(fault) => report_run_fault(rt, fault),
    }
}

/// Reports on standard error why a file is not taken as that of a card, and returns the exit status.
fn report_card_fault(rt: &impl Eprint, fault: &FlashCardFault) -> u8
    ensures { result ≡ 6 }
{
    let _ = rt.eprintln(format_args!("error card: {fault}"));
    NO_CARD
}

/// Returns what the command line gives, if its words give a flash.
fn flash_asked(rt: &HostRuntime) -> Result<Option<Given>, RunFault> {
    match env::args(rt) {
        Ok(words) => Ok(parse_words(words)),
        Err(error) if error.kind() == ErrorKind::OutOfMemory => Err(RunFault::Memory),
        Err(_) => Ok(None),
    }
}

/// Returns what the words behind the program's name give.
fn parse_words(words: IntoIter<String>) -> Option<Given>
    ensures flash { IfSome result (λ given.
        GiveFlash (map string_bytes (take (into_iter_len words) (into_iter_items words)))
        given.small given.seed given.asked) }
    ensures none { IfNone result
        (GiveNoFlash (map string_bytes (take (into_iter_len words) (into_iter_items words)))) }
{
    let mut words = words;
    let _program = words.next()?;
    let first = words.next()?;
    if first.as_bytes() != b"--small-sectors".as_slice() {
        return parse_seed(false, first, words);
    }
    let text = words.next()?;
    parse_seed(true, text, words)
}

/// Returns the number that a text is, and what the words behind it ask for. Unless they ask for a card in a file there
/// are none.
fn parse_seed(small: bool, text: String, words: IntoIter<String>) -> Option<Given>
    ensures sectors { IfSome result (λ given. given.small ≡ small) }
    ensures seed { IfSome result (λ given. GiveSeed (string_bytes text)
        (map string_bytes (take (into_iter_len words) (into_iter_items words))) given.seed given.asked) }
    ensures none { IfNone result (GiveNoSeed (string_bytes text)
        (map string_bytes (take (into_iter_len words) (into_iter_items words)))) }
{
    let seed = text.parse::<u64>().ok()?;
    let is_last = words.len() == 0;
    match parse_bench_options(words) {
        Asked::Factory if !is_last => None,
        asked => Some(Given { small, seed, asked }),
    }
}

/// Runs the script from standard input on the card on a flash that is asked for.
///
/// # Errors
/// The file is not taken as that of a card.
fn run_given(rt: &HostRuntime, given: Given) -> Result<Result<(), RunFault>, FlashCardFault> {
    let Ok(mut reader) = BufReader::new(rt.alloc(), rt.reader()) else {
        return Ok(Err(RunFault::Memory));
    };
    let mut writer = io::writer(rt);
    match flash_given(rt, given) {
        Ok(AnyFlash::Large(flash)) => {
            let board = board_on_flash(flash);
            Ok(run_script(board, &mut reader, &mut writer))
        }
        Ok(AnyFlash::Small(flash)) => {
            let board = board_on_sectors(flash);
            Ok(run_script(board, &mut reader, &mut writer))
        }
        Err(NoFlash::Memory) => Ok(Err(RunFault::Memory)),
        Err(NoFlash::Card(fault)) => Err(fault),
    }
}

/// Runs a script on the card on a flash, as `card_bench::run_card`.
///
/// # Errors
/// Those of `run_card` but `Memory`: no second board runs ahead of a flash.
fn run_script<B: FollowedSocket + Drop, R: BufRead, W: Write>(
    board: CutFlashBoard<B>,
    reader: &mut R,
    writer: &mut W,
) -> Result<(), RunFault>
    requires { HasCard (cut_flash_facts B.facts board).words }
    ensures run { IsCardRun (cut_flash_facts B.facts) (λ b. B.is_kept b.board) board result (R.remaining reader.old)
        (R.remaining reader.new) (W.contents writer.old) (W.contents writer.new) }
    ensures memory { result ≢ Err RunFault.Memory }
{
    run_card::<Bench<_>, _, _>(board, reader, writer)
}

/// The exit status is 0, or that of the fault of the run.
fn main(rt: HostRuntime) -> ExitCode {
    match flash_asked(&rt) {
        Ok(Some(given)) => match run_given(&rt, given) {
            Ok(ran) => ExitCode::from(status_at_end(&rt, &ran)),
            Err(fault) => ExitCode::from(report_card_fault(&rt, &fault)),
        },
        Ok(None) => {
            let _ = rt.eprintln(USAGE);
            ExitCode::from(BAD_COMMAND_LINE)
        }
        Err(fault) => ExitCode::from(report_run_fault(&rt, &fault)),
    }
}

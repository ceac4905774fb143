//! The bench over a script, with its output in memory.
ghost use Rattle.card_calls.specs.ScriptCalls.{EndsScript};

use bench_lines::RunFault;
use card_bench::{ScriptBoard, factory_board, run_on};
use card_calls::{DeviceBoard, unfollowed};
use card_turns::Bench;
use std::alloc::Global;

/// Runs a script on the factory card, as the bench's program does. Returns what it printed, and the fault that stopped
/// it.
#[tactic(auto, using(card_bench::proofs::FirstDesks::first_desk))]
pub fn printed(alloc: Global, script: &[u8]) -> (Vec<u8>, Option<RunFault>)
    ensures { EndsScript script.now result.0.items result.1 }
{
    let mut reader = script;
    let mut text = Vec::new(alloc);
    let Ok(board) = factory_board(alloc) else {
        return (text, Some(RunFault::Memory));
    };
    // (a board that other calls use too, so that its code stands once in the library)
    // Nothing follows this board. Its facts don't tell that, so a want of memory stands for what then can't happen.
    let Ok(board) = ScriptBoard::new(unfollowed(board)) else {
        return (text, Some(RunFault::Memory));
    };
    match run_on::<Bench<DeviceBoard>, _, _>(board, &mut reader, &mut text) {
        Ok(()) => (text, None),
        Err(RunFault::Unkept) => (Vec::new(alloc), Some(RunFault::Memory)),
        Err(fault) => (text, Some(fault)),
    }
}

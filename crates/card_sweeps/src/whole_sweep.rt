//! Sweeps of a command, and of the power-ons after a cut.
ghost use Rattle.std.specs.Prelude.{◌≡◌, ◌≢◌, ◌≤◌, [], sum_by, All, AllPairs, IfOk, IfErr, Ok};
ghost use Rattle.command_base.specs.Finding.{HasCard};
ghost use Rattle.bench_turns.specs.declared.turn.Turn.TheVariants as turn;
ghost use Rattle.card_sweeps.specs.PlanParts.{IsGivenBy, Sweeps, EndsBy};
ghost use Rattle.card_sweeps.specs.SweptRuns.{AreAllBehind, AreAllRuns, AreFirstBehind, AreFirstRuns};
ghost use Rattle.card_sweeps.specs.Sweeps.{EndsBehindStarts, GivenByRun};
ghost use Rattle.card_sweeps.specs.Tallies.{findings, times_seen, CountsToEnd};
ghost use Rattle.card_sweeps.specs.TurnCuts.{swept_by};

use crate::sweepable::Sweepable;
use crate::sweeping::{AfterCut, Halt, cut_starts, play_copy, sweep_turn};
use crate::tally::{Sweep, SweepEnd};
use crate::turn_cuts::TurnRuns;
use bench_turns::{Turn, TurnPlayer};
use std::alloc::{AllocError, Global};

/// Runs a command, cut at each of its writes with each mask.
/// Each run uses a copy of the board.
/// Up to `depth` power-ons after it are cut too, until one makes no write. Each run ends with an uncut power-on and the
/// probe. A cut that was pending on the board may come in `prepare`.
///
/// # Errors
/// There is too little memory.
pub fn sweep<P: TurnPlayer + Drop>(
    alloc: Global,
    board: &P::Board,
    prepare: &[Turn<'_>],
    command: &[u8],
    probe: &[Turn<'_>],
    depth: u8,
) -> Result<Sweep, AllocError>
where
    P::Board: Sweepable + Drop,
    ensures sum { IfOk result (λ s. sum_by times_seen s.seen.items ≡ s.runs) }
    ensures different { IfOk result (λ s. AllPairs (λ a b. a ≢ b) (findings s.seen.items)) }
    ensures runs { IfOk result (λ s. HasCard (P.Board.facts board.now).words → All (GivenByRun
        (record { board = P.Board.facts board.now; prepare = prepare.now; turn = turn.Block command.entry })
        probe.now depth) (findings s.seen.items)) }
    // The tally is that of the possible runs, in order, up to the end that it tells.
    ensures complete { IfOk result (λ s. HasCard (P.Board.facts board.now).words → CountsToEnd
        (AreAllRuns P.Board.facts P.Board.torn depth probe.now
        (record { board = P.Board.facts board.now; prepare = prepare.now; turn = turn.Block command.entry }))
        (AreFirstRuns P.Board.facts P.Board.torn depth probe.now
        (record { board = P.Board.facts board.now; prepare = prepare.now; turn = turn.Block command.entry }))
        s.end s.runs s.seen.items) }
{
    let runs = TurnRuns {
        alloc,
        board,
        prepare,
        turn: Turn::Block(command),
    };
    let mut sweep = Sweep::new(alloc);
    let ended = sweep_prepared::<P>(&runs, &AfterCut { probe, depth }, &mut sweep);
    ended_tally(sweep, ended)
}

/// Tries every run that may follow on a board.
/// Up to `depth` power-ons are cut, until one makes no write. Each run ends with a power-on for which no cut is set,
/// and the probe. If no power-on is cut, a cut that was pending on the board may come in this one.
///
/// # Errors
/// There is too little memory.
pub fn sweep_behind<P: TurnPlayer + Drop>(
    alloc: Global,
    board: &P::Board,
    probe: &[Turn<'_>],
    depth: u8,
) -> Result<Sweep, AllocError>
where
    P::Board: Sweepable + Drop,
    ensures sum { IfOk result (λ s. sum_by times_seen s.seen.items ≡ s.runs) }
    ensures different { IfOk result (λ s. AllPairs (λ a b. a ≢ b) (findings s.seen.items)) }
    ensures runs { IfOk result (λ s. HasCard (P.Board.facts board.now).words
        → All (EndsBehindStarts depth (P.Board.facts board.now) probe.now) (findings s.seen.items)) }
    ensures complete { IfOk result (λ s. HasCard (P.Board.facts board.now).words → CountsToEnd
        (AreAllBehind P.Board.facts P.Board.torn depth probe.now (P.Board.facts board.now))
        (λ end. AreFirstBehind P.Board.facts P.Board.torn end depth probe.now (P.Board.facts board.now))
        s.end s.runs s.seen.items) }
{
    let mut sweep = Sweep::new(alloc);
    let ended = cut_starts::<P>(alloc, board, &AfterCut { probe, depth }, &mut sweep);
    ended_tally(sweep, ended)
}

/// Counts all runs, from the preparation on.
fn sweep_prepared<P: TurnPlayer + Drop>(
    runs: &TurnRuns<'_, '_, P::Board>,
    after: &AfterCut<'_>,
    sweep: &mut Sweep,
) -> Result<(), Halt>
where
    P::Board: Sweepable + Drop,
    ensures { Sweeps (P.Board.facts runs.now.board.now).words (IsGivenBy P.Board.facts runs.now after.now)
        (λ _. AreAllRuns P.Board.facts P.Board.torn after.now.depth after.now.probe.now
        (swept_by P.Board.facts runs.now))
        (AreFirstRuns P.Board.facts P.Board.torn after.now.depth after.now.probe.now
        (swept_by P.Board.facts runs.now)) sweep.old sweep.new result }
{
    let (_, prepared) = play_copy::<P>(runs.alloc, runs.board, runs.prepare)?;
    let _ = sweep_turn::<P>(runs, after, prepared.words(), sweep)?;
    Ok(())
}

/// Returns the tally of a sweep, with how it ended.
fn ended_tally(sweep: Sweep, ended: Result<(), Halt>) -> Result<Sweep, AllocError>
    ensures runs { IfOk result (λ s. s.runs ≡ sweep.runs) }
    ensures seen { IfOk result (λ s. s.seen.items ≡ sweep.seen.items) }
    ensures end { IfOk result (λ s. EndsBy ended s.end) }
{
    let end = match ended {
        Ok(()) => SweepEnd::Whole,
        Err(Halt::Full) => SweepEnd::Full,
        Err(Halt::Differs) => SweepEnd::Differs,
        Err(Halt::Memory) => return Err(AllocError),
    };
    let mut sweep = sweep;
    sweep.end = end;
    Ok(sweep)
}

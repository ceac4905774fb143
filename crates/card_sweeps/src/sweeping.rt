//! Sweeps a turn: cuts it at each of its writes, and the power-ons after each cut. Counts the runs by what they find.
ghost use Rattle.std.specs.Prelude.{◌≡◌, ◌⊎◌, ◌≤◌, ◌<◌, ◌+◌, [], length, None, IfOk, IfErr};
ghost use Rattle.std.specs.Prelude.{is_some, true, false};
ghost use Rattle.command_base.specs.Finding.{HasCard};
ghost use Rattle.bench_turns.specs.Plays.{IsGood};
ghost use Rattle.bench_turns.specs.BenchStates.{IsWell};
ghost use Rattle.bench_turns.specs.Turns.{Runs};
ghost use Rattle.card_sweeps.specs.Masks.{mask_count_of};
ghost use Rattle.card_sweeps.specs.declared.sweeping.Halt.TheVariants as halt;
ghost use Rattle.card_sweeps.specs.declared.tally.SweepEnd.TheVariants.{Full};
ghost use Rattle.card_sweeps.specs.PlanParts.{Sweeps, AllBehind, FirstBehind, halt_of, IsGivenBy, words_left};
ghost use Rattle.card_sweeps.specs.SweptRuns.{AreFirstOfMask, AreFirstOfTurn, AreOfMask};
ghost use Rattle.card_sweeps.specs.SweptRuns.{AreOfTurn, BeginsInTurn, InTurn, IsOneLook};
ghost use Rattle.card_sweeps.specs.Sweeps.{EndsIn, EndsBehindStarts, PlaysOn, free_of};
ghost use Rattle.card_sweeps.specs.TurnCuts.{IsMade, swept_by};

use crate::cut_masks::mask_count;
use crate::stop::SweepStop;
use crate::sweepable::Sweepable;
use crate::tally::{Sweep, Trace, blank_trace};
use crate::turn_cuts::{MadeWrite, TurnRuns, made_write, masked_cut};
use bench_turns::{Turn, TurnPlayer};
use card_model::FreeSpace;
use std::alloc::{AllocError, Global};
use t1_link::BlockBytes;

/// Why the counting of runs stops early.
#[derive(Clone, Copy)]
pub(crate) enum Halt {
    /// There is too little memory.
    Memory,
    /// No further run can be counted.
    Full,
    /// Runs of the same turn left memories that don't fit together.
    Differs,
}

impl From<AllocError> for Halt {
    ghost from_gives = { λ _ h. h ≡ halt.Memory };

    fn from(_: AllocError) -> Halt {
        Halt::Memory
    }
}

impl From<SweepStop> for Halt {
    ghost from_gives = { λ stop h. h ≡ halt_of stop };

    fn from(stop: SweepStop) -> Halt {
        match stop {
            SweepStop::Memory => Halt::Memory,
            SweepStop::Differs => Halt::Differs,
        }
    }
}

/// What comes after each cut of a turn.
#[derive(Clone, Copy, Drop)]
pub(crate) struct AfterCut<'a> {
    /// The turns at the end of each run.
    pub(crate) probe: &'a [Turn<'a>],
    /// The greatest number of power-ons that are cut in a run.
    pub(crate) depth: u8,
}

/// Plays turns on a copy of a board, from power off on.
/// Returns the result of each turn, and the copy, power off.
///
/// # Errors
/// There is too little memory.
pub fn play_copy<P: TurnPlayer + Drop>(
    alloc: Global,
    board: &P::Board,
    turns: &[Turn<'_>],
) -> Result<(Trace, P::Board), AllocError>
where
    P::Board: Sweepable + Drop,
    ensures { IfOk result (λ played. HasCard (P.Board.facts board.now).words
        → PlaysOn (P.Board.facts board.now) turns.now played.0.items (P.Board.facts played.1)) }
{
    let mut bench = P::new(board.copy(alloc)?);
    let trace = played(alloc, &mut bench, turns)?;
    Ok((trace, bench.into_board()))
}

/// Returns the board if power was lost and no cut is pending. Returns it as an error otherwise.
pub(crate) fn cut_board<B: Sweepable + Drop>(is_dark: bool, board: B) -> Result<B, B>
    ensures cut { IfOk result (λ left. (left ≡ board) × (is_dark ≡ true) × ((B.facts left).pending ≡ None)) }
    ensures whole { IfErr result (λ left. (left ≡ board) × ((is_dark ≡ false)
        ⊎ (is_some (B.facts left).pending ≡ true))) }
{
    if is_dark && !board.pending() {
        Ok(board)
    } else {
        Err(board)
    }
}

/// Cuts up to `depth` power-ons, then runs the probe.
/// It cuts no more after a power-on without writes.
#[cycle(starts)]
pub(crate) fn cut_starts<P: TurnPlayer + Drop>(
    alloc: Global,
    board: &P::Board,
    after: &AfterCut<'_>,
    sweep: &mut Sweep,
) -> Result<(), Halt>
where
    P::Board: Sweepable + Drop,
    ensures { Sweeps (P.Board.facts board.now).words
        (EndsBehindStarts after.now.depth (P.Board.facts board.now) after.now.probe.now)
        (λ _. AllBehind P.Board.facts P.Board.torn after.now (P.Board.facts board.now))
        (λ end. FirstBehind P.Board.facts P.Board.torn end after.now (P.Board.facts board.now))
        sweep.old sweep.new result }
{
    if after.depth == 0 {
        return look::<P>(alloc, board, after.probe, sweep);
    }
    let start = TurnRuns {
        alloc,
        board,
        prepare: &[],
        turn: Turn::On,
    };
    let later = AfterCut {
        probe: after.probe,
        depth: after.depth - 1,
    };
    let writes = sweep_turn::<P>(&start, &later, board.words(), sweep)?;
    if writes == 0 {
        return look::<P>(alloc, board, after.probe, sweep);
    }
    Ok(())
}

/// Cuts the turn at each of its writes, and power-ons after each cut. The first write begins with the memory `first`.
/// Returns the number of writes.
#[cycle(starts)]
pub(crate) fn sweep_turn<P: TurnPlayer + Drop>(
    runs: &TurnRuns<'_, '_, P::Board>,
    after: &AfterCut<'_>,
    first: &[u32],
    sweep: &mut Sweep,
) -> Result<u32, Halt>
where
    P::Board: Sweepable + Drop,
    ensures { Sweeps (P.Board.facts runs.now.board.now).words (IsGivenBy P.Board.facts runs.now after.now)
        (AreOfTurn P.Board.facts P.Board.torn (AllBehind P.Board.facts P.Board.torn after.now)
        (swept_by P.Board.facts runs.now) first.now)
        (λ end. AreFirstOfTurn P.Board.facts P.Board.torn end (AllBehind P.Board.facts P.Board.torn after.now)
        (FirstBehind P.Board.facts P.Board.torn end after.now) (swept_by P.Board.facts runs.now) first.now)
        sweep.old sweep.new result }
{
    let mut last = None;
    for writes in 0..u32::MAX {
        let before = memory_left(first, &last);
        let Some(made) = made_write::<P>(runs, writes + 1, before)? else {
            return Ok(writes);
        };
        sweep_write::<P>(runs, after, writes + 1, before, &made, sweep)?;
        last = Some(made.after);
    }
    Ok(u32::MAX)
}

/// Cuts the turn at this write with each mask, and power-ons after each cut.
#[cycle(starts)]
fn sweep_write<P: TurnPlayer + Drop>(
    runs: &TurnRuns<'_, '_, P::Board>,
    after: &AfterCut<'_>,
    write: u32,
    before: &[u32],
    made: &MadeWrite<P::Board>,
    sweep: &mut Sweep,
) -> Result<(), Halt>
where
    P::Board: Sweepable + Drop,
    requires write { 1 ≤ write }
    requires words { made.now.words ≤ 16 }
    requires inside { made.now.at + made.now.words ≤ length before.now }
    requires made { HasCard (P.Board.facts runs.now.board.now).words
        → IsMade P.Board.facts P.Board.torn (swept_by P.Board.facts runs.now) write before.now made.now }
    ensures { Sweeps (P.Board.facts runs.now.board.now).words (IsGivenBy P.Board.facts runs.now after.now)
        (λ _. InTurn (AreOfMask P.Board.facts (AllBehind P.Board.facts P.Board.torn after.now)
        (swept_by P.Board.facts runs.now) write before.now made.now) (mask_count_of made.now.words))
        (λ end. BeginsInTurn (mask_count_of made.now.words)
        (AreOfMask P.Board.facts (AllBehind P.Board.facts P.Board.torn after.now)
        (swept_by P.Board.facts runs.now) write before.now made.now)
        (AreFirstOfMask P.Board.facts end (FirstBehind P.Board.facts P.Board.torn end after.now)
        (swept_by P.Board.facts runs.now) write before.now made.now))
        sweep.old sweep.new result }
{
    for i in 0..mask_count(made.words) {
        sweep_mask::<P>(runs, after, write, before, made, i, sweep)?;
    }
    Ok(())
}

/// Cuts power-ons after a cut of this write with mask number `i`.
#[cycle(starts)]
fn sweep_mask<P: TurnPlayer + Drop>(
    runs: &TurnRuns<'_, '_, P::Board>,
    after: &AfterCut<'_>,
    write: u32,
    before: &[u32],
    made: &MadeWrite<P::Board>,
    i: u8,
    sweep: &mut Sweep,
) -> Result<(), Halt>
where
    P::Board: Sweepable + Drop,
    requires write { 1 ≤ write }
    requires words { made.now.words ≤ 16 }
    requires inside { made.now.at + made.now.words ≤ length before.now }
    requires place { i < mask_count_of made.now.words }
    requires made { HasCard (P.Board.facts runs.now.board.now).words
        → IsMade P.Board.facts P.Board.torn (swept_by P.Board.facts runs.now) write before.now made.now }
    ensures { Sweeps (P.Board.facts runs.now.board.now).words (IsGivenBy P.Board.facts runs.now after.now)
        (λ _. AreOfMask P.Board.facts (AllBehind P.Board.facts P.Board.torn after.now)
        (swept_by P.Board.facts runs.now) write before.now made.now i)
        (λ end. AreFirstOfMask P.Board.facts end (FirstBehind P.Board.facts P.Board.torn end after.now)
        (swept_by P.Board.facts runs.now) write before.now made.now i)
        sweep.old sweep.new result }
{
    if let Some(left) = made.known_cut(i) {
        return cut_starts::<P>(runs.alloc, left, after, sweep);
    }
    let left = masked_cut::<P>(runs, write, before, made, i)?;
    cut_starts::<P>(runs.alloc, &left, after, sweep)
}

/// Returns the memory that the last write left, or the first one before any write.
fn memory_left<'a, B: Sweepable + Drop>(first: &'a [u32], last: &'a Option<B>) -> &'a [u32]
    ensures { result.now ≡ words_left B.facts first.now last.now }
{
    match last {
        Some(left) => left.words(),
        None => first,
    }
}

/// Counts one run: a power-on for which no cut is set, and the probe.
fn look<P: TurnPlayer + Drop>(
    alloc: Global,
    board: &P::Board,
    probe: &[Turn<'_>],
    sweep: &mut Sweep,
) -> Result<(), Halt>
where
    P::Board: Sweepable + Drop,
    ensures { Sweeps (P.Board.facts board.now).words (EndsIn (P.Board.facts board.now) probe.now)
        (λ _. IsOneLook probe.now (P.Board.facts board.now)) (λ end all. (end ≡ Full) × (all ≡ []))
        sweep.old sweep.new result }
{
    if sweep.is_full() {
        return Err(Halt::Full);
    }
    let mut bench = P::new(board.copy(alloc)?);
    let mut reply = BlockBytes::new();
    let _ = bench.turn_well(Turn::On, &mut reply);
    let free = free_space_of(&bench);
    let trace = played(alloc, &mut bench, probe)?;
    sweep.count(trace, free)?;
    Ok(())
}

/// Plays turns, and returns the result of each.
pub(crate) fn played<P: TurnPlayer>(
    alloc: Global,
    bench: &mut P,
    turns: &[Turn<'_>],
) -> Result<Trace, AllocError>
    ensures { IfOk result (λ trace. IsGood (P.state bench.old)
        → IsGood (P.state bench.new) × Runs (P.state bench.old) turns.now trace.items (P.state bench.new)) }
{
    let mut trace = blank_trace(alloc, turns.len())?;
    bench.play_well(turns, &mut trace);
    Ok(trace)
}

/// Returns the free space; zero with power off.
fn free_space_of<P: TurnPlayer>(bench: &P) -> FreeSpace
    ensures { IsWell (P.state bench.now) → result ≡ free_of (P.state bench.now) }
{
    match bench.free() {
        Some(free) => free,
        None => FreeSpace {
            blocks: 0,
            entries: 0,
        },
    }
}

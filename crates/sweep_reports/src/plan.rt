//! The plan of a sweep, and the parts of its report.
ghost use Rattle.std.specs.Prelude.{◌≡◌, ◌≤◌, ◌<◌, ◌+◌, length, OnOk, IfOk, IfSome, IfNone, string_bytes};
ghost use Rattle.command_base.specs.Finding.{HasCard};
ghost use Rattle.card_sweeps.specs.Masks.{mask_count_of};
ghost use Rattle.card_sweeps.specs.TurnCuts.{IsMade, swept_by};
ghost use Rattle.sweep_reports.specs.ReportParts.{AddsText, sweeping_of};
ghost use Rattle.sweep_reports.specs.Reporting.{AreKindsOrNone, AreOwnResults, AreResults, AreWrites, IsCutText};
ghost use Rattle.sweep_reports.specs.Reporting.{IsFound, LacksWrite, TextsInTurn};

use crate::device_writes::{DeviceWrite, WriteKind, push_kinds};
use crate::lines::{cut_head, push_results, stage_head};
use bench_turns::{Turn, TurnPlayer};
use card_sweeps::{
    MadeWrite, SweepEnd, SweepPart, SweepStop, Sweepable, TurnRuns, is_same, made_write, mask_at,
    mask_count, masked_cut, play_copy, sweep_behind,
};
use std::alloc::{AllocError, Global};

/// The plan of a sweep. Each run uses a copy of the board.
#[derive(Drop)]
pub struct ReportPlan<'a, B: Sweepable> {
    pub runs: TurnRuns<'a, 'a, B>,
    pub probe: &'a [Turn<'a>],
    pub looks: &'a [usize],
    pub depth: u8,
    pub part: SweepPart,
}

/// Appends the results of all runs after a cut that left this board. Each line begins with `head`.
fn push_behind<P: TurnPlayer + Drop>(
    plan: &ReportPlan<'_, P::Board>,
    left: &P::Board,
    depth: u8,
    head: &str,
    text: &mut String,
) -> Result<(), SweepStop>
where
    P::Board: Sweepable + Drop,
    ensures { OnOk result (HasCard (P.Board.facts left.now).words
        → AddsText (AreResults P.Board.facts P.Board.torn plan.now.looks.now head.now depth plan.now.probe.now
        (P.Board.facts left.now)) (string_bytes text.old) (string_bytes text.new)) }
{
    let found = sweep_behind::<P>(plan.runs.alloc, left, plan.probe, depth)?;
    if matches!(found.end, SweepEnd::Differs) {
        return Err(SweepStop::Differs);
    }
    push_results(plan.runs.alloc, text, plan.looks, head, &found.seen)?;
    Ok(())
}

/// Appends the result of the probe after turns on a copy of the board. Returns that copy as the turns left it.
///
/// # Errors
/// There is too little memory.
pub fn push_stage<P: TurnPlayer + Drop>(
    plan: &ReportPlan<'_, P::Board>,
    stage: &str,
    turns: &[Turn<'_>],
    text: &mut String,
) -> Result<P::Board, SweepStop>
where
    P::Board: Sweepable + Drop,
    ensures { IfOk result (λ left. HasCard (P.Board.facts plan.now.runs.board.now).words
        → AddsText (IsFound (sweeping_of P.Board.facts P.Board.torn plan.now) stage.now turns.now (P.Board.facts left))
        (string_bytes text.old) (string_bytes text.new)) }
{
    let (trace, left) = play_copy::<P>(plan.runs.alloc, plan.runs.board, turns)?;
    let head = stage_head(plan.runs.alloc, stage, &trace)?;
    push_behind::<P>(plan, &left, 0, &head, text)?;
    Ok(left)
}

/// Appends the results of a cut that left this board, if it is of the part.
fn push_cut<P: TurnPlayer + Drop>(
    plan: &ReportPlan<'_, P::Board>,
    write: u32,
    i: u8,
    mask: u16,
    left: &P::Board,
    text: &mut String,
) -> Result<(), SweepStop>
where
    P::Board: Sweepable + Drop,
    ensures { OnOk result (HasCard (P.Board.facts left.now).words
        → AddsText (AreOwnResults (sweeping_of P.Board.facts P.Board.torn plan.now) write i mask
        (P.Board.facts left.now)) (string_bytes text.old) (string_bytes text.new)) }
{
    if !plan.part.has(write, i) {
        return Ok(());
    }
    let head = cut_head(plan.runs.alloc, write, i, mask)?;
    push_behind::<P>(plan, left, plan.depth, &head, text)
}

/// Cuts a device write with mask number `i`, and appends the results if the cut is of the part. Each part makes all
/// cuts, so each shows the whole write.
fn push_mask<P: TurnPlayer + Drop>(
    plan: &ReportPlan<'_, P::Board>,
    write: u32,
    before: &[u32],
    made: &MadeWrite<P::Board>,
    i: u8,
    text: &mut String,
) -> Result<(), SweepStop>
where
    P::Board: Sweepable + Drop,
    requires write { 1 ≤ write }
    requires words { made.now.words ≤ 16 }
    requires inside { made.now.at + made.now.words ≤ length before.now }
    requires place { i < mask_count_of made.now.words }
    requires made { HasCard (P.Board.facts plan.now.runs.board.now).words
        → IsMade P.Board.facts P.Board.torn (swept_by P.Board.facts plan.now.runs) write before.now made.now }
    ensures { OnOk result (HasCard (P.Board.facts plan.now.runs.board.now).words
        → AddsText (IsCutText (sweeping_of P.Board.facts P.Board.torn plan.now) write before.now made.now i)
        (string_bytes text.old) (string_bytes text.new)) }
{
    let mask = mask_at(made.words, i);
    if let Some(left) = made.known_cut(i) {
        return push_cut::<P>(plan, write, i, mask, left, text);
    }
    let left = masked_cut::<P>(&plan.runs, write, before, made, i)?;
    push_cut::<P>(plan, write, i, mask, &left, text)
}

/// Appends the cuts of a device write that are of the part, and returns the write.
/// Returns `None` if the command makes fewer writes.
fn push_write<P: TurnPlayer + Drop>(
    plan: &ReportPlan<'_, P::Board>,
    write: u32,
    before: &[u32],
    text: &mut String,
) -> Result<Option<MadeWrite<P::Board>>, SweepStop>
where
    P::Board: Sweepable + Drop,
    requires { 1 ≤ write }
    ensures made { IfOk result (λ made. IfSome made (λ it. HasCard (P.Board.facts plan.now.runs.board.now).words
        → IsMade P.Board.facts P.Board.torn (swept_by P.Board.facts plan.now.runs) write before.now it)) }
    ensures text { IfOk result (λ made. IfSome made (λ it. HasCard (P.Board.facts plan.now.runs.board.now).words
        → AddsText (TextsInTurn (IsCutText (sweeping_of P.Board.facts P.Board.torn plan.now) write before.now it)
        (mask_count_of it.words))
        (string_bytes text.old) (string_bytes text.new))) }
    ensures unmade { IfOk result (λ made. IfNone made (HasCard (P.Board.facts plan.now.runs.board.now).words
        → LacksWrite (sweeping_of P.Board.facts P.Board.torn plan.now) write)) }
    ensures same { IfOk result (λ made. IfNone made (string_bytes text.new ≡ string_bytes text.old)) }
{
    let Some(made) = made_write::<P>(&plan.runs, write, before)? else {
        return Ok(None);
    };
    for i in 0..mask_count(made.words) {
        push_mask::<P>(plan, write, before, &made, i, text)?;
    }
    Ok(Some(made))
}

/// Appends the cuts of the part, and returns the device writes of the command. They begin with the memory of
/// `prepared`, and the last one leaves the memory `ended`.
///
/// # Errors
/// There is too little memory, or a memory is another than the runs before show.
pub fn push_writes<P: TurnPlayer + Drop>(
    plan: &ReportPlan<'_, P::Board>,
    prepared: P::Board,
    ended: &[u32],
    progress: &impl Eprint,
    text: &mut String,
) -> Result<Vec<DeviceWrite>, SweepStop>
where
    P::Board: Sweepable + Drop,
    ensures { IfOk result (λ all. HasCard (P.Board.facts plan.now.runs.board.now).words
        → AddsText (AreWrites (sweeping_of P.Board.facts P.Board.torn plan.now) (P.Board.facts prepared).words
        ended.now all.items) (string_bytes text.old) (string_bytes text.new)) }
{
    let mut all = Vec::new(plan.runs.alloc);
    let mut before = prepared;
    for writes in 0..u32::MAX {
        // The progress is for people: the sweep continues even if standard error fails.
        let _ = progress.eprintln(format_args!("write {}", writes + 1));
        let memory = before.words();
        let Some(made) = push_write::<P>(plan, writes + 1, memory, text)? else {
            return if is_same(memory, ended) {
                Ok(all)
            } else {
                Err(SweepStop::Differs)
            };
        };
        let kind = WriteKind::of(made.words, memory, made.after.words());
        all.push(DeviceWrite {
            words: made.words,
            kind,
        })?;
        before = made.after;
    }
    Ok(all)
}

/// Appends the kinds of the device writes, if this is the first part.
///
/// # Errors
/// There is too little memory.
pub fn push_first_part<B: Sweepable>(
    plan: &ReportPlan<'_, B>,
    all: &[DeviceWrite],
    text: &mut String,
) -> Result<(), AllocError>
    ensures { OnOk result (AddsText (AreKindsOrNone (sweeping_of B.facts B.torn plan.now) all.now)
        (string_bytes text.old) (string_bytes text.new)) }
{
    if !plan.part.is_first() {
        return Ok(());
    }
    push_kinds(plan.runs.alloc, text, all)
}

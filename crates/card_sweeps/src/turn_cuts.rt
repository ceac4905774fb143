//! Cuts of a turn, one at a time. The memories that they leave are compared.
ghost use Rattle.std.specs.Prelude.{◌≡◌, ◌≢◌, ◌⊎◌, ◌≤◌, ◌<◌, ◌+◌, ℕ, length, IfOk, IfErr, IfSome, IfNone};
ghost use Rattle.command_base.specs.Finding.{HasCard};
ghost use Rattle.card_sweeps.specs.declared.stop.SweepStop.TheVariants.{Differs};
ghost use Rattle.card_sweeps.specs.Masks.{mask_count_of, mask_of};
ghost use Rattle.card_sweeps.specs.Sweeps.{CutsTurn, EndsBefore, EndsUncut, IsUnmade, SparesTurn};
ghost use Rattle.card_sweeps.specs.TurnCuts.{IsKnownCut, IsMade, MissesCut, MissesRunAt, MissesWrite, SparesSome};
ghost use Rattle.card_sweeps.specs.TurnCuts.{made_run, swept_by};
ghost use Rattle.card_sweeps.specs.WrittenRuns.{IsMasked};

use crate::cut_masks::{mask_at, words_to_try};
use crate::stop::SweepStop;
use crate::sweepable::Sweepable;
use crate::sweeping::{cut_board, played};
use crate::written_runs::{first_change, is_masked, is_same, is_same_word, is_write};
use bench_turns::{Turn, TurnPlayer, TurnResult};
use std::alloc::{AllocError, Global};
use t1_link::BlockBytes;

/// A turn that is cut, and the turns before it. Each run uses a copy of the board.
#[derive(Drop)]
pub struct TurnRuns<'b, 't, B: Sweepable> {
    pub alloc: Global,
    /// The board at the start of each run.
    pub board: &'b B,
    /// The turns before the one that is cut.
    pub prepare: &'t [Turn<'t>],
    /// The turn that is cut: the last block of a command, or power-on.
    pub turn: Turn<'t>,
}

/// A device write of the turn, found by cuts with the first two masks.
#[derive(Drop)]
pub struct MadeWrite<B: Sweepable + Drop> {
    /// The board after a cut that makes no word of it new.
    pub none: B,
    /// The board after a cut that makes all words of it new.
    pub after: B,
    /// The number of its words.
    pub words: u8,
    /// The address of its first word.
    pub at: usize,
}

impl<B: Sweepable + Drop> MadeWrite<B> {
    /// Returns the board after the cut with mask number `i`, if it is one of the first two.
    pub fn known_cut(&self, i: u8) -> Option<&B>
        ensures known { IfSome result (λ left. IsKnownCut self.now i left.now) }
        ensures other { IfNone result (2 ≤ i) }
    {
        match i {
            0 => Some(&self.none),
            1 => Some(&self.after),
            _ => None,
        }
    }
}

/// Returns this device write of the turn, which begins with the memory `before`.
/// Returns `None` if the turn makes fewer writes, and leaves this memory.
///
/// # Errors
/// There is too little memory, or the runs leave other memories than such a write or turn does.
pub fn made_write<P: TurnPlayer + Drop>(
    runs: &TurnRuns<'_, '_, P::Board>,
    write: u32,
    before: &[u32],
) -> Result<Option<MadeWrite<P::Board>>, SweepStop>
where
    P::Board: Sweepable + Drop,
    requires { 1 ≤ write }
    ensures words { IfOk result (λ made. IfSome made (λ it. it.words ≤ 16)) }
    ensures inside { IfOk result (λ made. IfSome made (λ it. it.at + it.words ≤ length before.now)) }
    ensures made { IfOk result (λ made. IfSome made (λ it. HasCard (P.Board.facts runs.now.board.now).words
        → IsMade P.Board.facts P.Board.torn (swept_by P.Board.facts runs.now) write before.now it)) }
    ensures unmade { IfOk result (λ made. IfNone made (HasCard (P.Board.facts runs.now.board.now).words
        → EndsBefore write (swept_by P.Board.facts runs.now) before.now)) }
    ensures differs { IfErr result (λ stop. stop ≡ Differs → HasCard (P.Board.facts runs.now.board.now).words
        → MissesWrite P.Board.facts P.Board.torn (swept_by P.Board.facts runs.now) write before.now) }
{
    let none = match turn_cut::<P>(runs, write, 0)? {
        Ok(none) => none,
        Err(whole) => {
            if is_same(whole.words(), before) {
                return Ok(None);
            }
            return Err(SweepStop::Differs);
        }
    };
    let words = words_to_try(none.torn_words());
    let after = made_cut::<P>(runs, write, mask_at(words, 1))?;
    let at = first_address::<P>(runs, write, words, before, &after)?;
    if !is_write(at, words, before, none.words(), after.words()) {
        return Err(SweepStop::Differs);
    }
    Ok(Some(MadeWrite {
        none,
        after,
        words,
        at,
    }))
}

/// Returns the board after a cut of a device write with mask number `i`, power off. Exactly the words of the mask are
/// new in its memory.
///
/// # Errors
/// There is too little memory, the cut doesn't happen, or other words are new.
pub fn masked_cut<P: TurnPlayer + Drop>(
    runs: &TurnRuns<'_, '_, P::Board>,
    write: u32,
    before: &[u32],
    made: &MadeWrite<P::Board>,
    i: u8,
) -> Result<P::Board, SweepStop>
where
    P::Board: Sweepable + Drop,
    requires write { 1 ≤ write }
    requires words { made.now.words ≤ 16 }
    requires inside { made.now.at + made.now.words ≤ length before.now }
    requires place { i < mask_count_of made.now.words }
    ensures cut { IfOk result (λ left. HasCard (P.Board.facts runs.now.board.now).words
        → CutsTurn write (mask_of made.now.words i) (swept_by P.Board.facts runs.now) (P.Board.facts left)) }
    ensures masked { IfOk result (λ left.
        IsMasked (made_run P.Board.facts before.now made.now) i (P.Board.facts left).words) }
    ensures differs { IfErr result (λ stop. stop ≡ Differs → HasCard (P.Board.facts runs.now.board.now).words
        → MissesCut (swept_by P.Board.facts runs.now) write (made_run P.Board.facts before.now made.now) i) }
{
    let left = made_cut::<P>(runs, write, mask_at(made.words, i))?;
    let after = made.after.words();
    if !is_masked(made.at, made.words, i, before, after, left.words()) {
        return Err(SweepStop::Differs);
    }
    Ok(left)
}

/// Returns the only address at which a device write of `words` words may begin, between the memory `before` and that of
/// the board `after` it. A cut that makes one word new shows it. The caller compares the memories that all cuts leave.
fn first_address<P: TurnPlayer + Drop>(
    runs: &TurnRuns<'_, '_, P::Board>,
    write: u32,
    words: u8,
    before: &[u32],
    after: &P::Board,
) -> Result<usize, SweepStop>
where
    P::Board: Sweepable + Drop,
    requires write { 1 ≤ write }
    requires words { words ≤ 16 }
    requires some { 1 ≤ words }
    requires all { HasCard (P.Board.facts runs.now.board.now).words
        → CutsTurn write (mask_of words 1) (swept_by P.Board.facts runs.now) (P.Board.facts after.now) }
    ensures only { IfOk result (λ at. HasCard (P.Board.facts runs.now.board.now).words
        → MissesRunAt (swept_by P.Board.facts runs.now) write words before.now (P.Board.facts after.now).words at
        → (other : ℕ)
        → MissesRunAt (swept_by P.Board.facts runs.now) write words before.now (P.Board.facts after.now).words other) }
    ensures differs { IfErr result (λ stop. stop ≡ Differs → HasCard (P.Board.facts runs.now.board.now).words
        → SparesSome (swept_by P.Board.facts runs.now) write ⊎ ((other : ℕ)
        → MissesRunAt (swept_by P.Board.facts runs.now) write words before.now (P.Board.facts after.now).words other)) }
{
    let Some(changed) = first_change(before, after.words()) else {
        return Ok(0);
    };
    if words < 2 {
        return Ok(changed);
    }
    for i in 0..words {
        let left = made_cut::<P>(runs, write, mask_at(words, i + 2))?;
        if !is_same_word(changed, left.words(), before) {
            return Ok(changed.saturating_sub(usize::from(i)));
        }
    }
    Err(SweepStop::Differs)
}

/// Returns the board after a cut at a device write that the turn makes.
fn made_cut<P: TurnPlayer + Drop>(
    runs: &TurnRuns<'_, '_, P::Board>,
    write: u32,
    mask: u16,
) -> Result<P::Board, SweepStop>
where
    P::Board: Sweepable + Drop,
    requires { 1 ≤ write }
    ensures cut { IfOk result (λ left. HasCard (P.Board.facts runs.now.board.now).words
        → CutsTurn write mask (swept_by P.Board.facts runs.now) (P.Board.facts left)) }
    ensures differs { IfErr result (λ stop. stop ≡ Differs → HasCard (P.Board.facts runs.now.board.now).words
        → SparesTurn write mask (swept_by P.Board.facts runs.now)) }
{
    match turn_cut::<P>(runs, write, mask)? {
        Ok(left) => Ok(left),
        Err(_) => Err(SweepStop::Differs),
    }
}

/// Returns the board after the turn was cut at write `k`.
/// Returns that of the whole turn as an error if it makes fewer writes.
fn turn_cut<P: TurnPlayer + Drop>(
    runs: &TurnRuns<'_, '_, P::Board>,
    k: u32,
    mask: u16,
) -> Result<Result<P::Board, P::Board>, AllocError>
where
    P::Board: Sweepable + Drop,
    requires { 1 ≤ k }
    ensures cut { IfOk result (λ cut. IfOk cut (λ left. HasCard (P.Board.facts runs.now.board.now).words
        → CutsTurn k mask (swept_by P.Board.facts runs.now) (P.Board.facts left))) }
    ensures unmade { IfOk result (λ cut. IfErr cut (λ _. HasCard (P.Board.facts runs.now.board.now).words
        → IsUnmade k (swept_by P.Board.facts runs.now))) }
    ensures uncut { IfOk result (λ cut. IfErr cut (λ whole. HasCard (P.Board.facts runs.now.board.now).words
        → EndsUncut k mask (swept_by P.Board.facts runs.now) (P.Board.facts whole).words)) }
{
    let mut bench = P::new(runs.board.copy(runs.alloc)?);
    let _ = played(runs.alloc, &mut bench, runs.prepare)?;
    bench.arm_well(k, mask);
    let mut reply = BlockBytes::new();
    let turned = bench.turn_well(runs.turn, &mut reply);
    Ok(cut_board(matches!(turned, TurnResult::Dark), bench.into_board()))
}

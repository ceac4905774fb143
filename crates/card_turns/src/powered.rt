//! A card behind its end of the link.
ghost use Rattle.std.specs.Prelude.{◌≡◌, ◌≢◌, ◌⊎◌, ◌+◌, ◌≤◌, true, [], IsOk, IsErr, OnOk, OnErr};
ghost use Rattle.std.specs.Prelude.{IfOk, IfErr};
ghost use Rattle.nvm_board.specs.Aims.{due_of};
ghost use Rattle.nvm_board.specs.BoardCalls.{Arms};
ghost use Rattle.undo_journal.specs.Undo.{IsSound};
ghost use Rattle.undo_journal.specs.Spending.{Advances, KeepsBoard, WritesAtMost};
ghost use Rattle.command_base.specs.declared.spending.TheConstants.{COMMAND_WRITES};
ghost use Rattle.command_base.specs.Finding.{HasCard, FindsAgain, words_found};
ghost use Rattle.card_start.specs.Running.{Starts, StartStopsBy, card_found};
ghost use Rattle.card_model.specs.Cards.{card_space};
ghost use Rattle.card_start.specs.Starting.{IsNewFound, KeepsFormat, KeepsFoundUnlessOld, KeepsUnlessOld};
ghost use Rattle.card_start.specs.Starting.{RenamesLast, RollsBackUnlessOld, TakesAllPages, power_on_writes};
ghost use Rattle.t1_link.specs.CardTable.{link_step, fresh};
ghost use Rattle.bench_turns.specs.CardBlocks.{Replies, RepliesFailure, BlockFails, BlockIsCut, IsBlockStage};
ghost use Rattle.bench_turns.specs.CardBlocks.{IsRun, BlockChangesNothing, BlockCompares, BlockStands, BlockTurns};
ghost use Rattle.card_core.specs.PausedCards.{IsBetween, Recovers, ResumeStopsBy};
ghost use Rattle.card_turns.specs.PausedLinks.{link_of, session_behind, IsPausedBehind, ResumesBehind};

use crate::paused_link::PausedLink;
use card_core::{Answer, Card, FreeSpace};
use card_start::{CardState, PowerLost, StartFault};
use nvm_board::{Armed, Board, Faultless};
use std::marker::Model;
use t1_link::{Action, BlockBytes, CardEnd};

/// A powered card behind its end of the link.
#[derive(Drop)]
pub struct Powered<B: Board> {
    card: Card<B>,
    link: CardEnd,
    /// The buffer for the answer of a command. Its contents between blocks have no meaning.
    answer: Answer,
}

impl<B: Board> Model for Powered<B> {
    ghost use Rattle.std.specs.Coded.{codes};
    ghost use Rattle.card_model.specs.Sessions.{session_code};
    ghost use Rattle.bench_turns.specs.CardBlocks.{Powered as PoweredValue};

    ghost Value = { PoweredValue };

    ghost coded = { Prim.hlevel (codes, session_code) };

    ghost use Rattle.std.specs.Prelude.{◌≡◌, ◌≢◌, None};
    ghost use Rattle.card_start.specs.declared.state.CardState.TheVariants.{Dark};

    ghost view = { λ p. record { card = p.card; link = p.link.link } };

    ghost use Rattle.command_base.specs.Finding.{HasCard};

    ghost invariant = { λ p. HasCard p.card.facts.words × (p.card.state ≢ Dark → p.link.waiting ≡ None) };
}

impl<B: Board> Powered<B> {
    /// Powers the card on, with a fresh link.
    ///
    /// # Errors
    ///
    /// The board, and why power-on fails: `PowerLost` if power was lost, or was off; `Fault` of the device;
    /// `BadJournal` if the journal can't be undone; `Damaged` if the memory is no valid card image.
    // It isn't inlined, so that the loop over lines keeps no stack for power-on.
    #[inline(never)]
    pub fn start(board: B) -> Result<Powered<B>, (B, StartFault)>
        ensures started { IfOk result (λ p. Starts (B.facts board) p.card × (p.link ≡ fresh)) }
        ensures stopped { IfErr result (λ e. StartStopsBy e.1 (B.facts board) (B.facts e.0)) }
        ensures found { IfOk result (λ p. FindsAgain (B.facts board).words p.card.facts.words) }
        ensures found_err { IfErr result (λ e. FindsAgain (B.facts board).words (B.facts e.0).words) }
        // The card is then of format 2; a card of format 1 has got all pages of the board.
        ensures format { IfOk result (λ p. IsNewFound p.card.facts.words) }
        ensures all_pages { IfOk result (λ p. TakesAllPages (B.facts board).words p.card.facts.words) }
        ensures format_err { IfErr result (λ e. KeepsFormat (B.facts board).words (B.facts e.0).words) }
        // The recovered words are unchanged, unless they are a card of format 1. Only the last write of a power-on sets
        // the mark of format 2.
        ensures kept { IfOk result (λ p. KeepsFoundUnlessOld (B.facts board).words p.card.facts.words) }
        ensures kept_err { IfErr result (λ e. KeepsFoundUnlessOld (B.facts board).words (B.facts e.0).words) }
        ensures last { IfErr result (λ e. RenamesLast (B.facts board) (B.facts e.0)) }
        // If power-on stops on a memory without a card of format 1, it wrote no more than the rollback does.
        ensures rolls_back_err { IfErr result (λ e. RollsBackUnlessOld (B.facts board) (B.facts e.0)) }
        // If no pair of the journal counts, and there is no card of format 1, no word changes and nothing is written.
        ensures shut { IfOk result (λ p. KeepsUnlessOld (B.facts board) p.card.facts) }
        ensures shut_err { IfErr result (λ e. KeepsUnlessOld (B.facts board) (B.facts e.0)) }
        ensures counted { IfOk result
            (λ p. p.card.facts.writes ≡ (B.facts board).writes + power_on_writes (B.facts board)) }
        ensures writes { IfOk result
            (λ p. WritesAtMost (power_on_writes (B.facts board)) (B.facts board) p.card.facts) }
        ensures writes_err { IfErr result
            (λ e. WritesAtMost (power_on_writes (B.facts board)) (B.facts board) (B.facts e.0)) }
    {
        let card = Card::start(board)?;
        Ok(Powered::of(card))
    }

    /// Returns a powered card behind a fresh end of the link.
    pub fn of(card: Card<B>) -> Powered<B>
        ensures card { result.card ≡ card }
        ensures link { result.link ≡ fresh }
    {
        Powered {
            card,
            link: CardEnd::new(),
            answer: Answer::new(),
        }
    }

    /// Takes a block of any bytes, and writes the reply.
    ///
    /// # Errors
    ///
    /// `PowerLost` if power was lost while the block's command ran, or before: then there is no reply.
    pub fn block(&mut self, got: &[u8], out: &mut BlockBytes) -> Result<(), PowerLost>
        // At every exit, also after power loss or a fault, the card state is a stage of the command that ran.
        // It is unchanged if no command ran.
        ensures has_card { HasCard self.new.card.facts.words }
        ensures stage { IsBlockStage self.old (link_step self.old.link got.now).reaction (card_found self.new.card) }
        ensures stands { self.old.card.state ≡ CardState.Working
            → BlockStands self.old (link_step self.old.link got.now).reaction self.new.card.facts.words }
        ensures turned { self.old.card.state ≡ CardState.Working
            → BlockTurns self.old (link_step self.old.link got.now).reaction self.new.card.facts }
        ensures replies { OnOk result (self.old.card.state ≡ CardState.Working
            → Replies self.old got.now self.new out.new ⊎ BlockFails self.old got.now self.new out.new) }
        ensures lost { OnErr result (self.old.card.state ≢ CardState.Dark
            → BlockIsCut self.old got.now self.new out.new) }
        ensures failed { self.old.card.state ≡ CardState.Failed
            → IsOk result × (self.new.card ≡ self.old.card) × RepliesFailure self.old got.now self.new out.new }
        ensures dark { self.old.card.state ≡ CardState.Dark → IsErr result × (self.new ≡ self.old) × (out.new ≡ []) }
        ensures unlit { OnErr result (self.new.card.facts.dark ≡ true) }
        // Without a command the card is unchanged.
        // A command that changes nothing permanent changes no word, and no counter of writes or comparisons.
        ensures unrun { IsRun (link_step self.old.link got.now).reaction ⊎ (self.new.card ≡ self.old.card) }
        ensures idle { BlockChangesNothing self.old (link_step self.old.link got.now).reaction
            → KeepsBoard self.old.card.facts self.new.card.facts }
        ensures writes { self.new.card.facts.writes ≤ self.old.card.facts.writes + COMMAND_WRITES }
        // The write counter never decreases, and a set power cut falls into the write that it was set for.
        ensures advances { Advances self.old.card.facts self.new.card.facts }
        // A comparison permanently uses up a try. Only commands on PINs with data make one, and the first device write
        // of such a command is the charge.
        ensures compares { BlockCompares self.old (link_step self.old.link got.now).reaction self.new.card.facts }
    {
        out.clear();
        if let CardState::Dark = self.card.state() {
            return Err(PowerLost);
        }
        match self.link.take(got, out) {
            Action::Reply => Ok(()),
            Action::Run => {
                self.card.command(self.link.command(), &mut self.answer)?;
                self.link.answer(&self.answer, out);
                Ok(())
            }
        }
    }

    /// Returns the free space of the card: blocks and file entries. It is valid while the card works.
    pub fn free(&self) -> FreeSpace
        ensures { self.now.card.state ≡ CardState.Working → result ≡ card_space (card_found self.now.card) }
    {
        self.card.free()
    }

    /// The board, as it is.
    pub fn board(&self) -> &B
        ensures { B.facts result.now ≡ self.now.card.facts }
    {
        self.card.board()
    }

    /// Returns a second card in the same state behind a second end, on a board that differs in its log at most.
    pub fn twin(&self, board: B) -> Powered<B>
        requires { B.facts board ≡ record self.now.card.facts { log = (B.facts board).log } }
        ensures { result ≡ record self.now { card = record self.now.card { facts = B.facts board } } }
    {
        Powered {
            card: self.card.twin(board),
            link: self.link.twin(),
            answer: Answer::new(),
        }
    }

    /// Takes a working card from its board, and returns both: the board as it is, and the card's session with its end
    /// of the link. `resume` goes on with them.
    ///
    /// # Errors
    /// The same card and link, if the card doesn't work: it has no session.
    pub fn pause(self) -> Result<(B, PausedLink), Powered<B>>
        ensures works { OnOk result (self.card.state ≡ CardState.Working) }
        ensures board { IfOk result (λ r. (B.facts r.0 ≡ self.card.facts) × IsBetween (B.facts r.0)) }
        ensures paused { IfOk result (λ r. IsPausedBehind (words_found self.card.facts.words) r.1) }
        ensures session { IfOk result
            (λ r. session_behind (words_found self.card.facts.words) r.1 ≡ self.card.session) }
        ensures link { IfOk result (λ r. link_of r.1 ≡ self.link) }
        ensures back { IfErr result (λ p. (p ≡ self) × (self.card.state ≢ CardState.Working)) }
    {
        let Powered { card, link, answer } = self;
        match card.pause() {
            Ok((board, card)) => Ok((board, PausedLink { card, link })),
            Err(card) => Err(Powered { card, link, answer }),
        }
    }

    /// Puts a paused card on its board again, and goes on with its session and its end of the link.
    /// The words after recovery are those that it was paused with, as for `Card::resume`.
    ///
    /// # Errors
    /// The board, and why the card can't go on: power was off, or was lost; or the device failed. Session and link are
    /// lost.
    pub fn resume(board: B, paused: PausedLink) -> Result<Powered<B>, (B, StartFault)>
        requires paused { IsPausedBehind (words_found (B.facts board).words) paused }
        requires sound { IsSound (B.facts board).words }
        ensures works { IfOk result (ResumesBehind (B.facts board) paused) }
        ensures stopped { IfErr result (λ e. ResumeStopsBy e.1 (B.facts board) (B.facts e.0)) }
        ensures recovers { IfOk result (λ p. Recovers (B.facts board) p.card.facts) }
        ensures recovers_err { IfErr result (λ e. Recovers (B.facts board) (B.facts e.0)) }
    {
        let PausedLink { card, link } = paused;
        match Card::resume(board, card) {
            Ok(card) => Ok(Powered {
                card,
                link,
                answer: Answer::new(),
            }),
            Err(stopped) => Err(stopped),
        }
    }

    /// The board by itself, as it is.
    pub fn into_board(self) -> B
        ensures { B.facts result ≡ self.card.facts }
    {
        let Powered {
            card,
            link: _,
            answer: _,
        } = self;
        card.into_board()
    }
}

impl<B: Armed> Powered<B> {
    /// Sets a power cut for a later write (`Armed::arm`).
    pub fn arm(&mut self, k: u32, mask: u16)
        requires { 1 ≤ k }
        ensures arms { Arms k mask self.old.card.facts self.new.card.facts }
        ensures same { self.new ≡ record self.old { card = record self.old.card { facts = self.new.card.facts } } }
    {
        self.card.arm(k, mask);
    }
}

impl<B: Faultless> Powered<B> {
    /// Proves that the board has no fault, and set cuts are due.
    pub fn has_no_fault(&self)
        ensures faults { self.now.card.facts.faults ≡ 0 }
        ensures due { self.now.card.facts.due ≡ due_of self.now.card.facts.pending }
    {
        self.card.has_no_fault();
    }
}

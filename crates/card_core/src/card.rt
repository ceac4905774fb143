//! A powered card and its commands.
ghost use Rattle.std.specs.Prelude.{◌≡◌, ◌≢◌, ◌⊎◌, ◌≤◌, ◌+◌, true, false, [], length, IsOk, IsErr, OnOk};
ghost use Rattle.std.specs.Prelude.{OnErr, IfOk, IfErr, IsErrOf, Ok, Err, ℕ, List};
ghost use Rattle.nvm_board.specs.Aims.{due_of};
ghost use Rattle.nvm_board.specs.BoardCalls.{Arms};
ghost use Rattle.undo_journal.specs.declared.error.StoreErr.TheVariants as StoreErr;
ghost use Rattle.undo_journal.specs.Undo.{IsSound};
ghost use Rattle.undo_journal.specs.Spending.{Advances, WritesAtMost, KeepsBoard};
ghost use Rattle.ef_contents.specs.UpdateWrites.{update_writes};
ghost use Rattle.card_model.specs.CommandTable.{asked};
ghost use Rattle.card_model.specs.Requests.{update_binary};
ghost use Rattle.card_model.specs.declared.requests.Target.{Target};
ghost use Rattle.command_base.specs.Comparing.{ComparesAsked};
ghost use Rattle.card_model.specs.Cards.{card_space};
ghost use Rattle.command_base.specs.Finding.{HasCard, FindsAgain, words_found};
ghost use Rattle.card_start.specs.Starting.{IsNewFound, KeepsFormat, KeepsFoundUnlessOld, KeepsUnlessOld};
ghost use Rattle.card_start.specs.Starting.{RenamesLast, RollsBackUnlessOld, TakesAllPages, power_on_writes};
ghost use Rattle.card_start.specs.Running.{Starts, StartStopsBy, Steps, CommandFails, CommandIsCut, card_found};
ghost use Rattle.card_start.specs.Running.{memory_failure};
ghost use Rattle.command_base.specs.CommandWrites.{writes_of};
ghost use Rattle.card_model.specs.WellFormed.{HasCurrentFiles};
ghost use Rattle.card_model.specs.Steps.{IsStage, ChangesNothing};
ghost use Rattle.command_base.specs.CommitWords.{StandsAsked, TurnsAsked};
ghost use Rattle.card_model.specs.Behaviours.{answer_bytes};
ghost use Rattle.command_base.specs.declared.spending.TheConstants.{COMMAND_WRITES};
ghost use Rattle.card_core.specs.PausedCards.{IsBetween, IsPaused, Recovers, Resumes, ResumeStopsBy, session_on};

use crate::card_parts::CardParts;
use crate::commands::run_command;
use crate::paused::Paused;
use apdu_core::{Answer, Sw};
use card_start::{CardState, PowerLost, StartFault, survey_card, survey_of};
use command_base::Current;
use file_tree::{FreeSpace, Index};
use std::marker::Model;
use undo_journal::{Armed, Board, Faultless, Store, StoreErr};

/// A powered card: its memory, its session, and its state.
#[derive(Drop)]
pub struct Card<B: Board> {
    parts: CardParts<B>,
    state: CardState,
}

impl<B: Board> Model for Card<B> {
    ghost use Rattle.card_start.specs.Running.{Running};
    ghost use Rattle.std.specs.Coded.{codes};
    ghost use Rattle.card_model.specs.Sessions.{session_code};

    ghost Value = { Running };

    ghost coded = { Prim.hlevel (codes, session_code) };

    ghost use Rattle.std.specs.Prelude.{◌≡◌, true};
    ghost use Rattle.command_base.specs.Finding.{HasCard};
    ghost use Rattle.card_start.specs.declared.state.CardState.TheVariants.{Working, Dark};
    ghost use Rattle.card_core.specs.WholeCards.{IsWholeCard};
    ghost use Rattle.card_core.specs.ShownSessions.{session_while};
    ghost use Rattle.command_base.specs.Working.{table_in};

    ghost view = { λ c. record {
      facts = c.parts.store.facts;
      session = session_while c.state (table_in c.parts.store) c.parts.current;
      state = c.state;
    } };

    ghost invariant = { λ c. HasCard c.parts.store.facts.words × (c.state ≡ Working → IsWholeCard c.parts)
        × (c.state ≡ Dark → c.parts.store.facts.dark ≡ true) };
}

impl<B: Board> Card<B> {
    /// Powers the card on: recovers the memory, and begins a fresh session.
    /// A memory of format 1 is migrated to format 2 and gets all pages of its board. At every exit the card state after
    /// recovery is what it was, in its former format or in format 2. So power-on can itself lose power any number of
    /// times. With an empty journal and no card of format 1 it writes nothing.
    ///
    /// # Errors
    /// Why power-on fails, with the board: power was off, or was lost; the device failed; the journal can't be undone;
    /// or the recovered memory is no valid card image.
    pub fn start(board: B) -> Result<Card<B>, (B, StartFault)>
        ensures started { IfOk result (Starts (B.facts board)) }
        ensures stopped { IfErr result (λ e. StartStopsBy e.1 (B.facts board) (B.facts e.0)) }
        ensures has_card { IfOk result (λ c. HasCard c.facts.words) }
        ensures found { IfOk result (λ c. FindsAgain (B.facts board).words c.facts.words) }
        ensures found_err { IfErr result (λ e. FindsAgain (B.facts board).words (B.facts e.0).words) }
        // The card is then of format 2; a card of format 1 has got all pages of the board.
        // If power-on stops, the card is in its former format or in format 2.
        ensures format { IfOk result (λ c. IsNewFound c.facts.words) }
        ensures all_pages { IfOk result (λ c. TakesAllPages (B.facts board).words c.facts.words) }
        ensures format_err { IfErr result (λ e. KeepsFormat (B.facts board).words (B.facts e.0).words) }
        // The recovered words are unchanged, unless they are a card of format 1.
        ensures kept { IfOk result (λ c. KeepsFoundUnlessOld (B.facts board).words c.facts.words) }
        ensures kept_err { IfErr result (λ e. KeepsFoundUnlessOld (B.facts board).words (B.facts e.0).words) }
        // If power-on stops on a memory without a card of format 1, it wrote no more than the rollback does.
        ensures rolls_back_err { IfErr result (λ e. RollsBackUnlessOld (B.facts board) (B.facts e.0)) }
        ensures shut { IfOk result (λ c. KeepsUnlessOld (B.facts board) c.facts) }
        ensures shut_err { IfErr result (λ e. KeepsUnlessOld (B.facts board) (B.facts e.0)) }
        // Only its last write sets the mark of format 2. If it succeeds, it made exactly these writes.
        ensures last { IfErr result (λ e. RenamesLast (B.facts board) (B.facts e.0)) }
        ensures counted { IfOk result (λ c. c.facts.writes ≡ (B.facts board).writes + power_on_writes (B.facts board)) }
        ensures writes { IfOk result (λ c. WritesAtMost (power_on_writes (B.facts board)) (B.facts board) c.facts) }
        ensures writes_err { IfErr result
            (λ e. WritesAtMost (power_on_writes (B.facts board)) (B.facts board) (B.facts e.0)) }
    {
        let mut store = match Store::open(board) {
            Ok(store) => store,
            Err((board, fault)) => return Err((board, StartFault::from(fault))),
        };
        let mut index = Index::new();
        match survey_of(survey_card(&mut store, &mut index)) {
            Ok(free) => Ok(Card {
                parts: CardParts {
                    store,
                    current: Current::fresh(),
                    free,
                    index,
                },
                state: CardState::Working,
            }),
            Err(fault) => Err((store.into_board(), fault)),
        }
    }

    /// Returns the state of the card. A working card has power, a dark one has none.
    pub fn state(&self) -> CardState
        ensures state { result ≡ self.now.state }
        ensures lit { self.now.state ≡ CardState.Working → self.now.facts.dark ≡ false }
        ensures unlit { self.now.state ≡ CardState.Dark → self.now.facts.dark ≡ true }
    {
        self.state
    }

    /// Proves that the current files of a working card are in its tree: a DF and, if one is current, an EF in it.
    pub fn has_current_files(&self)
        ensures { self.now.state ≡ CardState.Working
            → HasCurrentFiles (card_found self.now).tree self.now.session }
    {
        // Only the invariant of the card is needed.
        let _ = &self.parts;
    }

    /// Returns the free space of the card: blocks and file entries.
    /// Each command updates these counts. They are valid while the card works.
    pub fn free(&self) -> FreeSpace
        ensures { self.now.state ≡ CardState.Working → result ≡ card_space (card_found self.now) }
    {
        self.parts.free
    }

    /// Runs the bytes of a command, and writes its answer.
    /// The command has the form of ISO/IEC 7816-4, clause 5.
    /// The answer replaces the contents of the buffer. A refusal is an answer too. After a fault of the device the
    /// answer is 6581, now and until the next power-on.
    ///
    /// # Errors
    /// `PowerLost` if power is lost, or was lost in an earlier command: there is no answer until the next power-on.
    pub fn command(&mut self, command: &[u8], answer: &mut Answer) -> Result<(), PowerLost>
        // At every exit, also after power loss or a fault, the card state is one of the command's stages.
        ensures has_card { HasCard self.new.facts.words }
        ensures stage { IsStage (card_found self.old) self.old.session command.now (card_found self.new) }
        // A command that changes nothing permanent changes no word, and no counter of writes or comparisons.
        ensures idle { ChangesNothing (card_found self.old) self.old.session command.now
            → KeepsBoard self.old.facts self.new.facts }
        // An answered command is one step of the model, or 6581 after a fault. Such a step counts its PIN comparison.
        ensures done { OnOk result (self.old.state ≡ CardState.Working
            → Steps self.old command.now self.new answer.new.items ⊎ CommandFails self.old self.new answer.new.items) }
        ensures lost { OnErr result (self.old.state ≡ CardState.Working
            → CommandIsCut self.old self.new answer.new.items) }
        ensures failed { self.old.state ≡ CardState.Failed
            → IsOk result × (self.new ≡ self.old) × (answer.new.items ≡ memory_failure) }
        ensures dark { self.old.state ≡ CardState.Dark → IsErr result × (self.new ≡ self.old) × (answer.new.items
            ≡ []) }
        ensures unlit { OnErr result (self.new.facts.dark ≡ true) }
        // While the gate isn't 0, recovery gives the state before the transaction; writing 0 to it commits.
        // The charge of a PIN, and the reset of its tries by VERIFY, commit by the word of tries.
        ensures stands { self.old.state ≡ CardState.Working
            → StandsAsked (card_found self.old) self.old.session (asked command.now) self.new.facts.words }
        // Once the gate has turned to 0, recovery gives the card after the last commit. It has turned if it is 0 after
        // more than two device writes of the transaction.
        ensures turned { self.old.state ≡ CardState.Working
            → TurnsAsked (card_found self.old) self.old.session (asked command.now) self.old.facts self.new.facts }
        ensures writes { self.new.facts.writes ≤ self.old.facts.writes + COMMAND_WRITES }
        // The write counter never decreases, and a set power cut falls into the write that it was set for.
        ensures advances { Advances self.old.facts self.new.facts }
        // The request bounds the device writes: reads and invalid commands make none.
        ensures counted { self.new.facts.writes ≤ self.old.facts.writes + writes_of command.now }
        // The bound for UPDATE BINARY, by its number of bytes.
        ensures updated { (target : Target) (offset : ℕ) (bytes : List ℕ)
            → asked command.now ≡ Ok (update_binary target offset bytes)
            → self.new.facts.writes ≤ self.old.facts.writes + update_writes (length bytes) }
        // A comparison permanently uses up a try. Only commands on PINs with data make one, and the first device write
        // of such a command is the charge.
        ensures compares { ComparesAsked (asked command.now) (card_found self.old) self.old.facts
            (card_found self.new) self.new.facts }
    {
        answer.clear();
        match self.state {
            CardState::Working => {}
            CardState::Failed => {
                end_answer(answer, Sw::MEMORY_FAILURE);
                return Ok(());
            }
            CardState::Dark => return Err(PowerLost),
        }
        let carried = run_command(&mut self.parts, command, answer);
        end_command(carried, &mut self.state, answer)
    }

    /// The board, as it is.
    pub fn board(&self) -> &B
        ensures { B.facts result.now ≡ self.now.facts }
    {
        self.parts.store.board()
    }

    /// Returns a second card in the same state, on a board that differs in its log at most.
    pub fn twin(&self, board: B) -> Card<B>
        requires { B.facts board ≡ record self.now.facts { log = (B.facts board).log } }
        ensures { result ≡ record self.now { facts = B.facts board } }
    {
        Card {
            parts: CardParts {
                store: self.parts.store.twin(board),
                current: self.parts.current,
                free: self.parts.free,
                index: self.parts.index.twin(),
            },
            state: self.state,
        }
    }

    /// Takes a working card from its board, and returns both: the board as it is, and the card's session.
    /// `resume` goes on with them. Meanwhile the board may be rewritten, as long as its words after recovery stay.
    ///
    /// # Errors
    /// The same card, if it doesn't work: it has no session.
    pub fn pause(self) -> Result<(B, Paused), Card<B>>
        ensures works { OnOk result (self.state ≡ CardState.Working) }
        ensures board { IfOk result (λ r. (B.facts r.0 ≡ self.facts) × IsBetween (B.facts r.0)) }
        ensures paused { IfOk result (λ r. IsPaused (words_found self.facts.words) r.1) }
        ensures session { IfOk result (λ r. session_on (words_found self.facts.words) r.1 ≡ self.session) }
        ensures back { IfErr result (λ c. (c ≡ self) × (self.state ≢ CardState.Working)) }
    {
        match self.state {
            CardState::Working => {}
            CardState::Failed | CardState::Dark => return Err(self),
        }
        let CardParts {
            store,
            current,
            free,
            index,
        } = self.parts;
        let paused = Paused {
            current,
            free,
            index,
        };
        Ok((store.into_board(), paused))
    }

    /// Puts a paused card on its board again, and goes on with its session.
    /// The words after recovery are those that it was paused with: then the session fits them. If the journal isn't
    /// empty, it is rolled back first.
    ///
    /// # Errors
    /// The board, and why the card can't go on: power was off, or was lost; or the device failed. The session is lost.
    pub fn resume(board: B, paused: Paused) -> Result<Card<B>, (B, StartFault)>
        requires paused { IsPaused (words_found (B.facts board).words) paused }
        requires sound { IsSound (B.facts board).words }
        ensures works { IfOk result (Resumes (B.facts board) paused) }
        ensures stopped { IfErr result (λ e. ResumeStopsBy e.1 (B.facts board) (B.facts e.0)) }
        ensures recovers { IfOk result (λ c. Recovers (B.facts board) c.facts) }
        ensures recovers_err { IfErr result (λ e. Recovers (B.facts board) (B.facts e.0)) }
    {
        let Paused {
            current,
            free,
            index,
        } = paused;
        let store = match Store::open(board) {
            Ok(store) => store,
            Err((board, fault)) => return Err((board, StartFault::from(fault))),
        };
        Ok(Card {
            parts: CardParts {
                store,
                current,
                free,
                index,
            },
            state: CardState::Working,
        })
    }

    /// The board by itself, as it is.
    pub fn into_board(self) -> B
        ensures { B.facts result ≡ self.facts }
    {
        let Card { parts, state: _ } = self;
        let CardParts {
            store,
            current: _,
            free: _,
            index: _,
        } = parts;
        store.into_board()
    }
}

impl<B: Faultless> Card<B> {
    /// Proves that the board has no fault, and set cuts are due.
    pub fn has_no_fault(&self)
        ensures faults { self.now.facts.faults ≡ 0 }
        ensures due { self.now.facts.due ≡ due_of self.now.facts.pending }
    {
        self.parts.store.has_no_fault();
    }
}

impl<B: Armed> Card<B> {
    /// Sets a cut for a later write (`Armed::arm`).
    pub fn arm(&mut self, k: u32, mask: u16)
        requires { 1 ≤ k }
        ensures arms { Arms k mask self.old.facts self.new.facts }
        ensures same { self.new ≡ record self.old { facts = self.new.facts } }
    {
        self.parts.store.arm(k, mask);
    }
}

/// Ends a command: completes its answer, updates the state.
fn end_command(
    carried: Result<Sw, StoreErr>,
    state: &mut CardState,
    answer: &mut Answer,
) -> Result<(), PowerLost>
    requires { length answer.old.items ≤ 256 }
    ensures done { IfOk carried (λ status. IsOk result × (state.new ≡ state.old) × (answer.new.items
        ≡ answer_bytes (record { text = answer.old.items; status = status }))) }
    ensures failed { IsErrOf carried StoreErr.Fault
        → IsOk result × (state.new ≡ CardState.Failed) × (answer.new.items ≡ memory_failure) }
    ensures lost { IsErrOf carried StoreErr.PowerLost
        → IsErr result × (state.new ≡ CardState.Dark) × (answer.new.items ≡ []) }
{
    match carried {
        Ok(status) => {
            end_answer(answer, status);
            Ok(())
        }
        Err(StoreErr::Fault) => {
            *state = CardState::Failed;
            answer.clear();
            end_answer(answer, Sw::MEMORY_FAILURE);
            Ok(())
        }
        Err(StoreErr::PowerLost) => {
            *state = CardState::Dark;
            answer.clear();
            Err(PowerLost)
        }
    }
}

/// Ends an answer with its status word.
fn end_answer(answer: &mut Answer, status: Sw)
    requires { length answer.old.items ≤ 256 }
    ensures { answer.new.items ≡ answer_bytes (record { text = answer.old.items; status = status }) }
{
    let [first, second] = status.to_bytes();
    answer.push(first);
    answer.push(second);
}

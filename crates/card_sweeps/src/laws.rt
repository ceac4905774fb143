//! Laws of sweeps: each function's contract is one law.
ghost use Rattle.std.specs.Prelude.{◌≡◌, ◌≤◌, ◌+◌, ◌-◌, ℕ, List, true};
ghost use Rattle.core.specs.Borrow.{Bor};
ghost use Rattle.nvm_board.specs.Facts.{Facts};
ghost use Rattle.nvm_board.specs.History.{replayed};
ghost use Rattle.card_start.specs.Starting.{power_on_writes};
ghost use Rattle.bench_turns.specs.declared.turn.Turn.{Turn};
ghost use Rattle.bench_turns.specs.declared.turn.Turn.TheVariants.{Block};
ghost use Rattle.bench_turns.specs.BenchStates.{bench_card, bench_facts};
ghost use Rattle.bench_turns.specs.Lasting.{HasLeft};
ghost use Rattle.card_sweeps.specs.Sweeps.{CutsTurn, GivenByRun, IsStageOf, LeavesTorn, SparesStart, SparesTurn};
ghost use Rattle.card_sweeps.specs.Sweeps.{SweptTurn};
ghost use Rattle.card_sweeps.specs.Tallies.{Finding};

/// Each finding of a sweep shows a stage of the command.
/// The number of cut power-ons after it doesn't matter.
pub fn swept_cards_are_stages()
    ensures { (board : Facts) (prepare : List Turn) (command : Bor (List ℕ)) (probe : List Turn) (depth : ℕ)
        (given : Finding)
        → (s : GivenByRun (record { board = board; prepare = prepare; turn = Block command }) probe depth given)
        → IsStageOf s.cut.armed command.now (bench_card s.rest.end.started) }
{}

/// A cut leaves exactly the words of its mask new in the write that it falls into, on a board whose cuts do. With mask
/// 0 it leaves the memory before that write.
pub fn cuts_leave_the_words_of_their_masks()
    ensures words { (number mask : ℕ) (swept : SweptTurn) (left : Facts) → (cut : CutsTurn number mask swept left)
        → swept.board.masks ≡ true → LeavesTorn number mask (bench_facts cut.prepared).words left.words }
    ensures none { (number : ℕ) (before left : List ℕ) → (torn : LeavesTorn number 0 before left)
        → left ≡ replayed before torn.whole }
{}

/// A sweep spares a power-on at a write only if its memory asks for fewer writes.
///
/// The clause on a command is weaker: its block has some end before that write. Tests show how many writes a command
/// makes. The counters of the board must be far from their limits.
pub fn spared_runs_make_fewer_writes()
    ensures start { (number mask : ℕ) (board : Facts) → SparesStart number mask board → HasLeft 3787 board
        → power_on_writes board ≤ number - 1 }
    ensures command { (number mask : ℕ) (board : Facts) (prepare : List Turn) (command : Bor (List ℕ))
        → (s : SparesTurn number mask (record { board = board; prepare = prepare; turn = Block command }))
        → HasLeft 700 (bench_facts s.prepared)
        → (bench_facts s.last).writes ≤ (bench_facts s.prepared).writes + (number - 1) }
{}

/// A sweep spares a power-on or a command at its first write only if it changes no word.
/// A body that cuts no write of a command that changes the card is therefore no sweep. The counters of the board must
/// be far from their limits.
pub fn runs_spared_at_once_change_no_word()
    ensures start { (mask : ℕ) (board : Facts) → (s : SparesStart 1 mask board) → HasLeft 3787 board
        → (bench_facts s.last).words ≡ board.words }
    ensures command { (mask : ℕ) (board : Facts) (prepare : List Turn) (command : Bor (List ℕ))
        → (s : SparesTurn 1 mask (record { board = board; prepare = prepare; turn = Block command }))
        → HasLeft 700 (bench_facts s.prepared)
        → (bench_facts s.last).words ≡ (bench_facts s.prepared).words }
{}

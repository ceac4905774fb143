//! Laws of the definitions, as contracts of functions that do nothing.
ghost use Rattle.std.specs.Prelude.{◌≡◌, ◌≢◌, ◌⊎◌, ◌≤◌, ◌+◌, ◌/◌, ◌++◌, ℕ, List, length};
ghost use Rattle.undo_journal.specs.Spending.{transaction_writes};
ghost use Rattle.block_chain.specs.ChainChanges.{touched_blocks, touched_words};
ghost use Rattle.ef_contents.specs.UpdateWrites.{update_writes};
ghost use Rattle.command_base.specs.declared.spending.TheConstants.{COMMAND_WRITES};
ghost use Rattle.command_base.specs.CommandWrites.{writes_of};
ghost use Rattle.block_chain.specs.declared.layout.TheConstants.{HEADER_PAGE};
ghost use Rattle.file_tree.specs.declared.layout.TheConstants.{MARK, MARK_WORD, OLD_END_PAGE, OLD_MARK};
ghost use Rattle.file_tree.specs.declared.layout.TheConstants.{PAGES_WORD, STATE_WORD};
ghost use Rattle.pin_store.specs.declared.layout.TheConstants.{FIRST_PIN_PAGE};
ghost use Rattle.card_model.specs.declared.pins.TheConstants.{PINS};
ghost use Rattle.card_model.specs.declared.status.TheConstants.Sw.{MEMORY_FAILURE};
ghost use Rattle.nvm_board.specs.Facts.{IsMemory};
ghost use Rattle.pin_store.specs.declared.layout.TheConstants.{PIN_MARK_WORD};
ghost use Rattle.card_model.specs.Requests.{AreBytes, Request};
ghost use Rattle.card_model.specs.Cards.{Card, IsAnswer, IsProper};
ghost use Rattle.command_base.specs.Finding.{Finds, HasCard, found};
ghost use Rattle.card_model.specs.Behaviours.{answer_bytes};
ghost use Rattle.command_base.specs.Standing.{StandsFor};
ghost use Rattle.card_core.specs.Refused.{IsSuccess, LeavesAll, ShowsWrong};
ghost use Rattle.card_model.specs.WellFormed.{HasCurrentFiles, IsWellFormed};
ghost use Rattle.card_model.specs.CommandTable.{asked};
ghost use Rattle.card_model.specs.Sessions.{Session};
ghost use Rattle.card_model.specs.Steps.{IsStage, commits_served, carried_out, alone_served, gated_served};

/// Recovery gives at most one card state.
pub fn one_card()
    ensures { (m : List ℕ) (c d : Card) → Finds m c → Finds m d → c ≡ d }
{}

/// With an empty journal, recovery gives the state of the words.
pub fn standing_card_is_found()
    ensures { (m : List ℕ) (c : Card) → IsMemory m → StandsFor m c → Finds m c }
{}

/// The card state after recovery is proper.
/// Its contents are bytes, each record has its file's record length, and each number is in its range.
pub fn found_is_proper()
    ensures { (m : List ℕ) → HasCard m → IsProper (found m) }
{}

/// The card state after recovery is well formed.
/// Its files are a tree of at most eight levels, with valid access rules. Names differ, and so do the short identifiers
/// in one DF. It has eight PINs, with values of eight bytes.
pub fn found_is_well_formed()
    ensures { (m : List ℕ) → HasCard m → IsWellFormed (found m) }
{}

/// A command of bytes keeps a proper card proper.
pub fn step_keeps_proper()
    ensures { (c : Card) (s : Session) (command : List ℕ) → IsProper c → AreBytes command
        → IsProper (carried_out c s command).card }
{}

/// A command keeps a well-formed card well formed, and the current files of its session in its tree.
pub fn step_keeps_well_formed()
    ensures card { (c : Card) (s : Session) (command : List ℕ) → IsWellFormed c → HasCurrentFiles c.tree s
        → IsWellFormed (carried_out c s command).card }
    ensures files { (c : Card) (s : Session) (command : List ℕ) → IsWellFormed c → HasCurrentFiles c.tree s
        → HasCurrentFiles (carried_out c s command).card.tree (carried_out c s command).session }
{}

/// A command that answers another status than 9000 and the warnings 6282, 6283 and 6285 leaves card and session as
/// before, unless it showed a wrong value of a PIN: then 63CX says how many tries are left.
pub fn refusals_leave_all()
    ensures { (c : Card) (s : Session) (command : List ℕ) → LeavesAll c s (carried_out c s command)
        ⊎ IsSuccess (carried_out c s command).response.status
        ⊎ ShowsWrong c (asked command) (carried_out c s command).response.status }
{}

/// No command of a proper card answers 6581: that status word tells of the device alone.
pub fn no_step_answers_a_memory_failure()
    ensures { (c : Card) (s : Session) (command : List ℕ) → IsProper c
        → (carried_out c s command).response.status ≢ MEMORY_FAILURE }
{}

/// No command changes how many blocks a card has, nor does any of its stages: it is one number for a whole run.
pub fn steps_keep_blocks()
    ensures step { (c : Card) (s : Session) (command : List ℕ) → (carried_out c s command).card.blocks ≡ c.blocks }
    ensures stages { (c : Card) (s : Session) (command : List ℕ) (d : Card)
        → IsStage c s command d → d.blocks ≡ c.blocks }
{}

/// A proper card's answer to a command has 2 to 258 bytes.
pub fn answers_are_short()
    ensures { (c : Card) (s : Session) (command : List ℕ) → IsProper c → AreBytes command
        → IsAnswer (answer_bytes (carried_out c s command).response) }
{}

/// No command makes more than 700 device writes.
/// UPDATE BINARY of n bytes touches at most n / 4 words, rounded up, plus one. It makes at most three writes for each
/// eight of these words, one for each 60 bytes, rounded up, and one more.
pub fn commands_write_little()
    ensures most { (command : List ℕ) → writes_of command ≤ COMMAND_WRITES }
    ensures number { COMMAND_WRITES ≡ 700 }
    ensures words { (offset n : ℕ) → touched_words offset n ≤ (n + 3) / 4 + 1 }
    ensures updates { (offset n : ℕ)
        → transaction_writes (touched_words offset n) (touched_blocks offset n) ≤ update_writes n }
{}

/// A request's commits are those by words, then by the gate.
pub fn commits_by_their_words()
    ensures { (c : Card) (s : Session) (request : Request)
        → alone_served c s request ++ gated_served c s request ≡ commits_served c s request }
{}

/// Gives the layout of the header and of the PINs.
/// Page 0 has the mark in word 0 ("TSC1" in format 1, "TSC2" in format 2), and the state in word 2. In format 2 the
/// page where the blocks end is in word 3. In format 1 they end at page 1,024. The pages of the 8 PINs begin at page
/// 65, and their mark in format 2 is word 6. The places of file entries and blocks are laws of file_tree and
/// block_chain.
pub fn layout()
    ensures mark { (OLD_MARK ≡ 0x54534331) × (MARK ≡ 0x54534332) }
    ensures header { (HEADER_PAGE ≡ 0) × (MARK_WORD ≡ 0) × (STATE_WORD ≡ 2) × (PAGES_WORD ≡ 3) }
    ensures end { OLD_END_PAGE ≡ 1024 }
    ensures pins { (FIRST_PIN_PAGE ≡ 65) × (PINS ≡ 8) × (PIN_MARK_WORD ≡ 6) }
{}

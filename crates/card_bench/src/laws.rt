//! Laws of the definitions: each function's contract is one law.

ghost use Rattle.std.specs.Prelude.{◌≡◌, ◌≢◌, ◌⊎◌, ◌≤◌, ◌+◌, ◌*◌, ℕ, List, length, true, Ok, Err, None};
ghost use Rattle.t1_link.specs.Blocks.{Block as BlockValue, heard};
ghost use Rattle.t1_link.specs.Garbled.{last_bit_turned};
ghost use Rattle.t1_link.specs.declared.block.Fault.TheVariants.{WrongCheck};
ghost use Rattle.card_bench.specs.declared.reader_turns.TheConstants.{LINE_BLOCKS};
ghost use Rattle.card_bench.specs.declared.line.Line.{Line};
ghost use Rattle.bench_lines.specs.Orders.{Order};
ghost use Rattle.bench_turns.specs.declared.turn.Item.{Item};
ghost use Rattle.bench_turns.specs.declared.turn.Item.TheVariants.{Mute};
ghost use Rattle.bench_turns.specs.declared.turn.Turn.{Turn};
ghost use Rattle.bench_turns.specs.declared.turn.Turn.TheVariants.{On};
ghost use Rattle.bench_turns.specs.BenchStates.{BenchState, bench_facts};
ghost use Rattle.card_bench.specs.Exchanges.{Desk};
ghost use Rattle.card_bench.specs.ExchangeWorlds.{ExchangeLaw};
ghost use Rattle.bench_turns.specs.Lasting.{HasLeft};
ghost use Rattle.card_bench.specs.Lines.{arriving, line_after};
ghost use Rattle.card_bench.specs.Performing.{Performs};
ghost use Rattle.bench_turns.specs.Plays.{IsGood};
ghost use Rattle.bench_lines.specs.Printouts.{prints_dark};
ghost use Rattle.card_bench.specs.Prints.{IsFirstDesk, IsUnfollowed, PrintsLines};
ghost use Rattle.card_bench.specs.ScriptWorlds.{PowerOnLaw, LineLaw};
ghost use Rattle.bench_turns.specs.Turns.{GoodBlock, GoodTurn, Runs, dark_of, run_steps, turn_steps};
ghost use Rattle.file_tree.specs.Formats.{is_format_2};
ghost use Rattle.command_base.specs.Finding.{words_found};
ghost use Rattle.t1_link.specs.Worlds.{are_bytes, may_arrive};

/// Only the number of earlier blocks decides which block a fault hits.
/// After some blocks, the line treats the next ones as the former line would have done, counted from there.
pub fn faults_fall_due_in_turn()
    ensures later { (first second : ℕ) (line : Line)
        → line_after second (line_after first line) ≡ line_after (first + second) line }
    ensures due { (first before : ℕ) (line : Line) (block : List ℕ)
        → arriving (line_after first line) before block ≡ arriving line (first + before) block }
{}

/// A garbled block is received as a redundancy error.
/// The world's line allows this.
pub fn garbled_block_is_no_block()
    ensures fault { (bytes : List ℕ) (b : BlockValue) → heard bytes ≡ Ok b
        → heard (last_bit_turned bytes) ≡ Err WrongCheck }
    ensures world { (bytes : List ℕ) (b : BlockValue)
        → are_bytes bytes ≡ true → heard bytes ≡ Ok b → may_arrive (last_bit_turned bytes) ≡ true }
{}

/// An exchange is a run of the world of both ends.
/// It begins in a world in which nothing is under way, and whose ends and machine are those at the bench. Its events
/// are the command and then, for at most 1,000 blocks, the effect of the pending faults: the block is lost, garbled, or
/// passes. The world after these events shows how the exchange ended, and its ends and machine are again those at the
/// bench. After power loss, the block under way made the card's end run that very command. The card state after
/// recovery is then one of its stages.
pub fn exchange_is_a_run_of_the_world()
    ensures { ExchangeLaw }
{}

/// The commands of a script after a power-on are exchanges in one world.
/// A successful power-on begins a world with the card state after recovery and a fresh session. Each command is an
/// exchange in it, and other lines don't change it. It ends with power on or off, a block to the card's end, or an
/// exchange after which no command may be sent.
pub fn script_goes_on_in_a_world()
    ensures begins { PowerOnLaw }
    ensures goes_on { LineLaw }
{}

/// A board's counters last.
/// A turn raises each by at most 700, and only power-on of a memory that isn't of format 2 by more, at most 3,787.
/// Turns raise them by the sum. With that much left, power-on always gives an answer to reset unless power is lost, and
/// power is lost only at a due cut. In a script, whose board is new, 700,000 are left after every line. With that much
/// left, no cut is pending after a line that prints `dark`.
pub fn counts_last()
    ensures starts { (old new : BenchState) (item : Item) → GoodTurn old On item new → HasLeft 700 (bench_facts old)
        → item ≢ Mute }
    ensures due { (old new : BenchState) (turn : Turn) (item : Item) → GoodTurn old turn item new
        → HasLeft (turn_steps old turn) (bench_facts old)
        → (bench_facts old).due ≡ (bench_facts new).due + dark_of item }
    ensures steps { (old : BenchState) (turn : Turn) → (turn_steps old turn ≤ 3787)
        × (turn ≢ On ⊎ (is_format_2 (words_found (bench_facts old).words) ≡ true) → turn_steps old turn ≡ 700) }
    ensures block { (old new : BenchState) (got : List ℕ) (item : Item) → GoodBlock old got item new
        → HasLeft 700 (bench_facts old) → (bench_facts old).due ≡ (bench_facts new).due + dark_of item }
    ensures turns { (n : ℕ) (old new : BenchState) (turns : List Turn) (trace : List Item)
        → (run : Runs old turns trace new)
        → (run_steps old turns trace new run ≤ 3787 * length turns)
        × (HasLeft (n + run_steps old turns trace new run) (bench_facts old) → HasLeft n (bench_facts new)) }
    ensures script { (first last : Desk) (some : List (List ℕ)) (out : List ℕ) → IsFirstDesk first
        → PrintsLines IsUnfollowed IsUnfollowed first some last out → length some ≤ 16777217
        → HasLeft 700000 (bench_facts last.bench) }
    ensures cut { (order : Order) (old new : Desk) → Performs order old new prints_dark
        → IsGood old.bench → IsGood new.bench
        → HasLeft 700000 (bench_facts old.bench) → (bench_facts new.bench).pending ≡ None }
    ensures dark { (order : Order) (old new : Desk) → Performs order old new prints_dark
        → HasLeft 700000 (bench_facts old.bench) → (bench_facts old.bench).due ≡ (bench_facts new.bench).due + 1 }
{}

/// How many blocks a command puts on the line at most, as a reader sees it.
pub fn limits()
    ensures blocks { LINE_BLOCKS ≡ 1000 }
{}

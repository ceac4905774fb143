//! Laws of turns: each function's contract is one law.

ghost use Rattle.std.specs.Prelude.{◌≡◌, ◌⊎◌, ◌≤◌, ◌+◌, ◌*◌, ℕ, List};
ghost use Rattle.card_model.specs.declared.pins.TheConstants.{PINS};
ghost use Rattle.card_start.specs.declared.state.CardState.TheVariants.{Working, Failed};
ghost use Rattle.bench_turns.specs.declared.turn.Item.{Item};
ghost use Rattle.bench_turns.specs.BenchStates.{BenchState, BenchHasCard, on};
ghost use Rattle.bench_turns.specs.CardBlocks.{Powered};
ghost use Rattle.bench_turns.specs.FaultTurns.{TakesBlockOrFails};
ghost use Rattle.bench_turns.specs.Guessing.{GuessesFew, unblocking_guessed, value_guessed};

/// Gives the guess law in numbers.
/// In a run without a match, a PIN's value is compared at most 3 times, and its unblocking value at most 10 times. The
/// run begins with a valid card state. Neither its length nor power loss matters. Each match that resets the tries
/// allows 3, or 10, more.
pub fn guesses_are_few()
    ensures values { (old new : BenchState) (n more : ℕ) → GuessesFew old new → BenchHasCard old
        → 1 ≤ n → n ≤ PINS → (value_guessed new n).renewals ≤ (value_guessed old n).renewals + more
        → (value_guessed new n).compares ≤ (value_guessed old n).compares + 3 * (1 + more) }
    ensures unblocking_values { (old new : BenchState) (n more : ℕ) → GuessesFew old new → BenchHasCard old
        → 1 ≤ n → n ≤ PINS → (unblocking_guessed new n).renewals ≤ (unblocking_guessed old n).renewals + more
        → (unblocking_guessed new n).compares ≤ (unblocking_guessed old n).compares + 10 * (1 + more) }
{}

/// The guess law composes over runs, and holds for an empty run.
pub fn guesses_add_up()
    ensures none { (old : BenchState) → GuessesFew old old }
    ensures on { (old between new : BenchState) → GuessesFew old between → GuessesFew between new
        → GuessesFew old new }
{}

/// A powered card that takes a block works, or its memory has failed, whatever fails in the turn.
pub fn a_card_that_takes_a_block_is_alive()
    ensures alive { (old : Powered) (got : List ℕ) (item : Item) (new : BenchState)
        → TakesBlockOrFails (on old) got item new → (old.card.state ≡ Working) ⊎ (old.card.state ≡ Failed) }
{}

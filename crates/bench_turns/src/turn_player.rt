//! What scripts and sweeps need of a bench.
ghost use Rattle.std.specs.Prelude.{◌≡◌, ◌≤◌, ◌↔◌, length, true, IsTrue};
ghost use Rattle.bench_turns.specs.BenchStates.{BenchState, IsArmed, IsOn, TellsFree, bench_facts, off};
ghost use Rattle.bench_turns.specs.Plays.{IsGood, TellsItem};
ghost use Rattle.bench_turns.specs.Turns.{GoodTurn, Runs};

use crate::turn::{Item, Turn};
use crate::turn_result::TurnResult;
use card_model::FreeSpace;
use nvm_board::{Armed, Faultless};
use t1_link::BlockBytes;

/// A bench that plays turns on the card in a board's memory, and answers as the tree machine does.
/// The board has no faults. Scripts and sweeps run at any such bench.
pub trait TurnPlayer {
    /// The board of the bench.
    type Board: Armed + Faultless;

    /// The state of the bench, which contracts use.
    ghost state: { Self → BenchState };

    /// Returns a bench with this board, with power off.
    fn new(board: Self::Board) -> Self
        ensures { state result ≡ off (record (Self.Board.facts board) { dark = true }) };

    /// Plays turns in order. Item i of the trace becomes the result of turn i.
    fn play_well(&mut self, turns: &[Turn<'_>], trace: &mut [Item])
        requires { length turns.now ≡ length trace.old }
        ensures { IsGood (state self.old)
            → IsGood (state self.new) × Runs (state self.old) turns.now trace.new (state self.new) };

    /// Plays a turn, and writes a returned block into the buffer.
    fn turn_well(&mut self, turn: Turn<'_>, reply: &mut BlockBytes) -> TurnResult
        ensures { IsGood (state self.old) → IsGood (state self.new)
            × TellsItem result reply.new (λ item. GoodTurn (state self.old) turn.entry item (state self.new)) };

    /// Sets a power cut for a later write (`Armed::arm`).
    fn arm_well(&mut self, k: u32, mask: u16)
        requires { 1 ≤ k }
        ensures good { IsGood (state self.old) → IsGood (state self.new) }
        ensures armed { IsArmed k mask (state self.old) (state self.new) };

    /// Returns the free space of the card, with power on.
    /// It is valid as long as the memory hasn't failed.
    fn free(&self) -> Option<FreeSpace>
        ensures { TellsFree (state self.now) result };

    /// Returns true if power is on.
    fn is_on(&self) -> bool
        ensures { IsTrue result ↔ IsOn (state self.now) };

    /// The board, as it is.
    fn board(&self) -> &Self::Board
        ensures { Self.Board.facts result.now ≡ bench_facts (state self.now) };

    /// The board, power off.
    fn into_board(self) -> Self::Board
        ensures { Self.Board.facts result ≡ record (bench_facts (state self)) { dark = true } };
}

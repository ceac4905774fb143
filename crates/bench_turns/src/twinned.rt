//! Benches that can be doubled.
ghost use Rattle.std.specs.Prelude.{◌≡◌};
ghost use Rattle.bench_turns.specs.BenchStates.{bench_facts, with_facts};

use crate::turn_player::TurnPlayer;

/// A bench that can be doubled: what the second one does, the first one never knows.
pub trait Twinned: TurnPlayer {
    /// Returns a second bench in the same state, on a board that differs in its log at most.
    fn twin(&self, board: Self::Board) -> Self
        requires { Self.Board.facts board
            ≡ record (bench_facts (Self.state self.now)) { log = (Self.Board.facts board).log } }
        ensures { Self.state result ≡ with_facts (Self.state self.now) (Self.Board.facts board) };
}

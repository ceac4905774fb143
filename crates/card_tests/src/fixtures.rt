//! Factory images, for tests of cards.
ghost use Rattle.std.specs.Prelude.{IfOk};
ghost use Rattle.card_start.specs.Factory.{IsFactory};
ghost use Rattle.card_start.specs.declared.memory_format.MemoryFormat.TheVariants.{One, Two};

use card_start::{format, format_old};
use nvm_board::Board;
use std::test::Fail;

/// Returns a board with the factory image, in format 2.
pub fn formatted<B: Board + Drop>(board: B) -> Result<B, Fail>
    ensures { IfOk result (λ b. IsFactory Two (B.facts b).words) }
{
    match format(board) {
        Ok(board) => Ok(board),
        Err((_, error)) => Err(Fail::from(error)),
    }
}

/// Returns a board with the factory image, in format 1.
pub fn formatted_old<B: Board + Drop>(board: B) -> Result<B, Fail>
    ensures { IfOk result (λ b. IsFactory One (B.facts b).words) }
{
    match format_old(board) {
        Ok(board) => Ok(board),
        Err((_, fault)) => Err(Fail::from(fault)),
    }
}

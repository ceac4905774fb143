//! The sign that an old PIN may be in the journal, or in the board's device.
ghost use Rattle.std.specs.Prelude.{◌↔◌, IsTrue, IfOk};
ghost use Rattle.nvm_board.specs.Facts.{Answered};
ghost use Rattle.undo_journal.specs.Spending.{KeepsBoard};
ghost use Rattle.pin_store.specs.Pages.{NamesPins};

use crate::layout::{FIRST_PIN_PAGE, PINS};
use undo_journal::{Board, DeviceErr, names_pages};

/// Returns true if a pair of the journal names a word of a PIN. An old value may then be in the journal, or in the
/// board's device.
///
/// # Errors
/// Power was lost, or the device failed.
pub fn names_pins<B: Board>(board: &mut B) -> Result<bool, DeviceErr>
    ensures named { IfOk result (λ b. IsTrue b ↔ NamesPins (B.facts board.old).words) }
    ensures light { Answered (B.facts board.old) (B.facts board.new) result }
    ensures reads { KeepsBoard (B.facts board.old) (B.facts board.new) }
{
    names_pages(board, FIRST_PIN_PAGE, FIRST_PIN_PAGE + u16::from(PINS))
}

//! Old values of PINs leave the journal and the flash of a card.
ghost use Rattle.std.specs.Prelude.{◌≡◌, ◌≤◌, ◌+◌, OnOk};
ghost use Rattle.nvm_board.specs.Facts.{Answered};
ghost use Rattle.undo_journal.specs.Undo.{gate, IsSound};
ghost use Rattle.undo_journal.specs.Spending.{KeepsBoard};
ghost use Rattle.undo_journal.specs.Wiping.{NamesSame, SavesNothing, PAIR_PAGES};
ghost use Rattle.pin_store.specs.Pages.{NamesPins};
ghost use Rattle.command_base.specs.Finding.{words_found};
ghost use Rattle.flash_log.specs.Renewals.{HoldsOnlyPages};
ghost use Rattle.flash_board.specs.FlashFacts.{flash_facts, log_state};

use flash_board::FlashBoard;
use flash_device::Flash;
use nvm_board::DeviceErr;
use pin_store::names_pins;
use undo_journal::{clear_pairs, wipe_pairs};

/// Leaves nothing in a flash but the words of its board, among which is no word that the journal saved. Its pairs name
/// what they named, at every exit. No pair counts.
///
/// # Errors
/// Power was lost, or the flash failed. Then it is to be called again.
pub fn clear_flash<F: Flash>(board: &mut FlashBoard<F>) -> Result<(), DeviceErr>
    requires { gate (flash_facts board.old).words ≡ 0 }
    ensures data { words_found (flash_facts board.new).words ≡ words_found (flash_facts board.old).words }
    ensures shut { gate (flash_facts board.new).words ≡ 0 }
    ensures names { NamesSame (flash_facts board.old).words (flash_facts board.new).words }
    ensures saves { OnOk result (SavesNothing (flash_facts board.new).words) }
    ensures only { OnOk result (HoldsOnlyPages F.PAGES F.SLOTS (log_state board.new).raw) }
    ensures light { Answered (flash_facts board.old) (flash_facts board.new) result }
    ensures writes { (flash_facts board.new).writes ≤ (flash_facts board.old).writes + PAIR_PAGES }
    ensures compares { ((flash_facts board.new).compares ≡ (flash_facts board.old).compares)
        × ((flash_facts board.new).matches ≡ (flash_facts board.old).matches) }
{
    clear_pairs(board)?;
    board.renew()
}

/// Leaves no old value of a PIN in a flash, if a pair of the journal names a word of a PIN: a transaction changed one,
/// or was rolled back. No pair counts. The names go last, so that a call that was interrupted is seen by the next one.
///
/// # Errors
/// Power was lost, or the flash failed. Then it is to be called again.
#[tactic(auto, using(undo_journal::specs::laws::Undo::sound_shut))]
pub fn forget_on_flash<F: Flash>(board: &mut FlashBoard<F>) -> Result<(), DeviceErr>
    requires { gate (flash_facts board.old).words ≡ 0 }
    ensures data { words_found (flash_facts board.new).words ≡ words_found (flash_facts board.old).words }
    ensures shut { gate (flash_facts board.new).words ≡ 0 }
    ensures sound { IsSound (flash_facts board.new).words }
    ensures unnamed { OnOk result (¬ NamesPins (flash_facts board.new).words) }
    ensures idle { ¬ NamesPins (flash_facts board.old).words
        → KeepsBoard (flash_facts board.old) (flash_facts board.new) }
    ensures light { Answered (flash_facts board.old) (flash_facts board.new) result }
{
    if names_pins(board)? {
        clear_flash(board)?;
        wipe_pairs(board)?;
    }
    Ok(())
}

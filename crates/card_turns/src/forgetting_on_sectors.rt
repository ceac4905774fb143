//! Old values of PINs leave the journal and the flash of a card on small sectors.
ghost use Rattle.std.specs.Prelude.{◌≡◌, ◌≤◌, ◌+◌, OnOk};
ghost use Rattle.nvm_board.specs.Facts.{Answered};
ghost use Rattle.undo_journal.specs.Undo.{gate, IsSound};
ghost use Rattle.undo_journal.specs.Spending.{KeepsBoard};
ghost use Rattle.undo_journal.specs.Wiping.{NamesSame, SavesNothing, PAIR_PAGES};
ghost use Rattle.pin_store.specs.Pages.{NamesPins};
ghost use Rattle.command_base.specs.Finding.{words_found};
ghost use Rattle.flash_log.specs.Renewals.{HoldsOnlyPages};
ghost use Rattle.sector_board.specs.SectorFacts.{sector_facts, sector_state};

use nvm_board::DeviceErr;
use pin_store::names_pins;
use sector_board::SectorBoard;
use sector_moves::SectorFlash;
use undo_journal::{clear_pairs, wipe_pairs};

/// Leaves nothing in a flash of small sectors but the words of its board, among which is no word that the journal
/// saved. Its pairs name what they named, at every exit. No pair counts.
///
/// # Errors
/// Power was lost, or the flash failed. Then it is to be called again.
pub fn clear_sectors<F: SectorFlash>(board: &mut SectorBoard<F>) -> Result<(), DeviceErr>
    requires { gate (sector_facts board.old).words ≡ 0 }
    ensures data { words_found (sector_facts board.new).words ≡ words_found (sector_facts board.old).words }
    ensures shut { gate (sector_facts board.new).words ≡ 0 }
    ensures names { NamesSame (sector_facts board.old).words (sector_facts board.new).words }
    ensures saves { OnOk result (SavesNothing (sector_facts board.new).words) }
    ensures only { OnOk result (HoldsOnlyPages F.PAGES F.SLOTS (sector_state board.new).raw) }
    ensures light { Answered (sector_facts board.old) (sector_facts board.new) result }
    ensures writes { (sector_facts board.new).writes ≤ (sector_facts board.old).writes + PAIR_PAGES }
    ensures compares { ((sector_facts board.new).compares ≡ (sector_facts board.old).compares)
        × ((sector_facts board.new).matches ≡ (sector_facts board.old).matches) }
{
    clear_pairs(board)?;
    board.renew()
}

/// Leaves no old value of a PIN in a flash of small sectors, if a pair of the journal names a word of a PIN: a
/// transaction changed one, or was rolled back. No pair counts. The names go last, so that a call that was interrupted
/// is seen by the next one.
///
/// # Errors
/// Power was lost, or the flash failed. Then it is to be called again.
#[tactic(auto, using(undo_journal::specs::laws::Undo::sound_shut))]
pub fn forget_on_sectors<F: SectorFlash>(board: &mut SectorBoard<F>) -> Result<(), DeviceErr>
    requires { gate (sector_facts board.old).words ≡ 0 }
    ensures data { words_found (sector_facts board.new).words ≡ words_found (sector_facts board.old).words }
    ensures shut { gate (sector_facts board.new).words ≡ 0 }
    ensures sound { IsSound (sector_facts board.new).words }
    ensures unnamed { OnOk result (¬ NamesPins (sector_facts board.new).words) }
    ensures idle { ¬ NamesPins (sector_facts board.old).words
        → KeepsBoard (sector_facts board.old) (sector_facts board.new) }
    ensures light { Answered (sector_facts board.old) (sector_facts board.new) result }
{
    if names_pins(board)? {
        clear_sectors(board)?;
        wipe_pairs(board)?;
    }
    Ok(())
}

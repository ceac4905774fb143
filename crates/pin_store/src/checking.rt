//! The check of the PINs in a memory: their tries are in range, and a mark is 1 or 0.
ghost use Rattle.std.specs.Prelude.{◌<◌, ◌↔◌, IsTrue};
ghost use Rattle.nvm_board.specs.declared.board.TheConstants.{PAGE_WORDS};
ghost use Rattle.undo_journal.specs.StoreCalls.{Learns};
ghost use Rattle.undo_journal.specs.Memory.{committed, IsReady};
ghost use Rattle.pin_store.specs.Pages.{AreAtMost, AreMarks, ArePinPages};

use crate::layout::{
    PIN_MARK_WORD, PINS, TRIES, TRIES_WORD, UNBLOCKING_TRIES, UNBLOCKING_TRIES_WORD,
};
use crate::words::word_address;
use undo_journal::{Board, Store, StoreErr};

/// Returns true if no PIN's word `place` is above `most`.
fn are_at_most<B: Board>(store: &mut Store<B>, place: u16, most: u32) -> Result<bool, StoreErr>
    requires ready { IsReady store.old }
    requires place { place < PAGE_WORDS }
    ensures { Learns store.old store.new result (λ few. IsTrue few ↔ AreAtMost most place (committed store.old)) }
{
    for pin in 0..PINS {
        let word = store.read(word_address(pin, place))?;
        if word > most {
            return Ok(false);
        }
    }
    Ok(true)
}

/// Returns true if no PIN has too many tries. At most 3 are left of a value, and 10 of an unblocking value. Any bytes
/// are a value.
///
/// # Errors
/// The store's failure: power was lost, or the device failed.
pub fn are_pins<B: Board>(store: &mut Store<B>) -> Result<bool, StoreErr>
    requires ready { IsReady store.old }
    ensures { Learns store.old store.new result (λ pins. IsTrue pins ↔ ArePinPages (committed store.old)) }
{
    if !are_at_most(store, TRIES_WORD, u32::from(TRIES))? {
        return Ok(false);
    }
    are_at_most(store, UNBLOCKING_TRIES_WORD, u32::from(UNBLOCKING_TRIES))
}

/// Returns true if each mark is 1 (enabled) or 0 (disabled). Don't call it on a memory whose pages have no marks.
///
/// # Errors
/// The store's failure: power was lost, or the device failed.
pub fn are_marks<B: Board>(store: &mut Store<B>) -> Result<bool, StoreErr>
    requires ready { IsReady store.old }
    ensures { Learns store.old store.new result (λ marks. IsTrue marks ↔ AreMarks (committed store.old)) }
{
    are_at_most(store, PIN_MARK_WORD, 1)
}

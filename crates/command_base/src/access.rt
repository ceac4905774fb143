//! Access control: what the rule of a file allows in a session.
ghost use Rattle.std.specs.Prelude.{◌≡◌};
ghost use Rattle.undo_journal.specs.StoreCalls.{Learns};
ghost use Rattle.undo_journal.specs.Memory.{committed, IsReady};
ghost use Rattle.file_tree.specs.Table.{path_of};
ghost use Rattle.card_model.specs.Guards.{allowed};
ghost use Rattle.command_base.specs.Working.{card_in, disabled_in, session_in, table_in, HasTargetFile};

use crate::current::Current;
use crate::target_file::TargetFile;
use card_model::{AccessBit, PinNumber, PinSet};
use file_lookup::is_allowed_at;
use pin_store::{Secret, is_enabled};
use undo_journal::{Board, Store, StoreErr};

/// Returns the disabled PINs.
fn disabled_pins<B: Board>(store: &mut Store<B>) -> Result<PinSet, StoreErr>
    requires ready { IsReady store.old }
    ensures { Learns store.old store.new result (λ disabled. disabled ≡ disabled_in (committed store.old)) }
{
    let mut disabled = PinSet::new();
    let mut next = Some(PinNumber::first());
    while let Some(pin) = next {
        if !is_enabled(store, Secret::value_of(pin))? {
            disabled.insert(pin);
        }
        next = pin.next();
    }
    Ok(disabled)
}

/// Returns true if the file's rule allows `bit` in this session.
/// It reads no word of the entry. It reads the marks of the PINs only if the verified PINs don't meet the rule,
/// as a disabled PIN refuses nothing.
///
/// # Errors
/// The store fails.
pub fn allows<B: Board>(
    store: &mut Store<B>,
    current: &Current,
    file: &TargetFile,
    bit: AccessBit,
) -> Result<bool, StoreErr>
    requires file { HasTargetFile store.old current.now file.now }
    ensures { Learns store.old store.new result (λ permits. permits ≡ allowed (card_in store.old)
        (session_in store.old current.now) (path_of (table_in store.old) file.now.number) bit) }
{
    if is_allowed_at(&file.entry, bit, &current.verified, &PinSet::new()) {
        return Ok(true);
    }
    let disabled = disabled_pins(store)?;
    Ok(is_allowed_at(&file.entry, bit, &current.verified, &disabled))
}

//! Barred files and access rules (ISO/IEC 7816-9; ISO/IEC 7816-4, 7.4.10).

ghost use Rattle.std.specs.Prelude.{◌≡◌};
ghost use Rattle.undo_journal.specs.Memory.{committed};
ghost use Rattle.undo_journal.specs.StoreCalls.{Learns};
ghost use Rattle.card_model.specs.FileLives.{bars, is_barred};
ghost use Rattle.file_tree.specs.Table.{table, entry_in, path_of};
ghost use Rattle.file_tree.specs.Trees.{tree_of};
ghost use Rattle.file_tree.specs.Entries.{is_allowed_by};
ghost use Rattle.file_tree.specs.States.{barred_up};
ghost use Rattle.file_lookup.specs.StoredFiles.{HasFile, HasStoredEntry};

use crate::reading::read_entry_head;
use card_model::{AccessBit, LifeCycle, PinSet, allows};
use file_tree::{DEEPEST, Entry, EntryNumber};
use undo_journal::{Board, Store, StoreErr};

/// Returns true if this state bars a file and its descendants.
fn bars(life: LifeCycle) -> bool
    ensures { result ≡ bars life }
{
    matches!(life, LifeCycle::Deactivated | LifeCycle::Terminated)
}

/// Returns true if an ancestor is deactivated or terminated. At most seven steps to parents meet all ancestors. Each
/// step reads the head of one entry, and the first file that bars ends the walk. `parent` is the parent in entry `e`.
///
/// # Errors
/// The store fails.
pub fn is_below_barred<B: Board>(
    store: &mut Store<B>,
    e: EntryNumber,
    parent: EntryNumber,
) -> Result<bool, StoreErr>
    requires file { HasFile store.old e }
    requires parent { parent ≡ (entry_in (table (committed store.old)) e).parent }
    ensures { Learns store.old store.new result (λ barred. barred ≡ barred_up (table (committed store.old)) 7 e) }
{
    let mut at = e;
    let mut above = parent;
    for _step in 0..DEEPEST {
        if at.is_master() {
            return Ok(false);
        }
        let head = read_entry_head(store, above)?;
        if bars(head.life_cycle()) {
            return Ok(true);
        }
        at = above;
        above = EntryNumber::new(head.parent);
    }
    Ok(false)
}

/// Returns true if the file of an entry is barred. It or an ancestor is deactivated or terminated then. The entry is
/// an argument, so it isn't read again.
///
/// # Errors
/// The store's failure: power was lost, or the device failed.
pub fn is_barred_at<B: Board>(
    store: &mut Store<B>,
    e: EntryNumber,
    entry: &Entry,
) -> Result<bool, StoreErr>
    requires entry { HasStoredEntry store.old e entry.now }
    ensures { Learns store.old store.new result (λ barred. barred
        ≡ is_barred (tree_of (committed store.old)) (path_of (table (committed store.old)) e)) }
{
    if bars(entry.life_cycle()) {
        return Ok(true);
    }
    is_below_barred(store, e, EntryNumber::new(entry.parent))
}

/// Returns true if the entry's access rule allows the operation. `verified` and `disabled` are the PINs in these
/// states (ISO/IEC 7816-4, 9.3.3). The rule is read in place, in the entry.
pub fn is_allowed_at(entry: &Entry, bit: AccessBit, verified: &PinSet, disabled: &PinSet) -> bool
    ensures { result ≡ is_allowed_by entry.now bit verified.now disabled.now }
{
    allows(entry.rule(), bit, entry.life_cycle(), verified, disabled)
}

//! Refusals of a new file.

ghost use Rattle.std.specs.Prelude.{◌≡◌, ◌≢◌, ◌↔◌, IsTrue, if◌then◌else◌, Some, None};
ghost use Rattle.undo_journal.specs.Memory.{committed, IsReady};
ghost use Rattle.undo_journal.specs.StoreCalls.{Learns};
ghost use Rattle.card_model.specs.declared.status.TheConstants.Sw.{FILE_EXISTS, NAME_EXISTS, WRONG_DATA};
ghost use Rattle.card_model.specs.FileControl.{IsShort, IsCreatable};
ghost use Rattle.file_tree.specs.Table.{ancestor, table, path_of};
ghost use Rattle.file_tree.specs.Trees.{tree_of};
ghost use Rattle.card_model.specs.NewFiles.{has_short_given};
ghost use Rattle.file_changes.specs.CreationRefusals.{taken_refusal};
ghost use Rattle.file_lookup.specs.StoredFiles.{HasFile, HasIndexed};
ghost use Rattle.file_changes.specs.CreationParts.{TellsFreeEntry};

use card_model::{Fcp, ShortIdentifier, Sw};
use file_lookup::{find_name, find_short, read_entry_head};
use file_tree::{DEEPEST, ENTRIES_END, EntryNumber, Index};
use undo_journal::{Board, Store, StoreErr};

/// A dedicated file is on the last level: six steps to parents do not lead to the master file.
pub(crate) fn is_deepest<B: Board>(store: &mut Store<B>, df: EntryNumber) -> Result<bool, StoreErr>
    requires df { HasFile store.old df }
    ensures { Learns store.old store.new result (λ deepest. IsTrue deepest
        ↔ (ancestor (table (committed store.old)) 6 df ≢ 0)) }
{
    let mut at = df;
    for _step in 1..DEEPEST {
        if at.is_master() {
            return Ok(false);
        }
        let head = read_entry_head(store, at)?;
        at = EntryNumber::new(head.parent);
    }
    Ok(!at.is_master())
}

/// The first entry that no file has.
pub(crate) fn first_free<B: Board>(store: &mut Store<B>) -> Result<Option<EntryNumber>, StoreErr>
    requires ready { IsReady store.old }
    ensures { Learns store.old store.new result (TellsFreeEntry (table (committed store.old))) }
{
    for number in 0..ENTRIES_END {
        let e = EntryNumber::new(number);
        let head = read_entry_head(store, e)?;
        if !head.is_used() {
            return Ok(Some(e));
        }
    }
    Ok(None)
}

/// Returns true if a child has the given short identifier.
fn is_short_taken<B: Board>(
    store: &mut Store<B>,
    df: EntryNumber,
    short: ShortIdentifier,
) -> Result<bool, StoreErr>
    requires df { HasFile store.old df }
    requires short { IsShort short }
    ensures { Learns store.old store.new result (λ taken. taken
        ≡ has_short_given (tree_of (committed store.old)) (path_of (table (committed store.old)) df) short) }
{
    match short {
        ShortIdentifier::Given(number) => {
            let found = find_short(store, df, number)?;
            Ok(found.is_some())
        }
        ShortIdentifier::Absent | ShortIdentifier::Empty => Ok(false),
    }
}

/// The names of a new file that other files already have.
#[derive(Clone, Copy)]
struct TakenNames {
    identifier: bool,
    name: bool,
    short: bool,
}

/// Returns the first refusal: by identifier, by name, or by short identifier.
fn first_taken(taken: TakenNames) -> Option<Sw>
    ensures { result ≡ (if taken.identifier then Some FILE_EXISTS else if taken.name then Some NAME_EXISTS else
        if taken.short then Some WRONG_DATA else None) }
{
    if taken.identifier {
        Some(Sw::FILE_EXISTS)
    } else if taken.name {
        Some(Sw::NAME_EXISTS)
    } else if taken.short {
        Some(Sw::WRONG_DATA)
    } else {
        None
    }
}

/// Why a name of a new file is taken, if one is: its identifier, its name, or its short identifier.
pub(crate) fn taken<B: Board>(
    store: &mut Store<B>,
    index: &Index,
    df: EntryNumber,
    fcp: &Fcp<'_>,
) -> Result<Option<Sw>, StoreErr>
    requires df { HasIndexed store.old index.now df }
    requires fcp { IsCreatable fcp.now }
    ensures { Learns store.old store.new result (λ status. status
        ≡ taken_refusal (tree_of (committed store.old)) (path_of (table (committed store.old)) df) fcp.now) }
{
    let child = index.child(df, fcp.identifier);
    let named = find_name(store, fcp.kind.name())?;
    let short = is_short_taken(store, df, fcp.kind.short())?;
    Ok(first_taken(TakenNames {
        identifier: child.is_some(),
        name: named.is_some(),
        short,
    }))
}

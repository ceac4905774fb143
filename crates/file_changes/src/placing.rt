//! The place of a new file.

ghost use Rattle.std.specs.Prelude.{◌≡◌};
ghost use Rattle.undo_journal.specs.Memory.{committed};
ghost use Rattle.undo_journal.specs.StoreCalls.{Learns};
ghost use Rattle.card_model.specs.Spaces.{free_space};
ghost use Rattle.file_tree.specs.Formats.{block_count};
ghost use Rattle.file_tree.specs.Trees.{tree_of};
ghost use Rattle.file_lookup.specs.StoredFiles.{HasFile};
ghost use Rattle.file_changes.specs.CreationParts.{TellsPlace};

use crate::refusing::{first_free, is_deepest};
use card_model::{Fcp, FreeSpace, Sw};
use file_tree::{EntryNumber, blocks_for};
use undo_journal::{Board, Store, StoreErr};

/// The place of a new file, a free entry, or the refusal.
#[derive(Clone, Copy)]
pub(crate) enum NewPlace {
    At(EntryNumber),
    Refused(Sw),
}

/// The place of a new file in a dedicated file, if there is one.
pub(crate) fn place_for<B: Board>(
    store: &mut Store<B>,
    free: FreeSpace,
    df: EntryNumber,
    fcp: &Fcp<'_>,
) -> Result<NewPlace, StoreErr>
    requires df { HasFile store.old df }
    requires free { free ≡ free_space (block_count (committed store.old)) (tree_of (committed store.old)) }
    ensures { Learns store.old store.new result (TellsPlace (committed store.old) df fcp.now.kind) }
{
    let deepest = is_deepest(store, df)?;
    if deepest {
        return Ok(NewPlace::Refused(Sw::CONDITIONS_NOT_SATISFIED));
    }
    let found = first_free(store)?;
    let Some(e) = found else {
        return Ok(NewPlace::Refused(Sw::NO_ROOM));
    };
    let blocks = blocks_for(fcp.kind.size());
    if free.blocks < blocks {
        return Ok(NewPlace::Refused(Sw::NO_ROOM));
    }
    Ok(NewPlace::At(e))
}

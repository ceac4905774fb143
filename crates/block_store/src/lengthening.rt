//! Linking pages after the blocks of a memory, so that they can become blocks.
ghost use Rattle.std.specs.Prelude.{◌≡◌, ◌==◌, ◌+◌, ◌-◌, ◌<◌, ◌≤◌, if◌then◌else◌, OnOk};
ghost use Rattle.std.specs.Result.{result_err};
ghost use Rattle.undo_journal.specs.Memory.{committed};
ghost use Rattle.undo_journal.specs.StoreCalls.{Changes};
ghost use Rattle.block_chain.specs.ChainChanges.{LinksAlone, LinksFirst, AreLinked};
ghost use Rattle.block_links.specs.StoredBlocks.{HasPages};

use undo_journal::{Board, Store, StoreErr};

/// Returns the link of a page before `end`. It is the next page, or `rest`.
fn next_page(page: u16, end: u16, rest: u16) -> u16
    requires { page < end }
    ensures { result ≡ (if page + 1 == end then rest else page + 1) }
{
    if page + 1 == end { rest } else { page + 1 }
}

/// Links pages in ascending order, each to the next. The last links to `rest`. It takes one plain write per page.
/// Only these links change, at any exit.
///
/// # Errors
/// The store's failure: power was lost, or the device failed. Then only the first pages may be linked.
pub fn link_pages<B: Board>(
    store: &mut Store<B>,
    first: u16,
    end: u16,
    rest: u16,
) -> Result<(), StoreErr>
    requires { HasPages store.old first end }
    ensures any_exit { LinksAlone first end (committed store.old) (committed store.new) }
    ensures ascending { LinksFirst first end rest (committed store.old) (committed store.new) }
    ensures done { OnOk result (AreLinked first end rest (committed store.new)) }
    ensures store { Changes (end - first) store.old store.new (result_err result) }
    ensures counted { OnOk result (store.new.facts.writes ≡ store.old.facts.writes + (end - first)) }
{
    let mut page = first;
    while page < end {
        let next = next_page(page, end, rest);
        store.write_plain(page, 0, &[u32::from(next)])?;
        page += 1;
    }
    Ok(())
}

//! Writing entries in a transaction.

ghost use Rattle.std.specs.Prelude.{◌≡◌, ◌∷◌, [], ◌+◌, ◌*◌, OnOk};
ghost use Rattle.std.specs.Result.{result_err};
ghost use Rattle.undo_journal.specs.Memory.{current, InRuns};
ghost use Rattle.undo_journal.specs.Lent.{memory_of};
ghost use Rattle.undo_journal.specs.StoreCalls.{SetsIn};
ghost use Rattle.block_chain.specs.BlockWords.{word_bytes};
ghost use Rattle.file_tree.specs.Entries.{entry_told};
ghost use Rattle.file_changes.specs.Conditions.{IsNewEntry};
ghost use Rattle.file_changes.specs.CreationParts.{WritesEntry};
ghost use Rattle.undo_journal.specs.Rooms.{HasRoom};

use block_chain::word_at;
use file_tree::{ENTRY_WORDS, Entry, EntryNumber, entry_address};
use undo_journal::{Board, StoreErr, Txn};

/// Returns the words that encode an entry.
fn words_of_entry(entry: Entry) -> [u32; ENTRY_WORDS]
    ensures { entry_told result ≡ entry }
{
    let rule = entry.rule;
    let name = entry.name;
    [
        bytes_and_half(entry.kind, entry.life, entry.identifier),
        four_bytes(
            entry.parent,
            entry.short,
            entry.name_length,
            entry.rule_length,
        ),
        word_at(&rule, 0),
        word_at(&rule, 4),
        word_at(&name, 0),
        word_at(&name, 4),
        word_at(&name, 8),
        word_at(&name, 12),
        halves(entry.size, entry.record_length),
        halves(entry.first, entry.last),
        halves(entry.records, entry.start),
    ]
}

/// Returns four bytes as a word.
fn four_bytes(first: u8, second: u8, third: u8, fourth: u8) -> u32
    ensures { word_bytes result ≡ first ∷ second ∷ third ∷ fourth ∷ [] }
{
    u32::from_be_bytes([first, second, third, fourth])
}

/// Returns a word of two bytes and a 16-bit number.
pub(crate) fn bytes_and_half(first: u8, second: u8, low: u16) -> u32
    ensures { result ≡ 16777216 * first + 65536 * second + low }
{
    0x100_0000 * u32::from(first) + 0x1_0000 * u32::from(second) + u32::from(low)
}

/// Returns a word of two 16-bit numbers.
fn halves(high: u16, low: u16) -> u32
    ensures { result ≡ 65536 * high + low }
{
    0x1_0000 * u32::from(high) + u32::from(low)
}

/// Writes an entry on its page, one set per word.
pub(crate) fn write_entry<B: Board>(
    txn: &mut Txn<'_, B>,
    e: EntryNumber,
    entry: Entry,
) -> Result<(), StoreErr>
    requires room { HasRoom (memory_of txn.old) 11 }
    requires entry { IsNewEntry e entry }
    ensures done { OnOk result (WritesEntry (current (memory_of txn.old)) e entry (current (memory_of txn.new))) }
    ensures store { SetsIn 11 txn.old txn.new (result_err result) }
    ensures runs { InRuns 1 (memory_of txn.old) (memory_of txn.new) }
{
    let words = words_of_entry(entry);
    txn.set_run(entry_address(e), &words)
}

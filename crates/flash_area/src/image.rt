//! The words of a page.
ghost use Rattle.std.specs.Prelude.{◌≡◌, ◌⊎◌, ◌<◌, ◌≤◌, ◌+◌, ℕ, false, length, slice_index, IfOk};
ghost use Rattle.flash_device.specs.FlashCalls.{Lights};
ghost use Rattle.flash_device.specs.FlashLogs.{base_in, find, page_word};

use crate::record::Record;
use flash_device::{Flash, PageTable, slot_at};
use nvm_board::DeviceErr;

/// Returns the word of a page.
pub fn read_page_word<F: Flash>(
    flash: &mut F,
    area: u8,
    table: &F::Table,
    page: u16,
    place: u16,
) -> Result<u32, DeviceErr>
    requires lit { (F.state flash.old).dark ≡ false }
    requires entry { slice_index (F.Table.entries table.now) page
        ≡ find (F.state flash.old).words (base_in F.SLOTS area) F.SLOTS page }
    requires page { page < F.PAGES }
    requires place { place < 16 }
    ensures word { IfOk result (λ w. w ≡ page_word (F.state flash.old).words
        (base_in F.SLOTS area) F.SLOTS page place) }
    ensures words { (F.state flash.new).words ≡ (F.state flash.old).words }
    ensures work { (F.state flash.new).operations ≡ (F.state flash.old).operations }
    ensures erases { (F.state flash.new).erases ≡ (F.state flash.old).erases }
    ensures light { Lights (F.state flash.old) (F.state flash.new) result }
{
    let found = table.entry(page);
    if found == 0 {
        return Ok(0);
    }
    let word = flash.read(slot_at::<F>(area, found - 1) + u32::from(place))?;
    Ok(word)
}

/// Returns the record of a page as it is.
pub fn record_of<F: Flash>(
    flash: &mut F,
    area: u8,
    table: &F::Table,
    page: u16,
) -> Result<Record, DeviceErr>
    requires lit { (F.state flash.old).dark ≡ false }
    requires entry { slice_index (F.Table.entries table.now) page
        ≡ find (F.state flash.old).words (base_in F.SLOTS area) F.SLOTS page }
    requires page { page < F.PAGES }
    ensures each { IfOk result (λ r. (k : ℕ) → k < 16
        → slice_index r k ≡ page_word (F.state flash.old).words (base_in F.SLOTS area) F.SLOTS page k) }
    ensures names { IfOk result (λ r. slice_index r 16 ≡ page) }
    ensures unused { IfOk result (λ r. slice_index r 17 ≡ 0) }
    ensures words { (F.state flash.new).words ≡ (F.state flash.old).words }
    ensures work { (F.state flash.new).operations ≡ (F.state flash.old).operations }
    ensures erases { (F.state flash.new).erases ≡ (F.state flash.old).erases }
    ensures light { Lights (F.state flash.old) (F.state flash.new) result }
{
    let mut found: Record = [0; 18];
    for k in 0..16u16 {
        found[usize::from(k)] = read_page_word(flash, area, table, page, k)?;
    }
    found[16] = u32::from(page);
    Ok(found)
}

/// Puts the words of a run into a record.
pub fn overlay(found: &mut Record, first: u8, words: &[u32])
    requires { first + length words.now ≤ 16 }
    ensures other { (k : ℕ) → (k < first) ⊎ (first + length words.now ≤ k)
        → slice_index found.new k ≡ slice_index found.old k }
    ensures run { (k : ℕ) → k < length words.now → slice_index found.new (first + k) ≡ slice_index words.now k }
{
    for k in 0..words.len() {
        found[usize::from(first) + k] = words[k];
    }
}

//! The scan of an area at power-on.
ghost use Rattle.std.specs.Prelude.{◌≡◌, ◌≤◌, ◌<◌, ◌+◌, false, IfOk};
ghost use Rattle.flash_device.specs.FlashCalls.{Lights};
ghost use Rattle.flash_device.specs.PageTables.{IsPageTable, AreFree, IsFirstFreeSlot};
ghost use Rattle.flash_device.specs.FlashLogs.{base_in};

use crate::record::{is_blank, is_marked};
use flash_device::{Flash, NUMBER_PLACE, PageTable, RECORD_WORDS, slot_at};
use nvm_board::DeviceErr;

/// Takes one slot more into the table, and returns the first slot that is free.
pub fn scan_slot<F: Flash>(
    flash: &mut F,
    area: u8,
    slot: u16,
    next: u16,
    table: &mut F::Table,
) -> Result<u16, DeviceErr>
    requires lit { (F.state flash.old).dark ≡ false }
    requires below { slot < F.SLOTS }
    requires index { IsPageTable F.PAGES (F.state flash.old).words (base_in F.SLOTS area) slot
        (F.Table.entries table.old) }
    requires free { AreFree (F.state flash.old).words (base_in F.SLOTS area) next slot }
    requires first { IsFirstFreeSlot (F.state flash.old).words (base_in F.SLOTS area) next slot }
    ensures index { IfOk result (λ _. IsPageTable F.PAGES (F.state flash.old).words (base_in F.SLOTS area)
        (slot + 1) (F.Table.entries table.new)) }
    ensures free { IfOk result (λ n. AreFree (F.state flash.old).words (base_in F.SLOTS area) n (slot + 1)) }
    ensures first { IfOk result (λ n. IsFirstFreeSlot (F.state flash.old).words (base_in F.SLOTS area) n (slot + 1)) }
    ensures words { (F.state flash.new).words ≡ (F.state flash.old).words }
    ensures work { (F.state flash.new).operations ≡ (F.state flash.old).operations }
    ensures erases { (F.state flash.new).erases ≡ (F.state flash.old).erases }
    ensures light { Lights (F.state flash.old) (F.state flash.new) result }
{
    let at = slot_at::<F>(area, slot);
    if is_marked(flash, at + RECORD_WORDS)? {
        let number = flash.read(at + NUMBER_PLACE)?;
        if number < u32::from(F::PAGES) {
            table.set_entry(number as u16, slot + 1);
        }
        return Ok(slot + 1);
    }
    if is_blank(flash, at)? {
        return Ok(next);
    }
    Ok(slot + 1)
}

/// Finds the slot of each page, and returns the first slot that is free, with all that follow it.
pub fn scan<F: Flash>(flash: &mut F, area: u8, table: &mut F::Table) -> Result<u16, DeviceErr>
    requires lit { (F.state flash.old).dark ≡ false }
    ensures index { IfOk result (λ _. IsPageTable F.PAGES (F.state flash.old).words
        (base_in F.SLOTS area) F.SLOTS (F.Table.entries table.new)) }
    ensures free { IfOk result (λ n. AreFree (F.state flash.old).words (base_in F.SLOTS area) n F.SLOTS) }
    ensures first { IfOk result (λ n. IsFirstFreeSlot (F.state flash.old).words (base_in F.SLOTS area) n F.SLOTS) }
    ensures words { (F.state flash.new).words ≡ (F.state flash.old).words }
    ensures work { (F.state flash.new).operations ≡ (F.state flash.old).operations }
    ensures erases { (F.state flash.new).erases ≡ (F.state flash.old).erases }
    ensures light { Lights (F.state flash.old) (F.state flash.new) result }
{
    *table = F::Table::blank();
    let mut next = 0;
    for slot in 0..F::SLOTS {
        next = scan_slot(flash, area, slot, next, table)?;
    }
    Ok(next)
}

//! Copies of the pages to another area.
ghost use Rattle.std.specs.Prelude.{◌≡◌, ◌<◌, ◌≤◌, ◌+◌, ◌-◌, ◌*◌, false, slice_index, IfOk};
ghost use Rattle.flash_device.specs.FlashCalls.{Costs, SameElsewhere, Tries};
ghost use Rattle.flash_area.specs.PageCopies.{CopiesPage, HasCopied, KeepsOthers};
ghost use Rattle.flash_device.specs.PageTables.{IsPageTable, AreFree};
ghost use Rattle.flash_area.specs.HeldPages.{HavePages};
ghost use Rattle.flash_device.specs.FlashLogs.{base_in, find, slot_of};
ghost use Rattle.flash_device.specs.PutRecords.{IsPut};
ghost use Rattle.flash_device.specs.declared.layout.TheConstants.{SPARES};

use crate::image::record_of;
use crate::record::{Record, program_record};
use flash_device::{Flash, PageTable, SPARES, slot_at};
use nvm_board::DeviceErr;

/// Puts a record into the first slot from `next` on that takes it, below `end`. A slot that fails is passed over.
pub fn put_in_spare<F: Flash>(
    flash: &mut F,
    area: u8,
    next: u16,
    end: u16,
    words: &Record,
) -> Result<u16, DeviceErr>
    requires lit { (F.state flash.old).dark ≡ false }
    requires some { next < end }
    requires end { end ≤ F.SLOTS }
    requires free { AreFree (F.state flash.old).words (base_in F.SLOTS area) next F.SLOTS }
    ensures elsewhere { SameElsewhere (F.state flash.old).words (base_in F.SLOTS area) (20 * F.SLOTS)
        (F.state flash.new).words }
    ensures put { IfOk result (λ s. s < end
        × IsPut (F.state flash.new).words (slot_of (base_in F.SLOTS area) s) words.now
        × KeepsOthers F.SLOTS (F.state flash.old).words (base_in F.SLOTS area) (slice_index words.now 16)
        (F.state flash.new).words
        (s + 1)) }
    ensures passes { IfOk result (λ n. n + (F.state flash.old).faults ≤ next + (F.state flash.new).faults) }
    ensures alone { IfOk result (λ s. (F.state flash.new).faults ≡ (F.state flash.old).faults → (s ≡ next)
        × SameElsewhere (F.state flash.old).words (slot_of (base_in F.SLOTS area) next) 20 (F.state flash.new).words) }
    // At every exit it took one slot at most, and one more for each Fault, and left all other pages.
    ensures torn { next + 1 + ((F.state flash.new).faults - (F.state flash.old).faults) ≤ F.SLOTS
        → KeepsOthers F.SLOTS (F.state flash.old).words (base_in F.SLOTS area) (slice_index words.now 16)
        (F.state flash.new).words (next + 1 + ((F.state flash.new).faults - (F.state flash.old).faults)) }
    ensures light { Tries (end - next) (F.state flash.old) (F.state flash.new) result }
    ensures work { Costs 2 2 (F.state flash.old) (F.state flash.new) }
    ensures erases { (F.state flash.new).erases ≡ (F.state flash.old).erases }
{
    for slot in next..end {
        match program_record(flash, slot_at::<F>(area, slot), words) {
            Ok(()) => return Ok(slot),
            Err(DeviceErr::PowerLost) => return Err(DeviceErr::PowerLost),
            Err(DeviceErr::Fault) => {}
        }
    }
    Err(DeviceErr::Fault)
}

/// Copies a page to a free slot of the other area, and returns the first one that is free after it. A page that was
/// never written takes no slot.
fn copy_page<F: Flash>(
    flash: &mut F,
    from: u8,
    to: u8,
    next: u16,
    table: &mut F::Table,
    page: u16,
) -> Result<u16, DeviceErr>
    requires lit { (F.state flash.old).dark ≡ false }
    requires page { page < F.PAGES }
    requires next { next ≤ page + SPARES }
    requires entry { slice_index (F.Table.entries table.old) page
        ≡ find (F.state flash.old).words (base_in F.SLOTS from) F.SLOTS page }
    requires left { find (F.state flash.old).words (base_in F.SLOTS to) F.SLOTS page ≡ 0 }
    requires free { AreFree (F.state flash.old).words (base_in F.SLOTS to) next F.SLOTS }
    ensures elsewhere { SameElsewhere (F.state flash.old).words (base_in F.SLOTS to) (20 * F.SLOTS)
        (F.state flash.new).words }
    ensures copies { IfOk result (λ n. CopiesPage F.SLOTS (F.state flash.old).words (F.Table.entries table.old)
        (base_in F.SLOTS from) (base_in F.SLOTS to) page
        (F.state flash.new).words (F.Table.entries table.new) n) }
    ensures more { IfOk result (λ n. n ≤ page + 1 + SPARES) }
    ensures passes { IfOk result (λ n. n + (F.state flash.old).faults ≤ next + 1 + (F.state flash.new).faults) }
    ensures have { IfOk result (λ n. (F.state flash.new).faults ≡ (F.state flash.old).faults
        → HavePages F.PAGES F.SLOTS (F.state flash.old).words (base_in F.SLOTS to) next
        → HavePages F.PAGES F.SLOTS (F.state flash.new).words (base_in F.SLOTS to) n) }
    ensures light { Tries 1 (F.state flash.old) (F.state flash.new) result }
    ensures work { Costs 2 2 (F.state flash.old) (F.state flash.new) }
    ensures erases { (F.state flash.new).erases ≡ (F.state flash.old).erases }
{
    if table.entry(page) == 0 {
        return Ok(next);
    }
    let found = record_of(flash, from, table, page)?;
    let slot = put_in_spare(flash, to, next, page + 1 + SPARES, &found)?;
    table.set_entry(page, slot + 1);
    Ok(slot + 1)
}

/// Copies all pages to an erased area, and returns the first slot that is free.
pub fn copy_pages<F: Flash>(
    flash: &mut F,
    from: u8,
    to: u8,
    table: &mut F::Table,
) -> Result<u16, DeviceErr>
    requires lit { (F.state flash.old).dark ≡ false }
    requires areas { from + to ≡ 1 }
    requires index { IsPageTable F.PAGES (F.state flash.old).words (base_in F.SLOTS from) F.SLOTS
        (F.Table.entries table.old) }
    requires free { AreFree (F.state flash.old).words (base_in F.SLOTS to) 0 F.SLOTS }
    ensures elsewhere { SameElsewhere (F.state flash.old).words (base_in F.SLOTS to) (20 * F.SLOTS)
        (F.state flash.new).words }
    ensures copied { IfOk result (λ n. HasCopied F.SLOTS (F.state flash.old).words (F.Table.entries table.old)
        (base_in F.SLOTS from) (base_in F.SLOTS to) F.PAGES
        (F.state flash.new).words (F.Table.entries table.new) n) }
    ensures passes { IfOk result (λ n. n + (F.state flash.old).faults ≤ F.PAGES + (F.state flash.new).faults) }
    ensures have { IfOk result (λ n. (F.state flash.new).faults ≡ (F.state flash.old).faults
        → HavePages F.PAGES F.SLOTS (F.state flash.new).words (base_in F.SLOTS to) n) }
    ensures light { Tries 1 (F.state flash.old) (F.state flash.new) result }
    ensures work { Costs (2 * F.PAGES) 2 (F.state flash.old) (F.state flash.new) }
    ensures erases { (F.state flash.new).erases ≡ (F.state flash.old).erases }
{
    let mut next = 0;
    for page in 0..F::PAGES {
        next = copy_page(flash, from, to, next, table, page)?;
    }
    Ok(next)
}

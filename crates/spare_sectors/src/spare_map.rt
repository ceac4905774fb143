//! The map of the sectors that are worn.
ghost use Rattle.std.specs.Prelude.{◌≡◌, ◌≢◌, ◌≤◌, ◌<◌, ◌+◌, ◌*◌, ℕ, true, false, slice_index};
ghost use Rattle.std.specs.Prelude.{max, Some, IfOk, IsErrOf, OnOk};
ghost use Rattle.nvm_board.specs.declared.board.DeviceErr.TheVariants.{Fault};
ghost use Rattle.flash_device.specs.FlashCalls.{AreFilled, Lights, SameElsewhere};
ghost use Rattle.flash_device.specs.FlashLogs.{find, is_marked as has_mark, slot_of};
ghost use Rattle.flash_device.specs.PageTables.{AreFree, IsPageTable};
ghost use Rattle.flash_device.specs.declared.flash.TheConstants.{BLANK};
ghost use Rattle.spare_sectors.specs.SpareMaps.{KnowsMap, MovesOnly};
ghost use Rattle.spare_sectors.specs.SpareStates.{Blames};
ghost use Rattle.spare_sectors.specs.declared.map_device.SparePart.TheVariants.{Entry, Map};

use crate::map_device::MapDevice;
use flash_device::{BLANK, PageTable, RECORD_WORDS, SLOT_WORDS};
use nvm_board::DeviceErr;

/// The first word of the mark of an entry, that of a commit mark.
const FIRST_MARK: u32 = 0x436F_6D6D;

/// The second word of the mark of an entry.
const SECOND_MARK: u32 = 0x6974_7321;

/// The place of the number of a sector in an entry.
const ENTRY_NUMBER: u32 = 16;

/// The address of an entry.
fn entry_at<D: MapDevice>(entry: u16) -> u32
    requires { entry < D.SPARES }
    ensures is { result ≡ slot_of 0 entry }
    ensures within { result + 20 ≤ 20 * D.SPARES }
{
    SLOT_WORDS * u32::from(entry)
}

/// Returns true if an entry has its mark.
fn is_marked<D: MapDevice>(device: &mut D, at: u32) -> Result<bool, DeviceErr>
    requires lit { (D.state device.old).flash.dark ≡ false }
    requires within { at + 2 ≤ 20 * D.SPARES }
    ensures marked { IfOk result (λ b. b ≡ has_mark (D.state device.old).map at) }
    ensures words { (D.state device.new).flash.words ≡ (D.state device.old).flash.words }
    ensures programs { (D.state device.new).programs ≡ (D.state device.old).programs }
    ensures map { (D.state device.new).map ≡ (D.state device.old).map }
    ensures work { (D.state device.new).flash.operations ≡ (D.state device.old).flash.operations }
    ensures erases { (D.state device.new).flash.erases ≡ (D.state device.old).flash.erases }
    ensures kept { (D.state device.new).flash.kept ≡ (D.state device.old).flash.kept }
    ensures begun { (D.state device.new).begun ≡ (D.state device.old).begun }
    ensures blames { IsErrOf result Fault → (D.state device.new).failed ≡ Some Map }
    ensures light { Lights (D.state device.old).flash (D.state device.new).flash result }
{
    let first = device.read_map(at)?;
    let second = device.read_map(at + 1)?;
    Ok(first == FIRST_MARK && second == SECOND_MARK)
}

/// Returns true if an entry is blank.
fn is_blank<D: MapDevice>(device: &mut D, at: u32) -> Result<bool, DeviceErr>
    requires lit { (D.state device.old).flash.dark ≡ false }
    requires within { at + 20 ≤ 20 * D.SPARES }
    ensures blank { IfOk result (λ b. b ≡ true → AreFilled (D.state device.old).map at 20 BLANK) }
    ensures used { IfOk result (λ b. b ≡ false
        → (k : ℕ) × ((k < 20) × (slice_index (D.state device.old).map (at + k) ≢ BLANK))) }
    ensures words { (D.state device.new).flash.words ≡ (D.state device.old).flash.words }
    ensures programs { (D.state device.new).programs ≡ (D.state device.old).programs }
    ensures map { (D.state device.new).map ≡ (D.state device.old).map }
    ensures work { (D.state device.new).flash.operations ≡ (D.state device.old).flash.operations }
    ensures erases { (D.state device.new).flash.erases ≡ (D.state device.old).flash.erases }
    ensures kept { (D.state device.new).flash.kept ≡ (D.state device.old).flash.kept }
    ensures begun { (D.state device.new).begun ≡ (D.state device.old).begun }
    ensures blames { IsErrOf result Fault → (D.state device.new).failed ≡ Some Map }
    ensures light { Lights (D.state device.old).flash (D.state device.new).flash result }
{
    for k in 0..SLOT_WORDS {
        if device.read_map(at + k)? != BLANK {
            return Ok(false);
        }
    }
    Ok(true)
}

/// Takes one entry more into the table, and returns the first entry that is free.
fn scan_entry<D: MapDevice>(
    device: &mut D,
    entry: u16,
    next: u16,
    table: &mut D::Map,
) -> Result<u16, DeviceErr>
    requires lit { (D.state device.old).flash.dark ≡ false }
    requires below { entry < D.SPARES }
    requires index { IsPageTable (2 * D.SECTORS + 1) (D.state device.old).map 0 entry (D.Map.entries table.old) }
    requires free { AreFree (D.state device.old).map 0 next entry }
    requires most { next ≤ (D.state device.old).begun }
    ensures index { IfOk result (λ _. IsPageTable (2 * D.SECTORS + 1) (D.state device.old).map 0 (entry + 1)
        (D.Map.entries table.new)) }
    ensures free { IfOk result (λ n. AreFree (D.state device.old).map 0 n (entry + 1)) }
    ensures most { IfOk result (λ n. n ≤ (D.state device.old).begun) }
    ensures words { (D.state device.new).flash.words ≡ (D.state device.old).flash.words }
    ensures programs { (D.state device.new).programs ≡ (D.state device.old).programs }
    ensures map { (D.state device.new).map ≡ (D.state device.old).map }
    ensures work { (D.state device.new).flash.operations ≡ (D.state device.old).flash.operations }
    ensures erases { (D.state device.new).flash.erases ≡ (D.state device.old).flash.erases }
    ensures kept { (D.state device.new).flash.kept ≡ (D.state device.old).flash.kept }
    ensures begun { (D.state device.new).begun ≡ (D.state device.old).begun }
    ensures blames { IsErrOf result Fault → (D.state device.new).failed ≡ Some Map }
    ensures light { Lights (D.state device.old).flash (D.state device.new).flash result }
{
    let at = entry_at::<D>(entry);
    if is_marked(device, at + RECORD_WORDS)? {
        let number = device.read_map(at + ENTRY_NUMBER)?;
        if number < 2 * u32::from(D::SECTORS) + 1 {
            table.set_entry(number as u16, entry + 1);
        }
        return Ok(entry + 1);
    }
    if is_blank(device, at)? {
        return Ok(next);
    }
    Ok(entry + 1)
}

/// Finds the spare of each sector, and returns the first entry that is free, with all that follow it.
pub fn scan_map<D: MapDevice>(device: &mut D, table: &mut D::Map) -> Result<u16, DeviceErr>
    requires lit { (D.state device.old).flash.dark ≡ false }
    ensures known { IfOk result (λ n. KnowsMap D.SECTORS D.SPARES (D.state device.old).map (D.Map.entries table.new)
        n) }
    ensures most { IfOk result (λ n. n ≤ (D.state device.old).begun) }
    ensures words { (D.state device.new).flash.words ≡ (D.state device.old).flash.words }
    ensures programs { (D.state device.new).programs ≡ (D.state device.old).programs }
    ensures map { (D.state device.new).map ≡ (D.state device.old).map }
    ensures work { (D.state device.new).flash.operations ≡ (D.state device.old).flash.operations }
    ensures erases { (D.state device.new).flash.erases ≡ (D.state device.old).flash.erases }
    ensures kept { (D.state device.new).flash.kept ≡ (D.state device.old).flash.kept }
    ensures begun { (D.state device.new).begun ≡ (D.state device.old).begun }
    ensures blames { IsErrOf result Fault → (D.state device.new).failed ≡ Some Map }
    ensures light { Lights (D.state device.old).flash (D.state device.new).flash result }
{
    *table = D::Map::blank();
    let mut next = 0;
    for entry in 0..D::SPARES {
        next = scan_entry(device, entry, next, table)?;
    }
    Ok(next)
}

/// Puts the number of a sector into a free entry of the map.
pub fn put_number<D: MapDevice>(device: &mut D, entry: u16, sector: u16) -> Result<(), DeviceErr>
    requires lit { (D.state device.old).flash.dark ≡ false }
    requires below { entry < D.SPARES }
    requires free { AreFree (D.state device.old).map 0 entry D.SPARES }
    ensures names { OnOk result (slice_index (D.state device.new).map (slot_of 0 entry + 16) ≡ sector) }
    ensures number { SameElsewhere (D.state device.old).map (slot_of 0 entry + 16) 1 (D.state device.new).map }
    ensures words { (D.state device.new).flash.words ≡ (D.state device.old).flash.words }
    ensures programs { (D.state device.new).programs ≡ (D.state device.old).programs }
    ensures work { (D.state device.new).flash.operations ≤ (D.state device.old).flash.operations + 1 }
    ensures erases { (D.state device.new).flash.erases ≡ (D.state device.old).flash.erases }
    ensures begun { (D.state device.new).begun ≡ max (D.state device.old).begun (entry + 1) }
    ensures blames { Blames (Entry entry) (D.state device.old) (D.state device.new) result }
    ensures light { Lights (D.state device.old).flash (D.state device.new).flash result }
{
    let at = entry_at::<D>(entry);
    device.program_map(at + ENTRY_NUMBER, &[u32::from(sector)])?;
    Ok(())
}

/// Puts the mark of an entry behind its number, from where on the entry counts.
pub fn put_mark<D: MapDevice>(device: &mut D, entry: u16) -> Result<(), DeviceErr>
    requires lit { (D.state device.old).flash.dark ≡ false }
    requires below { entry < D.SPARES }
    requires blank { AreFilled (D.state device.old).map (slot_of 0 entry + 18) 2 BLANK }
    ensures marked { OnOk result (has_mark (D.state device.new).map (slot_of 0 entry + 18) ≡ true) }
    ensures mark { SameElsewhere (D.state device.old).map (slot_of 0 entry + 18) 2 (D.state device.new).map }
    ensures words { (D.state device.new).flash.words ≡ (D.state device.old).flash.words }
    ensures programs { (D.state device.new).programs ≡ (D.state device.old).programs }
    ensures work { (D.state device.new).flash.operations ≤ (D.state device.old).flash.operations + 1 }
    ensures erases { (D.state device.new).flash.erases ≡ (D.state device.old).flash.erases }
    ensures begun { (D.state device.new).begun ≡ max (D.state device.old).begun (entry + 1) }
    ensures blames { Blames (Entry entry) (D.state device.old) (D.state device.new) result }
    ensures light { Lights (D.state device.old).flash (D.state device.new).flash result }
{
    let at = entry_at::<D>(entry);
    device.program_map(at + RECORD_WORDS, &[FIRST_MARK, SECOND_MARK])?;
    Ok(())
}

/// Names a sector in a free entry of the map. At every exit each other sector lies where it lay.
pub fn put_entry<D: MapDevice>(device: &mut D, entry: u16, sector: u16) -> Result<(), DeviceErr>
    requires lit { (D.state device.old).flash.dark ≡ false }
    requires below { entry < D.SPARES }
    requires free { AreFree (D.state device.old).map 0 entry D.SPARES }
    ensures moves { MovesOnly D.SPARES (D.state device.old).map sector (D.state device.new).map }
    ensures done { OnOk result (find (D.state device.new).map 0 D.SPARES sector ≡ entry + 1) }
    ensures free { AreFree (D.state device.new).map 0 (entry + 1) D.SPARES }
    ensures words { (D.state device.new).flash.words ≡ (D.state device.old).flash.words }
    ensures programs { (D.state device.new).programs ≡ (D.state device.old).programs }
    ensures work { (D.state device.new).flash.operations ≤ (D.state device.old).flash.operations + 2 }
    ensures erases { (D.state device.new).flash.erases ≡ (D.state device.old).flash.erases }
    ensures begun { (D.state device.new).begun ≡ max (D.state device.old).begun (entry + 1) }
    ensures blames { Blames (Entry entry) (D.state device.old) (D.state device.new) result }
    ensures light { Lights (D.state device.old).flash (D.state device.new).flash result }
{
    put_number(device, entry, sector)?;
    put_mark(device, entry)?;
    Ok(())
}

//! The calls of a log on a device with spare sectors.
ghost use Rattle.std.specs.Prelude.{◌≡◌, ◌<◌, ◌≤◌, ◌+◌, ◌-◌, ◌*◌, true, false, length, slice_index};
ghost use Rattle.std.specs.Prelude.{Some, IfOk, IsErrOf, OnOk};
ghost use Rattle.nvm_board.specs.declared.board.DeviceErr.TheVariants.{Fault};
ghost use Rattle.flash_device.specs.FlashBlocks.{flash_size};
ghost use Rattle.flash_device.specs.FlashCalls.{AreFilled, IsThere, Lights, SameElsewhere};
ghost use Rattle.flash_device.specs.PageTables.{AreFree, IsPageTable};
ghost use Rattle.flash_device.specs.ProgrammedRuns.{IsProgramRun};
ghost use Rattle.flash_device.specs.declared.flash.TheConstants.{BLANK};
ghost use Rattle.spare_sectors.specs.SpareMaps.{HasSpares, TakesSpare, TriesSpare, without_spares};
ghost use Rattle.spare_sectors.specs.SparePlaces.{all_sectors, cell_of, lies_in, part_start, spare_words};
ghost use Rattle.spare_sectors.specs.SpareStates.{Blames};
ghost use Rattle.spare_sectors.specs.declared.map_device.SparePart.TheVariants.{Map, Sector};

use crate::map_device::MapDevice;
use crate::spare_device::SpareDevice;
use crate::spare_map::{put_entry, scan_map};
use crate::spare_places::{lies_at, spot_of};
use flash_device::PageTable;
use nvm_board::DeviceErr;

/// What a layer with spare sectors has in working memory.
#[derive(Drop)]
pub struct SectorMap<T> {
    /// Where the sectors lie.
    pub table: T,
    /// The first entry of the map that is free.
    pub next: u16,
    /// The number of Faults that a spare was tried for.
    pub absorbed: u16,
    /// True if the table is that of the device.
    pub ready: bool,
}

/// The place of a word of the log on the device.
fn place_of<D: SpareDevice>(device: &D, table: &D::Map, at: u32) -> u32
    requires at { at < flash_size D.SLOTS }
    requires index { IsPageTable (2 * D.SECTORS + 1) (D.state device.now).map 0 D.SPARES (D.Map.entries table.now) }
    ensures is { result ≡ cell_of D.SLOTS D.SECTORS D.SECTOR_SLOTS D.SECTOR_WORDS D.SPARES (D.state device.now).map
        at }
    ensures within { result < D.SECTOR_WORDS * all_sectors D.SECTORS D.SPARES }
{
    let _ = device;
    let spot = spot_of::<D>(at);
    D::SECTOR_WORDS * u32::from(lies_at::<D>(table, spot.sector)) + spot.offset
}

/// Reads a word of the log.
fn read_cell<D: SpareDevice>(device: &mut D, table: &D::Map, at: u32) -> Result<u32, DeviceErr>
    requires lit { (D.state device.old).flash.dark ≡ false }
    requires at { at < flash_size D.SLOTS }
    requires index { IsPageTable (2 * D.SECTORS + 1) (D.state device.old).map 0 D.SPARES (D.Map.entries table.now) }
    ensures word { IfOk result (λ w. w ≡ slice_index (spare_words D.SLOTS D.SECTORS D.SECTOR_SLOTS D.SECTOR_WORDS
        D.SPARES (D.state device.old).flash.words (D.state device.old).map) at) }
    ensures words { (D.state device.new).flash.words ≡ (D.state device.old).flash.words }
    ensures map { (D.state device.new).map ≡ (D.state device.old).map }
    ensures work { (D.state device.new).flash.operations ≡ (D.state device.old).flash.operations }
    ensures erases { (D.state device.new).flash.erases ≡ (D.state device.old).flash.erases }
    ensures kept { (D.state device.new).flash.kept ≡ (D.state device.old).flash.kept }
    ensures begun { (D.state device.new).begun ≡ (D.state device.old).begun }
    ensures light { Lights (D.state device.old).flash (D.state device.new).flash result }
{
    let place = place_of(device, table, at);
    let word = device.read(place)?;
    Ok(word)
}

/// Programs a run of the log.
fn program_cells<D: SpareDevice>(
    device: &mut D,
    table: &D::Map,
    at: u32,
    words: &[u32],
) -> Result<(), DeviceErr>
    requires lit { (D.state device.old).flash.dark ≡ false }
    requires run { IsProgramRun D.SLOTS at (length words.now) }
    requires within { at + length words.now ≤ flash_size D.SLOTS }
    requires blank { AreFilled (spare_words D.SLOTS D.SECTORS D.SECTOR_SLOTS D.SECTOR_WORDS
        D.SPARES (D.state device.old).flash.words (D.state device.old).map) at (length words.now) BLANK }
    requires index { IsPageTable (2 * D.SECTORS + 1) (D.state device.old).map 0 D.SPARES (D.Map.entries table.now) }
    ensures done { OnOk result (IsThere (spare_words D.SLOTS D.SECTORS D.SECTOR_SLOTS D.SECTOR_WORDS D.SPARES
        (D.state device.new).flash.words (D.state device.old).map) at words.now) }
    ensures elsewhere { SameElsewhere (spare_words D.SLOTS D.SECTORS D.SECTOR_SLOTS D.SECTOR_WORDS D.SPARES
        (D.state device.old).flash.words (D.state device.old).map) at (length words.now)
        (spare_words D.SLOTS D.SECTORS D.SECTOR_SLOTS D.SECTOR_WORDS D.SPARES (D.state device.new).flash.words
        (D.state device.old).map) }
    ensures map { (D.state device.new).map ≡ (D.state device.old).map }
    ensures work { (D.state device.new).flash.operations ≤ (D.state device.old).flash.operations + 1 }
    ensures erases { (D.state device.new).flash.erases ≡ (D.state device.old).flash.erases }
    ensures begun { (D.state device.new).begun ≡ (D.state device.old).begun }
    ensures light { Lights (D.state device.old).flash (D.state device.new).flash result }
{
    let place = place_of(device, table, at);
    device.program(place, words)?;
    Ok(())
}

/// Erases a sector of the log where it lies.
fn erase_cells<D: SpareDevice>(device: &mut D, table: &D::Map, sector: u16) -> Result<(), DeviceErr>
    requires lit { (D.state device.old).flash.dark ≡ false }
    requires sector { sector ≤ 2 * D.SECTORS }
    requires index { IsPageTable (2 * D.SECTORS + 1) (D.state device.old).map 0 D.SPARES (D.Map.entries table.now) }
    ensures done { OnOk result (AreFilled (spare_words D.SLOTS D.SECTORS D.SECTOR_SLOTS D.SECTOR_WORDS D.SPARES
        (D.state device.new).flash.words (D.state device.old).map) (part_start D.SLOTS D.SECTORS D.SECTOR_SLOTS sector)
        (part_start D.SLOTS D.SECTORS D.SECTOR_SLOTS (sector + 1) - part_start D.SLOTS D.SECTORS D.SECTOR_SLOTS sector)
        BLANK) }
    ensures elsewhere { SameElsewhere (spare_words D.SLOTS D.SECTORS D.SECTOR_SLOTS D.SECTOR_WORDS D.SPARES
        (D.state device.old).flash.words (D.state device.old).map) (part_start D.SLOTS D.SECTORS D.SECTOR_SLOTS sector)
        (part_start D.SLOTS D.SECTORS D.SECTOR_SLOTS (sector + 1) - part_start D.SLOTS D.SECTORS D.SECTOR_SLOTS sector)
        (spare_words D.SLOTS D.SECTORS D.SECTOR_SLOTS D.SECTOR_WORDS D.SPARES (D.state device.new).flash.words
        (D.state device.old).map) }
    ensures map { (D.state device.new).map ≡ (D.state device.old).map }
    ensures work { (D.state device.new).flash.operations ≤ (D.state device.old).flash.operations + 1 }
    ensures erases { (D.state device.new).flash.erases ≤ (D.state device.old).flash.erases + 1 }
    ensures begun { (D.state device.new).begun ≡ (D.state device.old).begun }
    ensures blames { Blames (Sector (lies_in D.SECTORS D.SPARES (D.state device.old).map sector)) (D.state device.old)
        (D.state device.new) result }
    ensures light { Lights (D.state device.old).flash (D.state device.new).flash result }
{
    device.erase(lies_at::<D>(table, sector))?;
    Ok(())
}

/// Puts a sector of the log into a free spare, and erases it there. At every exit no word of another sector changes.
fn take_spare<D: SpareDevice>(
    device: &mut D,
    table: &mut D::Map,
    sector: u16,
    entry: u16,
) -> Result<(), DeviceErr>
    requires lit { (D.state device.old).flash.dark ≡ false }
    requires sector { sector ≤ 2 * D.SECTORS }
    requires below { entry < D.SPARES }
    requires index { IsPageTable (2 * D.SECTORS + 1) (D.state device.old).map 0 D.SPARES (D.Map.entries table.old) }
    requires free { AreFree (D.state device.old).map 0 entry D.SPARES }
    ensures index { OnOk result (IsPageTable (2 * D.SECTORS + 1) (D.state device.new).map 0 D.SPARES
        (D.Map.entries table.new)) }
    ensures free { AreFree (D.state device.new).map 0 (entry + 1) D.SPARES }
    ensures done { OnOk result (AreFilled (spare_words D.SLOTS D.SECTORS D.SECTOR_SLOTS D.SECTOR_WORDS D.SPARES
        (D.state device.new).flash.words (D.state device.new).map) (part_start D.SLOTS D.SECTORS D.SECTOR_SLOTS sector)
        (part_start D.SLOTS D.SECTORS D.SECTOR_SLOTS (sector + 1) - part_start D.SLOTS D.SECTORS D.SECTOR_SLOTS sector)
        BLANK) }
    ensures elsewhere { SameElsewhere (spare_words D.SLOTS D.SECTORS D.SECTOR_SLOTS D.SECTOR_WORDS D.SPARES
        (D.state device.old).flash.words (D.state device.old).map) (part_start D.SLOTS D.SECTORS D.SECTOR_SLOTS sector)
        (part_start D.SLOTS D.SECTORS D.SECTOR_SLOTS (sector + 1) - part_start D.SLOTS D.SECTORS D.SECTOR_SLOTS sector)
        (spare_words D.SLOTS D.SECTORS D.SECTOR_SLOTS D.SECTOR_WORDS D.SPARES (D.state device.new).flash.words
        (D.state device.new).map) }
    ensures work { (D.state device.new).flash.operations ≤ (D.state device.old).flash.operations + 3 }
    ensures erases { (D.state device.new).flash.erases ≤ (D.state device.old).flash.erases + 1 }
    ensures tries { TriesSpare D.SECTORS D.SPARES sector entry (D.state device.old) (D.state device.new) result }
    ensures light { Lights (D.state device.old).flash (D.state device.new).flash result }
{
    put_entry(device, entry, sector)?;
    device.erase(2 * D::SECTORS + 1 + entry)?;
    table.set_entry(sector, entry + 1);
    Ok(())
}

/// Reads the map, if the table isn't that of the device.
pub fn learn<D: MapDevice>(device: &mut D, known: &mut SectorMap<D::Map>) -> Result<(), DeviceErr>
    requires lit { (D.state device.old).flash.dark ≡ false }
    requires spares { HasSpares D.Map.entries D.SECTORS D.SPARES (D.state device.old) known.old }
    ensures spares { HasSpares D.Map.entries D.SECTORS D.SPARES (D.state device.new) known.new }
    ensures ready { OnOk result (known.new.ready ≡ true) }
    ensures absorbed { known.new.absorbed ≡ known.old.absorbed }
    ensures words { (D.state device.new).flash.words ≡ (D.state device.old).flash.words }
    ensures programs { (D.state device.new).programs ≡ (D.state device.old).programs }
    ensures map { (D.state device.new).map ≡ (D.state device.old).map }
    ensures work { (D.state device.new).flash.operations ≡ (D.state device.old).flash.operations }
    ensures erases { (D.state device.new).flash.erases ≡ (D.state device.old).flash.erases }
    ensures kept { (D.state device.new).flash.kept ≡ (D.state device.old).flash.kept }
    ensures begun { (D.state device.new).begun ≡ (D.state device.old).begun }
    ensures blames { IsErrOf result Fault → (D.state device.new).failed ≡ Some Map }
    ensures light { Lights (D.state device.old).flash (D.state device.new).flash result }
{
    if known.ready {
        return Ok(());
    }
    let next = scan_map(device, &mut known.table)?;
    if known.next < next {
        known.next = next;
    }
    known.ready = true;
    Ok(())
}

/// Reads a word of the log.
pub fn read_at<D: SpareDevice>(
    device: &mut D,
    known: &mut SectorMap<D::Map>,
    at: u32,
) -> Result<u32, DeviceErr>
    requires lit { (D.state device.old).flash.dark ≡ false }
    requires at { at < flash_size D.SLOTS }
    requires spares { HasSpares D.Map.entries D.SECTORS D.SPARES (D.state device.old) known.old }
    ensures spares { HasSpares D.Map.entries D.SECTORS D.SPARES (D.state device.new) known.new }
    ensures absorbed { known.new.absorbed ≡ known.old.absorbed }
    ensures word { IfOk result (λ w. w ≡ slice_index (spare_words D.SLOTS D.SECTORS D.SECTOR_SLOTS D.SECTOR_WORDS
        D.SPARES (D.state device.old).flash.words (D.state device.old).map) at) }
    ensures words { (D.state device.new).flash.words ≡ (D.state device.old).flash.words }
    ensures map { (D.state device.new).map ≡ (D.state device.old).map }
    ensures work { (D.state device.new).flash.operations ≡ (D.state device.old).flash.operations }
    ensures erases { (D.state device.new).flash.erases ≡ (D.state device.old).flash.erases }
    ensures kept { (D.state device.new).flash.kept ≡ (D.state device.old).flash.kept }
    ensures begun { (D.state device.new).begun ≡ (D.state device.old).begun }
    ensures light { Lights (D.state device.old).flash (D.state device.new).flash result }
{
    learn(device, known)?;
    read_cell(device, &known.table, at)
}

/// Programs a run of the log.
pub fn program_at<D: SpareDevice>(
    device: &mut D,
    known: &mut SectorMap<D::Map>,
    at: u32,
    words: &[u32],
) -> Result<(), DeviceErr>
    requires lit { (D.state device.old).flash.dark ≡ false }
    requires run { IsProgramRun D.SLOTS at (length words.now) }
    requires within { at + length words.now ≤ flash_size D.SLOTS }
    requires blank { AreFilled (spare_words D.SLOTS D.SECTORS D.SECTOR_SLOTS D.SECTOR_WORDS
        D.SPARES (D.state device.old).flash.words (D.state device.old).map) at (length words.now) BLANK }
    requires spares { HasSpares D.Map.entries D.SECTORS D.SPARES (D.state device.old) known.old }
    ensures spares { HasSpares D.Map.entries D.SECTORS D.SPARES (D.state device.new) known.new }
    ensures absorbed { known.new.absorbed ≡ known.old.absorbed }
    ensures done { OnOk result (IsThere (spare_words D.SLOTS D.SECTORS D.SECTOR_SLOTS D.SECTOR_WORDS D.SPARES
        (D.state device.new).flash.words (D.state device.old).map) at words.now) }
    ensures elsewhere { SameElsewhere (spare_words D.SLOTS D.SECTORS D.SECTOR_SLOTS D.SECTOR_WORDS D.SPARES
        (D.state device.old).flash.words (D.state device.old).map) at (length words.now)
        (spare_words D.SLOTS D.SECTORS D.SECTOR_SLOTS D.SECTOR_WORDS D.SPARES (D.state device.new).flash.words
        (D.state device.old).map) }
    ensures map { (D.state device.new).map ≡ (D.state device.old).map }
    ensures work { (D.state device.new).flash.operations ≤ (D.state device.old).flash.operations + 1 }
    ensures erases { (D.state device.new).flash.erases ≡ (D.state device.old).flash.erases }
    ensures begun { (D.state device.new).begun ≡ (D.state device.old).begun }
    ensures light { Lights (D.state device.old).flash (D.state device.new).flash result }
{
    learn(device, known)?;
    program_cells(device, &known.table, at, words)
}

/// Puts a sector that can't be erased into the next spare.
fn move_sector<D: SpareDevice>(
    device: &mut D,
    known: &mut SectorMap<D::Map>,
    sector: u16,
) -> Result<(), DeviceErr>
    requires lit { (D.state device.old).flash.dark ≡ false }
    requires sector { sector ≤ 2 * D.SECTORS }
    requires room { known.old.next < D.SPARES }
    requires ready { known.old.ready ≡ true }
    requires fault { known.old.absorbed < (D.state device.old).flash.faults }
    requires spares { HasSpares D.Map.entries D.SECTORS D.SPARES (D.state device.old) known.old }
    ensures spares { HasSpares D.Map.entries D.SECTORS D.SPARES (D.state device.new) known.new }
    ensures absorbed { known.new.absorbed ≡ known.old.absorbed + 1 }
    ensures done { OnOk result (AreFilled (spare_words D.SLOTS D.SECTORS D.SECTOR_SLOTS D.SECTOR_WORDS D.SPARES
        (D.state device.new).flash.words (D.state device.new).map) (part_start D.SLOTS D.SECTORS D.SECTOR_SLOTS sector)
        (part_start D.SLOTS D.SECTORS D.SECTOR_SLOTS (sector + 1) - part_start D.SLOTS D.SECTORS D.SECTOR_SLOTS sector)
        BLANK) }
    ensures elsewhere { SameElsewhere (spare_words D.SLOTS D.SECTORS D.SECTOR_SLOTS D.SECTOR_WORDS D.SPARES
        (D.state device.old).flash.words (D.state device.old).map) (part_start D.SLOTS D.SECTORS D.SECTOR_SLOTS sector)
        (part_start D.SLOTS D.SECTORS D.SECTOR_SLOTS (sector + 1) - part_start D.SLOTS D.SECTORS D.SECTOR_SLOTS sector)
        (spare_words D.SLOTS D.SECTORS D.SECTOR_SLOTS D.SECTOR_WORDS D.SPARES (D.state device.new).flash.words
        (D.state device.new).map) }
    ensures work { (D.state device.new).flash.operations ≤ (D.state device.old).flash.operations + 3 }
    ensures erases { (D.state device.new).flash.erases ≤ (D.state device.old).flash.erases + 1 }
    ensures tries { TriesSpare D.SECTORS D.SPARES sector known.old.next (D.state device.old) (D.state device.new)
        result }
    ensures light { Lights (D.state device.old).flash (D.state device.new).flash result }
{
    let entry = known.next;
    known.ready = false;
    known.next += 1;
    known.absorbed += 1;
    take_spare(device, &mut known.table, sector, entry)?;
    known.ready = true;
    Ok(())
}

/// Erases a sector of the log. If it can't be erased, it is put into the next spare.
pub fn erase_at<D: SpareDevice>(
    device: &mut D,
    known: &mut SectorMap<D::Map>,
    sector: u16,
) -> Result<(), DeviceErr>
    requires lit { (D.state device.old).flash.dark ≡ false }
    requires sector { sector ≤ 2 * D.SECTORS }
    requires spares { HasSpares D.Map.entries D.SECTORS D.SPARES (D.state device.old) known.old }
    ensures spares { HasSpares D.Map.entries D.SECTORS D.SPARES (D.state device.new) known.new }
    ensures done { OnOk result (AreFilled (spare_words D.SLOTS D.SECTORS D.SECTOR_SLOTS D.SECTOR_WORDS D.SPARES
        (D.state device.new).flash.words (D.state device.new).map) (part_start D.SLOTS D.SECTORS D.SECTOR_SLOTS sector)
        (part_start D.SLOTS D.SECTORS D.SECTOR_SLOTS (sector + 1) - part_start D.SLOTS D.SECTORS D.SECTOR_SLOTS sector)
        BLANK) }
    ensures elsewhere { SameElsewhere (spare_words D.SLOTS D.SECTORS D.SECTOR_SLOTS D.SECTOR_WORDS D.SPARES
        (D.state device.old).flash.words (D.state device.old).map) (part_start D.SLOTS D.SECTORS D.SECTOR_SLOTS sector)
        (part_start D.SLOTS D.SECTORS D.SECTOR_SLOTS (sector + 1) - part_start D.SLOTS D.SECTORS D.SECTOR_SLOTS sector)
        (spare_words D.SLOTS D.SECTORS D.SECTOR_SLOTS D.SECTOR_WORDS D.SPARES (D.state device.new).flash.words
        (D.state device.new).map) }
    ensures work { (D.state device.new).flash.operations - 3 * known.new.absorbed
        ≤ (D.state device.old).flash.operations - 3 * known.old.absorbed + 1 }
    ensures erases { (D.state device.new).flash.erases - known.new.absorbed
        ≤ (D.state device.old).flash.erases - known.old.absorbed + 1 }
    ensures light { Lights
        (without_spares D.SLOTS D.SECTORS D.SECTOR_SLOTS D.SECTOR_WORDS D.SPARES known.old.absorbed
        (D.state device.old))
        (without_spares D.SLOTS D.SECTORS D.SECTOR_SLOTS D.SECTOR_WORDS D.SPARES known.new.absorbed
        (D.state device.new)) result }
    ensures chip_work { (D.state device.new).flash.operations ≤ (D.state device.old).flash.operations + 4 }
    ensures chip_erases { (D.state device.new).flash.erases ≤ (D.state device.old).flash.erases + 2 }
    ensures takes { TakesSpare D.SECTORS D.SPARES sector (D.state device.old) (D.state device.new) result }
{
    learn(device, known)?;
    match erase_cells(device, &known.table, sector) {
        Err(DeviceErr::Fault) => {}
        result => return result,
    }
    if known.next == D::SPARES {
        return Err(DeviceErr::Fault);
    }
    move_sector(device, known, sector)
}

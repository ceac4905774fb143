//! The calls of a log with units on a device with spare sectors.
ghost use Rattle.std.specs.Prelude.{◌≡◌, ◌<◌, ◌≤◌, ◌+◌, ◌-◌, ◌*◌, true, false, length, slice_index};
ghost use Rattle.std.specs.Prelude.{IfOk, OnErr, OnOk};
ghost use Rattle.flash_device.specs.FlashCalls.{AreFilled, IsThere, Lights, SameElsewhere};
ghost use Rattle.flash_device.specs.PageTables.{AreFree, IsPageTable};
ghost use Rattle.flash_device.specs.declared.flash.TheConstants.{BLANK};
ghost use Rattle.spare_units.specs.SpareFrames.{sector_frame, unit_list, without_spare_units};
ghost use Rattle.spare_sectors.specs.SpareMaps.{HasSpares, TakesSpare, TriesSpare};
ghost use Rattle.spare_sectors.specs.SparePlaces.{lies_in};
ghost use Rattle.spare_sectors.specs.SpareStates.{Blames};
ghost use Rattle.program_units.specs.UnitFrames.{AreUnits, IsFrameRun, IsPartRun, device_size};
ghost use Rattle.program_units.specs.UnitStates.{CountsErase};
ghost use Rattle.spare_sectors.specs.declared.map_device.SparePart.TheVariants.{Sector};
ghost use Rattle.program_units.specs.declared.unit_frames.TheConstants.{FRAME_WORDS};

use crate::spare_frames::cell_at;
use crate::spare_unit_device::SpareUnitDevice;
use flash_device::PageTable;
use nvm_board::DeviceErr;
use spare_sectors::{MapDevice, SectorMap, learn, lies_at, put_mark, put_number};

/// Reads a word of a frame.
fn read_frame<D: SpareUnitDevice>(device: &mut D, table: &D::Map, at: u32) -> Result<u32, DeviceErr>
    requires lit { (D.state device.old).flash.dark ≡ false }
    requires at { at < device_size D.SLOTS }
    requires index { IsPageTable (2 * D.SECTORS + 1) (D.state device.old).map 0 D.SPARES (D.Map.entries table.now) }
    ensures word { IfOk result (λ w. w ≡ slice_index (unit_list D.SLOTS D.SECTORS D.SECTOR_FRAMES D.SPARES
        (D.state device.old).flash.words (D.state device.old).map) at) }
    ensures words { (D.state device.new).flash.words ≡ (D.state device.old).flash.words }
    ensures programs { (D.state device.new).programs ≡ (D.state device.old).programs }
    ensures map { (D.state device.new).map ≡ (D.state device.old).map }
    ensures work { (D.state device.new).flash.operations ≡ (D.state device.old).flash.operations }
    ensures erases { (D.state device.new).flash.erases ≡ (D.state device.old).flash.erases }
    ensures kept { (D.state device.new).flash.kept ≡ (D.state device.old).flash.kept }
    ensures begun { (D.state device.new).begun ≡ (D.state device.old).begun }
    ensures light { Lights (D.state device.old).flash (D.state device.new).flash result }
{
    let cell = cell_at(device, table, at);
    let word = device.read(cell)?;
    Ok(word)
}

/// Programs units of a frame.
fn program_frame<D: SpareUnitDevice>(
    device: &mut D,
    table: &D::Map,
    at: u32,
    words: &[u32],
) -> Result<(), DeviceErr>
    requires lit { (D.state device.old).flash.dark ≡ false }
    requires run { IsFrameRun at (length words.now) }
    requires units { AreUnits D.UNIT at (length words.now) }
    requires part { IsPartRun D.UNIT at (length words.now) }
    requires some { AreFilled words.now 0 (length words.now) BLANK → ⊥ }
    requires within { at + length words.now ≤ device_size D.SLOTS }
    requires blank { AreFilled (unit_list D.SLOTS D.SECTORS D.SECTOR_FRAMES D.SPARES (D.state device.old).flash.words
        (D.state device.old).map)
        at (length words.now) BLANK }
    requires fresh { AreFilled (unit_list D.SLOTS D.SECTORS D.SECTOR_FRAMES D.SPARES (D.state device.old).programs
        (D.state device.old).map)
        at (length words.now) 0 }
    requires index { IsPageTable (2 * D.SECTORS + 1) (D.state device.old).map 0 D.SPARES (D.Map.entries table.now) }
    ensures done { OnOk result (IsThere (unit_list D.SLOTS D.SECTORS D.SECTOR_FRAMES D.SPARES
        (D.state device.new).flash.words (D.state device.old).map)
        at words.now) }
    ensures elsewhere { SameElsewhere (unit_list D.SLOTS D.SECTORS D.SECTOR_FRAMES D.SPARES
        (D.state device.old).flash.words (D.state device.old).map)
        at (length words.now)
        (unit_list D.SLOTS D.SECTORS D.SECTOR_FRAMES D.SPARES (D.state device.new).flash.words
        (D.state device.old).map) }
    ensures counted { OnOk result (AreFilled (unit_list D.SLOTS D.SECTORS D.SECTOR_FRAMES D.SPARES
        (D.state device.new).programs (D.state device.old).map)
        at (length words.now) 1) }
    ensures others { SameElsewhere (unit_list D.SLOTS D.SECTORS D.SECTOR_FRAMES D.SPARES (D.state device.old).programs
        (D.state device.old).map)
        at (length words.now)
        (unit_list D.SLOTS D.SECTORS D.SECTOR_FRAMES D.SPARES (D.state device.new).programs (D.state device.old).map) }
    ensures failed { OnErr result ((D.state device.new).programs ≡ (D.state device.old).programs) }
    ensures map { (D.state device.new).map ≡ (D.state device.old).map }
    ensures work { (D.state device.new).flash.operations ≤ (D.state device.old).flash.operations + 1 }
    ensures erases { (D.state device.new).flash.erases ≡ (D.state device.old).flash.erases }
    ensures begun { (D.state device.new).begun ≡ (D.state device.old).begun }
    ensures light { Lights (D.state device.old).flash (D.state device.new).flash result }
{
    let cell = cell_at(device, table, at);
    device.program(cell, words)?;
    Ok(())
}

/// Erases a sector of the log where it lies.
fn erase_frames<D: SpareUnitDevice>(
    device: &mut D,
    table: &D::Map,
    sector: u16,
) -> Result<(), DeviceErr>
    requires lit { (D.state device.old).flash.dark ≡ false }
    requires sector { sector ≤ 2 * D.SECTORS }
    requires index { IsPageTable (2 * D.SECTORS + 1) (D.state device.old).map 0 D.SPARES (D.Map.entries table.now) }
    ensures done { OnOk result (AreFilled (unit_list D.SLOTS D.SECTORS D.SECTOR_FRAMES D.SPARES
        (D.state device.new).flash.words (D.state device.old).map)
        (FRAME_WORDS * sector_frame D.SLOTS D.SECTORS D.SECTOR_FRAMES sector)
        (FRAME_WORDS * (sector_frame D.SLOTS D.SECTORS D.SECTOR_FRAMES (sector + 1)
        - sector_frame D.SLOTS D.SECTORS D.SECTOR_FRAMES sector)) BLANK) }
    ensures elsewhere { SameElsewhere (unit_list D.SLOTS D.SECTORS D.SECTOR_FRAMES D.SPARES
        (D.state device.old).flash.words (D.state device.old).map)
        (FRAME_WORDS * sector_frame D.SLOTS D.SECTORS D.SECTOR_FRAMES sector)
        (FRAME_WORDS * (sector_frame D.SLOTS D.SECTORS D.SECTOR_FRAMES (sector + 1)
        - sector_frame D.SLOTS D.SECTORS D.SECTOR_FRAMES sector))
        (unit_list D.SLOTS D.SECTORS D.SECTOR_FRAMES D.SPARES (D.state device.new).flash.words
        (D.state device.old).map) }
    ensures counted { CountsErase
        (without_spare_units D.SLOTS D.SECTORS D.SECTOR_FRAMES D.SPARES 0 (D.state device.old))
        (without_spare_units D.SLOTS D.SECTORS D.SECTOR_FRAMES D.SPARES 0 (D.state device.new))
        (FRAME_WORDS * sector_frame D.SLOTS D.SECTORS D.SECTOR_FRAMES sector)
        (FRAME_WORDS * (sector_frame D.SLOTS D.SECTORS D.SECTOR_FRAMES (sector + 1)
        - sector_frame D.SLOTS D.SECTORS D.SECTOR_FRAMES sector)) }
    ensures others { SameElsewhere (unit_list D.SLOTS D.SECTORS D.SECTOR_FRAMES D.SPARES (D.state device.old).programs
        (D.state device.old).map)
        (FRAME_WORDS * sector_frame D.SLOTS D.SECTORS D.SECTOR_FRAMES sector)
        (FRAME_WORDS * (sector_frame D.SLOTS D.SECTORS D.SECTOR_FRAMES (sector + 1)
        - sector_frame D.SLOTS D.SECTORS D.SECTOR_FRAMES sector))
        (unit_list D.SLOTS D.SECTORS D.SECTOR_FRAMES D.SPARES (D.state device.new).programs (D.state device.old).map) }
    ensures map { (D.state device.new).map ≡ (D.state device.old).map }
    ensures work { (D.state device.new).flash.operations ≤ (D.state device.old).flash.operations + 1 }
    ensures erases { (D.state device.new).flash.erases ≤ (D.state device.old).flash.erases + 1 }
    ensures begun { (D.state device.new).begun ≡ (D.state device.old).begun }
    ensures blames { Blames (Sector (lies_in D.SECTORS D.SPARES (D.state device.old).map sector)) (D.state device.old)
        (D.state device.new) result }
    ensures light { Lights (D.state device.old).flash (D.state device.new).flash result }
{
    device.erase(lies_at::<D>(table, sector))?;
    Ok(())
}

/// Erases a free spare, and puts a sector of the log there. At every exit no word of another sector changes. No program
/// of the sector's words counts, or none of its words changed.
fn take_spare<D: SpareUnitDevice>(
    device: &mut D,
    table: &mut D::Map,
    sector: u16,
    entry: u16,
) -> Result<(), DeviceErr>
    requires lit { (D.state device.old).flash.dark ≡ false }
    requires sector { sector ≤ 2 * D.SECTORS }
    requires below { entry < D.SPARES }
    requires index { IsPageTable (2 * D.SECTORS + 1) (D.state device.old).map 0 D.SPARES (D.Map.entries table.old) }
    requires free { AreFree (D.state device.old).map 0 entry D.SPARES }
    ensures index { OnOk result (IsPageTable (2 * D.SECTORS + 1) (D.state device.new).map 0 D.SPARES
        (D.Map.entries table.new)) }
    ensures free { AreFree (D.state device.new).map 0 (entry + 1) D.SPARES }
    ensures done { OnOk result (AreFilled (unit_list D.SLOTS D.SECTORS D.SECTOR_FRAMES D.SPARES
        (D.state device.new).flash.words (D.state device.new).map)
        (FRAME_WORDS * sector_frame D.SLOTS D.SECTORS D.SECTOR_FRAMES sector)
        (FRAME_WORDS * (sector_frame D.SLOTS D.SECTORS D.SECTOR_FRAMES (sector + 1)
        - sector_frame D.SLOTS D.SECTORS D.SECTOR_FRAMES sector)) BLANK) }
    ensures elsewhere { SameElsewhere (unit_list D.SLOTS D.SECTORS D.SECTOR_FRAMES D.SPARES
        (D.state device.old).flash.words (D.state device.old).map)
        (FRAME_WORDS * sector_frame D.SLOTS D.SECTORS D.SECTOR_FRAMES sector)
        (FRAME_WORDS * (sector_frame D.SLOTS D.SECTORS D.SECTOR_FRAMES (sector + 1)
        - sector_frame D.SLOTS D.SECTORS D.SECTOR_FRAMES sector))
        (unit_list D.SLOTS D.SECTORS D.SECTOR_FRAMES D.SPARES (D.state device.new).flash.words
        (D.state device.new).map) }
    ensures counted { CountsErase
        (without_spare_units D.SLOTS D.SECTORS D.SECTOR_FRAMES D.SPARES 0 (D.state device.old))
        (without_spare_units D.SLOTS D.SECTORS D.SECTOR_FRAMES D.SPARES 0 (D.state device.new))
        (FRAME_WORDS * sector_frame D.SLOTS D.SECTORS D.SECTOR_FRAMES sector)
        (FRAME_WORDS * (sector_frame D.SLOTS D.SECTORS D.SECTOR_FRAMES (sector + 1)
        - sector_frame D.SLOTS D.SECTORS D.SECTOR_FRAMES sector)) }
    ensures others { SameElsewhere (unit_list D.SLOTS D.SECTORS D.SECTOR_FRAMES D.SPARES (D.state device.old).programs
        (D.state device.old).map)
        (FRAME_WORDS * sector_frame D.SLOTS D.SECTORS D.SECTOR_FRAMES sector)
        (FRAME_WORDS * (sector_frame D.SLOTS D.SECTORS D.SECTOR_FRAMES (sector + 1)
        - sector_frame D.SLOTS D.SECTORS D.SECTOR_FRAMES sector))
        (unit_list D.SLOTS D.SECTORS D.SECTOR_FRAMES D.SPARES (D.state device.new).programs (D.state device.new).map) }
    ensures work { (D.state device.new).flash.operations ≤ (D.state device.old).flash.operations + 3 }
    ensures erases { (D.state device.new).flash.erases ≤ (D.state device.old).flash.erases + 1 }
    ensures tries { TriesSpare D.SECTORS D.SPARES sector entry (D.state device.old) (D.state device.new) result }
    ensures light { Lights (D.state device.old).flash (D.state device.new).flash result }
{
    put_number(device, entry, sector)?;
    device.erase(2 * D::SECTORS + 1 + entry)?;
    // From the mark on the sector lies in the spare, where nothing was programmed since its erase.
    put_mark(device, entry)?;
    table.set_entry(sector, entry + 1);
    Ok(())
}

/// Reads a word of the log.
pub fn read_unit<D: SpareUnitDevice>(
    device: &mut D,
    known: &mut SectorMap<D::Map>,
    at: u32,
) -> Result<u32, DeviceErr>
    requires lit { (D.state device.old).flash.dark ≡ false }
    requires at { at < device_size D.SLOTS }
    requires spares { HasSpares D.Map.entries D.SECTORS D.SPARES (D.state device.old) known.old }
    ensures spares { HasSpares D.Map.entries D.SECTORS D.SPARES (D.state device.new) known.new }
    ensures absorbed { known.new.absorbed ≡ known.old.absorbed }
    ensures word { IfOk result (λ w. w ≡ slice_index (unit_list D.SLOTS D.SECTORS D.SECTOR_FRAMES D.SPARES
        (D.state device.old).flash.words (D.state device.old).map) at) }
    ensures words { (D.state device.new).flash.words ≡ (D.state device.old).flash.words }
    ensures programs { (D.state device.new).programs ≡ (D.state device.old).programs }
    ensures map { (D.state device.new).map ≡ (D.state device.old).map }
    ensures work { (D.state device.new).flash.operations ≡ (D.state device.old).flash.operations }
    ensures erases { (D.state device.new).flash.erases ≡ (D.state device.old).flash.erases }
    ensures kept { (D.state device.new).flash.kept ≡ (D.state device.old).flash.kept }
    ensures begun { (D.state device.new).begun ≡ (D.state device.old).begun }
    ensures light { Lights (D.state device.old).flash (D.state device.new).flash result }
{
    learn(device, known)?;
    read_frame(device, &known.table, at)
}

/// Programs units of a frame of the log.
pub fn program_unit<D: SpareUnitDevice>(
    device: &mut D,
    known: &mut SectorMap<D::Map>,
    at: u32,
    words: &[u32],
) -> Result<(), DeviceErr>
    requires lit { (D.state device.old).flash.dark ≡ false }
    requires run { IsFrameRun at (length words.now) }
    requires units { AreUnits D.UNIT at (length words.now) }
    requires part { IsPartRun D.UNIT at (length words.now) }
    requires some { AreFilled words.now 0 (length words.now) BLANK → ⊥ }
    requires within { at + length words.now ≤ device_size D.SLOTS }
    requires blank { AreFilled (unit_list D.SLOTS D.SECTORS D.SECTOR_FRAMES D.SPARES (D.state device.old).flash.words
        (D.state device.old).map)
        at (length words.now) BLANK }
    requires fresh { AreFilled (unit_list D.SLOTS D.SECTORS D.SECTOR_FRAMES D.SPARES (D.state device.old).programs
        (D.state device.old).map)
        at (length words.now) 0 }
    requires spares { HasSpares D.Map.entries D.SECTORS D.SPARES (D.state device.old) known.old }
    ensures spares { HasSpares D.Map.entries D.SECTORS D.SPARES (D.state device.new) known.new }
    ensures absorbed { known.new.absorbed ≡ known.old.absorbed }
    ensures done { OnOk result (IsThere (unit_list D.SLOTS D.SECTORS D.SECTOR_FRAMES D.SPARES
        (D.state device.new).flash.words (D.state device.old).map)
        at words.now) }
    ensures elsewhere { SameElsewhere (unit_list D.SLOTS D.SECTORS D.SECTOR_FRAMES D.SPARES
        (D.state device.old).flash.words (D.state device.old).map)
        at (length words.now)
        (unit_list D.SLOTS D.SECTORS D.SECTOR_FRAMES D.SPARES (D.state device.new).flash.words
        (D.state device.old).map) }
    ensures counted { OnOk result (AreFilled (unit_list D.SLOTS D.SECTORS D.SECTOR_FRAMES D.SPARES
        (D.state device.new).programs (D.state device.old).map)
        at (length words.now) 1) }
    ensures others { SameElsewhere (unit_list D.SLOTS D.SECTORS D.SECTOR_FRAMES D.SPARES (D.state device.old).programs
        (D.state device.old).map)
        at (length words.now)
        (unit_list D.SLOTS D.SECTORS D.SECTOR_FRAMES D.SPARES (D.state device.new).programs (D.state device.old).map) }
    ensures failed { OnErr result ((D.state device.new).programs ≡ (D.state device.old).programs) }
    ensures map { (D.state device.new).map ≡ (D.state device.old).map }
    ensures work { (D.state device.new).flash.operations ≤ (D.state device.old).flash.operations + 1 }
    ensures erases { (D.state device.new).flash.erases ≡ (D.state device.old).flash.erases }
    ensures begun { (D.state device.new).begun ≡ (D.state device.old).begun }
    ensures light { Lights (D.state device.old).flash (D.state device.new).flash result }
{
    learn(device, known)?;
    program_frame(device, &known.table, at, words)
}

/// Puts a sector that can't be erased into the next spare.
fn move_sector<D: SpareUnitDevice>(
    device: &mut D,
    known: &mut SectorMap<D::Map>,
    sector: u16,
) -> Result<(), DeviceErr>
    requires lit { (D.state device.old).flash.dark ≡ false }
    requires sector { sector ≤ 2 * D.SECTORS }
    requires room { known.old.next < D.SPARES }
    requires ready { known.old.ready ≡ true }
    requires fault { known.old.absorbed < (D.state device.old).flash.faults }
    requires spares { HasSpares D.Map.entries D.SECTORS D.SPARES (D.state device.old) known.old }
    ensures spares { HasSpares D.Map.entries D.SECTORS D.SPARES (D.state device.new) known.new }
    ensures absorbed { known.new.absorbed ≡ known.old.absorbed + 1 }
    ensures done { OnOk result (AreFilled (unit_list D.SLOTS D.SECTORS D.SECTOR_FRAMES D.SPARES
        (D.state device.new).flash.words (D.state device.new).map)
        (FRAME_WORDS * sector_frame D.SLOTS D.SECTORS D.SECTOR_FRAMES sector)
        (FRAME_WORDS * (sector_frame D.SLOTS D.SECTORS D.SECTOR_FRAMES (sector + 1)
        - sector_frame D.SLOTS D.SECTORS D.SECTOR_FRAMES sector)) BLANK) }
    ensures elsewhere { SameElsewhere (unit_list D.SLOTS D.SECTORS D.SECTOR_FRAMES D.SPARES
        (D.state device.old).flash.words (D.state device.old).map)
        (FRAME_WORDS * sector_frame D.SLOTS D.SECTORS D.SECTOR_FRAMES sector)
        (FRAME_WORDS * (sector_frame D.SLOTS D.SECTORS D.SECTOR_FRAMES (sector + 1)
        - sector_frame D.SLOTS D.SECTORS D.SECTOR_FRAMES sector))
        (unit_list D.SLOTS D.SECTORS D.SECTOR_FRAMES D.SPARES (D.state device.new).flash.words
        (D.state device.new).map) }
    ensures counted { CountsErase
        (without_spare_units D.SLOTS D.SECTORS D.SECTOR_FRAMES D.SPARES 0 (D.state device.old))
        (without_spare_units D.SLOTS D.SECTORS D.SECTOR_FRAMES D.SPARES 0 (D.state device.new))
        (FRAME_WORDS * sector_frame D.SLOTS D.SECTORS D.SECTOR_FRAMES sector)
        (FRAME_WORDS * (sector_frame D.SLOTS D.SECTORS D.SECTOR_FRAMES (sector + 1)
        - sector_frame D.SLOTS D.SECTORS D.SECTOR_FRAMES sector)) }
    ensures others { SameElsewhere (unit_list D.SLOTS D.SECTORS D.SECTOR_FRAMES D.SPARES (D.state device.old).programs
        (D.state device.old).map)
        (FRAME_WORDS * sector_frame D.SLOTS D.SECTORS D.SECTOR_FRAMES sector)
        (FRAME_WORDS * (sector_frame D.SLOTS D.SECTORS D.SECTOR_FRAMES (sector + 1)
        - sector_frame D.SLOTS D.SECTORS D.SECTOR_FRAMES sector))
        (unit_list D.SLOTS D.SECTORS D.SECTOR_FRAMES D.SPARES (D.state device.new).programs (D.state device.new).map) }
    ensures work { (D.state device.new).flash.operations ≤ (D.state device.old).flash.operations + 3 }
    ensures erases { (D.state device.new).flash.erases ≤ (D.state device.old).flash.erases + 1 }
    ensures tries { TriesSpare D.SECTORS D.SPARES sector known.old.next (D.state device.old) (D.state device.new)
        result }
    ensures light { Lights (D.state device.old).flash (D.state device.new).flash result }
{
    let entry = known.next;
    known.ready = false;
    known.next += 1;
    known.absorbed += 1;
    take_spare(device, &mut known.table, sector, entry)?;
    known.ready = true;
    Ok(())
}

/// Erases a sector of the log. If it can't be erased, it is put into the next spare.
pub fn erase_unit<D: SpareUnitDevice>(
    device: &mut D,
    known: &mut SectorMap<D::Map>,
    sector: u16,
) -> Result<(), DeviceErr>
    requires lit { (D.state device.old).flash.dark ≡ false }
    requires sector { sector ≤ 2 * D.SECTORS }
    requires spares { HasSpares D.Map.entries D.SECTORS D.SPARES (D.state device.old) known.old }
    ensures spares { HasSpares D.Map.entries D.SECTORS D.SPARES (D.state device.new) known.new }
    ensures done { OnOk result (AreFilled (unit_list D.SLOTS D.SECTORS D.SECTOR_FRAMES D.SPARES
        (D.state device.new).flash.words (D.state device.new).map)
        (FRAME_WORDS * sector_frame D.SLOTS D.SECTORS D.SECTOR_FRAMES sector)
        (FRAME_WORDS * (sector_frame D.SLOTS D.SECTORS D.SECTOR_FRAMES (sector + 1)
        - sector_frame D.SLOTS D.SECTORS D.SECTOR_FRAMES sector)) BLANK) }
    ensures elsewhere { SameElsewhere (unit_list D.SLOTS D.SECTORS D.SECTOR_FRAMES D.SPARES
        (D.state device.old).flash.words (D.state device.old).map)
        (FRAME_WORDS * sector_frame D.SLOTS D.SECTORS D.SECTOR_FRAMES sector)
        (FRAME_WORDS * (sector_frame D.SLOTS D.SECTORS D.SECTOR_FRAMES (sector + 1)
        - sector_frame D.SLOTS D.SECTORS D.SECTOR_FRAMES sector))
        (unit_list D.SLOTS D.SECTORS D.SECTOR_FRAMES D.SPARES (D.state device.new).flash.words
        (D.state device.new).map) }
    ensures counted { CountsErase
        (without_spare_units D.SLOTS D.SECTORS D.SECTOR_FRAMES D.SPARES known.old.absorbed (D.state device.old))
        (without_spare_units D.SLOTS D.SECTORS D.SECTOR_FRAMES D.SPARES known.new.absorbed (D.state device.new))
        (FRAME_WORDS * sector_frame D.SLOTS D.SECTORS D.SECTOR_FRAMES sector)
        (FRAME_WORDS * (sector_frame D.SLOTS D.SECTORS D.SECTOR_FRAMES (sector + 1)
        - sector_frame D.SLOTS D.SECTORS D.SECTOR_FRAMES sector)) }
    ensures others { SameElsewhere (unit_list D.SLOTS D.SECTORS D.SECTOR_FRAMES D.SPARES (D.state device.old).programs
        (D.state device.old).map)
        (FRAME_WORDS * sector_frame D.SLOTS D.SECTORS D.SECTOR_FRAMES sector)
        (FRAME_WORDS * (sector_frame D.SLOTS D.SECTORS D.SECTOR_FRAMES (sector + 1)
        - sector_frame D.SLOTS D.SECTORS D.SECTOR_FRAMES sector))
        (unit_list D.SLOTS D.SECTORS D.SECTOR_FRAMES D.SPARES (D.state device.new).programs (D.state device.new).map) }
    ensures work { (D.state device.new).flash.operations - 3 * known.new.absorbed
        ≤ (D.state device.old).flash.operations - 3 * known.old.absorbed + 1 }
    ensures erases { (D.state device.new).flash.erases - known.new.absorbed
        ≤ (D.state device.old).flash.erases - known.old.absorbed + 1 }
    ensures light { Lights
        (without_spare_units D.SLOTS D.SECTORS D.SECTOR_FRAMES D.SPARES known.old.absorbed (D.state device.old)).flash
        (without_spare_units D.SLOTS D.SECTORS D.SECTOR_FRAMES D.SPARES known.new.absorbed (D.state device.new)).flash
        result }
    ensures chip_work { (D.state device.new).flash.operations ≤ (D.state device.old).flash.operations + 4 }
    ensures chip_erases { (D.state device.new).flash.erases ≤ (D.state device.old).flash.erases + 2 }
    ensures takes { TakesSpare D.SECTORS D.SPARES sector (D.state device.old) (D.state device.new) result }
{
    learn(device, known)?;
    match erase_frames(device, &known.table, sector) {
        Err(DeviceErr::Fault) => {}
        result => return result,
    }
    if known.next == D::SPARES {
        return Err(DeviceErr::Fault);
    }
    move_sector(device, known, sector)
}

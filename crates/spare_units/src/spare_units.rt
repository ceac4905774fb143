//! A device with program units for the log, over one that has spare sectors too.
ghost use Rattle.std.specs.Prelude.{◌≡◌, ◌<◌, ◌≤◌, ◌+◌, ◌-◌, ◌*◌, ℕ, true, false, length};
ghost use Rattle.std.specs.Prelude.{slice_index, IfOk, OnErr, OnOk};
ghost use Rattle.flash_device.specs.FlashCalls.{AreFilled, IsThere, Lights, SameElsewhere};
ghost use Rattle.flash_device.specs.declared.flash.TheConstants.{BLANK};
ghost use Rattle.spare_sectors.specs.SpareMaps.{HasSpares, TakesNone, TakesSpare};
ghost use Rattle.program_units.specs.UnitFrames.{AreUnits, IsFrameRun, IsPartRun, device_size};
ghost use Rattle.program_units.specs.UnitStates.{CountsErase};
ghost use Rattle.program_units.specs.UnitWords.{HasFreshUnits};
ghost use Rattle.program_units.specs.declared.unit_frames.TheConstants.{FRAME_WORDS};

use crate::small_spare_unit_device::SmallSpareUnitDevice;
use crate::spare_frames::first_frame_of;
use crate::spare_unit_calls::{erase_unit, program_unit, read_unit};
use crate::spare_unit_device::{SpareUnitDevice, SpareUnitSocket};
use flash_device::PageTable;
use nvm_board::DeviceErr;
use program_units::{SmallUnitDevice, UnitDevice, UnitSocket};
use spare_sectors::{MapDevice, SectorMap};

/// A device with program units over one that has spare sectors too. A sector that can't be erased is put into a spare
/// one. `UnitFlash` makes a flash of it.
#[derive(Drop)]
pub struct SpareUnits<D: SpareUnitDevice> {
    device: D,
    known: SectorMap<D::Map>,
    ghost spares: { HasSpares D.Map.entries D.SECTORS D.SPARES (D.state device) known },
}

impl<D: SpareUnitDevice> SpareUnits<D> {
    ghost use Rattle.spare_units.specs.SpareFrames.{without_spare_units};

    /// The units of a device. The first call reads the map.
    pub fn new(device: D) -> SpareUnits<D>
        ensures { ⟦<SpareUnits<D> as UnitDevice>⟧.state result
            ≡ without_spare_units D.SLOTS D.SECTORS D.SECTOR_FRAMES D.SPARES 0 (D.state device) }
    {
        SpareUnits {
            device,
            known: SectorMap {
                table: D::Map::blank(),
                next: 0,
                absorbed: 0,
                ready: false,
            },
        }
    }

    /// Gives the device back, of which the units can be made again.
    pub fn into_device(self) -> D
        ensures words { (without_spare_units D.SLOTS D.SECTORS D.SECTOR_FRAMES D.SPARES 0 (D.state result)).flash.words
            ≡ (⟦<SpareUnits<D> as UnitDevice>⟧.state self).flash.words }
        ensures programs { (without_spare_units D.SLOTS D.SECTORS D.SECTOR_FRAMES D.SPARES 0 (D.state result)).programs
            ≡ (⟦<SpareUnits<D> as UnitDevice>⟧.state self).programs }
        ensures dark { (D.state result).flash.dark ≡ (⟦<SpareUnits<D> as UnitDevice>⟧.state self).flash.dark }
        ensures fresh { (unit : ℕ) → HasFreshUnits unit (⟦<SpareUnits<D> as UnitDevice>⟧.state self)
            → HasFreshUnits unit (without_spare_units D.SLOTS D.SECTORS D.SECTOR_FRAMES D.SPARES 0 (D.state result)) }
    {
        self.device
    }
}

impl<D: SpareUnitDevice> UnitDevice for SpareUnits<D> {
    ghost use Rattle.spare_units.specs.SpareFrames.{sector_frame, without_spare_units, word_sector, word_start};
    ghost use Rattle.spare_units.specs.laws.FrameParts.{frames_fit, parts_rise};
    ghost use Rattle.spare_units.specs.laws.MovedWords.{length-moved_words, moved_words_fit};

    type Table = D::Table;

    const PAGES: u16 = D::PAGES;

    const UNIT: u32 = D::UNIT;

    const SLOTS: u16 = D::SLOTS;

    const SECTORS: u16 = D::SECTORS;

    ghost PAGES = { D.PAGES };

    ghost UNIT = { D.UNIT };

    ghost SLOTS = { D.SLOTS };

    ghost SECTORS = { D.SECTORS };

    ghost first_frame = { sector_frame D.SLOTS D.SECTORS D.SECTOR_FRAMES };

    ghost state = { λ f. without_spare_units D.SLOTS D.SECTORS D.SECTOR_FRAMES D.SPARES f.known.absorbed
        (D.state f.device) };

    fn first_frame_at(sector: u16) -> u32 {
        first_frame_of::<D>(sector)
    }

    fn read(&mut self, at: u32) -> Result<u32, DeviceErr>
        requires lit { (⟦<SpareUnits<D> as UnitDevice>⟧.state self.old).flash.dark ≡ false }
        requires within { at < device_size D.SLOTS }
        ensures word { IfOk result (λ w. w
            ≡ slice_index (⟦<SpareUnits<D> as UnitDevice>⟧.state self.old).flash.words at) }
        ensures words { (⟦<SpareUnits<D> as UnitDevice>⟧.state self.new).flash.words
            ≡ (⟦<SpareUnits<D> as UnitDevice>⟧.state self.old).flash.words }
        ensures programs { (⟦<SpareUnits<D> as UnitDevice>⟧.state self.new).programs
            ≡ (⟦<SpareUnits<D> as UnitDevice>⟧.state self.old).programs }
        ensures work { (⟦<SpareUnits<D> as UnitDevice>⟧.state self.new).flash.operations
            ≡ (⟦<SpareUnits<D> as UnitDevice>⟧.state self.old).flash.operations }
        ensures erases { (⟦<SpareUnits<D> as UnitDevice>⟧.state self.new).flash.erases
            ≡ (⟦<SpareUnits<D> as UnitDevice>⟧.state self.old).flash.erases }
        ensures kept { (⟦<SpareUnits<D> as UnitDevice>⟧.state self.new).flash.kept
            ≡ (⟦<SpareUnits<D> as UnitDevice>⟧.state self.old).flash.kept }
        ensures light { Lights (⟦<SpareUnits<D> as UnitDevice>⟧.state self.old).flash
            (⟦<SpareUnits<D> as UnitDevice>⟧.state self.new).flash result }
        // Only an erase takes a spare. Any other Fault of the device is one of the flash.
        ensures takes { TakesNone (D.state self.old.device) (D.state self.new.device) }
        ensures fault { Lights (D.state self.old.device).flash (D.state self.new.device).flash result }
        // The chip begins no operation for it.
        ensures chip_work { (D.state self.new.device).flash.operations ≡ (D.state self.old.device).flash.operations }
        ensures chip_erases { (D.state self.new.device).flash.erases ≡ (D.state self.old.device).flash.erases }
    {
        let word = read_unit(&mut self.device, &mut self.known, at)?;
        Ok(word)
    }

    fn program(&mut self, at: u32, words: &[u32]) -> Result<(), DeviceErr>
        requires lit { (⟦<SpareUnits<D> as UnitDevice>⟧.state self.old).flash.dark ≡ false }
        requires run { IsFrameRun at (length words.now) }
        requires units { AreUnits D.UNIT at (length words.now) }
        requires part { IsPartRun D.UNIT at (length words.now) }
        requires some { AreFilled words.now 0 (length words.now) BLANK → ⊥ }
        requires within { at + length words.now ≤ device_size D.SLOTS }
        requires blank { AreFilled (⟦<SpareUnits<D> as UnitDevice>⟧.state self.old).flash.words at (length words.now)
            BLANK }
        requires fresh { AreFilled (⟦<SpareUnits<D> as UnitDevice>⟧.state self.old).programs at (length words.now) 0 }
        ensures done { OnOk result (IsThere (⟦<SpareUnits<D> as UnitDevice>⟧.state self.new).flash.words at words.now) }
        ensures elsewhere { SameElsewhere (⟦<SpareUnits<D> as UnitDevice>⟧.state self.old).flash.words at
            (length words.now) (⟦<SpareUnits<D> as UnitDevice>⟧.state self.new).flash.words }
        ensures counted { OnOk result (AreFilled (⟦<SpareUnits<D> as UnitDevice>⟧.state self.new).programs at
            (length words.now) 1) }
        ensures others { SameElsewhere (⟦<SpareUnits<D> as UnitDevice>⟧.state self.old).programs at (length words.now)
            (⟦<SpareUnits<D> as UnitDevice>⟧.state self.new).programs }
        ensures failed { OnErr result ((⟦<SpareUnits<D> as UnitDevice>⟧.state self.new).programs
            ≡ (⟦<SpareUnits<D> as UnitDevice>⟧.state self.old).programs) }
        ensures work { (⟦<SpareUnits<D> as UnitDevice>⟧.state self.new).flash.operations
            ≤ (⟦<SpareUnits<D> as UnitDevice>⟧.state self.old).flash.operations + 1 }
        ensures erases { (⟦<SpareUnits<D> as UnitDevice>⟧.state self.new).flash.erases
            ≡ (⟦<SpareUnits<D> as UnitDevice>⟧.state self.old).flash.erases }
        ensures light { Lights (⟦<SpareUnits<D> as UnitDevice>⟧.state self.old).flash
            (⟦<SpareUnits<D> as UnitDevice>⟧.state self.new).flash result }
        ensures takes { TakesNone (D.state self.old.device) (D.state self.new.device) }
        ensures fault { Lights (D.state self.old.device).flash (D.state self.new.device).flash result }
        // The chip begins one operation for it, at most, and no erase.
        ensures chip_work { (D.state self.new.device).flash.operations
            ≤ (D.state self.old.device).flash.operations + 1 }
        ensures chip_erases { (D.state self.new.device).flash.erases ≡ (D.state self.old.device).flash.erases }
    {
        program_unit(&mut self.device, &mut self.known, at, words)?;
        Ok(())
    }

    fn erase(&mut self, sector: u16) -> Result<(), DeviceErr>
        requires lit { (⟦<SpareUnits<D> as UnitDevice>⟧.state self.old).flash.dark ≡ false }
        requires sector { sector ≤ 2 * D.SECTORS }
        ensures done { OnOk result (AreFilled (⟦<SpareUnits<D> as UnitDevice>⟧.state self.new).flash.words
            (FRAME_WORDS * sector_frame D.SLOTS D.SECTORS D.SECTOR_FRAMES sector)
            (FRAME_WORDS * (sector_frame D.SLOTS D.SECTORS D.SECTOR_FRAMES (sector + 1)
            - sector_frame D.SLOTS D.SECTORS D.SECTOR_FRAMES sector)) BLANK) }
        ensures elsewhere { SameElsewhere (⟦<SpareUnits<D> as UnitDevice>⟧.state self.old).flash.words
            (FRAME_WORDS * sector_frame D.SLOTS D.SECTORS D.SECTOR_FRAMES sector)
            (FRAME_WORDS * (sector_frame D.SLOTS D.SECTORS D.SECTOR_FRAMES (sector + 1)
            - sector_frame D.SLOTS D.SECTORS D.SECTOR_FRAMES sector))
            (⟦<SpareUnits<D> as UnitDevice>⟧.state self.new).flash.words }
        ensures counted { CountsErase (⟦<SpareUnits<D> as UnitDevice>⟧.state self.old)
            (⟦<SpareUnits<D> as UnitDevice>⟧.state self.new)
            (FRAME_WORDS * sector_frame D.SLOTS D.SECTORS D.SECTOR_FRAMES sector)
            (FRAME_WORDS * (sector_frame D.SLOTS D.SECTORS D.SECTOR_FRAMES (sector + 1)
            - sector_frame D.SLOTS D.SECTORS D.SECTOR_FRAMES sector)) }
        ensures others { SameElsewhere (⟦<SpareUnits<D> as UnitDevice>⟧.state self.old).programs
            (FRAME_WORDS * sector_frame D.SLOTS D.SECTORS D.SECTOR_FRAMES sector)
            (FRAME_WORDS * (sector_frame D.SLOTS D.SECTORS D.SECTOR_FRAMES (sector + 1)
            - sector_frame D.SLOTS D.SECTORS D.SECTOR_FRAMES sector))
            (⟦<SpareUnits<D> as UnitDevice>⟧.state self.new).programs }
        ensures work { (⟦<SpareUnits<D> as UnitDevice>⟧.state self.new).flash.operations
            ≤ (⟦<SpareUnits<D> as UnitDevice>⟧.state self.old).flash.operations + 1 }
        ensures erases { (⟦<SpareUnits<D> as UnitDevice>⟧.state self.new).flash.erases
            ≤ (⟦<SpareUnits<D> as UnitDevice>⟧.state self.old).flash.erases + 1 }
        ensures light { Lights (⟦<SpareUnits<D> as UnitDevice>⟧.state self.old).flash
            (⟦<SpareUnits<D> as UnitDevice>⟧.state self.new).flash result }
        // A sector that can't be erased is put into a free spare, if there is one, unless that fails too.
        ensures takes { TakesSpare D.SECTORS D.SPARES sector (D.state self.old.device) (D.state self.new.device)
            result }
        // The chip begins at most 4 operations for it: the erase where the sector lies, and for one switch to a spare
        // an erase and two programs.
        ensures chip_work { (D.state self.new.device).flash.operations
            ≤ (D.state self.old.device).flash.operations + 4 }
        ensures chip_erases { (D.state self.new.device).flash.erases ≤ (D.state self.old.device).flash.erases + 2 }
    {
        erase_unit(&mut self.device, &mut self.known, sector)?;
        Ok(())
    }

    ghost sized = { λ f. length-moved_words (word_sector D.SLOTS D.SECTORS D.SECTOR_FRAMES)
        (word_start D.SLOTS D.SECTORS D.SECTOR_FRAMES) (device_size D.SLOTS) (FRAME_WORDS * D.SECTOR_FRAMES) D.SECTORS
        D.SPARES (D.state f.device).flash.words (D.state f.device).map };

    ghost words_fit = { λ f. moved_words_fit (word_sector D.SLOTS D.SECTORS D.SECTOR_FRAMES)
        (word_start D.SLOTS D.SECTORS D.SECTOR_FRAMES) (device_size D.SLOTS) (FRAME_WORDS * D.SECTOR_FRAMES) D.SECTORS
        D.SPARES (D.state f.device).flash.words (D.state f.device).map (D.words_fit f.device) };

    ghost pages_fit = { D.pages_fit };

    ghost table_fits = { D.table_fits };

    ghost slots_fit = { D.slots_fit };

    ghost unit_fits = { D.unit_fits };

    ghost sectors_rise = { parts_rise D.SLOTS D.SECTORS D.SECTOR_FRAMES D.SPARES D.sectors_fit };

    ghost sectors_fit = { frames_fit D.SLOTS D.SECTORS D.SECTOR_FRAMES D.SPARES D.sectors_fit };
}

impl<D: SpareUnitSocket> UnitSocket for SpareUnits<D> {
    fn light(&mut self)
        ensures flash { (⟦<SpareUnits<D> as UnitDevice>⟧.state self.new).flash
            ≡ record (⟦<SpareUnits<D> as UnitDevice>⟧.state self.old).flash { dark = false } }
        ensures programs { (⟦<SpareUnits<D> as UnitDevice>⟧.state self.new).programs
            ≡ (⟦<SpareUnits<D> as UnitDevice>⟧.state self.old).programs }
        ensures takes { TakesNone (D.state self.old.device) (D.state self.new.device) }
    {
        self.device.light();
    }

    fn power_off(&mut self)
        ensures flash { (⟦<SpareUnits<D> as UnitDevice>⟧.state self.new).flash
            ≡ record (⟦<SpareUnits<D> as UnitDevice>⟧.state self.old).flash { dark = true } }
        ensures programs { (⟦<SpareUnits<D> as UnitDevice>⟧.state self.new).programs
            ≡ (⟦<SpareUnits<D> as UnitDevice>⟧.state self.old).programs }
        ensures takes { TakesNone (D.state self.old.device) (D.state self.new.device) }
    {
        self.device.power_off();
    }
}

impl<D: SmallSpareUnitDevice> SmallUnitDevice for SpareUnits<D> {
    ghost use Rattle.std.proofs.Common.{arith};
    ghost use Rattle.flash_device.specs.FlashBlocks.{steps_of};
    ghost use Rattle.flash_device.specs.declared.layout.TheConstants.{STEP_PAGES};
    ghost use Rattle.sector_moves.specs.SectorSpares.{sector_lead};
    ghost use Rattle.spare_units.specs.laws.SmallFrames.{frames_hold, frames_left};

    ghost sectors_left = { D.sectors_left };

    ghost sectors_hold = { λ turn n lt. frames_hold D.SLOTS D.SECTORS D.SECTOR_FRAMES D.SPARES D.sectors_fit
        (STEP_PAGES + 2) turn n (omega (arith, lt, D.sectors_left)) D.sectors_hold };

    ghost slots_left = { λ turn. frames_left D.SLOTS D.SECTORS D.SECTOR_FRAMES D.SPARES D.sectors_fit
        (sector_lead D.SECTORS) turn (steps_of D.PAGES) D.sectors_left D.slots_left };

    ghost copies_left = { D.copies_left };
}

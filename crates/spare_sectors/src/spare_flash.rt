//! A flash for the log over a device with spare sectors.
ghost use Rattle.std.specs.Prelude.{◌≡◌, ◌<◌, ◌≤◌, ◌+◌, ◌-◌, ◌*◌, true, false, length};
ghost use Rattle.std.specs.Prelude.{slice_index, IfOk, OnOk};
ghost use Rattle.flash_device.specs.FlashBlocks.{flash_size};
ghost use Rattle.flash_device.specs.FlashCalls.{AreFilled, IsThere, Lights, SameElsewhere};
ghost use Rattle.flash_device.specs.ProgrammedRuns.{IsProgramRun};
ghost use Rattle.flash_device.specs.declared.flash.TheConstants.{BLANK};
ghost use Rattle.spare_sectors.specs.SpareMaps.{HasSpares, TakesNone, TakesSpare};

use crate::small_spare_device::SmallSpareDevice;
use crate::spare_calls::{SectorMap, erase_at, program_at, read_at};
use crate::spare_device::{SpareDevice, SpareSocket};
use crate::spare_places::start_of;
use flash_device::{Flash, FlashSocket, PageTable};
use nvm_board::DeviceErr;
use sector_moves::SectorFlash;

/// A flash over a device with spare sectors. A sector that can't be erased is put into a spare one.
#[derive(Drop)]
pub struct SpareFlash<D: SpareDevice> {
    device: D,
    known: SectorMap<D::Map>,
    ghost spares: { HasSpares D.Map.entries D.SECTORS D.SPARES (D.state device) known },
}

impl<D: SpareDevice> SpareFlash<D> {
    ghost use Rattle.spare_sectors.specs.SpareMaps.{without_spares};
    ghost use Rattle.spare_sectors.specs.SparePlaces.{spare_words};

    /// The flash of a device. The first call reads the map.
    pub fn new(device: D) -> SpareFlash<D>
        ensures { ⟦<SpareFlash<D> as Flash>⟧.state result
            ≡ without_spares D.SLOTS D.SECTORS D.SECTOR_SLOTS D.SECTOR_WORDS D.SPARES 0 (D.state device) }
    {
        SpareFlash {
            device,
            known: SectorMap {
                table: D::Map::blank(),
                next: 0,
                absorbed: 0,
                ready: false,
            },
        }
    }

    /// Gives the device back, of which a flash can be made again.
    pub fn into_device(self) -> D
        ensures words { spare_words D.SLOTS D.SECTORS D.SECTOR_SLOTS D.SECTOR_WORDS D.SPARES
            (D.state result).flash.words (D.state result).map ≡ (⟦<SpareFlash<D> as Flash>⟧.state self).words }
        ensures dark { (D.state result).flash.dark ≡ (⟦<SpareFlash<D> as Flash>⟧.state self).dark }
    {
        self.device
    }
}

impl<D: SpareDevice> Flash for SpareFlash<D> {
    ghost use Rattle.spare_sectors.specs.SpareMaps.{without_spares};
    ghost use Rattle.spare_sectors.specs.SparePlaces.{part_start};
    ghost use Rattle.spare_sectors.specs.laws.SpareImages.{length-spare_words, spare_words_fit};
    ghost use Rattle.spare_sectors.specs.laws.SpareParts.{parts_rise, starts_fit};

    type Table = D::Table;

    const PAGES: u16 = D::PAGES;

    const SLOTS: u16 = D::SLOTS;

    const SECTORS: u16 = D::SECTORS;

    ghost PAGES = { D.PAGES };

    ghost SLOTS = { D.SLOTS };

    ghost SECTORS = { D.SECTORS };

    ghost sector_start = { part_start D.SLOTS D.SECTORS D.SECTOR_SLOTS };

    ghost state = { λ f. without_spares D.SLOTS D.SECTORS D.SECTOR_SLOTS D.SECTOR_WORDS D.SPARES f.known.absorbed
        (D.state f.device) };

    fn sector_at(sector: u16) -> u32 {
        start_of::<D>(sector)
    }

    fn read(&mut self, at: u32) -> Result<u32, DeviceErr>
        requires lit { (⟦<SpareFlash<D> as Flash>⟧.state self.old).dark ≡ false }
        requires within { at < flash_size D.SLOTS }
        ensures word { IfOk result (λ w. w ≡ slice_index (⟦<SpareFlash<D> as Flash>⟧.state self.old).words at) }
        ensures words { (⟦<SpareFlash<D> as Flash>⟧.state self.new).words
            ≡ (⟦<SpareFlash<D> as Flash>⟧.state self.old).words }
        ensures work { (⟦<SpareFlash<D> as Flash>⟧.state self.new).operations
            ≡ (⟦<SpareFlash<D> as Flash>⟧.state self.old).operations }
        ensures erases { (⟦<SpareFlash<D> as Flash>⟧.state self.new).erases
            ≡ (⟦<SpareFlash<D> as Flash>⟧.state self.old).erases }
        ensures kept { (⟦<SpareFlash<D> as Flash>⟧.state self.new).kept
            ≡ (⟦<SpareFlash<D> as Flash>⟧.state self.old).kept }
        ensures light { Lights (⟦<SpareFlash<D> as Flash>⟧.state self.old) (⟦<SpareFlash<D> as Flash>⟧.state self.new)
            result }
        // Only an erase takes a spare. Any other Fault of the device is one of the flash.
        ensures takes { TakesNone (D.state self.old.device) (D.state self.new.device) }
        ensures fault { Lights (D.state self.old.device).flash (D.state self.new.device).flash result }
        // The chip begins no operation for it.
        ensures chip_work { (D.state self.new.device).flash.operations ≡ (D.state self.old.device).flash.operations }
        ensures chip_erases { (D.state self.new.device).flash.erases ≡ (D.state self.old.device).flash.erases }
    {
        let word = read_at(&mut self.device, &mut self.known, at)?;
        Ok(word)
    }

    fn program(&mut self, at: u32, words: &[u32]) -> Result<(), DeviceErr>
        requires lit { (⟦<SpareFlash<D> as Flash>⟧.state self.old).dark ≡ false }
        requires blank { AreFilled (⟦<SpareFlash<D> as Flash>⟧.state self.old).words at (length words.now) BLANK }
        requires within { at + length words.now ≤ flash_size D.SLOTS }
        requires run { IsProgramRun D.SLOTS at (length words.now) }
        ensures done { OnOk result (IsThere (⟦<SpareFlash<D> as Flash>⟧.state self.new).words at words.now) }
        ensures elsewhere { SameElsewhere (⟦<SpareFlash<D> as Flash>⟧.state self.old).words at (length words.now)
            (⟦<SpareFlash<D> as Flash>⟧.state self.new).words }
        ensures work { (⟦<SpareFlash<D> as Flash>⟧.state self.new).operations
            ≤ (⟦<SpareFlash<D> as Flash>⟧.state self.old).operations + 1 }
        ensures erases { (⟦<SpareFlash<D> as Flash>⟧.state self.new).erases
            ≡ (⟦<SpareFlash<D> as Flash>⟧.state self.old).erases }
        ensures light { Lights (⟦<SpareFlash<D> as Flash>⟧.state self.old) (⟦<SpareFlash<D> as Flash>⟧.state self.new)
            result }
        ensures takes { TakesNone (D.state self.old.device) (D.state self.new.device) }
        ensures fault { Lights (D.state self.old.device).flash (D.state self.new.device).flash result }
        // The chip begins one operation for it, at most, and no erase.
        ensures chip_work { (D.state self.new.device).flash.operations
            ≤ (D.state self.old.device).flash.operations + 1 }
        ensures chip_erases { (D.state self.new.device).flash.erases ≡ (D.state self.old.device).flash.erases }
    {
        program_at(&mut self.device, &mut self.known, at, words)?;
        Ok(())
    }

    fn erase(&mut self, sector: u16) -> Result<(), DeviceErr>
        requires lit { (⟦<SpareFlash<D> as Flash>⟧.state self.old).dark ≡ false }
        requires sector { sector ≤ 2 * D.SECTORS }
        ensures done { OnOk result (AreFilled (⟦<SpareFlash<D> as Flash>⟧.state self.new).words
            (part_start D.SLOTS D.SECTORS D.SECTOR_SLOTS sector)
            (part_start D.SLOTS D.SECTORS D.SECTOR_SLOTS (sector + 1)
            - part_start D.SLOTS D.SECTORS D.SECTOR_SLOTS sector) BLANK) }
        ensures elsewhere { SameElsewhere (⟦<SpareFlash<D> as Flash>⟧.state self.old).words
            (part_start D.SLOTS D.SECTORS D.SECTOR_SLOTS sector)
            (part_start D.SLOTS D.SECTORS D.SECTOR_SLOTS (sector + 1)
            - part_start D.SLOTS D.SECTORS D.SECTOR_SLOTS sector)
            (⟦<SpareFlash<D> as Flash>⟧.state self.new).words }
        ensures work { (⟦<SpareFlash<D> as Flash>⟧.state self.new).operations
            ≤ (⟦<SpareFlash<D> as Flash>⟧.state self.old).operations + 1 }
        ensures erases { (⟦<SpareFlash<D> as Flash>⟧.state self.new).erases
            ≤ (⟦<SpareFlash<D> as Flash>⟧.state self.old).erases + 1 }
        ensures light { Lights (⟦<SpareFlash<D> as Flash>⟧.state self.old) (⟦<SpareFlash<D> as Flash>⟧.state self.new)
            result }
        // A sector that can't be erased is put into a free spare, if there is one, unless that fails too.
        ensures takes { TakesSpare D.SECTORS D.SPARES sector (D.state self.old.device) (D.state self.new.device)
            result }
        // The chip begins at most 4 operations for it: the erase where the sector lies, and for one switch to a spare
        // an erase and two programs.
        ensures chip_work { (D.state self.new.device).flash.operations
            ≤ (D.state self.old.device).flash.operations + 4 }
        ensures chip_erases { (D.state self.new.device).flash.erases ≤ (D.state self.old.device).flash.erases + 2 }
    {
        erase_at(&mut self.device, &mut self.known, sector)?;
        Ok(())
    }

    ghost sized = { λ f. length-spare_words D.SLOTS D.SECTORS D.SECTOR_SLOTS D.SECTOR_WORDS D.SPARES
        (D.state f.device).flash.words (D.state f.device).map };

    ghost words_fit = { λ f. spare_words_fit D.SLOTS D.SECTORS D.SECTOR_SLOTS D.SECTOR_WORDS D.SPARES
        (D.state f.device).flash.words (D.state f.device).map (D.words_fit f.device) };

    ghost pages_fit = { D.pages_fit };

    ghost table_fits = { D.table_fits };

    ghost slots_fit = { D.slots_fit };

    ghost sectors_rise = { parts_rise D.SLOTS D.SECTORS D.SECTOR_SLOTS D.SECTOR_WORDS D.SPARES D.sectors_fit };

    ghost sectors_fit = { starts_fit D.SLOTS D.SECTORS D.SECTOR_SLOTS D.SECTOR_WORDS D.SPARES D.sectors_fit };
}

impl<D: SpareSocket> FlashSocket for SpareFlash<D> {
    fn light(&mut self)
        ensures power { ⟦<SpareFlash<D> as Flash>⟧.state self.new
            ≡ record (⟦<SpareFlash<D> as Flash>⟧.state self.old) { dark = false } }
        ensures takes { TakesNone (D.state self.old.device) (D.state self.new.device) }
    {
        self.device.light();
    }

    fn power_off(&mut self)
        ensures power { ⟦<SpareFlash<D> as Flash>⟧.state self.new
            ≡ record (⟦<SpareFlash<D> as Flash>⟧.state self.old) { dark = true } }
        ensures takes { TakesNone (D.state self.old.device) (D.state self.new.device) }
    {
        self.device.power_off();
    }
}

impl<D: SmallSpareDevice> SectorFlash for SpareFlash<D> {
    ghost use Rattle.std.proofs.Common.{arith};
    ghost use Rattle.flash_device.specs.FlashBlocks.{steps_of};
    ghost use Rattle.flash_device.specs.declared.layout.TheConstants.{STEP_PAGES};
    ghost use Rattle.sector_moves.specs.SectorSpares.{sector_lead};
    ghost use Rattle.spare_sectors.specs.laws.SmallSpares.{parts_hold, parts_left};

    ghost sectors_left = { D.sectors_left };

    ghost sectors_hold = { λ turn n lt. parts_hold D.SLOTS D.SECTORS D.SECTOR_SLOTS D.SECTOR_WORDS D.SPARES
        D.sectors_fit (STEP_PAGES + 2) turn n (omega (arith, lt, D.sectors_left)) D.sectors_hold };

    ghost slots_left = { λ turn. parts_left D.SLOTS D.SECTORS D.SECTOR_SLOTS D.SECTOR_WORDS D.SPARES D.sectors_fit
        (sector_lead D.SECTORS) turn (steps_of D.PAGES) D.sectors_left D.slots_left };

    ghost copies_left = { D.copies_left };
}

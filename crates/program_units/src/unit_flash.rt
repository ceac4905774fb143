//! A flash for the log over a device with program units.
ghost use Rattle.std.specs.Prelude.{◌≡◌, ◌+◌};
ghost use Rattle.program_units.specs.UnitWords.{HasFreshUnits};

use crate::small_unit_device::SmallUnitDevice;
use crate::unit_calls::{are_blank, erase_sector, program_run, read_word};
use crate::unit_device::{UnitDevice, UnitSocket};
use crate::unit_frames::start_of;
use flash_device::{Flash, FlashSocket};
use nvm_board::DeviceErr;
use sector_moves::SectorFlash;

/// A flash over a device with program units. A record has units of its own, and so has each mark.
#[derive(Drop)]
pub struct UnitFlash<D: UnitDevice> {
    device: D,
    ghost fresh: { HasFreshUnits D.UNIT (D.state device) },
}

impl<D: UnitDevice> UnitFlash<D> {
    ghost use Rattle.program_units.specs.UnitWords.{translated};

    /// The flash of a device. No unit of it that looks blank was programmed since its erase.
    pub fn new(device: D) -> UnitFlash<D>
        requires { HasFreshUnits D.UNIT (D.state device) }
        ensures { ⟦<UnitFlash<D> as Flash>⟧.state result ≡ translated D.UNIT D.SLOTS (D.state device).flash }
    {
        UnitFlash { device }
    }

    /// Gives the device back, of which a flash can be made again.
    pub fn into_device(self) -> D
        ensures state { translated D.UNIT D.SLOTS (D.state result).flash ≡ ⟦<UnitFlash<D> as Flash>⟧.state self }
        ensures fresh { HasFreshUnits D.UNIT (D.state result) }
    {
        self.device
    }
}

impl<D: UnitDevice> Flash for UnitFlash<D> {
    ghost use Rattle.program_units.specs.UnitFrames.{frame_start};
    ghost use Rattle.program_units.specs.UnitWords.{translated};
    ghost use Rattle.program_units.specs.laws.UnitImages.{length-unit_words, unit_words_fit};
    ghost use Rattle.program_units.specs.laws.UnitPlaces.{starts_rise, starts_fit};

    type Table = D::Table;

    const PAGES: u16 = D::PAGES;

    const SLOTS: u16 = D::SLOTS;

    const SECTORS: u16 = D::SECTORS;

    ghost PAGES = { D.PAGES };

    ghost SLOTS = { D.SLOTS };

    ghost SECTORS = { D.SECTORS };

    ghost sector_start = { λ s. frame_start D.SLOTS (D.first_frame s) };

    ghost state = { λ f. translated D.UNIT D.SLOTS (D.state f.device).flash };

    fn sector_at(sector: u16) -> u32 {
        start_of::<D>(D::first_frame_at(sector))
    }

    fn read(&mut self, at: u32) -> Result<u32, DeviceErr> {
        let word = read_word(&mut self.device, at)?;
        Ok(word)
    }

    fn program(&mut self, at: u32, words: &[u32]) -> Result<(), DeviceErr> {
        // Blank words are there already, and each unit is programmed at most once.
        if are_blank(words) {
            return Ok(());
        }
        program_run(&mut self.device, at, words)?;
        Ok(())
    }

    fn erase(&mut self, sector: u16) -> Result<(), DeviceErr> {
        erase_sector(&mut self.device, sector)?;
        Ok(())
    }

    ghost sized = { λ f. length-unit_words D.UNIT D.SLOTS (D.state f.device).flash.words };

    ghost words_fit = { λ f. unit_words_fit D.UNIT D.SLOTS (D.state f.device).flash.words (D.words_fit f.device) };

    ghost pages_fit = { D.pages_fit };

    ghost table_fits = { D.table_fits };

    ghost slots_fit = { D.slots_fit };

    ghost sectors_rise = { λ s. starts_rise D.SLOTS (D.first_frame s) (D.first_frame (s + 1)) (D.sectors_rise s) };

    ghost sectors_fit = { starts_fit D.SLOTS D.SECTORS D.first_frame D.sectors_fit };
}

impl<D: UnitSocket> FlashSocket for UnitFlash<D> {
    fn light(&mut self) {
        self.device.light();
    }

    fn power_off(&mut self) {
        self.device.power_off();
    }
}

impl<D: SmallUnitDevice> SectorFlash for UnitFlash<D> {
    ghost use Rattle.flash_device.specs.declared.layout.TheConstants.{STEP_PAGES};
    ghost use Rattle.sector_moves.specs.SectorSpares.{sector_lead};
    ghost use Rattle.program_units.specs.laws.SmallUnits.{units_hold, units_left};

    ghost sectors_left = { D.sectors_left };

    ghost sectors_hold = { λ turn n lt. units_hold D.SLOTS D.SECTORS D.PAGES (sector_lead D.SECTORS) D.first_frame
        D.sectors_rise D.sectors_fit.0 D.sectors_fit.1 D.slots_left (STEP_PAGES + 2) turn n lt
        (D.sectors_hold turn n lt) };

    ghost slots_left = { units_left D.SLOTS D.SECTORS D.PAGES (sector_lead D.SECTORS) D.first_frame D.sectors_rise
        D.sectors_fit.0 D.sectors_fit.1 D.slots_left };

    ghost copies_left = { D.copies_left };
}

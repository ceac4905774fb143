//! A device with program units and spare sectors in working memory, which leaves garbage where it loses power, and in
//! a worn sector.
ghost use Rattle.std.specs.Prelude.{◌≡◌, ◌<◌, ◌≤◌, ◌*◌, length, IfOk, false};
ghost use Rattle.nvm_board.specs.Facts.{AreWords};
ghost use Rattle.flash_device.specs.PageTables.{AreFree};
ghost use Rattle.program_units.specs.UnitWords.{HasFreshUnits};
ghost use Rattle.simulated_chips.specs.declared.sim_spare_units.TheConstants.{ALL_FRAMES, ENTRY_WORDS, MAP_WORDS};
ghost use Rattle.simulated_chips.specs.declared.sim_spare_units.TheConstants.{SPARES};

use crate::sim_flash::{after_one, blank_run, garble_run, next_random, put_run};
use crate::sim_units::{count_run, used_words};
use crate::unit_sizes::UnitSize;
use flash_device::{BLANK, PageSlots};
use nvm_board::DeviceErr;
use spare_sectors::{MapDevice, SparePart};
use spare_units::{SpareUnitDevice, SpareUnitSocket};
use std::alloc::{AllocError, Global};

/// The number of words of all sectors: two in each area, the witness, and two spare ones.
const ALL_FRAMES: u32 = 143_584;

/// The number of words of a sector.
const SECTOR_SIZE: usize = 20_512;

/// The number of spare sectors.
const SPARES: u16 = 2;

/// The number of words of an entry of the map.
const ENTRY_WORDS: usize = 20;

/// The number of words of the map.
const MAP_WORDS: u32 = 40;

/// A device with program units and spare sectors in working memory. One operation loses power, and leaves garbage. So
/// does each erase of a worn sector, which fails. Words that are programmed though they are not blank, or were
/// programmed since their erase, are counted.
#[derive(Drop)]
pub struct SimSpareUnits<S: UnitSize> {
    size: S,
    words: Vec<u32>,
    programs: Vec<u32>,
    map: Vec<u32>,
    /// The words that the device should have refused.
    refused: u64,
    dark: bool,
    /// The operations until the one that loses power, that one too; or 0.
    left: u32,
    worn: [bool; 7],
    random: u64,
    faults: u64,
    operations: u64,
    erases: u64,
    /// The number of entries of the map up to the last one that a program was begun in.
    begun: u16,
    /// What failed last.
    failed: Option<SparePart>,
    ghost sized: { length words.items ≡ ALL_FRAMES },
    ghost counted: { length programs.items ≡ ALL_FRAMES },
    ghost mapped: { length map.items ≡ MAP_WORDS },
    ghost words_fit: { AreWords words.items },
    ghost free: { AreFree map.items 0 begun SPARES },
}

impl<S: UnitSize + Drop> SimSpareUnits<S> {
    ghost use Rattle.spare_units.specs.SpareFrames.{without_spare_units};
    ghost use Rattle.simulated_chips.specs.SimSpareUnitStates.{sim_spare_units_state};

    /// Returns a blank device, which leaves garbage by this seed.
    pub fn new(alloc: Global, size: S, seed: u64) -> Result<SimSpareUnits<S>, AllocError>
        ensures lit { IfOk result (λ f. (sim_spare_units_state f).flash.dark ≡ false) }
        ensures fresh { IfOk result (λ f. HasFreshUnits S.WORDS
            (without_spare_units 1280 2 641 2 0 (sim_spare_units_state f))) }
    {
        Ok(SimSpareUnits {
            size,
            words: vec![in alloc; BLANK; ALL_FRAMES as usize]?,
            programs: vec![in alloc; 0; ALL_FRAMES as usize]?,
            map: vec![in alloc; BLANK; MAP_WORDS as usize]?,
            refused: 0,
            dark: false,
            left: 0,
            worn: [false; 7],
            random: next_random(seed),
            faults: 0,
            operations: 0,
            erases: 0,
            begun: 0,
            failed: None,
        })
    }

    /// Sets operation k from now on, counted from 1, to lose power. 0 sets none.
    pub fn set(&mut self, k: u32)
        ensures words { (sim_spare_units_state self.new).flash.words ≡ (sim_spare_units_state self.old).flash.words }
        ensures programs { (sim_spare_units_state self.new).programs ≡ (sim_spare_units_state self.old).programs }
        ensures map { (sim_spare_units_state self.new).map ≡ (sim_spare_units_state self.old).map }
    {
        self.left = k;
    }

    /// Wears a sector out.
    pub fn wear(&mut self, sector: u16)
        requires { sector < 7 }
        ensures words { (sim_spare_units_state self.new).flash.words ≡ (sim_spare_units_state self.old).flash.words }
        ensures programs { (sim_spare_units_state self.new).programs ≡ (sim_spare_units_state self.old).programs }
        ensures map { (sim_spare_units_state self.new).map ≡ (sim_spare_units_state self.old).map }
    {
        self.worn[usize::from(sector)] = true;
    }

    /// Returns the number of words that the device should have refused.
    pub fn refused(&self) -> u64
        ensures { result ≡ self.now.refused }
    {
        self.refused
    }
}

impl<S: UnitSize + Drop> MapDevice for SimSpareUnits<S> {
    ghost use Rattle.simulated_chips.specs.SimSpareUnitStates.{sim_spare_units_state};
    ghost use Rattle.std.proofs.Common.{lit<};

    type Map = PageSlots<5>;

    const SECTORS: u16 = 2;

    const SPARES: u16 = SPARES;

    ghost SECTORS = { 2 };

    ghost SPARES = { 2 };

    ghost state = { sim_spare_units_state };

    fn read_map(&mut self, at: u32) -> Result<u32, DeviceErr> {
        Ok(self.map[at as usize])
    }

    fn program_map(&mut self, at: u32, words: &[u32]) -> Result<(), DeviceErr> {
        self.operations = self.operations.saturating_add(1);
        self.random = next_random(self.random);
        let end = ((at as usize + words.len() + ENTRY_WORDS - 1) / ENTRY_WORDS) as u16;
        self.begun = self.begun.max(end);
        if self.left == 1 {
            self.left = 0;
            garble_run(&mut self.map, at as usize, words.len(), words, self.random);
            self.dark = true;
            return Err(DeviceErr::PowerLost);
        }
        self.left = after_one(false, self.left);
        put_run(&mut self.map, at as usize, words);
        Ok(())
    }

    ghost unbegun = { λ f. f.free };

    ghost numbers_fit = { lit< tt };

    ghost map_fits = { λ t. t.sized };
}

impl<S: UnitSize + Drop> SpareUnitDevice for SimSpareUnits<S> {
    ghost use Rattle.std.proofs.Common.{lit<, lit≤, refl};

    type Table = PageSlots<1024>;

    const PAGES: u16 = 1024;

    const UNIT: u32 = S::WORDS;

    const SLOTS: u16 = 1280;

    const SECTOR_FRAMES: u16 = 641;

    ghost PAGES = { 1024 };

    ghost UNIT = { S.WORDS };

    ghost SLOTS = { 1280 };

    ghost SECTOR_FRAMES = { 641 };

    fn read(&mut self, at: u32) -> Result<u32, DeviceErr> {
        Ok(self.words[at as usize])
    }

    fn program(&mut self, at: u32, words: &[u32]) -> Result<(), DeviceErr> {
        let at = at as usize;
        let used = used_words(&self.words, &self.programs, at, words.len());
        self.refused = self.refused.saturating_add(used);
        self.operations = self.operations.saturating_add(1);
        self.random = next_random(self.random);
        if self.left == 1 {
            self.left = 0;
            garble_run(&mut self.words, at, words.len(), words, self.random);
            self.dark = true;
            return Err(DeviceErr::PowerLost);
        }
        self.left = after_one(false, self.left);
        put_run(&mut self.words, at, words);
        count_run(&mut self.programs, at, words.len(), 1);
        Ok(())
    }

    fn erase(&mut self, sector: u16) -> Result<(), DeviceErr> {
        self.erases = self.erases.saturating_add(1);
        self.operations = self.operations.saturating_add(1);
        self.random = next_random(self.random);
        let at = SECTOR_SIZE * usize::from(sector);
        count_run(&mut self.programs, at, SECTOR_SIZE, 0);
        if self.left == 1 {
            self.left = 0;
            garble_run(&mut self.words, at, SECTOR_SIZE, &[], self.random);
            self.dark = true;
            return Err(DeviceErr::PowerLost);
        }
        self.left = after_one(false, self.left);
        if self.worn[usize::from(sector)] && self.faults < u64::MAX {
            garble_run(&mut self.words, at, SECTOR_SIZE, &[], self.random);
            self.faults += 1;
            self.failed = Some(SparePart::Sector(sector));
            return Err(DeviceErr::Fault);
        }
        blank_run(&mut self.words, at, SECTOR_SIZE);
        Ok(())
    }

    ghost words_fit = { λ f. f.words_fit };

    ghost pages_fit = { (lit≤ tt, lit≤ tt, refl) };

    ghost table_fits = { λ t. t.sized };

    ghost slots_fit = { (lit< tt, lit< tt) };

    ghost unit_fits = { S.fits };

    ghost sectors_fit = { record {
      some = lit< tt;
      few = lit< tt;
      frame = lit< tt;
      last = lit≤ tt;
      rest = lit≤ tt;
      numbers = lit< tt;
      places = lit< tt;
    } };
}

impl<S: UnitSize + Drop> SpareUnitSocket for SimSpareUnits<S> {
    fn light(&mut self) {
        self.dark = false;
    }

    fn power_off(&mut self) {
        self.dark = true;
    }
}

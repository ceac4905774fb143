//! A flash in working memory whose board has 4,096 pages. It leaves garbage where it loses power.
ghost use Rattle.std.specs.Prelude.{◌≡◌, ◌+◌, ◌-◌, ◌*◌, ◌≤◌, ◌<◌, length, is_some, None, IfOk, true, false};
ghost use Rattle.nvm_board.specs.Facts.{AreWords};
ghost use Rattle.simulated_chips.specs.WideSectorParts.{wide_sector};
ghost use Rattle.simulated_chips.specs.declared.wide_flash.TheConstants.{ALL_WORDS};

use crate::sim_flash::{blank_run, garble_run, next_random, put_run};
use flash_device::{BLANK, Flash, FlashSocket, PageSlots};
use nvm_board::DeviceErr;
use std::alloc::{AllocError, Global};

/// The number of words of an area.
const AREA_WORDS: u32 = 96_002;

/// The number of words of the flash.
const ALL_WORDS: u32 = 192_006;

/// A flash in working memory, which never fails. One operation can be set to lose power, and leaves garbage.
#[derive(Drop)]
pub struct WideFlash {
    words: Vec<u32>,
    dark: bool,
    /// The operations before the one that is set to lose power.
    cut: Option<u32>,
    random: u64,
    operations: u64,
    erases: u64,
    ghost sized: { length words.items ≡ ALL_WORDS },
    ghost words_fit: { AreWords words.items },
}

impl WideFlash {
    ghost use Rattle.simulated_chips.specs.WideStates.{wide_state};

    /// Returns a powered blank flash, which leaves garbage by this seed.
    pub fn new(alloc: Global, seed: u64) -> Result<WideFlash, AllocError>
        ensures { IfOk result (λ f. (wide_state f).dark ≡ false) }
    {
        Ok(WideFlash {
            words: vec![in alloc; BLANK; ALL_WORDS as usize]?,
            dark: false,
            cut: None,
            random: next_random(seed),
            operations: 0,
            erases: 0,
        })
    }

    /// Sets the operation behind this number of others to lose power.
    pub fn set(&mut self, before: u32)
        ensures words { (wide_state self.new).words ≡ (wide_state self.old).words }
        ensures lit { (wide_state self.new).dark ≡ (wide_state self.old).dark }
    {
        self.cut = Some(before);
    }

    /// Returns true if a power loss is set that is still to come.
    pub fn is_set(&self) -> bool
        ensures { result ≡ is_some self.now.cut }
    {
        self.cut.is_some()
    }

    /// Returns the number of programs and erases that were begun.
    pub fn operations(&self) -> u64
        ensures { result ≡ (wide_state self.now).operations }
    {
        self.operations
    }

    /// Returns the number of erases that were begun.
    pub fn erases(&self) -> u64
        ensures { result ≡ (wide_state self.now).erases }
    {
        self.erases
    }

    /// Begins an operation. Returns true if power is to be lost in it.
    fn begin(&mut self) -> bool
        ensures words { self.new.words ≡ self.old.words }
        ensures power { self.new.dark ≡ self.old.dark }
        ensures lost { result ≡ true → (is_some self.old.cut ≡ true) × (self.new.cut ≡ None) }
        ensures spared { result ≡ false → is_some self.new.cut ≡ is_some self.old.cut }
        ensures work { self.new.operations ≤ self.old.operations + 1 }
        ensures erases { self.new.erases ≡ self.old.erases }
    {
        self.operations = self.operations.saturating_add(1);
        self.random = next_random(self.random);
        match self.cut {
            Some(0) => {
                self.cut = None;
                true
            }
            Some(before) => {
                self.cut = Some(before - 1);
                false
            }
            None => false,
        }
    }
}

impl Flash for WideFlash {
    ghost use Rattle.simulated_chips.specs.WideSectorParts.{wide_sector, wide_sectors_rise};
    ghost use Rattle.simulated_chips.specs.WideStates.{wide_state};
    ghost use Rattle.std.proofs.Common.{lit<, lit≤, refl};

    type Table = PageSlots<4096>;

    const PAGES: u16 = 4096;

    const SLOTS: u16 = 4800;

    const SECTORS: u16 = 1;

    ghost PAGES = { 4096 };

    ghost SLOTS = { 4800 };

    ghost SECTORS = { 1 };

    ghost sector_start = { wide_sector };

    ghost state = { wide_state };

    fn sector_at(sector: u16) -> u32 {
        if sector <= 2 {
            AREA_WORDS * u32::from(sector)
        } else {
            ALL_WORDS
        }
    }

    fn read(&mut self, at: u32) -> Result<u32, DeviceErr> {
        Ok(self.words[at as usize])
    }

    fn program(&mut self, at: u32, words: &[u32]) -> Result<(), DeviceErr> {
        let at = at as usize;
        if self.begin() {
            garble_run(&mut self.words, at, words.len(), words, self.random);
            self.dark = true;
            return Err(DeviceErr::PowerLost);
        }
        put_run(&mut self.words, at, words);
        Ok(())
    }

    fn erase(&mut self, sector: u16) -> Result<(), DeviceErr> {
        self.erases = self.erases.saturating_add(1);
        let at = start_of(sector);
        let size = start_of(sector + 1) - at;
        if self.begin() {
            garble_run(&mut self.words, at, size, &[], self.random);
            self.dark = true;
            return Err(DeviceErr::PowerLost);
        }
        blank_run(&mut self.words, at, size);
        Ok(())
    }

    ghost sized = { λ f. f.sized };

    ghost words_fit = { λ f. f.words_fit };

    ghost pages_fit = { (lit≤ tt, lit≤ tt, refl) };

    ghost table_fits = { λ t. t.sized };

    ghost slots_fit = { (lit< tt, lit< tt) };

    ghost sectors_rise = { wide_sectors_rise };

    ghost sectors_fit = { (refl, refl, refl, refl, lit< tt, lit< tt) };
}

impl FlashSocket for WideFlash {
    fn light(&mut self) {
        self.dark = false;
    }

    fn power_off(&mut self) {
        self.dark = true;
    }
}

/// Returns the address of a sector.
fn start_of(sector: u16) -> usize
    requires { sector ≤ 3 }
    ensures is { result ≡ wide_sector sector }
    ensures most { result ≤ ALL_WORDS }
{
    WideFlash::sector_at(sector) as usize
}

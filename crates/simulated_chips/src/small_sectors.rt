//! A flash in working memory with small sectors. It leaves garbage where it loses power or fails.
ghost use Rattle.std.specs.Prelude.{◌≡◌, ◌≢◌, ◌+◌, ◌-◌, ◌*◌, ◌≤◌, ◌<◌, length, IfOk, true, false};
ghost use Rattle.nvm_board.specs.Facts.{AreWords};
ghost use Rattle.simulated_chips.specs.SmallSectorParts.{small_sector};
ghost use Rattle.simulated_chips.specs.declared.small_sectors.TheConstants.{SMALL_FLASH_WORDS};

use crate::sim_flash::{blank_run, garble_run, next_random, put_run};
use flash_device::{BLANK, Flash, FlashSocket, PageSlots};
use nvm_board::DeviceErr;
use sector_moves::SectorFlash;
use std::alloc::{AllocError, Global};

/// The number of slots of an area.
const SLOTS: u16 = 2048;

/// The number of sectors of an area.
const SECTORS: u16 = 80;

/// The number of words of an area. Its last sector is two words longer than the others.
const AREA_WORDS: u32 = 40_962;

/// The number of words of a sector.
const SECTOR_WORDS: u32 = 512;

/// The number of words of the flash.
const SMALL_FLASH_WORDS: u32 = 81_926;

/// A flash in working memory with 80 small sectors in each area. Operations lose power or fail where they are set to,
/// and leave garbage.
#[derive(Drop)]
pub struct SmallSectorFlash {
    words: Vec<u32>,
    dark: bool,
    /// The operations until the one that loses power or fails, that one too; or 0.
    left: u32,
    /// Whether it fails.
    fails: bool,
    /// The operations from one that fails until the next; or 0.
    again: u32,
    /// Only operations at addresses from this one on are counted.
    from: u32,
    /// They lie before this one.
    end: u32,
    random: u64,
    faults: u64,
    operations: u64,
    erases: u64,
    /// The sector whose erase was begun last.
    erased: u16,
    reads: u64,
    /// The words that were programmed though they were not blank, and the calls without power.
    refused: u64,
    ghost sized: { length words.items ≡ SMALL_FLASH_WORDS },
    ghost words_fit: { AreWords words.items },
}

/// Returns the number of words of a run that are not blank.
fn used_words(words: &[u32], at: usize, size: usize) -> u64
    requires { at + size ≤ length words.now }
{
    let mut used: u64 = 0;
    for k in 0..size {
        if words[at + k] != BLANK {
            used = used.saturating_add(1);
        }
    }
    used
}

/// The first word of a sector.
fn start(sector: u16) -> usize
    requires { sector ≤ 161 }
    ensures { result ≡ small_sector sector }
{
    SmallSectorFlash::sector_at(sector) as usize
}

/// The number of words of a sector.
fn size(sector: u16) -> usize
    requires { sector ≤ 160 }
    ensures is { result ≡ small_sector (sector + 1) - small_sector sector }
    ensures fits { small_sector sector + result ≤ SMALL_FLASH_WORDS }
{
    start(sector + 1) - start(sector)
}

impl SmallSectorFlash {
    ghost use Rattle.flash_device.specs.FlashCalls.{Lights};
    ghost use Rattle.simulated_chips.specs.SmallStates.{small_state};

    /// Returns a blank flash, which leaves garbage by this seed.
    pub fn new(alloc: Global, seed: u64) -> Result<SmallSectorFlash, AllocError>
        ensures { IfOk result (λ f. (small_state f).dark ≡ false) }
    {
        Ok(SmallSectorFlash {
            words: vec![in alloc; BLANK; SMALL_FLASH_WORDS as usize]?,
            dark: false,
            left: 0,
            fails: false,
            again: 0,
            from: 0,
            end: SMALL_FLASH_WORDS,
            random: next_random(seed),
            faults: 0,
            operations: 0,
            erases: 0,
            erased: 0,
            reads: 0,
            refused: 0,
        })
    }

    /// Sets operation k from now on, counted from 1, to lose power, or to fail. 0 sets none.
    pub fn set(&mut self, k: u32, fails: bool)
        ensures words { (small_state self.new).words ≡ (small_state self.old).words }
        ensures lit { (small_state self.new).dark ≡ (small_state self.old).dark }
    {
        self.set_within(k, fails, 0, SMALL_FLASH_WORDS);
    }

    /// Sets operation k from now on at addresses from one on, before another.
    pub fn set_within(&mut self, k: u32, fails: bool, from: u32, end: u32)
        ensures words { (small_state self.new).words ≡ (small_state self.old).words }
        ensures lit { (small_state self.new).dark ≡ (small_state self.old).dark }
    {
        self.left = k;
        self.fails = fails;
        self.again = 0;
        self.from = from;
        self.end = end;
    }

    /// Sets an operation to fail so many behind each that fails. 0 sets none.
    pub fn set_again(&mut self, again: u32)
        ensures words { (small_state self.new).words ≡ (small_state self.old).words }
        ensures lit { (small_state self.new).dark ≡ (small_state self.old).dark }
    {
        self.again = again;
    }

    /// Returns the number of programs and erases that were begun.
    pub fn operations(&self) -> u64
        ensures { result ≡ (small_state self.now).operations }
    {
        self.operations
    }

    /// Returns the number of erases that were begun.
    pub fn erases(&self) -> u64
        ensures { result ≡ (small_state self.now).erases }
    {
        self.erases
    }

    /// Returns the sector whose erase was begun last.
    pub fn erased(&self) -> u16
        ensures { result ≡ self.now.erased }
    {
        self.erased
    }

    /// Returns the number of faults.
    pub fn faults(&self) -> u64
        ensures { result ≡ (small_state self.now).faults }
    {
        self.faults
    }

    /// Returns the number of words that were read.
    pub fn reads(&self) -> u64
        ensures { result ≡ self.now.reads }
    {
        self.reads
    }

    /// Returns the number of words that were programmed though they were not blank, and of the calls without power.
    pub fn refused(&self) -> u64
        ensures { result ≡ self.now.refused }
    {
        self.refused
    }

    /// Begins an operation at an address. An error is what it meets.
    fn begin(&mut self, at: u32) -> Result<(), DeviceErr>
        requires { self.old.dark ≡ false }
        ensures words { self.new.words ≡ self.old.words }
        ensures work { self.new.operations ≤ self.old.operations + 1 }
        ensures erases { self.new.erases ≡ self.old.erases }
        ensures light { Lights (small_state self.old) (small_state self.new) result }
    {
        self.operations = self.operations.saturating_add(1);
        self.refused = self.refused.saturating_add(u64::from(self.dark));
        self.random = next_random(self.random);
        if at < self.from || at >= self.end || self.left == 0 {
            return Ok(());
        }
        self.left -= 1;
        if self.left > 0 {
            return Ok(());
        }
        if !self.fails {
            self.dark = true;
            return Err(DeviceErr::PowerLost);
        }
        self.left = self.again;
        if self.faults == u64::MAX {
            return Ok(());
        }
        self.faults += 1;
        Err(DeviceErr::Fault)
    }
}

impl Flash for SmallSectorFlash {
    ghost use Rattle.simulated_chips.specs.SmallSectorParts.{small_sector, small_sectors_rise};
    ghost use Rattle.simulated_chips.specs.SmallStates.{small_state};
    ghost use Rattle.std.proofs.Common.{lit<, lit≤, refl};

    type Table = PageSlots<1024>;

    const PAGES: u16 = 1024;

    const SLOTS: u16 = SLOTS;

    const SECTORS: u16 = SECTORS;

    ghost PAGES = { 1024 };

    ghost SLOTS = { 2048 };

    ghost SECTORS = { 80 };

    ghost sector_start = { small_sector };

    ghost state = { small_state };

    fn sector_at(sector: u16) -> u32 {
        if sector < SECTORS {
            return SECTOR_WORDS * u32::from(sector);
        }
        if sector < 2 * SECTORS {
            return AREA_WORDS + SECTOR_WORDS * u32::from(sector - SECTORS);
        }
        if sector == 2 * SECTORS {
            return 2 * AREA_WORDS;
        }
        SMALL_FLASH_WORDS
    }

    fn read(&mut self, at: u32) -> Result<u32, DeviceErr> {
        self.reads = self.reads.saturating_add(1);
        self.refused = self.refused.saturating_add(u64::from(self.dark));
        Ok(self.words[at as usize])
    }

    fn program(&mut self, at: u32, words: &[u32]) -> Result<(), DeviceErr> {
        let from = at as usize;
        let used = used_words(&self.words, from, words.len());
        self.refused = self.refused.saturating_add(used);
        if let Err(err) = self.begin(at) {
            garble_run(&mut self.words, from, words.len(), words, self.random);
            return Err(err);
        }
        put_run(&mut self.words, from, words);
        Ok(())
    }

    fn erase(&mut self, sector: u16) -> Result<(), DeviceErr> {
        self.erases = self.erases.saturating_add(1);
        self.erased = sector;
        let from = start(sector);
        if let Err(err) = self.begin(from as u32) {
            garble_run(&mut self.words, from, size(sector), &[], self.random);
            return Err(err);
        }
        blank_run(&mut self.words, from, size(sector));
        Ok(())
    }

    ghost sized = { λ f. f.sized };

    ghost words_fit = { λ f. f.words_fit };

    ghost pages_fit = { (lit≤ tt, lit≤ tt, refl) };

    ghost table_fits = { λ t. t.sized };

    ghost slots_fit = { (lit< tt, lit< tt) };

    ghost sectors_rise = { small_sectors_rise };

    ghost sectors_fit = { (refl, refl, refl, refl, lit< tt, lit< tt) };
}

impl FlashSocket for SmallSectorFlash {
    fn light(&mut self) {
        self.dark = false;
    }

    fn power_off(&mut self) {
        self.dark = true;
    }
}

impl SectorFlash for SmallSectorFlash {
    ghost use Rattle.simulated_chips.specs.SmallSectorParts.{small_sectors_hold, small_slots_left};
    ghost use Rattle.std.proofs.Common.{lit<, lit≤};

    ghost sectors_left = { lit< tt };

    ghost sectors_hold = { small_sectors_hold };

    ghost slots_left = { small_slots_left };

    ghost copies_left = { lit≤ tt };
}

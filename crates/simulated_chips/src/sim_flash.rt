//! A flash in working memory that leaves garbage where it loses power or fails.
ghost use Rattle.std.specs.Prelude.{◌≡◌, ◌≢◌, ◌+◌, ◌-◌, ◌*◌, ◌≤◌, ◌<◌, ◌↔◌, length, true, false};
ghost use Rattle.std.specs.Prelude.{Contains, IfOk, IsTrue};
ghost use Rattle.nvm_board.specs.Facts.{AreWords};
ghost use Rattle.flash_device.specs.FlashCalls.{SameElsewhere, IsThere, AreFilled};
ghost use Rattle.simulated_chips.specs.SimSectorParts.{sim_sector};
ghost use Rattle.simulated_chips.specs.declared.sim_flash.TheConstants.{FLASH_WORDS};
ghost use Rattle.simulated_chips.specs.SimCuts.{cuts_set};

use flash_device::{BLANK, Flash, FlashSocket, PageSlots};
use nvm_board::DeviceErr;
use std::alloc::{AllocError, Global};

/// The number of slots of an area.
const SLOTS: u16 = 1280;

/// The number of sectors of an area.
const SECTORS: u16 = 2;

/// The number of words of the flash.
const FLASH_WORDS: u32 = 51206;

/// The words of a mark.
const MARK: [u32; 2] = [0x436F_6D6D, 0x6974_7321];

/// A flash in working memory. One operation loses power or fails, and leaves garbage. One slot can be stuck: a program
/// there fails, and leaves it blank.
#[derive(Drop)]
pub struct SimFlash {
    words: Vec<u32>,
    dark: bool,
    /// The operations until the one that loses power or fails, that one too; or 0.
    left: u32,
    /// Whether it fails.
    fails: bool,
    /// The address of the stuck slot; or the number of words.
    stuck: u32,
    random: u64,
    faults: u64,
    operations: u64,
    erases: u64,
    ghost sized: { length words.items ≡ FLASH_WORDS },
    ghost words_fit: { AreWords words.items },
}

/// Puts a run into words.
pub(crate) fn put_run(words: &mut Vec<u32>, at: usize, run: &[u32])
    requires { at + length run.now ≤ length words.old.items }
    ensures size { length words.new.items ≡ length words.old.items }
    ensures there { IsThere words.new.items at run.now }
    ensures elsewhere { SameElsewhere words.old.items at (length run.now) words.new.items }
    ensures fits { AreWords words.old.items → AreWords words.new.items }
{
    for k in 0..run.len() {
        words[at + k] = run[k];
    }
}

/// Makes words blank.
pub(crate) fn blank_run(words: &mut Vec<u32>, at: usize, size: usize)
    requires { at + size ≤ length words.old.items }
    ensures size { length words.new.items ≡ length words.old.items }
    ensures all { AreFilled words.new.items at size BLANK }
    ensures elsewhere { SameElsewhere words.old.items at size words.new.items }
    ensures fits { AreWords words.old.items → AreWords words.new.items }
{
    for k in 0..size {
        words[at + k] = BLANK;
    }
}

/// Returns the next random number.
pub(crate) fn next_random(random: u64) -> u64 {
    random
        .wrapping_mul(6_364_136_223_846_793_005)
        .wrapping_add(1_442_695_040_888_963_407)
}

/// Returns a word in place k of a run, which was old and was to be new, in one of eight kinds of garbage.
fn garbage(random: u64, kind: u64, k: usize, old: u32, new: u32) -> u32 {
    let noise = (random >> 32) as u32;
    match kind {
        0 => noise,
        1 => old,
        2 => new,
        3 => old & (new | noise),
        4 if noise % 2 == 0 => old,
        4 => new,
        5 => MARK[k % 2],
        6 => BLANK,
        // A run of whole slots, with other words.
        _ => match k % 20 {
            16 => noise % 1024,
            18 => MARK[0],
            19 => MARK[1],
            _ => noise,
        },
    }
}

/// Leaves garbage in words that were to be those of a run, and behind it blank.
pub(crate) fn garble_run(words: &mut Vec<u32>, at: usize, size: usize, run: &[u32], random: u64)
    requires { at + size ≤ length words.old.items }
    ensures size { length words.new.items ≡ length words.old.items }
    ensures elsewhere { SameElsewhere words.old.items at size words.new.items }
    ensures fits { AreWords words.old.items → AreWords words.new.items }
{
    let kind = (random >> 40) % 8;
    let mut random = random;
    for k in 0..size {
        random = next_random(random);
        let new = if k < run.len() { run[k] } else { BLANK };
        words[at + k] = garbage(random, kind, k, words[at + k], new);
    }
}

/// Returns the operations that are left behind one that doesn't lose power.
pub(crate) fn after_one(fails: bool, left: u32) -> u32
    requires { left ≡ 1 → fails ≡ true }
    ensures { cuts_set fails result ≡ cuts_set fails left }
{
    left.saturating_sub(1)
}

/// The first word of a sector.
fn start(sector: u16) -> usize
    requires { sector ≤ 5 }
    ensures { result ≡ sim_sector sector }
{
    SimFlash::sector_at(sector) as usize
}

/// The number of words of a sector.
fn size(sector: u16) -> usize
    requires { sector ≤ 4 }
    ensures is { result ≡ sim_sector (sector + 1) - sim_sector sector }
    ensures fits { sim_sector sector + result ≤ FLASH_WORDS }
{
    start(sector + 1) - start(sector)
}

impl SimFlash {
    ghost use Rattle.simulated_chips.specs.SimStates.{sim_state};

    /// Returns a blank flash, which leaves garbage by this seed.
    pub fn new(alloc: Global, seed: u64) -> Result<SimFlash, AllocError>
        ensures { IfOk result (λ f. (sim_state f).dark ≡ false) }
    {
        Ok(SimFlash {
            words: vec![in alloc; BLANK; FLASH_WORDS as usize]?,
            dark: false,
            left: 0,
            fails: false,
            stuck: FLASH_WORDS,
            random: next_random(seed),
            faults: 0,
            operations: 0,
            erases: 0,
        })
    }

    /// Sets operation k from now on, counted from 1, to lose power, or to fail. 0 sets none.
    pub fn set(&mut self, k: u32, fails: bool)
        ensures words { (sim_state self.new).words ≡ (sim_state self.old).words }
        ensures lit { (sim_state self.new).dark ≡ (sim_state self.old).dark }
    {
        self.left = k;
        self.fails = fails;
    }

    /// Makes the slot at an address stuck.
    pub fn stick(&mut self, at: u32)
        ensures words { (sim_state self.new).words ≡ (sim_state self.old).words }
        ensures lit { (sim_state self.new).dark ≡ (sim_state self.old).dark }
    {
        self.stuck = at;
    }

    /// Returns the number of programs and erases that were begun.
    pub fn operations(&self) -> u64
        ensures { result ≡ (sim_state self.now).operations }
    {
        self.operations
    }

    /// Returns the number of faults.
    pub fn faults(&self) -> u64
        ensures { result ≡ (sim_state self.now).faults }
    {
        self.faults
    }

    /// Returns true if one of the words of the flash itself is this one.
    pub fn has_word(&self, word: u32) -> bool
        ensures { IsTrue result ↔ Contains (sim_state self.now).words word }
    {
        self.words.contains(&word)
    }

    /// Returns true if an address is in the stuck slot.
    fn is_stuck(&self, at: u32) -> bool {
        at >= self.stuck && at - self.stuck < 20
    }
}

impl Flash for SimFlash {
    ghost use Rattle.simulated_chips.specs.SimSectorParts.{sim_sector, sim_sectors_rise};
    ghost use Rattle.simulated_chips.specs.SimStates.{sim_state};
    ghost use Rattle.std.proofs.Common.{lit<, lit≤, refl};

    type Table = PageSlots<1024>;

    const PAGES: u16 = 1024;

    const SLOTS: u16 = SLOTS;

    const SECTORS: u16 = SECTORS;

    ghost PAGES = { 1024 };

    ghost SLOTS = { 1280 };

    ghost SECTORS = { 2 };

    ghost sector_start = { sim_sector };

    ghost state = { sim_state };

    fn sector_at(sector: u16) -> u32 {
        if sector <= 2 * SECTORS {
            12801 * u32::from(sector)
        } else {
            FLASH_WORDS
        }
    }

    fn read(&mut self, at: u32) -> Result<u32, DeviceErr> {
        Ok(self.words[at as usize])
    }

    fn program(&mut self, at: u32, words: &[u32]) -> Result<(), DeviceErr> {
        self.operations = self.operations.saturating_add(1);
        self.random = next_random(self.random);
        let stops = self.left == 1;
        if stops && !self.fails {
            self.left = 0;
            garble_run(
                &mut self.words,
                at as usize,
                words.len(),
                words,
                self.random,
            );
            self.dark = true;
            return Err(DeviceErr::PowerLost);
        }
        self.left = after_one(self.fails, self.left);
        if self.faults < u64::MAX && (stops || self.is_stuck(at)) {
            if stops {
                garble_run(
                    &mut self.words,
                    at as usize,
                    words.len(),
                    words,
                    self.random,
                );
            }
            self.faults += 1;
            return Err(DeviceErr::Fault);
        }
        put_run(&mut self.words, at as usize, words);
        Ok(())
    }

    fn erase(&mut self, sector: u16) -> Result<(), DeviceErr> {
        self.erases = self.erases.saturating_add(1);
        self.operations = self.operations.saturating_add(1);
        self.random = next_random(self.random);
        let stops = self.left == 1;
        if stops && !self.fails {
            self.left = 0;
            garble_run(
                &mut self.words,
                start(sector),
                size(sector),
                &[],
                self.random,
            );
            self.dark = true;
            return Err(DeviceErr::PowerLost);
        }
        self.left = after_one(self.fails, self.left);
        if stops && self.faults < u64::MAX {
            garble_run(
                &mut self.words,
                start(sector),
                size(sector),
                &[],
                self.random,
            );
            self.faults += 1;
            return Err(DeviceErr::Fault);
        }
        blank_run(&mut self.words, start(sector), size(sector));
        Ok(())
    }

    ghost sized = { λ f. f.sized };

    ghost words_fit = { λ f. f.words_fit };

    ghost pages_fit = { (lit≤ tt, lit≤ tt, refl) };

    ghost table_fits = { λ t. t.sized };

    ghost slots_fit = { (lit< tt, lit< tt) };

    ghost sectors_rise = { sim_sectors_rise };

    ghost sectors_fit = { (refl, refl, refl, refl, lit< tt, lit< tt) };
}

impl FlashSocket for SimFlash {
    fn light(&mut self) {
        self.dark = false;
    }

    fn power_off(&mut self) {
        self.dark = true;
    }
}

//! A device with program units in working memory, which leaves garbage where it loses power or fails.
ghost use Rattle.std.specs.Prelude.{◌≡◌, ◌+◌, ◌-◌, ◌*◌, ◌<◌, ◌≤◌, length, IfOk, true, false};
ghost use Rattle.nvm_board.specs.Facts.{AreWords};
ghost use Rattle.flash_device.specs.FlashCalls.{AreFilled, SameElsewhere};
ghost use Rattle.program_units.specs.UnitWords.{HasFreshUnits};
ghost use Rattle.simulated_chips.specs.UsedWordParts.{used_at, used_in};
ghost use Rattle.program_units.specs.UnitFrames.{device_size, frame_count};
ghost use Rattle.program_units.specs.declared.unit_frames.TheConstants.{FRAME_WORDS};

use crate::sim_flash::{after_one, blank_run, garble_run, next_random, put_run};
use crate::unit_sectors::{SmallSectors, UnitSectors};
use crate::unit_sizes::UnitSize;
use flash_device::{BLANK, PageSlots};
use nvm_board::DeviceErr;
use program_units::{FRAME_WORDS, SmallUnitDevice, UnitDevice, UnitSocket};
use std::alloc::{AllocError, Global};

/// A device with program units in working memory. One operation loses power or fails, and leaves garbage. Words that
/// are programmed though they are not blank, or were programmed since their erase, are counted.
#[derive(Drop)]
pub struct SimUnits<S: UnitSize, L: UnitSectors> {
    size: S,
    sectors: L,
    words: Vec<u32>,
    programs: Vec<u32>,
    /// The words that the device should have refused.
    refused: u64,
    dark: bool,
    /// The operations until the one that loses power or fails, that one too; or 0.
    left: u32,
    /// Whether it fails.
    fails: bool,
    random: u64,
    faults: u64,
    operations: u64,
    erases: u64,
    ghost sized: { length words.items ≡ device_size L.SLOTS },
    ghost counted: { length programs.items ≡ device_size L.SLOTS },
    ghost words_fit: { AreWords words.items },
}

/// Sets the counts of so many words.
pub fn count_run(programs: &mut Vec<u32>, at: usize, size: usize, number: u32)
    requires { at + size ≤ length programs.old.items }
    ensures size { length programs.new.items ≡ length programs.old.items }
    ensures all { AreFilled programs.new.items at size number }
    ensures elsewhere { SameElsewhere programs.old.items at size programs.new.items }
{
    for k in 0..size {
        programs[at + k] = number;
    }
}

/// Returns true if a word is not blank, or was programmed since its erase.
fn is_used(words: &[u32], programs: &[u32], at: usize) -> bool
    requires { (at < length words.now) × (at < length programs.now) }
    ensures { result ≡ used_at words.now programs.now at }
{
    words[at] != BLANK || programs[at] != 0
}

/// Returns the number of words that are not blank, or were programmed since their erase.
pub fn used_words(words: &[u32], programs: &[u32], at: usize, size: usize) -> u64
    requires words { at + size ≤ length words.now }
    requires programs { at + size ≤ length programs.now }
    ensures { result ≡ used_in words.now programs.now at size }
{
    let mut used: u64 = 0;
    for k in 0..size {
        if is_used(words, programs, at + k) {
            used += 1;
        }
    }
    used
}

/// Where a sector begins.
fn start<L: UnitSectors>(sector: u16) -> usize
    ensures is { result ≡ FRAME_WORDS * L.first_frame sector }
    ensures most { result ≤ device_size L.SLOTS }
{
    (FRAME_WORDS * L::first_frame_at(sector)) as usize
}

/// The number of words of a sector.
fn size<L: UnitSectors>(sector: u16) -> usize
    requires { sector ≤ 2 * L.SECTORS }
    ensures is { result ≡ FRAME_WORDS * (L.first_frame (sector + 1) - L.first_frame sector) }
    ensures fits { FRAME_WORDS * L.first_frame sector + result ≤ device_size L.SLOTS }
{
    start::<L>(sector + 1) - start::<L>(sector)
}

impl<S: UnitSize + Drop, L: UnitSectors + Drop> SimUnits<S, L> {
    ghost use Rattle.simulated_chips.specs.SimUnitStates.{sim_units_state};

    /// Returns a blank device, which leaves garbage by this seed.
    pub fn new(alloc: Global, size: S, sectors: L, seed: u64) -> Result<SimUnits<S, L>, AllocError>
        ensures lit { IfOk result (λ f. (sim_units_state f).flash.dark ≡ false) }
        ensures fresh { IfOk result (λ f. HasFreshUnits S.WORDS (sim_units_state f)) }
    {
        let words = start::<L>(2 * L::SECTORS + 1);
        Ok(SimUnits {
            size,
            sectors,
            words: vec![in alloc; BLANK; words]?,
            programs: vec![in alloc; 0; words]?,
            refused: 0,
            dark: false,
            left: 0,
            fails: false,
            random: next_random(seed),
            faults: 0,
            operations: 0,
            erases: 0,
        })
    }

    /// Sets operation k from now on, counted from 1, to lose power, or to fail. 0 sets none.
    pub fn set(&mut self, k: u32, fails: bool)
        ensures words { (sim_units_state self.new).flash.words ≡ (sim_units_state self.old).flash.words }
        ensures programs { (sim_units_state self.new).programs ≡ (sim_units_state self.old).programs }
        ensures lit { (sim_units_state self.new).flash.dark ≡ (sim_units_state self.old).flash.dark }
    {
        self.left = k;
        self.fails = fails;
    }

    /// Returns the number of faults.
    pub fn faults(&self) -> u64
        ensures { result ≡ (sim_units_state self.now).flash.faults }
    {
        self.faults
    }

    /// Returns the number of words that the device should have refused.
    pub fn refused(&self) -> u64
        ensures { result ≡ self.now.refused }
    {
        self.refused
    }
}

impl<S: UnitSize + Drop, L: UnitSectors + Drop> UnitDevice for SimUnits<S, L> {
    ghost use Rattle.simulated_chips.specs.SimUnitStates.{sim_units_state};
    ghost use Rattle.std.proofs.Common.{lit≤, refl};

    type Table = PageSlots<1024>;

    const PAGES: u16 = 1024;

    const UNIT: u32 = S::WORDS;

    const SLOTS: u16 = L::SLOTS;

    const SECTORS: u16 = L::SECTORS;

    ghost PAGES = { 1024 };

    ghost UNIT = { S.WORDS };

    ghost SLOTS = { L.SLOTS };

    ghost SECTORS = { L.SECTORS };

    ghost first_frame = { L.first_frame };

    ghost state = { sim_units_state };

    fn first_frame_at(sector: u16) -> u32 {
        L::first_frame_at(sector)
    }

    fn read(&mut self, at: u32) -> Result<u32, DeviceErr> {
        Ok(self.words[at as usize])
    }

    fn program(&mut self, at: u32, words: &[u32]) -> Result<(), DeviceErr> {
        let at = at as usize;
        let used = used_words(&self.words, &self.programs, at, words.len());
        self.refused = self.refused.saturating_add(used);
        self.operations = self.operations.saturating_add(1);
        self.random = next_random(self.random);
        let stops = self.left == 1;
        if stops && !self.fails {
            self.left = 0;
            garble_run(&mut self.words, at, words.len(), words, self.random);
            self.dark = true;
            return Err(DeviceErr::PowerLost);
        }
        self.left = after_one(self.fails, self.left);
        if stops && self.faults < u64::MAX {
            garble_run(&mut self.words, at, words.len(), words, self.random);
            self.faults += 1;
            return Err(DeviceErr::Fault);
        }
        put_run(&mut self.words, at, words);
        count_run(&mut self.programs, at, words.len(), 1);
        Ok(())
    }

    fn erase(&mut self, sector: u16) -> Result<(), DeviceErr> {
        self.erases = self.erases.saturating_add(1);
        self.operations = self.operations.saturating_add(1);
        self.random = next_random(self.random);
        count_run(&mut self.programs, start::<L>(sector), size::<L>(sector), 0);
        let stops = self.left == 1;
        if stops && !self.fails {
            self.left = 0;
            garble_run(
                &mut self.words,
                start::<L>(sector),
                size::<L>(sector),
                &[],
                self.random,
            );
            self.dark = true;
            return Err(DeviceErr::PowerLost);
        }
        self.left = after_one(self.fails, self.left);
        if stops && self.faults < u64::MAX {
            garble_run(
                &mut self.words,
                start::<L>(sector),
                size::<L>(sector),
                &[],
                self.random,
            );
            self.faults += 1;
            return Err(DeviceErr::Fault);
        }
        blank_run(&mut self.words, start::<L>(sector), size::<L>(sector));
        Ok(())
    }

    ghost sized = { λ f. f.sized };

    ghost words_fit = { λ f. f.words_fit };

    ghost pages_fit = { (lit≤ tt, lit≤ tt, refl) };

    ghost table_fits = { λ t. t.sized };

    ghost slots_fit = { L.slots_fit };

    ghost unit_fits = { S.fits };

    ghost sectors_rise = { L.sectors_rise };

    ghost sectors_fit = { L.sectors_fit };
}

impl<S: UnitSize + Drop, L: UnitSectors + Drop> UnitSocket for SimUnits<S, L> {
    fn light(&mut self) {
        self.dark = false;
    }

    fn power_off(&mut self) {
        self.dark = true;
    }
}

impl<S: UnitSize + Drop> SmallUnitDevice for SimUnits<S, SmallSectors> {
    ghost use Rattle.simulated_chips.specs.SimFrameParts.{small_frames_hold, small_frames_left};
    ghost use Rattle.std.proofs.Common.{lit<, lit≤};

    ghost sectors_left = { lit< tt };

    ghost sectors_hold = { small_frames_hold };

    ghost slots_left = { small_frames_left };

    ghost copies_left = { lit≤ tt };
}

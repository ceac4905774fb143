//! A flash in working memory that leaves garbage where it loses power.
ghost use Rattle.std.specs.Prelude.{◌≡◌, ◌+◌, ◌-◌, ◌*◌, ◌≤◌, ◌<◌, ℕ, length, is_some, None, Some, IfOk, OnOk, IsErrOf};
ghost use Rattle.std.specs.Prelude.{slice_index, [], true, false, option_map};
ghost use Rattle.nvm_board.specs.Facts.{AreWords};
ghost use Rattle.flash_device.specs.FlashCalls.{Lights, SameElsewhere, IsThere, AreFilled};
ghost use Rattle.flash_device.specs.FlashBlocks.{area_size, flash_size};
ghost use Rattle.flash_device.specs.ProgrammedRuns.{IsProgramRun};
ghost use Rattle.flash_device.specs.declared.flash.TheConstants.{BLANK};
ghost use Rattle.simulated_flashes.specs.Complements.{AreComplements, IsFirstRandom, random_after};
ghost use Rattle.simulated_flashes.specs.EvenSectors.{even_sector, even_size};

use crate::flash_sizes::{FlashSizes, SmallSizes, area_words, flash_words, size, start};
use crate::garbage::{blank_run, first_random, next_random, put_run, tear_run};
use flash_device::{BLANK, CutFlash, Flash, FlashSocket, PageSlots};
use nvm_board::DeviceErr;
use sector_moves::SectorFlash;
use std::alloc::{AllocError, Global};
use std::marker::PhantomData;

/// The number of pages of its board.
pub const FLASH_PAGES: u16 = 1024;

/// A flash in working memory, which never fails. A program or an erase that loses power leaves garbage in all its
/// words: noise, old, new, a mixture of them, marks, blank, or whole slots with other words. With seed 0 it leaves the
/// complement of each word that was to be: an operation that lost power then always differs from a whole one.
#[derive(Drop)]
pub struct GarblingFlash<S: FlashSizes> {
    sizes: PhantomData<S>,
    words: Vec<u32>,
    dark: bool,
    /// The operations before the one that is set to lose power.
    cut: Option<u32>,
    /// What chooses the garbage, if the seed is not 0.
    random: Option<u64>,
    operations: u64,
    erases: u64,
    ghost sized: { length words.items ≡ flash_size S.SLOTS },
    ghost words_fit: { AreWords words.items },
}

impl<S: FlashSizes> GarblingFlash<S> {
    ghost use Rattle.simulated_flashes.specs.GarblingStates.{garbling_state, given_garbling_state, new_garbling_state};

    /// Returns a powered blank flash, whose garbage this seed chooses.
    ///
    /// # Errors
    /// There is too little memory for the words.
    pub fn new(alloc: Global, seed: u64) -> Result<GarblingFlash<S>, AllocError>
        ensures state { IfOk result (λ flash. garbling_state flash ≡ new_garbling_state S.SLOTS) }
        ensures random { IfOk result (λ flash. IsFirstRandom seed flash.random) }
    {
        let words = vec![in alloc; BLANK; flash_words::<S>() as usize]?;
        Ok(GarblingFlash::of_words(words, seed))
    }

    /// Returns a powered flash with these words, whose garbage this seed chooses.
    pub fn of_words(words: Vec<u32>, seed: u64) -> GarblingFlash<S>
        requires sized { length words.items ≡ flash_size S.SLOTS }
        requires fit { AreWords words.items }
        ensures state { garbling_state result ≡ given_garbling_state words.items }
        ensures random { IsFirstRandom seed result.random }
    {
        GarblingFlash {
            sizes: PhantomData,
            words,
            dark: false,
            cut: None,
            random: first_random(seed),
            operations: 0,
            erases: 0,
        }
    }

    /// Returns the words, with power on or off.
    pub fn words(&self) -> &[u32]
        ensures { result.now ≡ (garbling_state self.now).words }
    {
        &self.words
    }

    /// Returns the words, with power on or off, and no flash.
    pub fn into_words(self) -> Vec<u32>
        ensures { result.items ≡ (garbling_state self).words }
    {
        self.words
    }

    /// Begins an operation. Returns true if power is to be lost in it.
    fn begin(&mut self) -> bool
        ensures words { self.new.words ≡ self.old.words }
        ensures power { self.new.dark ≡ self.old.dark }
        ensures lost { result ≡ true → (is_some self.old.cut ≡ true) × (self.new.cut ≡ None) }
        ensures spared { result ≡ false → is_some self.new.cut ≡ is_some self.old.cut }
        ensures fires { self.old.cut ≡ Some 0 → result ≡ true }
        ensures nearer { (n : ℕ) → self.old.cut ≡ Some (n + 1) → (result ≡ false) × (self.new.cut ≡ Some n) }
        ensures work { self.new.operations ≤ self.old.operations + 1 }
        ensures erases { self.new.erases ≡ self.old.erases }
        ensures random { is_some self.new.random ≡ is_some self.old.random }
        ensures next { self.new.random ≡ option_map random_after self.old.random }
    {
        self.operations = self.operations.saturating_add(1);
        if let Some(random) = self.random {
            self.random = Some(next_random(random));
        }
        match self.cut {
            Some(0) => {
                self.cut = None;
                true
            }
            Some(before) => {
                self.cut = Some(before - 1);
                false
            }
            None => false,
        }
    }
}

impl<S: FlashSizes> Flash for GarblingFlash<S> {
    ghost use Rattle.simulated_flashes.specs.laws.EvenLaws.{even_sectors_fit, even_sectors_rise};
    ghost use Rattle.simulated_flashes.specs.GarblingStates.{garbling_state};
    ghost use Rattle.std.proofs.Common.{lit≤, refl};

    type Table = PageSlots<1024>;

    const PAGES: u16 = FLASH_PAGES;

    const SLOTS: u16 = S::SLOTS;

    const SECTORS: u16 = S::SECTORS;

    ghost PAGES = { 1024 };

    ghost SLOTS = { S.SLOTS };

    ghost SECTORS = { S.SECTORS };

    ghost sector_start = { even_sector S.SECTOR_WORDS (area_size S.SLOTS) S.SECTORS };

    ghost state = { garbling_state };

    fn sector_at(sector: u16) -> u32 {
        start::<S>(sector)
    }

    fn read(&mut self, at: u32) -> Result<u32, DeviceErr>
        requires lit { (garbling_state self.old).dark ≡ false }
        requires within { at < flash_size S.SLOTS }
        ensures word { IfOk result (λ w. w ≡ slice_index (garbling_state self.old).words at) }
        ensures words { (garbling_state self.new).words ≡ (garbling_state self.old).words }
        ensures work { (garbling_state self.new).operations ≡ (garbling_state self.old).operations }
        ensures erases { (garbling_state self.new).erases ≡ (garbling_state self.old).erases }
        ensures kept { (garbling_state self.new).kept ≡ (garbling_state self.old).kept }
        ensures light { Lights (garbling_state self.old) (garbling_state self.new) result }
        ensures random { self.new.random ≡ self.old.random }
    {
        Ok(self.words[at as usize])
    }

    fn program(&mut self, at: u32, words: &[u32]) -> Result<(), DeviceErr>
        requires lit { (garbling_state self.old).dark ≡ false }
        requires blank { AreFilled (garbling_state self.old).words at (length words.now) BLANK }
        requires within { at + length words.now ≤ flash_size S.SLOTS }
        requires run { IsProgramRun S.SLOTS at (length words.now) }
        ensures done { OnOk result (IsThere (garbling_state self.new).words at words.now) }
        ensures elsewhere { SameElsewhere (garbling_state self.old).words at (length words.now)
            (garbling_state self.new).words }
        ensures work { (garbling_state self.new).operations ≤ (garbling_state self.old).operations + 1 }
        ensures erases { (garbling_state self.new).erases ≡ (garbling_state self.old).erases }
        ensures light { Lights (garbling_state self.old) (garbling_state self.new) result }
        ensures torn { IsErrOf result DeviceErr.PowerLost → is_some self.old.random ≡ false
            → AreComplements (garbling_state self.new).words at (length words.now) words.now }
        ensures random { is_some self.new.random ≡ is_some self.old.random }
    {
        let at = at as usize;
        if self.begin() {
            let area = area_words::<S>() as usize;
            tear_run(&mut self.words, at, words.len(), words, self.random, area);
            self.dark = true;
            return Err(DeviceErr::PowerLost);
        }
        put_run(&mut self.words, at, words);
        Ok(())
    }

    fn erase(&mut self, sector: u16) -> Result<(), DeviceErr>
        requires lit { (garbling_state self.old).dark ≡ false }
        requires sector { sector ≤ 2 * S.SECTORS }
        ensures done { OnOk result (AreFilled (garbling_state self.new).words
            (even_sector S.SECTOR_WORDS (area_size S.SLOTS) S.SECTORS sector)
            (even_size S.SECTOR_WORDS (area_size S.SLOTS) S.SECTORS sector) BLANK) }
        ensures elsewhere { SameElsewhere (garbling_state self.old).words
            (even_sector S.SECTOR_WORDS (area_size S.SLOTS) S.SECTORS sector)
            (even_size S.SECTOR_WORDS (area_size S.SLOTS) S.SECTORS sector) (garbling_state self.new).words }
        ensures work { (garbling_state self.new).operations ≤ (garbling_state self.old).operations + 1 }
        ensures erases { (garbling_state self.new).erases ≤ (garbling_state self.old).erases + 1 }
        ensures light { Lights (garbling_state self.old) (garbling_state self.new) result }
        ensures torn { IsErrOf result DeviceErr.PowerLost → is_some self.old.random ≡ false
            → AreComplements (garbling_state self.new).words
            (even_sector S.SECTOR_WORDS (area_size S.SLOTS) S.SECTORS sector)
            (even_size S.SECTOR_WORDS (area_size S.SLOTS) S.SECTORS sector) [] }
        ensures random { is_some self.new.random ≡ is_some self.old.random }
    {
        self.erases = self.erases.saturating_add(1);
        if self.begin() {
            tear_run(
                &mut self.words,
                start::<S>(sector) as usize,
                size::<S>(sector) as usize,
                &[],
                self.random,
                area_words::<S>() as usize,
            );
            self.dark = true;
            return Err(DeviceErr::PowerLost);
        }
        blank_run(
            &mut self.words,
            start::<S>(sector) as usize,
            size::<S>(sector) as usize,
        );
        Ok(())
    }

    ghost sized = { λ f. f.sized };

    ghost words_fit = { λ f. f.words_fit };

    ghost pages_fit = { (lit≤ tt, lit≤ tt, refl) };

    ghost table_fits = { λ t. t.sized };

    ghost slots_fit = { S.slots_fit };

    ghost sectors_rise = { even_sectors_rise S.SECTOR_WORDS (area_size S.SLOTS) S.SECTORS S.words_fit };

    ghost sectors_fit = { even_sectors_fit S.SECTOR_WORDS (area_size S.SLOTS) S.SECTORS S.sectors_fit };
}

impl<S: FlashSizes> FlashSocket for GarblingFlash<S> {
    ghost use Rattle.simulated_flashes.specs.GarblingStates.{garbling_state};

    fn light(&mut self)
        ensures state { garbling_state self.new ≡ record (garbling_state self.old) { dark = false } }
        ensures random { self.new.random ≡ self.old.random }
    {
        self.dark = false;
    }

    fn power_off(&mut self)
        ensures state { garbling_state self.new ≡ record (garbling_state self.old) { dark = true } }
        ensures random { self.new.random ≡ self.old.random }
    {
        self.dark = true;
    }
}

impl<S: FlashSizes> CutFlash for GarblingFlash<S> {
    ghost use Rattle.std.specs.Prelude.{refl};
    ghost use Rattle.simulated_flashes.specs.GarblingStates.{garbling_state};

    fn set_cut(&mut self, k: u32)
        requires { 1 ≤ k }
        ensures state { garbling_state self.new ≡ record (garbling_state self.old) { due = 1 } }
        ensures cut { self.new.cut ≡ Some (k - 1) }
        ensures random { self.new.random ≡ self.old.random }
    {
        self.cut = Some(k - 1);
    }

    fn clear_cut(&mut self)
        ensures state { garbling_state self.new ≡ record (garbling_state self.old) { due = 0 } }
        ensures random { self.new.random ≡ self.old.random }
    {
        self.cut = None;
    }

    ghost faultless = { λ f. refl };
}

impl<S: SmallSizes> SectorFlash for GarblingFlash<S> {
    ghost sectors_left = { S.sectors_left };

    ghost sectors_hold = { S.sectors_hold };

    ghost slots_left = { S.slots_left };

    ghost copies_left = { S.copies_left };
}

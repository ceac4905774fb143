//! A device with spare sectors in working memory, which leaves garbage where it loses power, and in a worn sector.
ghost use Rattle.std.specs.Prelude.{◌≡◌, ◌<◌, ◌*◌, length, slice_set, IfOk, true, false};
ghost use Rattle.nvm_board.specs.Facts.{AreWords};
ghost use Rattle.simulated_chips.specs.SimCuts.{cuts_set};
ghost use Rattle.flash_device.specs.PageTables.{AreFree};
ghost use Rattle.simulated_chips.specs.declared.sim_spares.TheConstants.{ENTRY_WORDS, MAP_WORDS, SPARES};
ghost use Rattle.spare_sectors.specs.SparePlaces.{all_sectors};

use crate::sim_flash::{after_one, blank_run, garble_run, next_random, put_run};
use crate::spare_sizes::{SmallSpares, SpareSizes};
use flash_device::{BLANK, PageSlots};
use nvm_board::DeviceErr;
use spare_sectors::{MapDevice, SmallSpareDevice, SpareDevice, SparePart, SpareSocket};
use std::alloc::{AllocError, Global};

/// The number of spare sectors.
pub const SPARES: u16 = 2;

/// The number of words of an entry of the map.
const ENTRY_WORDS: usize = 20;

/// The number of words of the map.
const MAP_WORDS: u32 = 40;

/// The number of sectors of a device.
fn all_sectors_of<L: SpareSizes>() -> usize
    ensures { result ≡ all_sectors L.SECTORS SPARES }
{
    2 * usize::from(L::SECTORS) + 1 + usize::from(SPARES)
}

/// A device with spare sectors in working memory. One operation loses power, and leaves garbage. So does each erase of
/// a worn sector, which fails.
#[derive(Drop)]
pub struct SimSpares<L: SpareSizes> {
    sizes: L,
    words: Vec<u32>,
    map: Vec<u32>,
    dark: bool,
    /// The operations until the one that loses power, that one too; or 0.
    left: u32,
    worn: Vec<bool>,
    random: u64,
    faults: u64,
    operations: u64,
    erases: u64,
    /// The number of entries of the map up to the last one that a program was begun in.
    begun: u16,
    /// What failed last.
    failed: Option<SparePart>,
    ghost sized: { length words.items ≡ L.SECTOR_WORDS * all_sectors L.SECTORS SPARES },
    ghost marked: { length worn.items ≡ all_sectors L.SECTORS SPARES },
    ghost mapped: { length map.items ≡ MAP_WORDS },
    ghost words_fit: { AreWords words.items },
    ghost free: { AreFree map.items 0 begun SPARES },
}

impl<L: SpareSizes + Drop> SimSpares<L> {
    ghost use Rattle.simulated_chips.specs.SimSpareStates.{sim_spares_state};

    /// Returns a blank device, which leaves garbage by this seed.
    pub fn new(alloc: Global, sizes: L, seed: u64) -> Result<SimSpares<L>, AllocError>
        ensures { IfOk result (λ f. (sim_spares_state f).flash.dark ≡ false) }
    {
        let sectors = all_sectors_of::<L>();
        Ok(SimSpares {
            sizes,
            words: vec![in alloc; BLANK; L::SECTOR_WORDS as usize * sectors]?,
            map: vec![in alloc; BLANK; MAP_WORDS as usize]?,
            dark: false,
            left: 0,
            worn: vec![in alloc; false; sectors]?,
            random: next_random(seed),
            faults: 0,
            operations: 0,
            erases: 0,
            begun: 0,
            failed: None,
        })
    }

    /// Sets operation k from now on, counted from 1, to lose power. 0 sets none.
    pub fn set(&mut self, k: u32)
        ensures left { self.new.left ≡ k }
        ensures worn { self.new.worn ≡ self.old.worn }
        ensures state { sim_spares_state self.new ≡ record (sim_spares_state self.old) {
          flash = record (sim_spares_state self.old).flash { due = cuts_set false k };
        } }
    {
        self.left = k;
    }

    /// Wears a sector out.
    pub fn wear(&mut self, sector: u16)
        requires { sector < all_sectors L.SECTORS SPARES }
        ensures worn { self.new.worn.items ≡ slice_set self.old.worn.items sector true }
        ensures left { self.new.left ≡ self.old.left }
        ensures state { sim_spares_state self.new ≡ sim_spares_state self.old }
    {
        self.worn[usize::from(sector)] = true;
    }
}

impl<L: SpareSizes + Drop> MapDevice for SimSpares<L> {
    ghost use Rattle.simulated_chips.specs.SimSpareStates.{sim_spares_state};
    ghost use Rattle.std.proofs.Common.{lit<};

    type Map = L::Map;

    const SECTORS: u16 = L::SECTORS;

    const SPARES: u16 = SPARES;

    ghost SECTORS = { L.SECTORS };

    ghost SPARES = { 2 };

    ghost state = { sim_spares_state };

    fn read_map(&mut self, at: u32) -> Result<u32, DeviceErr> {
        Ok(self.map[at as usize])
    }

    fn program_map(&mut self, at: u32, words: &[u32]) -> Result<(), DeviceErr> {
        self.operations = self.operations.saturating_add(1);
        self.random = next_random(self.random);
        let end = ((at as usize + words.len() + ENTRY_WORDS - 1) / ENTRY_WORDS) as u16;
        self.begun = self.begun.max(end);
        if self.left == 1 {
            self.left = 0;
            garble_run(&mut self.map, at as usize, words.len(), words, self.random);
            self.dark = true;
            return Err(DeviceErr::PowerLost);
        }
        self.left = after_one(false, self.left);
        put_run(&mut self.map, at as usize, words);
        Ok(())
    }

    ghost unbegun = { λ f. f.free };

    ghost numbers_fit = { L.sectors_fit.numbers };

    ghost map_fits = { L.map_fits };
}

impl<L: SpareSizes + Drop> SpareDevice for SimSpares<L> {
    ghost use Rattle.std.proofs.Common.{lit<, lit≤, refl};

    type Table = PageSlots<1024>;

    const PAGES: u16 = 1024;

    const SLOTS: u16 = L::SLOTS;

    const SECTOR_SLOTS: u16 = L::SECTOR_SLOTS;

    const SECTOR_WORDS: u32 = L::SECTOR_WORDS;

    ghost PAGES = { 1024 };

    ghost SLOTS = { L.SLOTS };

    ghost SECTOR_SLOTS = { L.SECTOR_SLOTS };

    ghost SECTOR_WORDS = { L.SECTOR_WORDS };

    fn read(&mut self, at: u32) -> Result<u32, DeviceErr> {
        Ok(self.words[at as usize])
    }

    fn program(&mut self, at: u32, words: &[u32]) -> Result<(), DeviceErr> {
        self.operations = self.operations.saturating_add(1);
        self.random = next_random(self.random);
        if self.left == 1 {
            self.left = 0;
            garble_run(
                &mut self.words,
                at as usize,
                words.len(),
                words,
                self.random,
            );
            self.dark = true;
            return Err(DeviceErr::PowerLost);
        }
        self.left = after_one(false, self.left);
        put_run(&mut self.words, at as usize, words);
        Ok(())
    }

    fn erase(&mut self, sector: u16) -> Result<(), DeviceErr> {
        self.erases = self.erases.saturating_add(1);
        self.operations = self.operations.saturating_add(1);
        self.random = next_random(self.random);
        let at = L::SECTOR_WORDS as usize * usize::from(sector);
        let size = L::SECTOR_WORDS as usize;
        if self.left == 1 {
            self.left = 0;
            garble_run(&mut self.words, at, size, &[], self.random);
            self.dark = true;
            return Err(DeviceErr::PowerLost);
        }
        self.left = after_one(false, self.left);
        if self.worn[usize::from(sector)] && self.faults < u64::MAX {
            garble_run(&mut self.words, at, size, &[], self.random);
            self.faults += 1;
            self.failed = Some(SparePart::Sector(sector));
            return Err(DeviceErr::Fault);
        }
        blank_run(&mut self.words, at, size);
        Ok(())
    }

    ghost words_fit = { λ f. f.words_fit };

    ghost pages_fit = { (lit≤ tt, lit≤ tt, refl) };

    ghost table_fits = { λ t. t.sized };

    ghost slots_fit = { L.slots_fit };

    ghost sectors_fit = { L.sectors_fit };
}

impl<L: SpareSizes + Drop> SpareSocket for SimSpares<L> {
    fn light(&mut self) {
        self.dark = false;
    }

    fn power_off(&mut self) {
        self.dark = true;
    }
}

impl SmallSpareDevice for SimSpares<SmallSpares> {
    ghost use Rattle.std.proofs.Common.{lit<, lit≤};

    ghost sectors_left = { lit< tt };

    ghost sectors_hold = { lit≤ tt };

    ghost slots_left = { lit< tt };

    ghost copies_left = { lit≤ tt };
}

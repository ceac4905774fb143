//! The sectors of devices with spare sectors.
ghost use Rattle.std.specs.Prelude.{◌≡◌, ◌<◌, ◌+◌, ◌*◌, ℕ, length};
ghost use Rattle.flash_device.specs.declared.layout.TheConstants.{SPARES as PASSED_SLOTS};
ghost use Rattle.spare_sectors.specs.SparePlaces.{TakesLog};
ghost use Rattle.simulated_chips.specs.declared.sim_spares.TheConstants.{SPARES};

use flash_device::{PageSlots, PageTable};

/// The sectors of a device with two spare ones, for a board of 1,024 pages.
pub trait SpareSizes {
    /// The table of the sectors in working memory.
    type Map: PageTable;

    /// The number of sectors of an area.
    const SECTORS: u16;

    /// The number of slots of an area.
    const SLOTS: u16;

    /// The number of slots that a sector takes.
    const SECTOR_SLOTS: u16;

    /// The number of words of a sector.
    const SECTOR_WORDS: u32;

    ghost SECTORS: { ℕ };

    ghost SLOTS: { ℕ };

    ghost SECTOR_SLOTS: { ℕ };

    ghost SECTOR_WORDS: { ℕ };

    /// Returns the number of sectors of an area.
    fn sector_count() -> u16
        ensures { result ≡ SECTORS };

    ghost map_fits: { (map : Self.Map) → length (Self.Map.entries map) ≡ 2 * SECTORS + 1 };

    ghost slots_fit: { (1024 + PASSED_SLOTS < SLOTS) × (SLOTS < 65536) };

    ghost sectors_fit: { TakesLog SLOTS SECTORS SECTOR_SLOTS SECTOR_WORDS SPARES };
}

/// Two sectors in each area, of 12,802 words.
#[derive(Clone, Copy)]
pub struct LargeSpares;

impl SpareSizes for LargeSpares {
    ghost use Rattle.std.proofs.Common.{lit<, lit≤};

    type Map = PageSlots<5>;

    const SECTORS: u16 = 2;

    const SLOTS: u16 = 1280;

    const SECTOR_SLOTS: u16 = 640;

    const SECTOR_WORDS: u32 = 12802;

    ghost SECTORS = { 2 };

    ghost SLOTS = { 1280 };

    ghost SECTOR_SLOTS = { 640 };

    ghost SECTOR_WORDS = { 12802 };

    fn sector_count() -> u16 {
        2
    }

    ghost map_fits = { λ t. t.sized };

    ghost slots_fit = { (lit< tt, lit< tt) };

    ghost sectors_fit = { record {
      some = lit< tt;
      few = lit< tt;
      slot = lit< tt;
      last = lit≤ tt;
      whole = lit≤ tt;
      rest = lit≤ tt;
      numbers = lit< tt;
      places = lit< tt;
    } };
}

/// Eighty sectors in each area, of 514 words.
#[derive(Clone, Copy)]
pub struct SmallSpares;

impl SpareSizes for SmallSpares {
    ghost use Rattle.std.proofs.Common.{lit<, lit≤};

    type Map = PageSlots<161>;

    const SECTORS: u16 = 80;

    const SLOTS: u16 = 2000;

    const SECTOR_SLOTS: u16 = 25;

    const SECTOR_WORDS: u32 = 514;

    ghost SECTORS = { 80 };

    ghost SLOTS = { 2000 };

    ghost SECTOR_SLOTS = { 25 };

    ghost SECTOR_WORDS = { 514 };

    fn sector_count() -> u16 {
        80
    }

    ghost map_fits = { λ t. t.sized };

    ghost slots_fit = { (lit< tt, lit< tt) };

    ghost sectors_fit = { record {
      some = lit< tt;
      few = lit< tt;
      slot = lit< tt;
      last = lit≤ tt;
      whole = lit≤ tt;
      rest = lit≤ tt;
      numbers = lit< tt;
      places = lit< tt;
    } };
}

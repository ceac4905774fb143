//! The sizes of simulated flashes.
ghost use Rattle.std.specs.Prelude.{◌≡◌, ◌<◌, ◌≤◌, ◌+◌, ◌*◌, ℕ};
ghost use Rattle.flash_device.specs.FlashBlocks.{area_size, flash_size};
ghost use Rattle.flash_device.specs.declared.layout.TheConstants.{SPARES, STEP_PAGES};
ghost use Rattle.flash_area.specs.Spares.{spare_sector};
ghost use Rattle.sector_moves.specs.SectorSpares.{sector_lead, spare_slot};
ghost use Rattle.simulated_flashes.specs.EvenSectors.{even_sector, even_size};

use flash_device::SLOT_WORDS;

/// The sizes of a simulated flash, for a board of 1,024 pages.
pub trait FlashSizes {
    /// The number of slots of an area.
    const SLOTS: u16;

    /// The number of sectors of an area.
    const SECTORS: u16;

    /// The number of words of a sector. The last one of an area takes the rest of the area too.
    const SECTOR_WORDS: u16;

    ghost SLOTS: { ℕ };

    ghost SECTORS: { ℕ };

    ghost SECTOR_WORDS: { ℕ };

    ghost slots_fit: { (1024 + SPARES < SLOTS) × (SLOTS < 65536) };

    ghost sectors_fit: { (0 < SECTORS) × (SECTORS < 32768) };

    /// The sectors lie in their area.
    ghost words_fit: { SECTOR_WORDS * SECTORS ≤ area_size SLOTS };
}

/// The sizes of a simulated flash whose sectors are small.
pub trait SmallSizes: FlashSizes {
    /// An area has at least one sector more than a move has steps.
    ghost sectors_left: { 64 < Self.SECTORS };

    /// The sector of a step holds the slots of its pages, and one more, wherever slots begin in it.
    ghost sectors_hold: { (turn n : ℕ) → n < 64
        → even_sector Self.SECTOR_WORDS (area_size Self.SLOTS) Self.SECTORS (spare_sector Self.SECTORS turn + n)
        + 20 * (STEP_PAGES + 2)
        ≤ even_sector Self.SECTOR_WORDS (area_size Self.SLOTS) Self.SECTORS
        (spare_sector Self.SECTORS turn + (n + 1)) };

    /// Behind the sectors of the steps, an area has more slots than the next move begins at.
    ghost slots_left: { (turn : ℕ) → spare_slot Self.SLOTS Self.SECTORS
        (even_sector Self.SECTOR_WORDS (area_size Self.SLOTS) Self.SECTORS) turn 64 + sector_lead Self.SECTORS
        < Self.SLOTS };

    /// Behind the slots that a renewal may take for its copies, an area has those that the next move begins at.
    ghost copies_left: { 1024 + SPARES + sector_lead Self.SECTORS ≤ Self.SLOTS };
}

/// Sizes of large sectors: 51 in each area, of 502 words.
#[derive(Clone, Copy)]
pub struct LargeSectors;

impl FlashSizes for LargeSectors {
    ghost use Rattle.std.proofs.Common.{lit<, lit≤};

    const SLOTS: u16 = 1280;

    const SECTORS: u16 = 51;

    const SECTOR_WORDS: u16 = 502;

    ghost SLOTS = { 1280 };

    ghost SECTORS = { 51 };

    ghost SECTOR_WORDS = { 502 };

    ghost slots_fit = { (lit< tt, lit< tt) };

    ghost sectors_fit = { (lit< tt, lit< tt) };

    ghost words_fit = { lit≤ tt };
}

/// Sizes of small sectors: 80 in each area, of 512 words, the last one of 514.
#[derive(Clone, Copy)]
pub struct SmallSectors;

impl FlashSizes for SmallSectors {
    ghost use Rattle.std.proofs.Common.{lit<, lit≤};

    const SLOTS: u16 = 2048;

    const SECTORS: u16 = 80;

    const SECTOR_WORDS: u16 = 512;

    ghost SLOTS = { 2048 };

    ghost SECTORS = { 80 };

    ghost SECTOR_WORDS = { 512 };

    ghost slots_fit = { (lit< tt, lit< tt) };

    ghost sectors_fit = { (lit< tt, lit< tt) };

    ghost words_fit = { lit≤ tt };
}

impl SmallSizes for SmallSectors {
    ghost use Rattle.simulated_flashes.specs.laws.EvenLaws.{even_sectors_hold, even_slots_left};
    ghost use Rattle.std.proofs.Common.{lit<, lit≤};

    ghost sectors_left = { lit< tt };

    ghost sectors_hold = { even_sectors_hold };

    ghost slots_left = { even_slots_left };

    ghost copies_left = { lit≤ tt };
}

/// Returns the number of words of a flash.
pub fn flash_words<S: FlashSizes>() -> u32
    ensures { result ≡ flash_size S.SLOTS }
{
    flash_device::flash_words(S::SLOTS)
}

/// Returns the number of words of an area.
pub(crate) fn area_words<S: FlashSizes>() -> u32
    ensures is { result ≡ area_size S.SLOTS }
    ensures most { result ≤ 1310702 }
{
    SLOT_WORDS * u32::from(S::SLOTS) + 2
}

/// Returns the address of a sector.
pub(crate) fn start<S: FlashSizes>(sector: u16) -> u32
    requires { sector ≤ 2 * S.SECTORS + 1 }
    ensures is { result ≡ even_sector S.SECTOR_WORDS (area_size S.SLOTS) S.SECTORS sector }
    ensures most { result ≤ flash_size S.SLOTS }
{
    let area = area_words::<S>();
    let each = u32::from(S::SECTOR_WORDS);
    if sector < S::SECTORS {
        return each * u32::from(sector);
    }
    if sector < 2 * S::SECTORS {
        return area + each * u32::from(sector - S::SECTORS);
    }
    if sector == 2 * S::SECTORS {
        return area + area;
    }
    area + area + 2
}

/// Returns the number of words of a sector.
pub(crate) fn size<S: FlashSizes>(sector: u16) -> u32
    requires { sector ≤ 2 * S.SECTORS }
    ensures is { result ≡ even_size S.SECTOR_WORDS (area_size S.SLOTS) S.SECTORS sector }
    ensures fits { even_sector S.SECTOR_WORDS (area_size S.SLOTS) S.SECTORS sector + result
        ≤ flash_size S.SLOTS }
{
    start::<S>(sector + 1) - start::<S>(sector)
}

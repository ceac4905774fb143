//! Flash devices with spare sectors.
ghost use Rattle.std.specs.Prelude.{◌≡◌, ◌<◌, ◌≤◌, ◌+◌, ◌*◌, ℕ, true, false, length, slice_index, IfOk, OnOk};
ghost use Rattle.nvm_board.specs.Facts.{AreWords};
ghost use Rattle.nvm_board.specs.declared.board.TheConstants.{LEAST_PAGES, MOST_PAGES};
ghost use Rattle.flash_device.specs.FlashCalls.{AreFilled, IsThere, Lights, SameElsewhere};
ghost use Rattle.flash_device.specs.FlashBlocks.{steps_of};
ghost use Rattle.flash_device.specs.declared.flash.TheConstants.{BLANK};
ghost use Rattle.flash_device.specs.declared.layout.TheConstants.{SPARES as PASSED_SLOTS, STEP_PAGES};
ghost use Rattle.spare_sectors.specs.SparePlaces.{TakesLog, all_sectors};
ghost use Rattle.spare_sectors.specs.SpareStates.{Blames};
ghost use Rattle.spare_sectors.specs.declared.map_device.SparePart.TheVariants.{Sector, Words};

use crate::map_device::MapDevice;
use flash_device::PageTable;
use nvm_board::DeviceErr;

/// A flash device with sectors of one size: those of area A, those of area B, the witness, and spare ones.
pub trait SpareDevice: MapDevice {
    /// The table of the pages in working memory. It has an entry for each page.
    type Table: PageTable;

    /// The number of pages of the board.
    const PAGES: u16;

    /// The number of slots of an area.
    const SLOTS: u16;

    /// The number of slots that a sector takes.
    const SECTOR_SLOTS: u16;

    /// The number of words of a sector.
    const SECTOR_WORDS: u32;

    ghost PAGES: { ℕ };

    ghost SLOTS: { ℕ };

    ghost SECTOR_SLOTS: { ℕ };

    ghost SECTOR_WORDS: { ℕ };

    /// Returns the word at an address. Sector `s` begins at `SECTOR_WORDS * s`.
    fn read(&mut self, at: u32) -> Result<u32, DeviceErr>
        requires lit { (Self.state self.old).flash.dark ≡ false }
        requires within { at < SECTOR_WORDS * all_sectors Self.SECTORS Self.SPARES }
        ensures word { IfOk result (λ w. w ≡ slice_index (Self.state self.old).flash.words at) }
        ensures words { (Self.state self.new).flash.words ≡ (Self.state self.old).flash.words }
        ensures map { (Self.state self.new).map ≡ (Self.state self.old).map }
        ensures work { (Self.state self.new).flash.operations ≡ (Self.state self.old).flash.operations }
        ensures erases { (Self.state self.new).flash.erases ≡ (Self.state self.old).flash.erases }
        ensures kept { (Self.state self.new).flash.kept ≡ (Self.state self.old).flash.kept }
        ensures begun { (Self.state self.new).begun ≡ (Self.state self.old).begun }
        ensures blames { Blames Words (Self.state self.old) (Self.state self.new) result }
        ensures light { Lights (Self.state self.old).flash (Self.state self.new).flash result };

    /// Programs blank words. After an error each word of the run holds anything. No other word changes.
    fn program(&mut self, at: u32, words: &[u32]) -> Result<(), DeviceErr>
        requires lit { (Self.state self.old).flash.dark ≡ false }
        requires blank { AreFilled (Self.state self.old).flash.words at (length words.now) BLANK }
        requires within { at + length words.now ≤ SECTOR_WORDS * all_sectors Self.SECTORS Self.SPARES }
        ensures done { OnOk result (IsThere (Self.state self.new).flash.words at words.now) }
        ensures elsewhere { SameElsewhere (Self.state self.old).flash.words at (length words.now)
            (Self.state self.new).flash.words }
        ensures map { (Self.state self.new).map ≡ (Self.state self.old).map }
        ensures work { (Self.state self.new).flash.operations ≤ (Self.state self.old).flash.operations + 1 }
        ensures erases { (Self.state self.new).flash.erases ≡ (Self.state self.old).flash.erases }
        ensures begun { (Self.state self.new).begun ≡ (Self.state self.old).begun }
        ensures blames { Blames Words (Self.state self.old) (Self.state self.new) result }
        ensures light { Lights (Self.state self.old).flash (Self.state self.new).flash result };

    /// Erases a sector. After an error each of its words holds anything. No other word changes.
    fn erase(&mut self, sector: u16) -> Result<(), DeviceErr>
        requires lit { (Self.state self.old).flash.dark ≡ false }
        requires sector { sector < all_sectors Self.SECTORS Self.SPARES }
        ensures done { OnOk result (AreFilled (Self.state self.new).flash.words (SECTOR_WORDS * sector) SECTOR_WORDS
            BLANK) }
        ensures elsewhere { SameElsewhere (Self.state self.old).flash.words (SECTOR_WORDS * sector) SECTOR_WORDS
            (Self.state self.new).flash.words }
        ensures map { (Self.state self.new).map ≡ (Self.state self.old).map }
        ensures work { (Self.state self.new).flash.operations ≤ (Self.state self.old).flash.operations + 1 }
        ensures erases { (Self.state self.new).flash.erases ≤ (Self.state self.old).flash.erases + 1 }
        ensures begun { (Self.state self.new).begun ≡ (Self.state self.old).begun }
        ensures blames { Blames (Sector sector) (Self.state self.old) (Self.state self.new) result }
        ensures light { Lights (Self.state self.old).flash (Self.state self.new).flash result };

    /// The words of each device have 32 bits.
    ghost words_fit: { (device : Self) → AreWords (Self.state device).flash.words };

    /// A board has 1,024 to 4,096 pages, and steps of a move copy them all.
    ghost pages_fit: { (LEAST_PAGES ≤ PAGES) × (PAGES ≤ MOST_PAGES) × (PAGES ≡ STEP_PAGES * steps_of PAGES) };

    ghost table_fits: { (table : Self.Table) → length (Self.Table.entries table) ≡ PAGES };

    /// An area takes each page once, with slots to pass over. The slots have numbers of 16 bits.
    ghost slots_fit: { (PAGES + PASSED_SLOTS < SLOTS) × (SLOTS < 65536) };

    /// The sectors take the log.
    ghost sectors_fit: { TakesLog SLOTS Self.SECTORS SECTOR_SLOTS SECTOR_WORDS Self.SPARES };
}

/// A device whose power can be switched.
pub trait SpareSocket: SpareDevice {
    /// Switches power on.
    fn light(&mut self)
        ensures flash { (Self.state self.new).flash ≡ record (Self.state self.old).flash { dark = false } }
        ensures map { (Self.state self.new).map ≡ (Self.state self.old).map }
        ensures begun { (Self.state self.new).begun ≡ (Self.state self.old).begun };

    /// Switches power off.
    fn power_off(&mut self)
        ensures flash { (Self.state self.new).flash ≡ record (Self.state self.old).flash { dark = true } }
        ensures map { (Self.state self.new).map ≡ (Self.state self.old).map }
        ensures begun { (Self.state self.new).begun ≡ (Self.state self.old).begun };
}

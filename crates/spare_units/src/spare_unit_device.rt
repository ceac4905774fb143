//! Flash devices with program units and spare sectors.
ghost use Rattle.std.specs.Prelude.{◌≡◌, ◌<◌, ◌≤◌, ◌+◌, ◌*◌, ℕ, true, false, length, slice_index, IfOk, OnErr, OnOk};
ghost use Rattle.nvm_board.specs.Facts.{AreWords};
ghost use Rattle.nvm_board.specs.declared.board.TheConstants.{LEAST_PAGES, MOST_PAGES};
ghost use Rattle.flash_device.specs.FlashBlocks.{steps_of};
ghost use Rattle.flash_device.specs.FlashCalls.{AreFilled, IsThere, Lights, SameElsewhere};
ghost use Rattle.flash_device.specs.declared.flash.TheConstants.{BLANK};
ghost use Rattle.flash_device.specs.declared.layout.TheConstants.{SPARES as PASSED_SLOTS, STEP_PAGES};
ghost use Rattle.spare_units.specs.SpareFrames.{TakesFrames, own_units};
ghost use Rattle.spare_sectors.specs.SparePlaces.{all_sectors};
ghost use Rattle.spare_sectors.specs.SpareStates.{Blames};
ghost use Rattle.program_units.specs.UnitFrames.{AreUnits, IsFrameRun, IsPartRun, IsUnit};
ghost use Rattle.program_units.specs.UnitStates.{CountsErase};
ghost use Rattle.spare_sectors.specs.declared.map_device.SparePart.TheVariants.{Sector, Words};
ghost use Rattle.program_units.specs.declared.unit_frames.TheConstants.{FRAME_WORDS};

use flash_device::PageTable;
use nvm_board::DeviceErr;
use spare_sectors::MapDevice;

/// A flash device that programs whole units, none again behind a program that returned Ok, until an erase. Its sectors
/// have whole frames of 32 words, and one size: those of area A, those of area B, the witness, and spare ones.
pub trait SpareUnitDevice: MapDevice {
    /// The table of the pages in working memory. It has an entry for each page.
    type Table: PageTable;

    /// The number of pages of the board.
    const PAGES: u16;

    /// The number of words of a unit: 1, 2, 4 or 8.
    const UNIT: u32;

    /// The number of slots of an area.
    const SLOTS: u16;

    /// The number of frames of a sector.
    const SECTOR_FRAMES: u16;

    ghost PAGES: { ℕ };

    ghost UNIT: { ℕ };

    ghost SLOTS: { ℕ };

    ghost SECTOR_FRAMES: { ℕ };

    /// Returns the word at an address. Sector `s` begins at `32 * SECTOR_FRAMES * s`.
    fn read(&mut self, at: u32) -> Result<u32, DeviceErr>
        requires lit { (Self.state self.old).flash.dark ≡ false }
        requires within { at < FRAME_WORDS * SECTOR_FRAMES * all_sectors Self.SECTORS Self.SPARES }
        ensures word { IfOk result (λ w. w ≡ slice_index (Self.state self.old).flash.words at) }
        ensures words { (Self.state self.new).flash.words ≡ (Self.state self.old).flash.words }
        ensures programs { (Self.state self.new).programs ≡ (Self.state self.old).programs }
        ensures map { (Self.state self.new).map ≡ (Self.state self.old).map }
        ensures work { (Self.state self.new).flash.operations ≡ (Self.state self.old).flash.operations }
        ensures erases { (Self.state self.new).flash.erases ≡ (Self.state self.old).flash.erases }
        ensures kept { (Self.state self.new).flash.kept ≡ (Self.state self.old).flash.kept }
        ensures begun { (Self.state self.new).begun ≡ (Self.state self.old).begun }
        ensures blames { Blames Words (Self.state self.old) (Self.state self.new) result }
        ensures light { Lights (Self.state self.old).flash (Self.state self.new).flash result };

    /// Programs the units of a record or of a mark, with words that are not all blank. The units are blank, and no
    /// program of them returned Ok since their erase. After an error each word of them holds anything. No other word
    /// changes.
    fn program(&mut self, at: u32, words: &[u32]) -> Result<(), DeviceErr>
        requires lit { (Self.state self.old).flash.dark ≡ false }
        requires run { IsFrameRun at (length words.now) }
        requires units { AreUnits UNIT at (length words.now) }
        requires part { IsPartRun UNIT at (length words.now) }
        requires within { at + length words.now ≤ FRAME_WORDS * SECTOR_FRAMES * all_sectors Self.SECTORS Self.SPARES }
        requires blank { AreFilled (Self.state self.old).flash.words at (length words.now) BLANK }
        requires fresh { AreFilled (Self.state self.old).programs at (length words.now) 0 }
        requires some { AreFilled words.now 0 (length words.now) BLANK → ⊥ }
        ensures done { OnOk result (IsThere (Self.state self.new).flash.words at words.now) }
        ensures elsewhere { SameElsewhere (Self.state self.old).flash.words at (length words.now)
            (Self.state self.new).flash.words }
        ensures counted { OnOk result (AreFilled (Self.state self.new).programs at (length words.now) 1) }
        ensures others { SameElsewhere (Self.state self.old).programs at (length words.now)
            (Self.state self.new).programs }
        ensures failed { OnErr result ((Self.state self.new).programs ≡ (Self.state self.old).programs) }
        ensures map { (Self.state self.new).map ≡ (Self.state self.old).map }
        ensures work { (Self.state self.new).flash.operations ≤ (Self.state self.old).flash.operations + 1 }
        ensures erases { (Self.state self.new).flash.erases ≡ (Self.state self.old).flash.erases }
        ensures begun { (Self.state self.new).begun ≡ (Self.state self.old).begun }
        ensures blames { Blames Words (Self.state self.old) (Self.state self.new) result }
        ensures light { Lights (Self.state self.old).flash (Self.state self.new).flash result };

    /// Erases a sector. After an error each of its words holds anything, and no program of them counts any more, or the
    /// erase was not begun. No other word changes.
    fn erase(&mut self, sector: u16) -> Result<(), DeviceErr>
        requires lit { (Self.state self.old).flash.dark ≡ false }
        requires sector { sector < all_sectors Self.SECTORS Self.SPARES }
        ensures done { OnOk result (AreFilled (Self.state self.new).flash.words (FRAME_WORDS * SECTOR_FRAMES * sector)
            (FRAME_WORDS * SECTOR_FRAMES) BLANK) }
        ensures elsewhere { SameElsewhere (Self.state self.old).flash.words (FRAME_WORDS * SECTOR_FRAMES * sector)
            (FRAME_WORDS * SECTOR_FRAMES) (Self.state self.new).flash.words }
        ensures counted { OnOk result (AreFilled (Self.state self.new).programs
            (FRAME_WORDS * SECTOR_FRAMES * sector) (FRAME_WORDS * SECTOR_FRAMES) 0) }
        ensures failed { OnErr result (CountsErase (own_units (Self.state self.old)) (own_units (Self.state self.new))
            (FRAME_WORDS * SECTOR_FRAMES * sector) (FRAME_WORDS * SECTOR_FRAMES)) }
        ensures others { SameElsewhere (Self.state self.old).programs (FRAME_WORDS * SECTOR_FRAMES * sector)
            (FRAME_WORDS * SECTOR_FRAMES) (Self.state self.new).programs }
        ensures map { (Self.state self.new).map ≡ (Self.state self.old).map }
        ensures work { (Self.state self.new).flash.operations ≤ (Self.state self.old).flash.operations + 1 }
        ensures erases { (Self.state self.new).flash.erases ≤ (Self.state self.old).flash.erases + 1 }
        ensures begun { (Self.state self.new).begun ≡ (Self.state self.old).begun }
        ensures blames { Blames (Sector sector) (Self.state self.old) (Self.state self.new) result }
        ensures light { Lights (Self.state self.old).flash (Self.state self.new).flash result };

    /// The words of each device have 32 bits.
    ghost words_fit: { (device : Self) → AreWords (Self.state device).flash.words };

    /// A board has 1,024 to 4,096 pages, and steps of a move copy them all.
    ghost pages_fit: { (LEAST_PAGES ≤ PAGES) × (PAGES ≤ MOST_PAGES) × (PAGES ≡ STEP_PAGES * steps_of PAGES) };

    ghost table_fits: { (table : Self.Table) → length (Self.Table.entries table) ≡ PAGES };

    /// An area takes each page once, with slots to pass over. The slots have numbers of 16 bits.
    ghost slots_fit: { (PAGES + PASSED_SLOTS < SLOTS) × (SLOTS < 65536) };

    ghost unit_fits: { IsUnit UNIT };

    /// The sectors take the frames of the log.
    ghost sectors_fit: { TakesFrames SLOTS Self.SECTORS SECTOR_FRAMES Self.SPARES };
}

/// A device whose power can be switched.
pub trait SpareUnitSocket: SpareUnitDevice {
    /// Switches power on.
    fn light(&mut self)
        ensures flash { (Self.state self.new).flash ≡ record (Self.state self.old).flash { dark = false } }
        ensures programs { (Self.state self.new).programs ≡ (Self.state self.old).programs }
        ensures map { (Self.state self.new).map ≡ (Self.state self.old).map }
        ensures begun { (Self.state self.new).begun ≡ (Self.state self.old).begun };

    /// Switches power off.
    fn power_off(&mut self)
        ensures flash { (Self.state self.new).flash ≡ record (Self.state self.old).flash { dark = true } }
        ensures programs { (Self.state self.new).programs ≡ (Self.state self.old).programs }
        ensures map { (Self.state self.new).map ≡ (Self.state self.old).map }
        ensures begun { (Self.state self.new).begun ≡ (Self.state self.old).begun };
}

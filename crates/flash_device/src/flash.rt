//! Flash devices, with what they promise.
ghost use Rattle.std.specs.Prelude.{◌≡◌, ◌<◌, ◌≤◌, ◌+◌, ◌-◌, ◌*◌, ℕ, true, false, length, slice_index, IfOk, OnOk};
ghost use Rattle.nvm_board.specs.Facts.{AreWords};
ghost use Rattle.nvm_board.specs.declared.board.TheConstants.{LEAST_PAGES, MOST_PAGES};
ghost use Rattle.flash_device.specs.FlashCalls.{FlashState, Lights, SameElsewhere, IsThere, AreFilled};
ghost use Rattle.flash_device.specs.FlashBlocks.{area_size, witness_start, flash_size, steps_of};
ghost use Rattle.flash_device.specs.ProgrammedRuns.{IsProgramRun};
ghost use Rattle.flash_device.specs.declared.flash.TheConstants.{BLANK};
ghost use Rattle.flash_device.specs.declared.layout.TheConstants.{SPARES, STEP_PAGES};

use crate::page_table::PageTable;
use nvm_board::DeviceErr;

/// The word of an erased place.
pub const BLANK: u32 = 0xFFFF_FFFF;

/// The number of blocks of a flash.
pub const BLOCKS: u8 = 3;

/// A flash device of three blocks: area A, area B and the witness. A block has one or more sectors, of any size: a
/// sector is what `erase` erases. The numbers of pages, of slots and of sectors of an area are the device's.
pub trait Flash {
    /// The table of the pages in working memory. It has an entry for each page.
    type Table: PageTable;

    /// The number of pages of the board.
    const PAGES: u16;

    /// The number of slots of an area.
    const SLOTS: u16;

    /// The number of sectors of an area. The witness has one.
    const SECTORS: u16;

    ghost PAGES: { ℕ };

    ghost SLOTS: { ℕ };

    ghost SECTORS: { ℕ };

    /// Where each sector begins: those of area A, those of area B, and the witness.
    ghost sector_start: { ℕ → ℕ };

    /// All that contracts know of the flash.
    ghost state: { Self → FlashState };

    /// Returns the address at which a sector begins. Sector `2 * SECTORS + 1` would begin behind the last word.
    fn sector_at(sector: u16) -> u32
        requires { sector ≤ 2 * SECTORS + 1 }
        ensures { result ≡ sector_start sector };

    /// Returns the word at an address.
    fn read(&mut self, at: u32) -> Result<u32, DeviceErr>
        requires lit { (state self.old).dark ≡ false }
        requires within { at < flash_size SLOTS }
        ensures word { IfOk result (λ w. w ≡ slice_index (state self.old).words at) }
        ensures words { (state self.new).words ≡ (state self.old).words }
        ensures work { (state self.new).operations ≡ (state self.old).operations }
        ensures erases { (state self.new).erases ≡ (state self.old).erases }
        ensures kept { (state self.new).kept ≡ (state self.old).kept }
        ensures light { Lights (state self.old) (state self.new) result };

    /// Programs a whole record, a commit mark or a close mark, where all words are blank. After an error each word of
    /// the run holds anything. No other word changes.
    fn program(&mut self, at: u32, words: &[u32]) -> Result<(), DeviceErr>
        requires lit { (state self.old).dark ≡ false }
        requires blank { AreFilled (state self.old).words at (length words.now) BLANK }
        requires within { at + length words.now ≤ flash_size SLOTS }
        requires run { IsProgramRun SLOTS at (length words.now) }
        ensures done { OnOk result (IsThere (state self.new).words at words.now) }
        ensures elsewhere { SameElsewhere (state self.old).words at (length words.now) (state self.new).words }
        ensures work { (state self.new).operations ≤ (state self.old).operations + 1 }
        ensures erases { (state self.new).erases ≡ (state self.old).erases }
        ensures light { Lights (state self.old) (state self.new) result };

    /// Erases a sector. After an error each of its words holds anything. No other word changes.
    fn erase(&mut self, sector: u16) -> Result<(), DeviceErr>
        requires lit { (state self.old).dark ≡ false }
        requires sector { sector ≤ 2 * SECTORS }
        ensures done { OnOk result (AreFilled (state self.new).words (sector_start sector)
            (sector_start (sector + 1) - sector_start sector) BLANK) }
        ensures elsewhere { SameElsewhere (state self.old).words (sector_start sector)
            (sector_start (sector + 1) - sector_start sector) (state self.new).words }
        ensures work { (state self.new).operations ≤ (state self.old).operations + 1 }
        ensures erases { (state self.new).erases ≤ (state self.old).erases + 1 }
        ensures light { Lights (state self.old) (state self.new) result };

    /// Each flash has all its words, of 32 bits.
    ghost sized: { (flash : Self) → length (state flash).words ≡ flash_size SLOTS };

    ghost words_fit: { (flash : Self) → AreWords (state flash).words };

    /// A board has 1,024 to 4,096 pages, and steps of a move copy them all.
    ghost pages_fit: { (LEAST_PAGES ≤ PAGES) × (PAGES ≤ MOST_PAGES) × (PAGES ≡ STEP_PAGES * steps_of PAGES) };

    ghost table_fits: { (table : Self.Table) → length (Self.Table.entries table) ≡ PAGES };

    /// An area takes each page once, with slots to pass over. The slots have numbers of 16 bits.
    ghost slots_fit: { (PAGES + SPARES < SLOTS) × (SLOTS < 65536) };

    /// The sectors lie one behind the other, and their numbers have 15 bits.
    ghost sectors_rise: { (s : ℕ) → sector_start s ≤ sector_start (s + 1) };

    /// Each block has sectors of its own.
    ghost sectors_fit: { (sector_start 0 ≡ 0) × (sector_start SECTORS ≡ area_size SLOTS)
        × (sector_start (2 * SECTORS) ≡ witness_start SLOTS) × (sector_start (2 * SECTORS + 1) ≡ flash_size SLOTS)
        × (0 < SECTORS) × (SECTORS < 32768) };
}

/// A flash whose power can be switched.
pub trait FlashSocket: Flash {
    /// Switches power on.
    fn light(&mut self)
        ensures { Self.state self.new ≡ record (Self.state self.old) { dark = false } };

    /// Switches power off.
    fn power_off(&mut self)
        ensures { Self.state self.new ≡ record (Self.state self.old) { dark = true } };
}

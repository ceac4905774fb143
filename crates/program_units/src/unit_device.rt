//! Flash devices that program whole units.
ghost use Rattle.std.specs.Prelude.{◌≡◌, ◌<◌, ◌≤◌, ◌+◌, ◌-◌, ◌*◌, ℕ, true, false, length, slice_index};
ghost use Rattle.std.specs.Prelude.{IfOk, OnErr, OnOk};
ghost use Rattle.nvm_board.specs.Facts.{AreWords};
ghost use Rattle.nvm_board.specs.declared.board.TheConstants.{LEAST_PAGES, MOST_PAGES};
ghost use Rattle.flash_device.specs.FlashBlocks.{steps_of};
ghost use Rattle.flash_device.specs.FlashCalls.{AreFilled, IsThere, Lights, SameElsewhere};
ghost use Rattle.flash_device.specs.declared.flash.TheConstants.{BLANK};
ghost use Rattle.flash_device.specs.declared.layout.TheConstants.{SPARES, STEP_PAGES};
ghost use Rattle.program_units.specs.UnitFrames.{AreUnits, IsFrameRun, IsPartRun, IsUnit, device_size, frame_count};
ghost use Rattle.program_units.specs.UnitStates.{CountsErase, UnitState};
ghost use Rattle.program_units.specs.declared.unit_frames.TheConstants.{FRAME_WORDS};

use flash_device::PageTable;
use nvm_board::DeviceErr;

/// A flash device that programs whole units, none again behind a program that returned Ok, until an erase. Its words
/// lie in frames of 32: one for each slot of area A, one for its close mark, the same for area B, and one for the
/// witness. A sector is what `erase` erases, and has whole frames.
pub trait UnitDevice {
    /// The table of the pages in working memory. It has an entry for each page.
    type Table: PageTable;

    /// The number of pages of the board.
    const PAGES: u16;

    /// The number of words of a unit: 1, 2, 4 or 8.
    const UNIT: u32;

    /// The number of slots of an area.
    const SLOTS: u16;

    /// The number of sectors of an area. The witness has one.
    const SECTORS: u16;

    ghost PAGES: { ℕ };

    ghost UNIT: { ℕ };

    ghost SLOTS: { ℕ };

    ghost SECTORS: { ℕ };

    /// The first frame of each sector: of those of area A, those of area B, and the witness.
    ghost first_frame: { ℕ → ℕ };

    /// All that contracts know of the device.
    ghost state: { Self → UnitState };

    /// Returns the first frame of a sector. Sector `2 * SECTORS + 1` would begin behind the last frame.
    fn first_frame_at(sector: u16) -> u32
        requires { sector ≤ 2 * SECTORS + 1 }
        ensures { result ≡ first_frame sector };

    /// Returns the word at an address.
    fn read(&mut self, at: u32) -> Result<u32, DeviceErr>
        requires lit { (state self.old).flash.dark ≡ false }
        requires within { at < device_size SLOTS }
        ensures word { IfOk result (λ w. w ≡ slice_index (state self.old).flash.words at) }
        ensures words { (state self.new).flash.words ≡ (state self.old).flash.words }
        ensures programs { (state self.new).programs ≡ (state self.old).programs }
        ensures work { (state self.new).flash.operations ≡ (state self.old).flash.operations }
        ensures erases { (state self.new).flash.erases ≡ (state self.old).flash.erases }
        ensures kept { (state self.new).flash.kept ≡ (state self.old).flash.kept }
        ensures light { Lights (state self.old).flash (state self.new).flash result };

    /// Programs the units of a record or of a mark, with words that are not all blank. The units are blank, and no
    /// program of them returned Ok since their erase. After an error each word of them holds anything. No other word
    /// changes.
    fn program(&mut self, at: u32, words: &[u32]) -> Result<(), DeviceErr>
        requires lit { (state self.old).flash.dark ≡ false }
        requires run { IsFrameRun at (length words.now) }
        requires units { AreUnits UNIT at (length words.now) }
        requires part { IsPartRun UNIT at (length words.now) }
        requires within { at + length words.now ≤ device_size SLOTS }
        requires blank { AreFilled (state self.old).flash.words at (length words.now) BLANK }
        requires fresh { AreFilled (state self.old).programs at (length words.now) 0 }
        requires some { AreFilled words.now 0 (length words.now) BLANK → ⊥ }
        ensures done { OnOk result (IsThere (state self.new).flash.words at words.now) }
        ensures elsewhere { SameElsewhere (state self.old).flash.words at (length words.now)
            (state self.new).flash.words }
        ensures counted { OnOk result (AreFilled (state self.new).programs at (length words.now) 1) }
        ensures others { SameElsewhere (state self.old).programs at (length words.now) (state self.new).programs }
        ensures failed { OnErr result ((state self.new).programs ≡ (state self.old).programs) }
        ensures work { (state self.new).flash.operations ≤ (state self.old).flash.operations + 1 }
        ensures erases { (state self.new).flash.erases ≡ (state self.old).flash.erases }
        ensures light { Lights (state self.old).flash (state self.new).flash result };

    /// Erases a sector. After an error each of its words holds anything. No other word changes.
    fn erase(&mut self, sector: u16) -> Result<(), DeviceErr>
        requires lit { (state self.old).flash.dark ≡ false }
        requires sector { sector ≤ 2 * SECTORS }
        ensures done { OnOk result (AreFilled (state self.new).flash.words (FRAME_WORDS * first_frame sector)
            (FRAME_WORDS * (first_frame (sector + 1) - first_frame sector)) BLANK) }
        ensures elsewhere { SameElsewhere (state self.old).flash.words (FRAME_WORDS * first_frame sector)
            (FRAME_WORDS * (first_frame (sector + 1) - first_frame sector)) (state self.new).flash.words }
        ensures counted { CountsErase (state self.old) (state self.new) (FRAME_WORDS * first_frame sector)
            (FRAME_WORDS * (first_frame (sector + 1) - first_frame sector)) }
        ensures others { SameElsewhere (state self.old).programs (FRAME_WORDS * first_frame sector)
            (FRAME_WORDS * (first_frame (sector + 1) - first_frame sector)) (state self.new).programs }
        ensures work { (state self.new).flash.operations ≤ (state self.old).flash.operations + 1 }
        ensures erases { (state self.new).flash.erases ≤ (state self.old).flash.erases + 1 }
        ensures light { Lights (state self.old).flash (state self.new).flash result };

    /// Each device has all its words, of 32 bits.
    ghost sized: { (device : Self) → length (state device).flash.words ≡ device_size SLOTS };

    ghost words_fit: { (device : Self) → AreWords (state device).flash.words };

    /// A board has 1,024 to 4,096 pages, and steps of a move copy them all.
    ghost pages_fit: { (LEAST_PAGES ≤ PAGES) × (PAGES ≤ MOST_PAGES) × (PAGES ≡ STEP_PAGES * steps_of PAGES) };

    ghost table_fits: { (table : Self.Table) → length (Self.Table.entries table) ≡ PAGES };

    /// An area takes each page once, with slots to pass over. The slots have numbers of 16 bits.
    ghost slots_fit: { (PAGES + SPARES < SLOTS) × (SLOTS < 65536) };

    ghost unit_fits: { IsUnit UNIT };

    /// The sectors lie one behind the other, and their numbers have 15 bits.
    ghost sectors_rise: { (s : ℕ) → first_frame s ≤ first_frame (s + 1) };

    /// Each block has sectors of its own.
    ghost sectors_fit: { (first_frame 0 ≡ 0) × (first_frame SECTORS ≡ SLOTS + 1)
        × (first_frame (2 * SECTORS) ≡ 2 * SLOTS + 2) × (first_frame (2 * SECTORS + 1) ≡ frame_count SLOTS)
        × (0 < SECTORS) × (SECTORS < 32768) };
}

/// A device whose power can be switched.
pub trait UnitSocket: UnitDevice {
    /// Switches power on.
    fn light(&mut self)
        ensures flash { (Self.state self.new).flash ≡ record (Self.state self.old).flash { dark = false } }
        ensures programs { (Self.state self.new).programs ≡ (Self.state self.old).programs };

    /// Switches power off.
    fn power_off(&mut self)
        ensures flash { (Self.state self.new).flash ≡ record (Self.state self.old).flash { dark = true } }
        ensures programs { (Self.state self.new).programs ≡ (Self.state self.old).programs };
}

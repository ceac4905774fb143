//! Flash devices with a map of their worn sectors.
ghost use Rattle.std.specs.Prelude.{◌≡◌, ◌<◌, ◌≤◌, ◌+◌, ◌*◌, ◌/◌, ℕ, true, false, length, max, slice_index, IfOk};
ghost use Rattle.std.specs.Prelude.{OnOk};
ghost use Rattle.flash_device.specs.FlashCalls.{AreFilled, IsThere, Lights, SameElsewhere};
ghost use Rattle.flash_device.specs.PageTables.{AreFree};
ghost use Rattle.flash_device.specs.declared.flash.TheConstants.{BLANK};
ghost use Rattle.spare_sectors.specs.SparePlaces.{all_sectors};
ghost use Rattle.spare_sectors.specs.SpareStates.{Blames, IsEntryRun, SpareState};
ghost use Rattle.spare_sectors.specs.declared.map_device.SparePart.TheVariants.{Entry, Map};

use flash_device::PageTable;
use nvm_board::DeviceErr;

/// The part of a device that a call reads, programs or erases.
#[derive(Clone, Copy, Debug, PartialEq, Eq)]
pub enum SparePart {
    /// A read or a program of words.
    Words,
    /// The erase of a sector.
    Sector(u16),
    /// A read of the map.
    Map,
    /// A program of an entry of the map.
    Entry(u16),
}

/// A flash device whose worn sectors are replaced by spare ones. A block has the map: 20 words for each spare. The
/// map is never erased in use.
pub trait MapDevice {
    /// The table of the sectors in working memory. It has an entry for each sector of the areas and the witness.
    type Map: PageTable;

    /// The number of sectors of an area. The witness has one.
    const SECTORS: u16;

    /// The number of spare sectors.
    const SPARES: u16;

    ghost SECTORS: { ℕ };

    ghost SPARES: { ℕ };

    /// All that contracts know of the device.
    ghost state: { Self → SpareState };

    /// Returns the word of the map at an address.
    fn read_map(&mut self, at: u32) -> Result<u32, DeviceErr>
        requires lit { (state self.old).flash.dark ≡ false }
        requires within { at < 20 * SPARES }
        ensures word { IfOk result (λ w. w ≡ slice_index (state self.old).map at) }
        ensures words { (state self.new).flash.words ≡ (state self.old).flash.words }
        ensures map { (state self.new).map ≡ (state self.old).map }
        ensures work { (state self.new).flash.operations ≡ (state self.old).flash.operations }
        ensures erases { (state self.new).flash.erases ≡ (state self.old).flash.erases }
        ensures programs { (state self.new).programs ≡ (state self.old).programs }
        ensures kept { (state self.new).flash.kept ≡ (state self.old).flash.kept }
        ensures begun { (state self.new).begun ≡ (state self.old).begun }
        ensures blames { Blames Map (state self.old) (state self.new) result }
        ensures light { Lights (state self.old).flash (state self.new).flash result };

    /// Programs the number or the mark of an entry of the map, which is blank. After an error each word of it holds
    /// anything. No other word changes.
    fn program_map(&mut self, at: u32, words: &[u32]) -> Result<(), DeviceErr>
        requires lit { (state self.old).flash.dark ≡ false }
        requires run { IsEntryRun at (length words.now) }
        requires blank { AreFilled (state self.old).map at (length words.now) BLANK }
        requires within { at + length words.now ≤ 20 * SPARES }
        ensures done { OnOk result (IsThere (state self.new).map at words.now) }
        ensures elsewhere { SameElsewhere (state self.old).map at (length words.now) (state self.new).map }
        ensures words { (state self.new).flash.words ≡ (state self.old).flash.words }
        ensures work { (state self.new).flash.operations ≤ (state self.old).flash.operations + 1 }
        ensures erases { (state self.new).flash.erases ≡ (state self.old).flash.erases }
        ensures programs { (state self.new).programs ≡ (state self.old).programs }
        ensures begun { (state self.new).begun ≡ max (state self.old).begun ((at + length words.now + 19) / 20) }
        ensures blames { Blames (Entry (at / 20)) (state self.old) (state self.new) result }
        ensures light { Lights (state self.old).flash (state self.new).flash result };

    /// Entries of the map in which, or behind which, no program was begun are blank.
    ghost unbegun: { (device : Self) → AreFree (state device).map 0 (state device).begun SPARES };

    /// Sectors have numbers of 16 bits.
    ghost numbers_fit: { all_sectors SECTORS SPARES < 65536 };

    ghost map_fits: { (map : Self.Map) → length (Self.Map.entries map) ≡ 2 * SECTORS + 1 };
}

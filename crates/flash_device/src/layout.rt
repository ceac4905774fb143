//! Where things lie in the flash.
ghost use Rattle.std.specs.Prelude.{◌≡◌, ◌+◌, ◌<◌, ◌≤◌};
ghost use Rattle.flash_device.specs.FlashBlocks.{area_size, flash_size, steps_of};
ghost use Rattle.flash_device.specs.FlashLogs.{slot_of, base_in, close_of};
ghost use Rattle.flash_device.specs.ProgrammedRuns.{IsClosePlace, IsSlotPlace};
ghost use Rattle.flash_device.specs.declared.flash.TheConstants.{BLOCKS};

use crate::flash::Flash;

/// The number of slots of an area that a move may pass over, since they fail.
pub const SPARES: u16 = 255;

/// The number of pages that one step of a move copies.
pub const STEP_PAGES: u16 = 16;

/// The number of words of a slot: a record, and its mark.
pub const SLOT_WORDS: u32 = 20;

/// The number of words of a record: those of a page, the number of the page, and one that is not used.
pub const RECORD_WORDS: u32 = 18;

/// The place of the number of the page in a record.
pub const NUMBER_PLACE: u32 = 16;

/// The place of the word of a record that is not used. It is 0.
pub const UNUSED_PLACE: u32 = 17;

/// The first word of a mark.
pub const FIRST_MARK: u32 = 0x436F_6D6D;

/// The second word of a mark.
pub const SECOND_MARK: u32 = 0x6974_7321;

/// The number of steps that copy all pages.
pub fn copy_steps<F: Flash>() -> u16
    ensures { result ≡ steps_of F.PAGES }
{
    F::PAGES / STEP_PAGES
}

/// The number of words of an area of so many slots, with the mark that closes it.
pub fn area_words(slots: u16) -> u32
    ensures is { result ≡ area_size slots }
    ensures most { result ≤ 1310702 }
{
    SLOT_WORDS * u32::from(slots) + 2
}

/// The number of words of a flash with so many slots in each area: two areas and the witness.
pub fn flash_words(slots: u16) -> u32
    ensures { result ≡ flash_size slots }
{
    let area = area_words(slots);
    area + area + 2
}

/// The address of an area.
fn base_of<F: Flash>(area: u8) -> u32
    ensures is { result ≡ base_in F.SLOTS area }
    ensures most { result ≤ 1310702 }
{
    if area == 0 { 0 } else { area_words(F::SLOTS) }
}

/// The address of a slot of an area.
pub fn slot_at<F: Flash>(area: u8, slot: u16) -> u32
    requires { slot < F.SLOTS }
    ensures is { result ≡ slot_of (base_in F.SLOTS area) slot }
    ensures within { result + 20 ≤ flash_size F.SLOTS }
    ensures place { IsSlotPlace F.SLOTS result }
{
    base_of::<F>(area) + SLOT_WORDS * u32::from(slot)
}

/// The address of the mark that closes a block.
pub fn close_at<F: Flash>(block: u8) -> u32
    requires { block < BLOCKS }
    ensures is { result ≡ close_of F.SLOTS block }
    ensures within { result + 2 ≤ flash_size F.SLOTS }
    ensures place { IsClosePlace F.SLOTS result }
{
    let area = area_words(F::SLOTS);
    match block {
        0 => area - 2,
        1 => area + area - 2,
        _ => area + area,
    }
}

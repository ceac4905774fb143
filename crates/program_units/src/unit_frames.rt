//! Where the words of a log lie on a device with program units.
ghost use Rattle.std.specs.Prelude.{◌≡◌, ◌<◌, ◌≤◌, ◌+◌, ◌*◌, max};
ghost use Rattle.flash_device.specs.FlashBlocks.{flash_size};
ghost use Rattle.program_units.specs.UnitFrames.{KeepsMarksApart, KeepsWordsApart, device_size, frame_count};
ghost use Rattle.program_units.specs.UnitFrames.{frame_in, frame_of, frame_start, place_in, rank_in, rank_of};
ghost use Rattle.program_units.specs.UnitWords.{rest_at};

use crate::unit_device::UnitDevice;
use flash_device::{RECORD_WORDS, SLOT_WORDS};

/// The number of words of a frame.
pub const FRAME_WORDS: u32 = 32;

/// The place of a mark in its frame. Whatever the unit, it is no place in the last unit of the record.
pub const MARK_PLACE: u32 = 24;

/// The number of words of a device with so many slots in each area.
pub fn device_words(slots: u16) -> u32
    ensures { result ≡ device_size slots }
{
    FRAME_WORDS * (2 * u32::from(slots) + 3)
}

/// A word of a frame: the number of the frame, and the rank of the word there.
#[derive(Clone, Copy)]
pub struct Spot {
    pub frame: u32,
    pub rank: u32,
}

/// The word of an area at an address there, in the frames behind `before`.
fn spot_in(slots: u32, before: u32, at: u32) -> Spot
    requires slots { slots < 65536 }
    requires before { before ≤ slots + 1 }
    requires at { at < 20 * slots + 2 }
    ensures frame { result.frame ≡ before + frame_in slots at }
    ensures rank { result.rank ≡ rank_in slots at }
{
    if at >= SLOT_WORDS * slots {
        Spot {
            frame: before + slots,
            rank: RECORD_WORDS + (at - SLOT_WORDS * slots),
        }
    } else {
        Spot {
            frame: before + at / SLOT_WORDS,
            rank: at % SLOT_WORDS,
        }
    }
}

/// The word of the log at an address.
pub fn spot_of<D: UnitDevice>(at: u32) -> Spot
    requires { at < flash_size D.SLOTS }
    ensures frame { result.frame ≡ frame_of D.SLOTS at }
    ensures rank { result.rank ≡ rank_of D.SLOTS at }
    ensures within { result.frame < frame_count D.SLOTS }
    ensures few { result.rank < 20 }
{
    let slots = u32::from(D::SLOTS);
    let area = SLOT_WORDS * slots + 2;
    if at >= area + area {
        return Spot {
            frame: 2 * slots + 2,
            rank: RECORD_WORDS + (at - (area + area)),
        };
    }
    if at >= area {
        spot_in(slots, slots + 1, at - area)
    } else {
        spot_in(slots, 0, at)
    }
}

/// The first address of the log that lies in a frame or behind it.
pub fn start_of<D: UnitDevice>(frame: u32) -> u32
    ensures { result ≡ frame_start D.SLOTS frame }
{
    let slots = u32::from(D::SLOTS);
    let witness = 2 * (SLOT_WORDS * slots + 2);
    if frame <= slots {
        SLOT_WORDS * frame
    } else if frame <= 2 * slots + 1 {
        // The close mark of area A is shorter than a slot.
        SLOT_WORDS * frame - RECORD_WORDS
    } else if frame <= 2 * slots + 2 {
        witness
    } else {
        witness + 2
    }
}

/// The place of a word on the device.
pub fn place_at(spot: Spot) -> u32
    requires frame { spot.frame < 131073 }
    requires rank { spot.rank < 20 }
    ensures is { result ≡ place_in spot.frame spot.rank }
    ensures most { result < 32 * spot.frame + 26 }
{
    let in_frame = if spot.rank >= RECORD_WORDS {
        MARK_PLACE + (spot.rank - RECORD_WORDS)
    } else {
        spot.rank
    };
    FRAME_WORDS * spot.frame + in_frame
}

/// Where the words begin that fill the last unit of the part of a frame that has this word.
pub fn rest_of(spot: Spot) -> u32
    requires { spot.frame < 131073 }
    ensures is { result ≡ rest_at spot.frame spot.rank }
    ensures most { result ≤ 32 * spot.frame + 26 }
{
    let in_frame = if spot.rank >= RECORD_WORDS {
        MARK_PLACE + 2
    } else {
        RECORD_WORDS
    };
    FRAME_WORDS * spot.frame + in_frame
}

/// The number of words that the last two words of a part take on the device: those of a unit, or two.
pub fn pair_words<D: UnitDevice>() -> u32
    ensures is { result ≡ max 2 D.UNIT }
    ensures few { result ≤ 8 }
{
    if D::UNIT > 2 { D::UNIT } else { 2 }
}

/// Proves that each word of the log has a place of its own on the device, and that no unit has words of a record and of
/// a mark.
pub fn words_lie_apart<D: UnitDevice>()
    ensures words { KeepsWordsApart D.SLOTS }
    ensures marks { KeepsMarksApart D.UNIT D.SLOTS }
{}

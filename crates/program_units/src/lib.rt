//! A layer between a chip and the log of `flash_log`: a chip that programs whole units takes the log too, and that of
//! `sector_log` if its sectors are small.
#![tactic(auto)]

mod small_unit_device;
mod unit_calls;
mod unit_device;
mod unit_flash;
mod unit_frames;

pub use small_unit_device::SmallUnitDevice;
pub use unit_device::{UnitDevice, UnitSocket};
pub use unit_flash::UnitFlash;
pub use unit_frames::{FRAME_WORDS, MARK_PLACE, device_words, words_lie_apart};

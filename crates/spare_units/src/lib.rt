//! A layer between a chip and the log of `flash_log`: spare sectors of the chip replace worn ones, where it programs
//! whole units. A chip whose sectors are small takes the log of `sector_log` too.
#![tactic(auto)]

mod small_spare_unit_device;
mod spare_frames;
mod spare_unit_calls;
mod spare_unit_device;
mod spare_units;

pub use small_spare_unit_device::SmallSpareUnitDevice;
pub use spare_unit_device::{SpareUnitDevice, SpareUnitSocket};
pub use spare_units::SpareUnits;

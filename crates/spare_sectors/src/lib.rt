//! A layer between a chip and the log of `flash_log`: spare sectors of the chip replace worn ones. A chip whose sectors
//! are small takes the log of `sector_log` too.
#![tactic(auto)]

mod map_device;
mod small_spare_device;
mod spare_calls;
mod spare_device;
mod spare_flash;
mod spare_map;
mod spare_places;

pub use map_device::{MapDevice, SparePart};
pub use small_spare_device::SmallSpareDevice;
pub use spare_calls::{SectorMap, learn};
pub use spare_device::{SpareDevice, SpareSocket};
pub use spare_flash::SpareFlash;
pub use spare_map::{put_mark, put_number};
pub use spare_places::lies_at;

//! Chips that are simulated in working memory, for tests: flashes that leave garbage where they lose power or fail,
//! with program units, with spare sectors, with both, with small sectors, and with 4,096 pages.
#![tactic(auto)]

mod random;
mod sim_flash;
mod sim_spare_units;
mod sim_spares;
mod sim_units;
mod small_sectors;
mod spare_sizes;
mod unit_sectors;
mod unit_sizes;
mod wide_flash;

pub use random::Random;
pub use sim_flash::SimFlash;
pub use sim_spare_units::SimSpareUnits;
pub use sim_spares::SimSpares;
pub use sim_units::SimUnits;
pub use small_sectors::SmallSectorFlash;
pub use spare_sizes::{LargeSpares, SmallSpares, SpareSizes};
pub use unit_sectors::{LargeSectors, SmallSectors, UnitSectors};
pub use unit_sizes::{Eight, Four, One, Two, UnitSize};
pub use wide_flash::WideFlash;

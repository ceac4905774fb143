//! PINs on a store. A try is used up permanently before any comparison. Only the receipt of a charge leads to a
//! comparison, and exactly one call consumes it.
#![tactic(auto)]

mod charging;
mod checking;
mod errors;
pub mod laws;
mod layout;
mod naming;
mod putting;
mod secret;
mod settling;
mod words;

pub use charging::{Charged, charge, is_enabled, tries};
pub use checking::{are_marks, are_pins};
pub use errors::{Outcome, PinErr};
pub use layout::{FIRST_PIN_PAGE, PIN_MARK_WORD, PINS};
pub use naming::names_pins;
pub use secret::Secret;
pub use settling::{change, reset_counter, set_enabled, settle};

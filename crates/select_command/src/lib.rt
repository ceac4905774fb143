//! SELECT: the file that it reaches, the session after it, and the template that it returns (ISO/IEC 7816-4, 11.2.2).
#![tactic(auto)]

mod select;
mod templates;

pub use select::select_file;

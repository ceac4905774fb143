//! The direction of a search of records (SEARCH RECORD, ISO/IEC 7816-4, 11.4.7).

/// The direction of a search from the record where it begins.
#[derive(Clone, Copy)]
pub enum Direction {
    /// Up to the last record.
    Forward,
    /// Down to record 1.
    Backward,
}

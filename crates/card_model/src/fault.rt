//! The faults of a template.

/// The fault of a text that is no template. A text with several faults has the least of them.
#[derive(Clone, Copy, PartialEq, Eq)]
pub enum FcpFault {
    /// The text isn't tag 62, a length byte, objects of that length.
    Shape = 1,
    /// A required object is missing.
    Missing = 2,
    /// A tag of the table occurs twice.
    Twice = 3,
    /// The table doesn't allow the tag, length or value of an object.
    Value = 4,
}

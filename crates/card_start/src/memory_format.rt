//! The two formats of a memory.

/// The format of a memory, from the mark of its header. Power-on migrates format 1 to 2.
#[derive(Clone, Copy, Debug, PartialEq, Eq)]
pub enum MemoryFormat {
    /// Format 1: the blocks end at page 1,024.
    One,
    /// Format 2: the header says where the blocks end.
    Two,
}

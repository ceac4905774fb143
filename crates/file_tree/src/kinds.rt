//! Kinds of file entries.

ghost use Rattle.std.specs.Prelude.{◌≡◌, ◌<◌, IfSome, IsNone};
ghost use Rattle.file_tree.specs.Kinds.{kind_byte};

/// The kind of an entry, as the first byte of its page.
#[derive(Clone, Copy)]
pub enum EntryKind {
    /// The entry is free.
    Free,
    /// A DF.
    Dedicated,
    /// A transparent EF: its content is a list of bytes.
    Transparent,
    /// An EF of records, numbered in the order of their creation.
    Linear,
    /// An EF of records, numbered from the newest to the oldest.
    Cyclic,
}

impl EntryKind {
    /// Returns the kind for a byte. The bytes from 5 on have none.
    pub const fn from_byte(byte: u8) -> Option<EntryKind>
        ensures some { IfSome result (λ kind. byte ≡ kind_byte kind) }
        ensures none { IsNone result → 4 < byte }
    {
        match byte {
            0 => Some(EntryKind::Free),
            1 => Some(EntryKind::Dedicated),
            2 => Some(EntryKind::Transparent),
            3 => Some(EntryKind::Linear),
            4 => Some(EntryKind::Cyclic),
            _ => None,
        }
    }

    /// Returns the byte of this kind, the inverse of `from_byte`.
    pub const fn to_byte(self) -> u8
        ensures { result ≡ kind_byte self }
    {
        match self {
            EntryKind::Free => 0,
            EntryKind::Dedicated => 1,
            EntryKind::Transparent => 2,
            EntryKind::Linear => 3,
            EntryKind::Cyclic => 4,
        }
    }
}

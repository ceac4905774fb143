//! File control parameters as a value (ISO/IEC 7816-4, 7.4.3).

ghost use Rattle.std.specs.Prelude.{◌≡◌, ◌≤◌, length, Some, None, nat_le, ◌&&◌, if◌then◌else◌};

use crate::limits::MOST_NAME_BYTES;
use crate::{Compact, LifeCycle};
use std::marker::Model;

/// The file control parameters of one file. The name is borrowed from the text it was read from.
#[derive(Drop)]
pub struct Fcp<'a> {
    pub identifier: u16,
    pub life_cycle: LifeCycle,
    pub rule: Compact,
    pub kind: FileKind<'a>,
}

/// The kind of a file, with the parameters of this kind alone.
#[derive(Drop)]
pub enum FileKind<'a> {
    /// A dedicated file (DF), with or without a name.
    Df {
        name: Option<DfName<'a>>,
    },
    /// An elementary file (EF) of `size` bytes, 1 to 32,767.
    Transparent {
        short: ShortIdentifier,
        size: u16,
    },
    /// An EF of records, numbered in the order of their creation.
    Linear {
        short: ShortIdentifier,
        records: Records,
    },
    /// An EF of records, numbered from the newest to the oldest.
    Cyclic {
        short: ShortIdentifier,
        records: Records,
    },
}

impl<'a> FileKind<'a> {
    ghost use Rattle.card_model.specs.FileControl.{name_bytes, short_of_kind, size_of_kind};

    /// Returns the name, 1 to 16 bytes, or no bytes without one.
    pub fn name(&self) -> &'a [u8]
        ensures { result.now ≡ name_bytes self.now }
    {
        match self {
            FileKind::Df { name: Some(name) } => name.as_bytes(),
            _ => &[],
        }
    }

    /// Returns the short identifier, `Absent` for a DF.
    pub fn short(&self) -> ShortIdentifier
        ensures { result ≡ short_of_kind self.now }
    {
        match self {
            FileKind::Df { .. } => ShortIdentifier::Absent,
            FileKind::Transparent { short, .. } => *short,
            FileKind::Linear { short, .. } | FileKind::Cyclic { short, .. } => *short,
        }
    }

    /// Returns the size: 1 to 32,767 bytes, 0 for a DF.
    pub fn size(&self) -> u16
        ensures { result ≡ size_of_kind self.now }
    {
        match self {
            FileKind::Df { .. } => 0,
            FileKind::Transparent { size, .. } => *size,
            FileKind::Linear { records, .. } | FileKind::Cyclic { records, .. } => records.size,
        }
    }
}

/// The short identifier of an EF, as its parameters give it.
#[derive(Clone, Copy)]
pub enum ShortIdentifier {
    /// The parameters don't mention a short identifier.
    Absent,
    /// The file has no short identifier.
    Empty,
    /// The short identifier, 1 to 30.
    Given(u8),
}

/// The records of an EF.
#[derive(Clone, Copy)]
pub struct Records {
    /// The size of the EF in bytes, 1 to 32,767. It is a multiple of the record length, and at most 254 records.
    pub size: u16,
    /// The length of a record in bytes, 1 to 255.
    pub record_length: u8,
    /// The number of records that exist.
    pub existing: u8,
}

/// The name of a DF, 1 to 16 bytes.
#[derive(Drop)]
pub struct DfName<'a> {
    bytes: &'a [u8],
}

impl<'a> Model for DfName<'a> {
    ghost use Rattle.std.specs.Prelude.{ℕ, List, length, ◌≤◌};

    ghost Value = { List ℕ };

    ghost view = { λ name. name.bytes.now };

    ghost invariant = { λ name. (1 ≤ length name.bytes.now) × (length name.bytes.now ≤ 16) };
}

impl<'a> DfName<'a> {
    /// Returns a name of these bytes, or `None` unless 1 to 16.
    pub fn new(bytes: &'a [u8]) -> Option<DfName<'a>>
        ensures { result ≡ (if nat_le 1 (length bytes.now) && nat_le (length bytes.now) 16 then Some bytes.now else
            None) }
    {
        if (1..=MOST_NAME_BYTES).contains(&bytes.len()) {
            Some(DfName { bytes })
        } else {
            None
        }
    }

    /// Returns the bytes of the name, 1 to 16.
    pub fn as_bytes(&self) -> &'a [u8]
        ensures value { result.now ≡ self.now }
        ensures some { 1 ≤ length self.now }
        ensures few { length self.now ≤ 16 }
    {
        self.bytes
    }
}

//! The file descriptor, which gives the kind of a file.

ghost use Rattle.std.specs.Prelude.{◌≡◌};
ghost use Rattle.card_model.specs.TemplateGrammar.{plain_descriptor, structure_of, record_descriptor, descriptor_of};

use card_model::{Descriptor, Structure};

/// The bit of a descriptor byte for a shareable file.
/// CREATE FILE may set it or not; an answer sets it.
const SHAREABLE: u8 = 0x40;

/// The descriptor byte of a DF.
pub(crate) const DF: u8 = 0x38;

/// The descriptor byte of a transparent EF.
const TRANSPARENT: u8 = 0x01;

/// The descriptor byte of a linear EF.
const LINEAR: u8 = 0x02;

/// The descriptor byte of a cyclic EF.
const CYCLIC: u8 = 0x06;

/// The descriptor byte of a DF that is shareable.
pub(crate) const SHAREABLE_DF: u8 = DF | SHAREABLE;

/// The descriptor byte of a transparent EF that is shareable.
pub(crate) const SHAREABLE_TRANSPARENT: u8 = TRANSPARENT | SHAREABLE;

/// The descriptor byte of a linear EF that is shareable.
pub(crate) const SHAREABLE_LINEAR: u8 = LINEAR | SHAREABLE;

/// The descriptor byte of a cyclic EF that is shareable.
pub(crate) const SHAREABLE_CYCLIC: u8 = CYCLIC | SHAREABLE;

/// The data coding byte after the descriptor byte in an answer. CREATE FILE ignores it.
pub(crate) const DATA_CODING: u8 = 0x21;

/// Returns the descriptor in the value of an object 82.
pub(crate) fn descriptor_of(value: &[u8]) -> Option<Descriptor>
    ensures { result ≡ descriptor_of value.now }
{
    match *value {
        [byte] | [byte, _] => plain_descriptor(byte),
        [byte, _, high, low] => record_descriptor(byte, u16::from_be_bytes([high, low]), None),
        [byte, _, high, low, existing] => {
            record_descriptor(byte, u16::from_be_bytes([high, low]), Some(existing))
        }
        _ => None,
    }
}

/// Returns the descriptor of a file without records, from its byte.
fn plain_descriptor(byte: u8) -> Option<Descriptor>
    ensures { result ≡ plain_descriptor byte }
{
    match byte {
        DF | SHAREABLE_DF => Some(Descriptor::Df),
        TRANSPARENT | SHAREABLE_TRANSPARENT => Some(Descriptor::Transparent),
        _ => None,
    }
}

/// Returns the descriptor of a record file, from its byte.
fn record_descriptor(byte: u8, record_length: u16, existing: Option<u8>) -> Option<Descriptor>
    ensures { result ≡ record_descriptor (structure_of byte) record_length existing }
{
    let structure = structure_of(byte)?;
    Some(Descriptor::Records {
        structure,
        record_length,
        existing,
    })
}

/// Returns the structure of a record file, from its descriptor byte.
fn structure_of(byte: u8) -> Option<Structure>
    ensures { result ≡ structure_of byte }
{
    match byte {
        LINEAR | SHAREABLE_LINEAR => Some(Structure::Linear),
        CYCLIC | SHAREABLE_CYCLIC => Some(Structure::Cyclic),
        _ => None,
    }
}

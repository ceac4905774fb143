//! The file descriptor: the kind of a file (ISO/IEC 7816-4, 7.4.5).

/// The order in which the records of an EF are numbered.
#[derive(Clone, Copy)]
pub enum Structure {
    Linear,
    Cyclic,
}

/// The meaning of a file descriptor.
#[derive(Clone, Copy)]
pub enum Descriptor {
    Df,
    Transparent,
    Records {
        structure: Structure,
        record_length: u16,
        /// The number of records that exist; `None` if all that fit do.
        existing: Option<u8>,
    },
}

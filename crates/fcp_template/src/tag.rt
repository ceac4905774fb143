//! The tags of a template of file control parameters.

ghost use Rattle.std.specs.Prelude.{◌≡◌};
ghost use Rattle.fcp_template.specs.TagParts.{tag_byte};
ghost use Rattle.card_model.specs.TemplateGrammar.{is_tag};

/// The tag of a template of file control parameters (ISO/IEC 7816-4, 7.4.3).
pub(crate) const TEMPLATE: u8 = 0x62;

/// The tags that the card reads or writes (ISO/IEC 7816-4, 7.4.3).
#[derive(Clone, Copy)]
pub(crate) enum Tag {
    DataBytes,
    FileDescriptor,
    FileIdentifier,
    Name,
    ShortFileIdentifier,
    LifeCycleStatus,
    CompactRule,
}

/// Returns true if a byte is a tag of file control parameters.
/// Three of them have no effect: the size with overhead (81), proprietary data (A5) and the status of PINs (C6).
pub(crate) const fn is_tag(byte: u8) -> bool
    ensures { result ≡ is_tag byte }
{
    matches!(byte, 0x80..=0x84 | 0x88 | 0x8A | 0x8C | 0xA5 | 0xC6)
}

impl Tag {
    /// Returns the byte of the tag.
    pub(crate) const fn byte(self) -> u8
        ensures { result ≡ tag_byte self }
    {
        match self {
            Tag::DataBytes => 0x80,
            Tag::FileDescriptor => 0x82,
            Tag::FileIdentifier => 0x83,
            Tag::Name => 0x84,
            Tag::ShortFileIdentifier => 0x88,
            Tag::LifeCycleStatus => 0x8A,
            Tag::CompactRule => 0x8C,
        }
    }
}

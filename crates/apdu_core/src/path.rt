//! Paths in the data field of SELECT (ISO/IEC 7816-4, 7.2.2).
ghost use Rattle.std.specs.Prelude.{◌≡◌, ◌<◌, Some, None, length, slice_index, if◌then◌else◌, option_map, IfSome};
ghost use Rattle.apdu_core.specs.ParsedCommands.{IsFilePath, identifiers_in};
ghost use Rattle.card_model.specs.Requests.{identifiers, is_path};

use byteorder::{BigEndian, ByteOrder};

/// The most bytes of a path: 7 identifiers of two bytes.
/// The master file is at level 1, and no file is below level 8.
const LONGEST_PATH: usize = 14;

/// A path of 1 to 7 identifiers, each two bytes, big-endian.
#[derive(Clone, Copy)]
pub struct FilePath<'a> {
    bytes: &'a [u8],
}

impl<'a> FilePath<'a> {
    /// Returns the path of these bytes: 1 to 7 identifiers.
    #[tactic(auto, using(card_model::specs::laws::Identifiers::identifiers_counted))]
    pub fn new(bytes: &'a [u8]) -> Option<FilePath<'a>>
        ensures identifiers { option_map identifiers_in result
            ≡ (if is_path (length bytes.now) then Some (identifiers bytes.now) else None) }
        ensures ranges { IfSome result IsFilePath }
    {
        if bytes.len() % 2 == 0 && (2..=LONGEST_PATH).contains(&bytes.len()) {
            Some(FilePath { bytes })
        } else {
            None
        }
    }

    /// Returns the number of identifiers.
    #[tactic(auto, using(card_model::specs::laws::Identifiers::identifiers_counted))]
    pub fn count(self) -> usize
        ensures { result ≡ length (identifiers_in self.entry) }
    {
        self.bytes.len() / 2
    }

    /// Returns the identifier at an index, from 0.
    #[tactic(auto, using(card_model::specs::laws::Identifiers::identifier_at))]
    pub fn identifier(self, index: usize) -> u16
        requires { index < length (identifiers_in self) }
        ensures { result ≡ slice_index (identifiers_in self.entry) index }
    {
        let first = 2 * index;
        BigEndian::read_u16(&[self.bytes[first], self.bytes[first + 1]])
    }
}

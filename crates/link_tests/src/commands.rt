//! The bytes of short commands (ISO/IEC 7816-4, clause 5) that no script can send, or whose values no answer shows.
//! The rows test all others.

use apdu_core::{BinaryPlace, Command, Returned, Selector, Sw, Target};

/// Returns true if this is SELECT of 2FE2 with Le 5.
/// It returns no data.
fn has_le(bytes: &[u8]) -> bool {
    matches!(
        Command::parse(bytes),
        Ok(Command::Select {
            selector: Selector::Identifier(0x2FE2),
            returned: Returned::Nothing,
            expected: Some(0x05),
        })
    )
}

/// Parses an UPDATE BINARY of 255 bytes at the last offset.
/// Returns true if it is that command, and false if its length is wrong.
fn reads_longest(bytes: &[u8]) -> Option<bool> {
    match Command::parse(bytes) {
        Ok(
            Command::UpdateBinary {
                place: BinaryPlace {
                    target: Target::Current,
                    offset: 32_767,
                },
                bytes,
            },
        ) => Some(bytes.len() == 255),
        Err(Sw(0x6700)) => Some(false),
        _ => None,
    }
}

/// Returns true if a command is parsed in its full length only.
/// It has a wrong length without a byte, without a whole header, with a byte less, or with Le. The same holds for two
/// bytes more than Lc says.
fn is_read_whole(bytes: &[u8; 262]) -> bool {
    reads_longest(&bytes[..260]) == Some(true)
        && reads_longest(&[]) == Some(false)
        && reads_longest(&bytes[..3]) == Some(false)
        && reads_longest(&bytes[..259]) == Some(false)
        && reads_longest(&bytes[..261]) == Some(false)
        && reads_longest(bytes) == Some(false)
}

#[test]
fn commands_of_any_length_are_read(rt: HostRuntime) {
    let mut longest = [0xA5; 262];
    longest[..5].copy_from_slice(&[0x00, 0xD6, 0x7F, 0xFF, 0xFF]);
    let named = [0x00, 0xA4, 0x00, 0x0C, 0x02, 0x2F, 0xE2, 0x05];
    assert!(rt; is_read_whole(&longest) && has_le(&named));
}

//! Access rules in the compact format (ISO/IEC 7816-4), also in states of a file that no command meets.

use card_model::AccessBit::{Activate, CreateDf, DeleteChild, DeleteSelf, Terminate};
use card_model::LifeCycle::{Activated, Creation, Deactivated, Initialisation};
use card_model::{AccessBit, AccessMode, Compact, LifeCycle, PinNumber, PinSet};
use std::test::Fail;

fn set_of(pins: &[u8]) -> PinSet {
    let mut set = PinSet::new();
    for number in pins {
        if let Some(pin) = PinNumber::new(*number) {
            set.insert(pin);
        }
    }
    set
}

// What the rule of the factory card's master file allows, for these verified and disabled PINs. Bit 6 requires PIN 8,
// bits 3 to 1 are always allowed, all others never.
const ASKED: &[(AccessBit, LifeCycle, &[u8], &[u8], bool)] = &[
    (Terminate, Activated, &[], &[], false),
    (
        Terminate,
        Activated,
        &[1, 2, 3, 4, 5, 6, 7],
        &[1, 2, 3, 4, 5, 6, 7],
        false,
    ),
    (Terminate, Activated, &[8], &[], true),
    (Terminate, Activated, &[], &[8], true),
    (CreateDf, Activated, &[], &[], true),
    (DeleteChild, Deactivated, &[], &[], true),
    (DeleteSelf, Activated, &[8], &[8], false),
    (Activate, Deactivated, &[8], &[8], false),
    // In the states of creation and initialisation a rule allows everything.
    (DeleteSelf, Creation, &[], &[], true),
    (Activate, Initialisation, &[], &[], true),
];

#[test]
fn asks_a_rule(rt: HostRuntime) -> Result<(), Fail> {
    let rule = Compact::parse(&[0x27, 0x18, 0x00, 0x00, 0x00]).ok_or("a rule")?;
    for &(bit, state, verified, disabled, want) in ASKED {
        assert!(rt;
            rule.allows(bit, state, &set_of(verified), &set_of(disabled)) == want,
            "at {bit:?}"
        );
    }
    Ok(())
}

/// Returns true for the mode of bits 7 and 1.
fn deletes_and_reads(mode: AccessMode) -> bool {
    mode == AccessMode::DELETE_SELF | AccessMode::READ
        && mode.has(AccessBit::Read)
        && !mode.has(AccessBit::Update)
}

#[test]
fn names_access_bits(rt: HostRuntime) {
    assert!(rt; AccessMode::from_byte(0x41).is_some_and(deletes_and_reads));
    assert!(rt; AccessMode::from_byte(0x80).is_none());
    assert!(rt; AccessBit::Append.number() == 3 && AccessBit::Append.flag() == AccessMode::APPEND);
}

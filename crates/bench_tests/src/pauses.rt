//! A card is paused between two blocks, the old words of its journal are wiped, and it goes on as if it weren't.
ghost use Rattle.std.specs.Prelude.{◌≡◌, IfOk};

use card_tests::fixtures::formatted;
use card_turns::Powered;
use link_tests::fixtures::framed;
use nvm_board::Board;
use simulated_boards::RamBoard;
use std::alloc::Global;
use std::test::Fail;
use t1_link::BlockBytes;
use undo_journal::wipe_pairs;

/// Commands before the pause, and their answers. CREATE FILE makes a file of three records of two bytes, with a rule
/// that asks PIN 1 for updates. Two records get their values, and the first becomes the current one.
const BEFORE: &[(&str, &str)] = &[
    (
        "00E000001D621B8205422100020383026F148801A0800200068A01058C0407001100",
        "9000",
    ),
    ("00DC0104024141", "6982"),
    ("002000010831323334FFFFFFFF", "9000"),
    ("00DC0104024141", "9000"),
    ("00DC0204024242", "9000"),
    ("00B2000202", "41419000"),
    ("00C0000000", "6D00"),
];

/// Commands after it, and their answers. READ RECORD goes on with the second record. UPDATE RECORD changes it, as PIN 1
/// is still verified.
const AFTER: &[(&str, &str)] = &[
    ("00B2000202", "42429000"),
    ("00DC0004024343", "9000"),
    ("00B2000402", "43439000"),
];

/// Sends commands in blocks, of which the first has this control byte. Returns true if these are the replies.
fn answers(
    alloc: Global,
    powered: &mut Powered<RamBoard>,
    first: u8,
    commands: &[(&str, &str)],
) -> Result<bool, Fail> {
    let mut control = first;
    let mut out = BlockBytes::new();
    for &(command, answer) in commands {
        let block = framed(alloc, control, command)?;
        let wanted = framed(alloc, control, answer)?;
        if powered.block(&block, &mut out).is_err() || out.as_slice() != wanted.as_slice() {
            return Ok(false);
        }
        control ^= 0x40;
    }
    Ok(true)
}

/// Takes a card from its board, wipes the pairs of its journal, and puts it back.
#[tactic(auto, using(undo_journal::specs::laws::Undo::sound_shut))]
fn renewed<B: Board + Drop>(powered: Powered<B>) -> Result<Powered<B>, Fail>
    ensures { IfOk result (λ p. (p.card.session ≡ powered.card.session) × (p.link ≡ powered.link)) }
{
    let Ok((mut board, paused)) = powered.pause() else {
        return Err(Fail::from("the card doesn't work"));
    };
    wipe_pairs(&mut board)?;
    match Powered::resume(board, paused) {
        Ok(powered) => Ok(powered),
        Err(_) => Err(Fail::from("not resumed")),
    }
}

/// Current file, record pointer, verified PINs and sequence numbers are those of a card that isn't paused.
#[test]
fn paused_card_goes_on(rt: HostRuntime) -> Result<(), Fail> {
    for pauses in [false, true] {
        let Ok(mut powered) = Powered::start(formatted(RamBoard::new(rt.alloc())?)?) else {
            return Err(Fail::from("no power-on"));
        };
        assert!(rt; answers(rt.alloc(), &mut powered, 0x00, BEFORE)?);
        if pauses {
            powered = renewed(powered)?;
        }
        assert!(rt; answers(rt.alloc(), &mut powered, 0x40, AFTER)?);
    }
    Ok(())
}

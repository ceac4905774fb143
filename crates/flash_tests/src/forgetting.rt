//! Old values of a PIN leave a flash: none is there behind the call, whatever a power loss or a fault left in it.

use crate::arrays::powered;
use card_core::{Answer, Card};
use card_start::format;
use card_turns::forget_on_flash;
use flash_board::FlashBoard;
use flash_moves::format_flash;
use simulated_chips::SimFlash;
use std::test::Fail;

/// Operations that lose power or fail: of VERIFY, of the write that clears the journal, of the renewal, and of the
/// writes that wipe the journal. A write tries again behind a fault.
const STOPS: [u32; 12] = [2, 5, 6, 7, 8, 40, 1000, 2050, 2056, 2060, 2070, 2150];

/// The value that the factory gives PIN 2.
const FIRST: Value = [0x31, 0x32, 0x33, 0x34];

/// A value of PIN 2 of four digits.
type Value = [u8; 4];

/// CHANGE REFERENCE DATA of PIN 2.
fn change(old: Value, new: Value) -> [u8; 21] {
    let [a, b, c, d] = old;
    let [e, f, g, h] = new;
    [
        0x00, 0x24, 0x00, 0x02, 0x10, a, b, c, d, 0xFF, 0xFF, 0xFF, 0xFF, e, f, g, h, 0xFF, 0xFF,
        0xFF, 0xFF,
    ]
}

/// VERIFY of PIN 2.
fn verify(value: Value) -> [u8; 13] {
    let [a, b, c, d] = value;
    [
        0x00, 0x20, 0x00, 0x02, 0x08, a, b, c, d, 0xFF, 0xFF, 0xFF, 0xFF,
    ]
}

/// Returns true if the card answers 9000.
fn is_done(card: &mut Card<FlashBoard<SimFlash>>, command: &[u8]) -> bool {
    let mut answer = Answer::new();
    card.command(command, &mut answer).is_ok() && answer.as_slice() == [0x90, 0x00].as_slice()
}

/// Powers the card of a flash on.
fn started(flash: SimFlash) -> Result<Card<FlashBoard<SimFlash>>, Fail> {
    match Card::start(powered(flash)?) {
        Ok(card) => Ok(card),
        Err(_) => Err(Fail::from("no card starts")),
    }
}

/// Returns the flash behind a change of PIN 2.
fn changed(flash: SimFlash, old: Value, new: Value) -> Result<SimFlash, Fail> {
    let mut flash = flash;
    flash.set(0, false);
    let mut card = started(flash)?;
    if !is_done(&mut card, &change(old, new)) {
        return Err(Fail::from("the PIN isn't changed"));
    }
    Ok(card.into_board().into_log().into_flash())
}

/// Pauses a card, lets its flash forget, and resumes it. A power loss or a fault gives the flash back.
fn forgotten(card: Card<FlashBoard<SimFlash>>) -> Result<Card<FlashBoard<SimFlash>>, SimFlash> {
    let (mut board, paused) = match card.pause() {
        Ok(parts) => parts,
        Err(card) => return Err(card.into_board().into_log().into_flash()),
    };
    if forget_on_flash(&mut board).is_err() {
        return Err(board.into_log().into_flash());
    }
    match Card::resume(board, paused) {
        Ok(card) => Ok(card),
        Err((board, _)) => Err(board.into_log().into_flash()),
    }
}

/// Verifies PIN 2, and lets the flash forget, again behind each power loss or fault. Behind it the card works.
/// Returns the flash, and how often it was stopped.
fn forget(flash: SimFlash, value: Value) -> Result<(SimFlash, u32), Fail> {
    let mut flash = flash;
    for stops in 0..4 {
        let mut card = started(flash)?;
        is_done(&mut card, &verify(value));
        match forgotten(card) {
            Ok(mut card) => {
                if !is_done(&mut card, &verify(value)) {
                    return Err(Fail::from("the card has another value"));
                }
                return Ok((card.into_board().into_log().into_flash(), stops));
            }
            Err(stopped) => flash = stopped,
        }
    }
    Err(Fail::from("the flash never forgets"))
}

#[test]
fn old_values_are_nowhere(rt: HostRuntime) -> Result<(), Fail> {
    let mut flash = SimFlash::new(rt.alloc(), 12)?;
    format_flash(&mut flash)?;
    let Ok(board) = format(powered(flash)?) else {
        return Err(Fail::from("no card is made"));
    };
    let mut old = [0x39, 0x30, 0x30, 0x30];
    flash = changed(board.into_log().into_flash(), FIRST, old)?;
    for k in 0..STOPS.len() {
        for fails in [false, true] {
            let new = [0x39, 0x31 + u8::from(fails), 0x41 + k as u8, 0x30];
            flash = changed(flash, old, new)?;
            assert!(rt; flash.has_word(u32::from_be_bytes(old)), "before stop {k}");
            flash.set(STOPS[k], fails);
            let (forgotten, stops) = forget(flash, new)?;
            flash = forgotten;
            assert!(rt;
                (stops == 1 || fails)
                    && !flash.has_word(u32::from_be_bytes(old))
                    && flash.has_word(u32::from_be_bytes(new)),
                "behind stop {k}"
            );
            old = new;
        }
    }
    Ok(())
}

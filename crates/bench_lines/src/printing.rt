//! Writes the output of script lines.
ghost use Rattle.std.specs.Prelude.{◌≡◌, ◌≤◌, ◌<◌, ℕ, length, take, slice_index, IfErr, OnErr, OnOk};
ghost use Rattle.std.specs.Io.KnownBytes.{Appends};
ghost use Rattle.hex.specs.Hex.{upper_digits};
ghost use Rattle.bench_lines.specs.Printouts.{prints_bytes, prints_free, text_of};

use crate::fault::RunFault;
use arrayvec::ArrayVec;
use card_model::FreeSpace;
use itoa::Buffer;
use std::io::Write;
use t1_link::LONGEST_ANSWER;

/// The answer to reset of the card.
pub const ATR: &[u8] = b"atr 3B808131FE458B\n";

/// The most bytes that the card sends at once.
/// They are those of an answer, as a block has no more.
const BYTES_ROOM: usize = LONGEST_ANSWER;

/// The space for a printed line.
/// It has a prefix, two digits a byte, and the line feed.
const PRINTED_ROOM: usize = 2 + 2 * BYTES_ROOM + 1;

/// The buffer for the text of bytes. Its contents between lines have no meaning.
pub type PrintedText = [u8; PRINTED_ROOM];

/// A new buffer.
pub const NO_TEXT: PrintedText = [0; PRINTED_ROOM];

/// The space for the line of the free space. Each of its two numbers has at most 40 digits, as `itoa` promises.
const FREE_ROOM: usize = 96;

/// Writes bytes of the card as a line of hexadecimal digits.
///
/// # Errors
/// `Write` if the writer fails, or takes nothing.
pub fn print_bytes<W: Write>(
    writer: &mut W,
    bytes: &[u8],
    text: &mut PrintedText,
) -> Result<(), RunFault>
    requires { length bytes.now ≤ BYTES_ROOM }
    ensures wrote { OnOk result
        (Appends (W.contents writer.old) (W.contents writer.new) (text_of (prints_bytes bytes.now))) }
    ensures began { OnErr result ((size : ℕ)
        × Appends (W.contents writer.old) (W.contents writer.new) (take size (text_of (prints_bytes bytes.now)))) }
    ensures fault { IfErr result (λ fault. fault ≡ RunFault.Write) }
{
    let size = spell(bytes, text);
    write_line(writer, &text[..size])
}

/// Writes the free space as a line.
///
/// # Errors
/// `Write` if the writer fails, or takes nothing.
// Not inlined, so that other lines don't pay for its buffers.
#[inline(never)]
pub fn print_free<W: Write>(writer: &mut W, free: FreeSpace) -> Result<(), RunFault>
    ensures wrote { OnOk result (Appends (W.contents writer.old) (W.contents writer.new) (text_of (prints_free free))) }
    ensures began { OnErr result ((size : ℕ)
        × Appends (W.contents writer.old) (W.contents writer.new) (take size (text_of (prints_free free)))) }
    ensures fault { IfErr result (λ fault. fault ≡ RunFault.Write) }
{
    let mut text = ArrayVec::new();
    tell(free, &mut text);
    write_line(writer, &text)
}

/// Formats bytes of the card as a line, and returns its size.
fn spell(bytes: &[u8], text: &mut PrintedText) -> usize
    requires { length bytes.now ≤ BYTES_ROOM }
    ensures within { result ≤ PRINTED_ROOM }
    ensures text { take result text.new ≡ text_of (prints_bytes bytes.now) }
{
    text[0] = b'<';
    text[1] = b' ';
    for i in 0..bytes.len() {
        let at = 2 + 2 * i;
        text[at] = digit_of(bytes[i] / 16);
        text[at + 1] = digit_of(bytes[i] % 16);
    }
    let end = 2 + 2 * bytes.len();
    text[end] = b'\n';
    end + 1
}

/// Returns the hexadecimal digit of a number.
// It is calculated, as the compiler then spells many bytes at once; from a table it takes them one by one.
#[tactic(auto, using(crate::proofs::Digits::decimal_digit, crate::proofs::Digits::letter_digit))]
fn digit_of(number: u8) -> u8
    requires { number < 16 }
    ensures { result ≡ slice_index upper_digits number }
{
    if number < 10 {
        b'0' + number
    } else {
        b'A' + (number - 10)
    }
}

/// Formats the free space as a line.
fn tell(free: FreeSpace, line: &mut ArrayVec<u8, FREE_ROOM>)
    ensures { line.new.items ≡ text_of (prints_free free) }
{
    let mut blocks = Buffer::new();
    let mut entries = Buffer::new();
    line.clear();
    line.try_extend_from_slice(b"free ").unwrap();
    line.try_extend_from_slice(blocks.format(free.blocks).as_bytes())
        .unwrap();
    line.push(b' ');
    line.try_extend_from_slice(entries.format(free.entries).as_bytes())
        .unwrap();
    line.push(b'\n');
}

/// Writes a whole line, and flushes.
///
/// # Errors
/// `Write` if the writer fails, or takes nothing.
pub fn write_line<W: Write>(writer: &mut W, line: &[u8]) -> Result<(), RunFault>
    ensures wrote { OnOk result (Appends (W.contents writer.old) (W.contents writer.new) line.now) }
    ensures began { OnErr result
        ((size : ℕ) × Appends (W.contents writer.old) (W.contents writer.new) (take size line.now)) }
    ensures fault { IfErr result (λ fault. fault ≡ RunFault.Write) }
{
    let mut written = 0;
    while written < line.len() {
        match writer.write(&line[written..]) {
            Ok(0) | Err(_) => return Err(RunFault::Write),
            Ok(count) => written += count,
        }
    }
    match writer.flush() {
        Ok(()) => Ok(()),
        Err(_) => Err(RunFault::Write),
    }
}

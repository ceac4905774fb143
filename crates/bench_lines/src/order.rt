//! Parses the order of a script line.
ghost use Rattle.std.specs.Prelude.{◌≡◌, ◌≤◌, ℕ, List, [], length, true};
ghost use Rattle.std.specs.List.{list_all};
ghost use Rattle.std.specs.Str.Parse.{digits_value};
ghost use Rattle.std.specs.Char.{is_ascii_digit};
ghost use Rattle.hex.specs.Hex.{decode_of};
ghost use Rattle.bench_lines.specs.OrderViews.{asked_with, given_if};
ghost use Rattle.bench_lines.specs.Orders.{bytes_in, cut_in, mask_by, number_in};

use std::marker::Model;
use t1_link::LONGEST_COMMAND;

/// The most bytes of a line, without its end.
pub(crate) const LINE_LIMIT: usize = 1024;

/// The most bytes of a command in a line.
pub const COMMAND_LIMIT: usize = LONGEST_COMMAND;

/// The most bytes of a block in a line.
pub const BLOCK_LIMIT: usize = 300;

/// The most digits of a number.
const NUMBER_DIGITS: usize = 6;

/// The bytes of a line, at most 300, written by `Order::parse`.
// The array's bytes after `size` have no meaning.
#[derive(Drop)]
pub struct GivenBytes {
    bytes: [u8; BLOCK_LIMIT],
    size: usize,
}

impl Model for GivenBytes {
    ghost use Rattle.std.specs.Prelude.{◌≤◌, ℕ, List, take};
    ghost use Rattle.bench_lines.specs.declared.order.TheConstants.{BLOCK_LIMIT};

    ghost Value = { List ℕ };

    ghost view = { λ given. take given.size given.bytes };

    ghost invariant = { λ given. given.size ≤ BLOCK_LIMIT };
}

impl GivenBytes {
    /// Returns an empty list.
    pub fn new() -> GivenBytes
        ensures { result ≡ [] }
    {
        GivenBytes {
            bytes: [0; BLOCK_LIMIT],
            size: 0,
        }
    }

    /// Returns the bytes.
    pub fn as_slice(&self) -> &[u8]
        ensures { result.now ≡ self.now }
    {
        &self.bytes[..self.size]
    }

    /// Stores the 1 to `limit` bytes that hexadecimal digits spell. Returns false if they spell none.
    fn decode(&mut self, digits: &[u8], limit: usize) -> bool
        requires { limit ≤ BLOCK_LIMIT }
        ensures { given_if result self.new ≡ bytes_in digits.now limit }
    {
        let size = digits.len() / 2;
        // Two comparisons, as `contains` of a range would need a proof for each end.
        if size == 0 || size > limit {
            return false;
        }
        self.size = size;
        match hex::decode_to_slice(digits, &mut self.bytes[..size]) {
            Ok(()) => true,
            Err(_) => false,
        }
    }
}

/// The order of a script line. Its bytes aren't in it, but in a buffer.
#[derive(Clone, Copy)]
pub enum Order {
    /// Nothing: an empty line or a comment.
    Nothing,
    /// Power off if it is on, and then power on.
    On,
    /// Power off.
    Off,
    /// Prints the free space.
    Free,
    /// Sends a command of 1 to 261 bytes through both ends.
    Apdu,
    /// Sends a block of 1 to 300 bytes to the card's end.
    Block,
    /// Cuts the device write with this number from now, 1 to 999,999.
    /// The mask says which of its words are new.
    Cut { number: u32, mask: u16 },
    /// Loses the block with this number from now, 1 to 999,999.
    Lose(u32),
    /// Garbles the block with this number from now, 1 to 999,999.
    Garble(u32),
}

impl Order {
    ghost use Rattle.bench_lines.specs.Orders.{order_of};

    /// Parses a line, without its end. Returns `None` for a bad line.
    /// A line is bad if it has no valid order, or more than 1,024 bytes. The bytes of a command or a block replace
    /// the contents of the buffer.
    #[tactic(auto, unfolding(crate::specs::Orders::order_of))]
    pub fn parse(line: &[u8], given: &mut GivenBytes) -> Option<Order>
        ensures { asked_with result given.new ≡ order_of line.now }
    {
        if line.len() > LINE_LIMIT {
            None
        } else if line.is_empty() || line[0] == b'#' {
            Some(Order::Nothing)
        } else if line == b"on".as_slice() {
            Some(Order::On)
        } else if line == b"off".as_slice() {
            Some(Order::Off)
        } else if line == b"free".as_slice() {
            Some(Order::Free)
        } else if let Some(digits) = line.strip_prefix(b"apdu ") {
            given.decode(digits, COMMAND_LIMIT).then_some(Order::Apdu)
        } else if let Some(digits) = line.strip_prefix(b"block ") {
            given.decode(digits, BLOCK_LIMIT).then_some(Order::Block)
        } else if let Some(words) = line.strip_prefix(b"cut ") {
            cut_of(words)
        } else if let Some(digits) = line.strip_prefix(b"lose ") {
            decimal_number(digits).map(Order::Lose)
        } else if let Some(digits) = line.strip_prefix(b"garble ") {
            decimal_number(digits).map(Order::Garble)
        } else {
            None
        }
    }
}

/// Returns the number that 1 to 6 decimal digits spell.
/// It is at least 1.
fn decimal_number(digits: &[u8]) -> Option<u32>
    ensures { result ≡ number_in digits.now }
{
    if digits.is_empty() || digits.len() > NUMBER_DIGITS || !are_decimal(digits) {
        return None;
    }
    let number = decimal_value(digits);
    if number == 0 { None } else { Some(number) }
}

/// Returns a cut: a number, a space, and four hexadecimal digits.
fn cut_of(words: &[u8]) -> Option<Order>
    ensures { (given : List ℕ) → asked_with result given ≡ cut_in words.now }
{
    let [number @ .., b' ', first, second, third, fourth] = words else {
        return None;
    };
    match (
        decimal_number(number),
        mask_of(&[*first, *second, *third, *fourth]),
    ) {
        (Some(number), Some(mask)) => Some(Order::Cut { number, mask }),
        _ => None,
    }
}

/// Returns the number that four hexadecimal digits spell.
fn mask_of(digits: &[u8; 4]) -> Option<u16>
    ensures { result ≡ mask_by (decode_of digits.now) }
{
    let mut bytes = [0; 2];
    match hex::decode_to_slice(digits, &mut bytes) {
        Ok(()) => Some(u16::from_be_bytes(bytes)),
        Err(_) => None,
    }
}

/// Returns true if each of these is a decimal digit.
fn are_decimal(digits: &[u8]) -> bool
    ensures { result ≡ list_all is_ascii_digit digits.now }
{
    digits.iter().all(|digit| digit.is_ascii_digit())
}

/// Returns the number that at most 6 decimal digits spell.
fn decimal_value(digits: &[u8]) -> u32
    requires decimal { list_all is_ascii_digit digits.now ≡ true }
    requires size { length digits.now ≤ NUMBER_DIGITS }
    ensures value { result ≡ digits_value 10 digits.now }
    ensures bound { result ≤ 999999 }
{
    let mut value = 0;
    for digit in digits {
        value = value * 10 + u32::from(*digit - b'0');
    }
    value
}

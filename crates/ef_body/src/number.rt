//! Numbers as bytes, the most significant byte first.
ghost use Rattle.std.specs.Prelude.{◌≡◌, ◌≤◌, ◌<◌, ◌+◌, ◌-◌, ◌^◌, length, slice_index, nat_lt, if◌then◌else◌};
ghost use Rattle.std.specs.Prelude.{All};
ghost use Rattle.card_model.specs.RecordLists.{number_of};

use arrayvec::ArrayVec;

/// Returns a byte by its place. Place 0 is the least significant one; places before the first byte are 0.
fn digit(bytes: &[u8], place: usize) -> u16
    ensures digit { result ≡ (if nat_lt place (length bytes.now)
        then slice_index bytes.now (length bytes.now - 1 - place) else 0) }
    ensures small { result < 256 }
{
    if place < bytes.len() {
        u16::from(bytes[bytes.len() - 1 - place])
    } else {
        0
    }
}

/// Adds a number to the one in the buffer. The sum keeps the buffer's length. It returns true on overflow.
pub(crate) fn add_number<const N: usize>(number: &mut ArrayVec<u8, N>, sent: &[u8]) -> bool
    requires { length sent.now ≤ length number.old.items }
    ensures size { length number.new.items ≡ length number.old.items }
    ensures digits { All (λ b. b < 256) number.new.items }
    ensures sum { number_of number.new.items + (if result then 256 ^ length number.old.items else 0)
        ≡ number_of number.old.items + number_of sent.now }
{
    let size = number.len();
    let mut carry = 0;
    for i in 0..size {
        let place = size - 1 - i;
        let own = digit(number, i);
        let other = digit(sent, i);
        let total = own + other + carry;
        number[place] = (total % 256) as u8;
        carry = total / 256;
    }
    carry != 0
}

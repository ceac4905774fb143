//! The ranges of an order's numbers, which a proof takes from reads of them.
ghost use Rattle.bench_lines.specs.OrderViews.{order_with};
ghost use Rattle.bench_lines.specs.Spellings.{IsOrderOfBytes};
ghost use Rattle.card_model.specs.Requests.{AreBytes};

use bench_lines::Order;

/// Proves that an order's bytes are 0 to 255, and that its mask has 16 bits.
pub fn is_of_bytes(order: Order, given: &[u8])
    ensures { IsOrderOfBytes (order_with order given.now) }
{
    match order {
        Order::Apdu | Order::Block => are_bytes(given),
        Order::Cut { number: _, mask } => {
            let _mask = mask;
        }
        Order::Nothing | Order::On | Order::Off | Order::Free | Order::Lose(_) | Order::Garble(_) =>
            {}
    }
}

/// Proves that bytes are 0 to 255.
fn are_bytes(given: &[u8])
    ensures { AreBytes given.now }
{
    for i in 0..given.len() {
        let _byte = given[i];
    }
}

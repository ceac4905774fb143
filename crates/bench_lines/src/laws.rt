//! Laws of the definitions: each function's contract is one law.

ghost use Rattle.std.specs.Prelude.{◌≡◌, ℕ, List, Some};
ghost use Rattle.hex.specs.Hex.{lower_digits, upper_digits};
ghost use Rattle.bench_lines.specs.declared.order.TheConstants.{BLOCK_LIMIT, COMMAND_LIMIT, LINE_LIMIT, NUMBER_DIGITS};
ghost use Rattle.bench_lines.specs.Orders.{IsOrderSized, Order, order_of};
ghost use Rattle.bench_lines.specs.declared.reading.TheConstants.{SCRIPT_LIMIT};
ghost use Rattle.bench_lines.specs.Spellings.{IsOrderOfBytes, SpellingLaw};

/// Gives the limits of the script language.
pub fn limits()
    ensures script { (SCRIPT_LIMIT ≡ 16777216) × (LINE_LIMIT ≡ 1024) }
    ensures orders { (COMMAND_LIMIT ≡ 261) × (BLOCK_LIMIT ≡ 300) × (NUMBER_DIGITS ≡ 6) }
{}

/// The order of a line and its bytes are in range.
/// So the law `script_goes_on_in_a_world` of `card_bench` holds for every line of a script.
pub fn orders_are_in_range()
    ensures { (line : List ℕ) (order : Order) → order_of line ≡ Some order → IsOrderSized order × IsOrderOfBytes order }
{}

/// The spelling of an order parses as that order.
/// Hexadecimal digits have either case.
pub fn spellings_are_read_back()
    ensures upper { SpellingLaw upper_digits }
    ensures lower { SpellingLaw lower_digits }
{}

//! Laws of the definitions: each function's contract is one law.
ghost use Rattle.card_calls.specs.InStep.{ComparesNoneLaw, InStepLaw};

/// No order compares a PIN but a command on PINs, and a block, which can end one.
/// This holds at a desk whose two ends are in step, as they are from a power-on on. Any order leaves them in step.
pub fn other_orders_compare_nothing()
    ensures nothing { ComparesNoneLaw }
    ensures in_step { InStepLaw }
{}

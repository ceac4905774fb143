//! Flashes on which a power loss can be set.
ghost use Rattle.std.specs.Prelude.{◌≡◌, ◌≤◌};

use crate::flash::FlashSocket;

/// A flash on which a power loss can be set, as on a simulated one. It loses power in no other way, and never fails.
pub trait CutFlash: FlashSocket {
    /// Sets program or erase `k` from now on, counted from 1, to lose power. It replaces what was set before.
    fn set_cut(&mut self, k: u32)
        requires { 1 ≤ k }
        ensures { Self.state self.new ≡ record (Self.state self.old) { due = 1 } };

    /// Takes back the power loss that is set, if there is one.
    fn clear_cut(&mut self)
        ensures { Self.state self.new ≡ record (Self.state self.old) { due = 0 } };

    /// The flash never fails.
    ghost faultless: { (flash : Self) → (Self.state flash).faults ≡ 0 };
}

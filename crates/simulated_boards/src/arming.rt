//! The moment at which a cut or a fault that is set takes effect.
ghost use Rattle.std.specs.Prelude.{◌≡◌, ◌≤◌, ◌+◌, ◌-◌, ℕ, false, is_some, Some, None, IfSome};

use nvm_board::Arm;

/// Returns an arm for write `k` from now on, counted from 1.
pub(crate) fn arm_at(k: u32, mask: u16) -> Arm
    requires { 1 ≤ k }
    ensures { result ≡ record { whole_writes = k - 1; mask = mask } }
{
    Arm {
        whole_writes: k - 1,
        mask,
    }
}

/// Returns the mask if a powered board's next write is torn.
pub(crate) fn firing(arm: Option<Arm>, is_dark: bool) -> Option<u16>
    ensures fires { IfSome result (λ mask. (is_dark ≡ false) × (arm ≡ Some record { whole_writes = 0; mask = mask })) }
    ensures spared { result ≡ None → is_dark ≡ false → (mask : ℕ)
        → ¬ (arm ≡ Some record { whole_writes = 0; mask = mask }) }
{
    let Some(arm) = arm else {
        return None;
    };
    if is_dark || arm.whole_writes > 0 {
        return None;
    }
    Some(arm.mask)
}

/// Returns what remains of an arm after a whole write.
pub(crate) fn nearer(arm: Option<Arm>) -> Option<Arm>
    ensures none { arm ≡ None → result ≡ None }
    ensures due { is_some result ≡ is_some arm }
    ensures before { (left mask : ℕ) → arm ≡ Some record { whole_writes = left + 1; mask = mask }
        → result ≡ Some record { whole_writes = left; mask = mask } }
{
    let Some(arm) = arm else {
        return None;
    };
    Some(Arm {
        whole_writes: arm.whole_writes.saturating_sub(1),
        mask: arm.mask,
    })
}

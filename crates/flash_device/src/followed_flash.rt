//! Flashes whose operations something outside may follow.
ghost use Rattle.std.specs.Prelude.{◌≡◌};

use crate::cut_flash::CutFlash;

/// A flash on which a power loss can be set, and whose programs and erases something outside, such as a file, may
/// follow.
pub trait FollowedFlash: CutFlash {
    /// Returns true if the follower has all operations up to now, or if there was never one.
    fn is_kept(&self) -> bool
        ensures { result ≡ (Self.state self.now).kept };
}

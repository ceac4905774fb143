//! Steps from files to their parents.

ghost use Rattle.std.specs.Prelude.{◌≡◌, ℕ};
ghost use Rattle.file_tree.specs.Subtrees.{leads, TellsParents};

use crate::entry_number::EntryNumber;
use crate::layout::DEEPEST;

/// Returns true if entry `e` is `top` or below it. At most seven steps to parents lead there.
pub fn is_within<F: Fn(EntryNumber) -> EntryNumber>(
    parent_of: F,
    top: EntryNumber,
    e: EntryNumber,
) -> bool
    requires { F.IsAlwaysCallable parent_of }
    ensures { (parent : ℕ → ℕ) → TellsParents (F.post parent_of) parent → result ≡ leads parent 7 top e }
{
    let mut at = e;
    for _step in 0..DEEPEST {
        if at == top {
            return true;
        }
        let parent = parent_of(at);
        // Only the MF is its own parent, and no step leads on from it.
        if parent == at {
            return false;
        }
        at = parent;
    }
    at == top
}

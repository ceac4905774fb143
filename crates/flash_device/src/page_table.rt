//! The table of a board's pages in working memory.
ghost use Rattle.std.specs.Prelude.{◌≡◌, ◌<◌, ℕ, List, length, slice_index, slice_set};

/// Where the pages of a board stand: 0 for a page that was never written, else its slot and 1.
pub trait PageTable: Drop {
    /// The numbers of the table, one for each page.
    ghost entries: { Self → List ℕ };

    /// Returns the table of a board that was never written.
    fn blank() -> Self
        ensures { (p : ℕ) → p < length (entries result) → slice_index (entries result) p ≡ 0 };

    /// Returns the number of a page.
    fn entry(&self, page: u16) -> u16
        requires { page < length (entries self.now) }
        ensures { result ≡ slice_index (entries self.now) page };

    /// Sets the number of a page.
    fn set_entry(&mut self, page: u16, number: u16)
        requires { page < length (entries self.old) }
        ensures { entries self.new ≡ slice_set (entries self.old) page number };
}

/// The table of a board of `N` pages.
#[derive(Drop)]
pub struct PageSlots<const N: usize> {
    slots: [u16; N],
    ghost sized: { length slots ≡ N },
}

impl<const N: usize> PageTable for PageSlots<N> {
    ghost entries = { λ t. t.slots };

    fn blank() -> Self {
        PageSlots { slots: [0; N] }
    }

    fn entry(&self, page: u16) -> u16 {
        self.slots[usize::from(page)]
    }

    fn set_entry(&mut self, page: u16, number: u16) {
        self.slots[usize::from(page)] = number;
    }
}

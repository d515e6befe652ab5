// Lent memory, as a slice of items.
ghost use Rattle.std.specs.Prelude.{◌≡◌, ◌≤◌, length};
ghost use Rattle.post.specs.Memory.{checked};

use crate::PostFault;
use crate::fault::check_size;

// At least N items.
#[derive(Drop)]
pub struct Lent<'a, T, const N: usize> {
    pub items: &'a mut [T],
    ghost enough: { N ≤ length items.now },
}

impl<'a, T, const N: usize> Lent<'a, T, N> {
    // Whether the items suffice.
    pub fn check(items: &[T]) -> Result<(), PostFault>
        ensures { result ≡ checked (length items.now) N }
    {
        check_size(items.len(), N)
    }

    // Asking comes first, and may be refused; making cannot fail then.
    pub fn new(items: &'a mut [T]) -> Lent<'a, T, N>
        requires { N ≤ length items.old }
        ensures { (result.items.now ≡ items.old) × (result.items.ghost_name ≡ items.entry.ghost_name) }
    {
        Lent { items }
    }

    // The items, as they were left.
    pub fn into_slice(self) -> &'a mut [T]
        ensures { (result.now ≡ self.entry.items.now) × (result.ghost_name ≡ self.entry.items.ghost_name) }
    {
        self.items
    }
}

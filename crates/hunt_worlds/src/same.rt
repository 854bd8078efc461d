//! What can be told apart, and lists of it.

ghost use Rattle.std.specs.Prelude.{◌≡◌, IsTrue};

/// What can be told apart.
pub(crate) trait Same {
    /// Whether it is the same as another one.
    fn same(&self, other: &Self) -> bool
        ensures { IsTrue result → self.now ≡ other.now };
}

/// Whether two lists are the same.
pub(crate) fn same_all<T: Same>(ours: &[T], others: &[T]) -> bool
    ensures { IsTrue result → ours.now ≡ others.now }
{
    if ours.len() != others.len() {
        return false;
    }
    for place in 0..ours.len() {
        if !ours[place].same(&others[place]) {
            return false;
        }
    }
    true
}

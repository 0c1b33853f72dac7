//! Rows, of which the one that does not hold is named.

ghost use Rattle.std.specs.Prelude.{◌≡◌};

/// Whether a row holds. The number of one that does not, from 0, is printed.
pub fn holds(rt: &HostRuntime, row: usize, is_right: bool) -> bool
    ensures { result ≡ is_right }
{
    if !is_right {
        let _ = println!(rt; "row {row} does not hold");
    }
    is_right
}

/// Whether of these values only the same are equal. The places of two that do not say so are
/// printed.
pub fn differ<T: PartialEq>(rt: &HostRuntime, values: &[T]) -> bool {
    for (i, one) in values.iter().enumerate() {
        for (j, other) in values.iter().enumerate() {
            let is_right = (*one == *other) == (i == j) && (*one != *other) == (i != j);
            if !is_right {
                let _ = holds(rt, i, false);
                return holds(rt, j, false);
            }
        }
    }
    true
}

// Assignment as a call.

ghost use Rattle.std.specs.Prelude.{◌≡◌};

/// Stores the value at the place and drops the old one. Such a call is proved with less work than `*place = value` if
/// the type has many parts: the parts of the old value come up in this proof, and not on each path of the caller.
// Inlined, since the old value is mostly known to be empty.
#[inline(always)]
pub fn put<T: Drop>(place: &mut T, value: T)
    ensures { place.new ≡ value }
{
    *place = value;
}

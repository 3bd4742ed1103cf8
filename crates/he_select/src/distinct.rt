// Lists without repeated members.

ghost use Rattle.std.specs.Prelude.{◌≡◌, ℕ, Bool, ◌≤◌, length, take};
ghost use Rattle.std.specs.List.{list_any};
ghost use Rattle.he_select.specs.Refusals.{first_repeat};

/// An item that may appear only once in a list.
pub(crate) trait Distinct {
    ghost same: { Self → Self → Bool };

    fn is_same(&self, other: &Self) -> bool
        ensures { result ≡ same self.now other.now };
}

/// Whether one of the earlier members is the same as this one.
pub(crate) fn stands_in<T: Distinct>(item: &T, earlier: &[T]) -> bool
    ensures { result ≡ list_any (T.same item.now) earlier.now }
{
    for other in earlier {
        if item.is_same(other) {
            return true;
        }
    }
    false
}

/// The least place of a member that repeats an earlier one.
pub(crate) fn first_repeated<T: Distinct>(items: &[T]) -> Option<usize>
    ensures { result ≡ first_repeat T.same items.now }
{
    for i in 0..items.len() {
        if stands_in(&items[i], &items[..i]) {
            return Some(i);
        }
    }
    None
}

//! Items that have names: the first of a name, and the first whose name repeats an earlier one.

ghost use Rattle.std.specs.Prelude.{◌≡◌, ◌<◌, ℕ, List, length, map, take, Some, IfSome, IfNone, Contains};
ghost use Rattle.std.specs.Prelude.{slice_get};
ghost use Rattle.std.specs.List.{IsDistinct};
ghost use Rattle.std.specs.Str.{bytes_eq};

/// What has a name.
pub trait Named {
    /// The name, as bytes.
    ghost called: { Self → List ℕ };

    /// The name.
    fn name(&self) -> &str
        ensures { result.now ≡ called self.now };
}

impl Named for String {
    ghost use Rattle.std.specs.Prelude.{string_bytes};

    ghost called = { string_bytes };

    fn name(&self) -> &str {
        self.as_str()
    }
}

/// The place of the first of the items that has the name.
pub fn place_of<T: Named>(items: &[T], name: &str) -> Option<usize>
    ensures found { IfSome result (λ place. slice_get (map T.called items.now) place ≡ Some name.now) }
    ensures within { IfSome result (λ place. place < length items.now) }
    ensures none_before { IfSome result (λ place. ¬ Contains (take place (map T.called items.now)) name.now) }
    ensures none { IfNone result (¬ Contains (map T.called items.now) name.now) }
{
    for (index, item) in items.iter().enumerate() {
        if item.name() == name {
            return Some(index);
        }
    }
    None
}

/// The place of the first item whose name repeats an earlier one.
pub fn first_repeated<T: Named>(items: &[T]) -> Option<usize>
    ensures within { IfSome result (λ place. place < length items.now) }
    ensures repeated { IfSome result (λ place. (name : List ℕ) →
        slice_get (map T.called items.now) place ≡ Some name →
        Contains (take place (map T.called items.now)) name) }
    ensures none_before { IfSome result (λ place. IsDistinct bytes_eq (take place (map T.called items.now))) }
    ensures none { IfNone result (IsDistinct bytes_eq (map T.called items.now)) }
{
    for place in 0..items.len() {
        if place_of(&items[..place], items[place].name()).is_some() {
            return Some(place);
        }
    }
    None
}

//! Changing each item of a list in its place.

ghost use Rattle.std.specs.Prelude.{◌≡◌, length, map};
ghost use Rattle.std.specs.List.{zip};

/// Changes each item in its place, by the value that stands where the item does. It takes no
/// memory.
pub fn change_each<A, B: Drop, F: Fn(&mut A, B)>(items: &mut Vec<A>, values: Vec<B>, change: F)
    requires callable { F.IsAlwaysCallable change }
    requires one_each { length values.items ≡ length items.old.items }

    // Whatever `change` makes of an item by a value.
    ensures { (made : A → B → A)
        → ((before : _) (value : B) (after : _) → F.post change before value tt after
        → after.now ≡ made before.now value)
        → items.new.items ≡ map (λ p. made p.0 p.1) (zip items.old.items values.items) }
{
    let mut values = values.into_iter();
    for item in items.iter_mut() {
        if let Some(value) = values.next() {
            change(item, value);
        }
    }
}

// Parts of lists, of which there may be less than is asked for.

ghost use Rattle.std.specs.Prelude.{◌≡◌, drop, min, take};

/// The items from a place on.
pub fn drop_from<T>(at: usize, items: &[T]) -> &[T]
    ensures { result.now ≡ drop at items.now }
{
    if at < items.len() { &items[at..] } else { &[] }
}

/// So many items.
pub fn first_of<T>(count: usize, items: &[T]) -> &[T]
    ensures { result.now ≡ take count items.now }
{
    if count < items.len() {
        &items[..count]
    } else {
        items
    }
}

/// The lesser of two lengths.
pub fn shorter(a: usize, b: usize) -> usize
    ensures { result ≡ min a b }
{
    if a < b { a } else { b }
}

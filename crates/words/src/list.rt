// Lent lists of any type: an element put, one read, a list laid over another.
ghost use Rattle.std.specs.Prelude.{◌≡◌, set, get_or};
ghost use Rattle.words.specs.Overlay.{overlay};

// Puts an element to a place, where the list has that place.
pub fn put<T: Copy>(list: &mut [T], at: usize, x: T)
    ensures { list.new ≡ set list.old at x }
{
    if at < list.len() {
        list[at] = x;
    }
}

// The element at a place, `none` past the last one.
// What is read past the end is given, and no Option: the definitions say 0 there (word_at, value, bounds_in), so Word::at, value_at and domain_of would unwrap it
// at once and be no plainer.
pub fn at_or<T: Copy>(list: &[T], at: usize, none: T) -> T
    ensures { result ≡ get_or list.now at none }
{
    list.get(at).copied().unwrap_or(none)
}

// Lays a list over another one from a place on; what does not fit is left out.
// It goes element by element: a copy of the whole part would have the calls for C need memmove from outside.
pub fn lay<T: Copy>(out: &mut [T], at: usize, list: &[T])
    ensures { out.new ≡ overlay out.old at list.now }
{
    for (k, &x) in list.iter().enumerate() {
        put(out, at.saturating_add(k), x);
    }
}

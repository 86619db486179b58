// Reading a buffer: as much of it as is counted, and at any place.
ghost use Rattle.std.specs.Prelude.{◌≡◌, take, get_or};

// The first n elements, or as many as there are.
pub fn front<T>(list: &[T], n: usize) -> &[T]
    ensures { result.now ≡ take n list.now }
{
    if n < list.len() {
        return &list[..n];
    }
    list
}

// Element i, or 0 past the end.
pub fn at(list: &[u32], i: usize) -> u32
    ensures { result ≡ get_or list.now i 0 }
{
    list.get(i).copied().unwrap_or(0)
}

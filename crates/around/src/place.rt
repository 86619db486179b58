// Numbers put at places of a list.
ghost use Rattle.std.specs.Prelude.{◌≡◌, set};

// Where there is no such place, nothing changes. (By its index: of what is written behind a `get_mut` nothing is known of the list.)
pub fn put(out: &mut [u32], i: usize, x: u32)
    ensures { out.new ≡ set out.old i x }
{
    if i < out.len() {
        out[i] = x;
    }
}

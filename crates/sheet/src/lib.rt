// Lists of numbers as bytes, one element after the other, most significant byte first: what `vaib answer` writes.
#![tactic(auto)]

ghost use Rattle.std.specs.Prelude.{ℕ, ◌≡◌, ◌+◌, ◌*◌, ◌^◌, ◌<◌, ◌≤◌, length, map};
ghost use Rattle.std.proofs.Common.{rules};
ghost use Rattle.sheet.specs.Laid.{Laid};

// A number of a fixed width, which an element takes whole.
pub trait Word: Copy {
    ghost WIDTH: { ℕ };

    ghost number: { Self → ℕ };

    // How many bits it has.
    const WIDTH: usize;

    fn number(self) -> u64
        ensures is { result ≡ number self }
        ensures below { result < 2 ^ WIDTH };

    ghost narrow: { WIDTH ≤ 64 };
}

impl Word for u32 {
    ghost WIDTH = { 32 };

    ghost number = { λ x. x };

    ghost narrow = { Prim.search rules };

    const WIDTH: usize = 32;

    fn number(self) -> u64 {
        u64::from(self)
    }
}

impl Word for u64 {
    ghost WIDTH = { 64 };

    ghost number = { λ x. x };

    ghost narrow = { Prim.search rules };

    const WIDTH: usize = 64;

    fn number(self) -> u64 {
        self
    }
}

// The list from bit `at` on, as many bits an element as its type has.
pub fn put<T: Word>(out: &mut [u8], at: usize, list: &[T])
    requires { (at + T.WIDTH * length list.now ≤ 8 * length out.old) × (length out.old ≤ 1048576) }
    ensures { Laid T.WIDTH (map T.number list.now) (length list.now) at out.old out.new }
{
    let mut bit = at;
    for x in list {
        bits::put_field(out, bit, T::WIDTH, x.number());
        bit += T::WIDTH;
    }
}

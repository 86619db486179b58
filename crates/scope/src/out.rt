// The records out of the working lists.
ghost use Rattle.std.specs.Prelude.{◌≡◌, ◌+◌, ◌≤◌, length, get_or};
ghost use Rattle.scope.specs.Filled.{Filled};
ghost use Rattle.answer.specs.Records.{entry_from};

// The first n of a section of w.
pub fn copy_front(w: &[u32], off: usize, n: usize, to: &mut [u32])
    requires { (off + n ≤ length w.now) × (n ≤ length to.old) }
    ensures { Filled (λ j. get_or w.now (off + j) 0) n to.old to.new }
{
    to[..n].copy_from_slice(&w[off..off + n]);
}

// A binding's module entry.
fn entry_word(r: u64) -> u32
    ensures { result ≡ entry_from r }
{
    answer::entry::make(
        answer::binding::name(r),
        answer::binding::public(r),
        answer::binding::slot(r),
    )
}

// The module's entries afterwards, one for each of its bindings.
pub fn put_entries(binds: &[u64], to: &mut [u32])
    requires { length binds.now ≤ length to.old }
    ensures { Filled (λ j. entry_from (get_or binds.now j 0)) (length binds.now) to.old to.new }
{
    for (i, r) in binds.iter().enumerate() {
        to[i] = entry_word(*r);
    }
}

// Where nodes end.
ghost use Rattle.std.specs.Prelude.{◌≡◌, ◌≤◌};
ghost use Rattle.around.specs.Ends.{end_in};

// Where a node of this size ends, which is node p and whose parent ends at e.
#[tactic(auto, unfolding(crate::specs::Ends::end_in))]
pub fn end_in(size: usize, p: usize, e: usize) -> usize
    requires { p ≤ e }
    ensures { result ≡ end_in size p e }
{
    if size == 0 {
        return e;
    }
    if e - p < size {
        return e;
    }
    p + size
}

// The scopes around a node, and the scope directly around each scope. Any bytes are taken.
#![tactic(auto)]

mod descent;
mod ends;
mod own;
mod place;
mod table;

ghost use Rattle.std.specs.Prelude.{◌≡◌, length};
ghost use Rattle.around.specs.Scopes.{scopes_at, Holds};
ghost use Rattle.around.specs.Outer.{outer_table};

// Puts the scopes around a node into out, outermost first, as many as fit, and zeros behind; returns how many they are.
pub fn scopes(file: &[u8], node: usize, out: &mut [u32]) -> usize
    ensures { Holds (scopes_at file.now node) result out.old out.new }
{
    let ns = nodefile::nodes(file);
    if node < ns.len() / 8 {
        return descent::descend(ns, node, out);
    }
    out.fill(0);
    0
}

// Puts the scope directly around each Def's and Lambda's own at its scope number in out, where out has that place; zeros elsewhere.
pub fn outer(file: &[u8], out: &mut [u32])
    ensures { out.new ≡ outer_table file.now (length out.old) }
{
    table::all(nodefile::nodes(file), out);
}

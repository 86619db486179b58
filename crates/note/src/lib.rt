// The port of names.rs's module list, and the file's other lists: what the walks start from.
// The table `t` is one list of fixed memory, in sections; a u16 in it has no room for an Option: one more than a number, or 0.
#![tactic(auto)]

ghost use Rattle.std.specs.Prelude.{◌≡◌, false, [], ◌+◌, ◌≤◌, ◌<◌, length};
ghost use Rattle.lexical.specs.Tree.{Forest};
ghost use Rattle.nodefile.specs.Layout.{entry_count, global_count};
ghost use Rattle.nodefile.specs.FileOf.{file_of};
ghost use Rattle.store.specs.Sections.{mod_at, glob_at, hidden_at, many_names, many_bindings};
ghost use Rattle.store.specs.Image.{MadeIn};
ghost use Rattle.store.specs.Blocks.{module_block, vars_of};
ghost use Rattle.store.proofs.Laws.Points.{Zeros};
ghost use Rattle.note.specs.Filled.{Blank};
ghost use Rattle.note.specs.Noted.{ListsOk, HiddenNoted, NumbersNoted, globals_up_to, Entered, Noted};

use store::Table;
use store::sections::{GLOBALS, HIDDEN, LOADS_SHOWN};

// The source of a binding that is from the module (document 01, "Answer buffers"): a record's number, not an Option.
const MODULE: usize = 65535;

// Which names begin with `_`.
fn note_hidden(file: &[u8], t: &mut Table)
    requires { ListsOk file.now × Blank hidden_at many_names t.old }
    ensures { HiddenNoted file.now t.old t.new }
{
    let nm = nodefile::names(file);
    let pool = nodefile::pool(file);
    let n = nodefile::name_count(file) as usize;
    for k in 0..n {
        t[HIDDEN + k] = u16::from(nodefile::hidden(nm, pool, k));
    }
}

// Each global's number; the first that was noted for a name stays.
fn note_globals(file: &[u8], t: &mut Table)
    requires { ListsOk file.now × Blank glob_at many_names t.old }
    ensures { NumbersNoted glob_at (globals_up_to file.now (global_count file.now)) t.old t.new }
{
    let gs = nodefile::globals(file);
    let n = nodefile::global_count(file) as usize;
    for k in 0..n {
        let name = nodefile::global_name(gs, k) as usize;
        if t[GLOBALS + name] == 0 {
            t[GLOBALS + name] = (k + 1) as u16;
        }
    }
}

// Each module entry makes a binding.
fn note_entries(file: &[u8], binds: &mut [u64], t: &mut Table) -> usize
    requires { (many_bindings ≤ length binds.old) × ListsOk file.now × MadeIn [] (λ _. false) binds.old t.old × Blank mod_at many_names t.old }
    ensures { (result ≡ entry_count file.now) × ((root : Forest) → let E = module_block (file_of file.now root) in Entered E (vars_of E []) t.old binds.new t.new) }
{
    let es = nodefile::entries(file);
    let n = nodefile::entry_count(file) as usize;
    for k in 0..n {
        let name = nodefile::entry_name(es, k) as usize;
        // a field of one bit, which `nodefile` reads as a number
        let public = nodefile::entry_public(es, k) == 1;
        let slot = nodefile::entry_slot(es, k) as usize;
        store::put_binding(binds, k, name, MODULE, true, public, false, false, slot);
        store::put_known(t, false, name, k);
    }
    n
}

// All of them, into lists that are all zero; how many module entries there are.
pub fn note_lists(file: &[u8], binds: &mut [u64], t: &mut Table) -> usize
    requires { (many_bindings ≤ length binds.old) × Zeros binds.old × Zeros t.old × ListsOk file.now }
    ensures { (root : Forest) → Noted (file_of file.now root) result binds.new t.new }
{
    t[LOADS_SHOWN] = u16::from(nodefile::reexport(file) == 1);
    note_hidden(file, t);
    note_globals(file, t);
    note_entries(file, binds, t)
}

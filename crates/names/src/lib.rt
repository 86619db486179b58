// Numbers 5 and 6: the names, and the lists of names.
#![tactic(auto)]

mod lists;
mod names;

ghost use Rattle.base.specs.First.{First};
ghost use Rattle.base.specs.Refusals.{answered};
ghost use Rattle.header.specs.Header.{HeaderOk};
ghost use Rattle.names.specs.Rows.{name_rows};

use base::Refusal;

// Numbers 5 and 6, of a file that 2 to 4 let pass.
pub fn judge_names(file: &[u8]) -> Result<(), Refusal>
    requires { HeaderOk file.now }
    ensures { First (name_rows file.now) (answered result) }
{
    let known = nodefile::name_count(file);
    let names = nodefile::names(file);
    let pool = nodefile::pool(file);
    if names::bad_names(names, pool, known as usize) {
        return Err(Refusal::Names);
    }
    let entries = nodefile::entries(file);
    let entry_count = nodefile::entry_count(file) as usize;
    if lists::bad_list(|k| nodefile::entry_name(entries, k), entry_count, known) {
        return Err(Refusal::Lists);
    }
    let globals = nodefile::globals(file);
    let global_count = nodefile::global_count(file) as usize;
    if lists::bad_list(|k| nodefile::global_name(globals, k), global_count, known) {
        return Err(Refusal::Lists);
    }
    Ok(())
}

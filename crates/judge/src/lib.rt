// Judging a node file: the first of the numbers 2 to 11 whose condition holds, or 0; and the spelling of a name.
#![tactic(auto)]

ghost use Rattle.base.specs.Refusals.{answered};
ghost use Rattle.judge.specs.Cond.{Judged};
ghost use Rattle.judge.specs.Spelling.{Spelling};

use base::Refusal;

// Why a file is refused: the first number of document 01's table whose condition holds, 1 and 12 left off.
pub fn verdict(file: &[u8]) -> Result<(), Refusal>
    ensures { Judged file.now (answered result) }
{
    header::judge_header(file)?;
    names::judge_names(file)?;
    shape::judge_shape(file)?;
    scoping::judge_scopes(file)
}

// The number of the verdict; 0 if nothing refuses the file. A number: C gets it, and the programs print it.
pub fn judge(file: &[u8]) -> u64
    ensures { Judged file.now result }
{
    base::answered(verdict(file))
}

// The spelling of a name, as a stretch of the file; an empty part of a file that judging refuses, or where there is no such name.
pub fn spelling(file: &[u8], name: usize) -> &[u8]
    ensures { Spelling file.now name result.now }
{
    let known = nodefile::name_count(file) as usize;
    // An empty part and no Option: document 01 has it so, and `Spelling` says so.
    if verdict(file).is_err() || name >= known {
        return &file[..0];
    }
    let names = nodefile::names(file);
    let pool = nodefile::pool(file);
    nodefile::spelled(names, pool, name)
}

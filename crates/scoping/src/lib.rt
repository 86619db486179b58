// Numbers 9 to 11: depth, the scope numbers, and the parameters of each scope.
#![tactic(auto)]

mod depth;
mod params;
mod scopes;

ghost use Rattle.base.specs.First.{First};
ghost use Rattle.base.specs.Refusals.{answered};
ghost use Rattle.scoping.specs.Shaped.{Shaped};
ghost use Rattle.scoping.specs.Rows.{scope_rows};

use base::Refusal;

// Numbers 9 to 11, of a file that 2 to 4, 7 and 8 let pass.
pub fn judge_scopes(file: &[u8]) -> Result<(), Refusal>
    requires { Shaped file.now }
    ensures { First (scope_rows file.now) (answered result) }
{
    let list = nodefile::nodes(file);
    // number 9's own limit; `around` has the same for its own walk
    if depth::deeper(list, 64) {
        return Err(Refusal::Depth);
    }
    let mut found = [None; 256];
    if scopes::bad_scopes(list, &mut found) {
        return Err(Refusal::Scopes);
    }
    if params::bad_params(list, &found) {
        return Err(Refusal::Params);
    }
    Ok(())
}

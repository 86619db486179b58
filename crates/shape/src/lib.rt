// Numbers 7 and 8: the nodes, each by its own fields and by its children.
#![tactic(auto)]

mod children;
mod nodes;

ghost use Rattle.base.specs.First.{First};
ghost use Rattle.base.specs.Refusals.{answered};
ghost use Rattle.shape.specs.Rows.{shape_rows};

use base::Refusal;

// Numbers 7 and 8.
pub fn judge_shape(file: &[u8]) -> Result<(), Refusal>
    ensures { First (shape_rows file.now) (answered result) }
{
    let known = nodefile::name_count(file);
    let list = nodefile::nodes(file);
    if nodes::bad_nodes(list, known) {
        return Err(Refusal::Nodes);
    }
    if children::bad_children(list) {
        return Err(Refusal::Children);
    }
    Ok(())
}

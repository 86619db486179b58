// The targets of some nodes, in order: statements, targets, clauses and parameters call one another. Nothing is bound by an expression or a type.
// Each of them has its own function, though a clause only goes through its children: document 01 asks for a function for each place of the grammar.
// `block` is one for a whole walk and `marks` differ from node to node, so the two are not one struct.
#![tactic(auto, using(crate::proofs::Steps::x_shorter, crate::proofs::Steps::x_kids_pre))]

ghost use Rattle.std.specs.Prelude.{◌≡◌};
ghost use Rattle.store.specs.Sections.{mem};
ghost use Rattle.collect.specs.Cycle.{Pre, Pre1, PreKind, Done};

use nodefile::kinds::{self, Kind, Role};
use store::{Block, Marks, Table, Walk, Words};

// The nodes of a part, one after the other: each is taken off the front of what is left.
#[cycle(targets)]
pub fn collect_kids(
    part: &[u8],
    at: usize,
    block: Block,
    marks: Marks,
    st: Walk,
    binds: &mut [u64],
    w: &mut Words,
    t: &mut Table,
) -> Walk
    requires { Pre part.now at block st (mem binds.old w.old t.old) }
    ensures { Done part.now at block marks st (mem binds.old w.old t.old) result (mem binds.new w.new t.new) }
{
    let mut s = st;
    let mut n = at;
    let mut rest = part;
    while !rest.is_empty() {
        let k = nodefile::size(rest) as usize;
        s = collect_node(&rest[..8 * k], n, block, marks, s, binds, w, t);
        n += k;
        rest = &rest[8 * k..];
    }
    s
}

// One node: a statement, a target, a clause or a parameter.
#[cycle(targets)]
pub fn collect_node(
    part: &[u8],
    at: usize,
    block: Block,
    marks: Marks,
    st: Walk,
    binds: &mut [u64],
    w: &mut Words,
    t: &mut Table,
) -> Walk
    requires { Pre1 part.now at block st (mem binds.old w.old t.old) }
    ensures { Done part.now at block marks st (mem binds.old w.old t.old) result (mem binds.new w.new t.new) }
{
    match kinds::role_of(part) {
        Some(Role::Statement) => collect_defines(part, at, block, marks, st, binds, w, t),
        Some(Role::Target) => collect_defines_lvalue(part, at, block, marks, st, binds, w, t),
        Some(Role::Clause) => collect_defines_clause(part, at, block, marks, st, binds, w, t),
        Some(Role::Parameter) => collect_defines_param(part, at, block, marks, st, binds, w, t),
        _ => st,
    }
}

// A statement.
#[cycle(targets)]
fn collect_defines(
    part: &[u8],
    at: usize,
    block: Block,
    marks: Marks,
    st: Walk,
    binds: &mut [u64],
    w: &mut Words,
    t: &mut Table,
) -> Walk
    requires { PreKind 0 7 part.now at block st (mem binds.old w.old t.old) }
    ensures { Done part.now at block marks st (mem binds.old w.old t.old) result (mem binds.new w.new t.new) }
{
    let kids = &part[8..];
    let inner = match kinds::of(part) {
        Some(Kind::Def) => {
            let name = nodefile::value(kids) as usize;
            return target::collect_assign_ident(name, at + 1, block, marks, st, binds, w, t);
        }
        Some(Kind::For) => Marks {
            in_loop: true,
            ..marks
        },
        Some(Kind::Load) => Marks {
            load: true,
            ..marks
        },
        _ => marks,
    };
    collect_kids(kids, at + 1, block, inner, st, binds, w, t)
}

// A target.
#[cycle(targets)]
fn collect_defines_lvalue(
    part: &[u8],
    at: usize,
    block: Block,
    marks: Marks,
    st: Walk,
    binds: &mut [u64],
    w: &mut Words,
    t: &mut Table,
) -> Walk
    requires { PreKind 8 10 part.now at block st (mem binds.old w.old t.old) }
    ensures { Done part.now at block marks st (mem binds.old w.old t.old) result (mem binds.new w.new t.new) }
{
    if kinds::of(part) == Some(Kind::Name) {
        let name = nodefile::value(part) as usize;
        return target::collect_assign_ident(name, at, block, marks, st, binds, w, t);
    }
    collect_kids(&part[8..], at + 1, block, marks, st, binds, w, t)
}

// A clause of a comprehension: its target.
#[cycle(targets)]
fn collect_defines_clause(
    part: &[u8],
    at: usize,
    block: Block,
    marks: Marks,
    st: Walk,
    binds: &mut [u64],
    w: &mut Words,
    t: &mut Table,
) -> Walk
    requires { PreKind 15 16 part.now at block st (mem binds.old w.old t.old) }
    ensures { Done part.now at block marks st (mem binds.old w.old t.old) result (mem binds.new w.new t.new) }
{
    collect_kids(&part[8..], at + 1, block, marks, st, binds, w, t)
}

// A parameter: its Name.
#[cycle(targets)]
fn collect_defines_param(
    part: &[u8],
    at: usize,
    block: Block,
    marks: Marks,
    st: Walk,
    binds: &mut [u64],
    w: &mut Words,
    t: &mut Table,
) -> Walk
    requires { PreKind 17 17 part.now at block st (mem binds.old w.old t.old) }
    ensures { Done part.now at block marks st (mem binds.old w.old t.old) result (mem binds.new w.new t.new) }
{
    let inner = Marks {
        param: true,
        ..marks
    };
    collect_kids(&part[8..], at + 1, block, inner, st, binds, w, t)
}

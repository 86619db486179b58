// Walk three of document 01: what each identifier means.
// The nodes in the order of resolving: functions for statements, targets, expressions, clauses, parameters and types call one another.
// `resolve_idents` is the original's; `idents_in_X` is its `resolve_idents_in_X`, for X = assign, expr, type_expr, def, compr.
// `idents_in_clause` is its `resolve_idents_in_for_clause`, and what it does at an IfClause;
// `idents_in_param` is what its `resolve_idents_in_def` does at a parameter. Some have one body: document 01 asks for a function for each place of the grammar.
// Nodes take unequal room: walks go by what is left.
#![tactic(auto)]

ghost use Rattle.std.specs.Prelude.{◌≡◌, true, false, ◌+◌, ◌*◌, ◌≤◌, ◌<◌, length};
ghost use Rattle.store.specs.Sections.{mem, many_nodes};
ghost use Rattle.idents.specs.Cycle.{Pre, Pre1, PreKind, PreDef, Done, DoneAny, Parted, LastAt};

use nodefile::kinds::{self, Kind, Role};
use store::{Table, Walk, Words};

// The byte at which the last of the nodes of a part starts.
fn last(part: &[u8]) -> usize
    requires { (length part.now ≤ 8 * many_nodes) × Parted part.now }
    ensures { (g : Parted part.now) → LastAt part.now g.at g.f result }
{
    let mut tail = part;
    let mut end = 8 * nodefile::size(tail) as usize;
    while end < tail.len() {
        tail = &tail[end..];
        end = 8 * nodefile::size(tail) as usize;
    }
    part.len() - tail.len()
}

// The nodes of a part, one after the other. An Other is passed over: its children come next. Of the rest one without children is not
// handed on: an Ident is looked up here, any other comes to nothing.
#[cycle(resolve)]
fn each(
    part: &[u8],
    at: usize,
    ty: bool,
    st: Walk,
    binds: &mut [u64],
    w: &mut Words,
    t: &mut Table,
) -> Walk
    requires { Pre part.now at st (mem binds.old w.old t.old) }
    ensures { Done part.now at ty st (mem binds.old w.old t.old) result (mem binds.new w.new t.new) }
{
    let mut s = st;
    let mut n = at;
    let mut rest = part;
    while !rest.is_empty() {
        let k = nodefile::size(rest) as usize;
        let here = &rest[..8 * k];
        let at_here = n;
        let kind = kinds::of(here);
        if kind == Some(Kind::Other) {
            n += 1;
            rest = &rest[8..];
        } else {
            n += k;
            rest = &rest[8 * k..];
            if k > 1 {
                s = resolve_node(here, at_here, ty, s, binds, w, t);
            } else if kind == Some(Kind::Ident) {
                let name = nodefile::value(here) as usize;
                s = lookup::resolve_ident(name, at_here, ty, s, binds, w, t);
            }
        }
    }
    s
}

// One node: a statement, a target, an expression, a clause, a parameter or a type.
#[cycle(resolve)]
pub fn resolve_node(
    part: &[u8],
    at: usize,
    ty: bool,
    st: Walk,
    binds: &mut [u64],
    w: &mut Words,
    t: &mut Table,
) -> Walk
    requires { Pre1 part.now at st (mem binds.old w.old t.old) }
    ensures { Done part.now at ty st (mem binds.old w.old t.old) result (mem binds.new w.new t.new) }
{
    match kinds::role_of(part) {
        Some(Role::Statement) => resolve_idents(part, at, ty, st, binds, w, t),
        Some(Role::Target) => idents_in_assign(part, at, ty, st, binds, w, t),
        Some(Role::Expression) => idents_in_expr(part, at, ty, st, binds, w, t),
        Some(Role::Clause) => idents_in_clause(part, at, ty, st, binds, w, t),
        Some(Role::Parameter) => idents_in_param(part, at, ty, st, binds, w, t),
        _ => idents_in_type_expr(part, at, st, binds, w, t),
    }
}

// A statement.
#[cycle(resolve)]
fn resolve_idents(
    part: &[u8],
    at: usize,
    ty: bool,
    st: Walk,
    binds: &mut [u64],
    w: &mut Words,
    t: &mut Table,
) -> Walk
    requires { PreKind 0 7 part.now at st (mem binds.old w.old t.old) }
    ensures { Done part.now at ty st (mem binds.old w.old t.old) result (mem binds.new w.new t.new) }
{
    if kinds::of(part) == Some(Kind::Def) {
        return idents_in_def(part, at, st, binds, w, t);
    }
    each(&part[8..], at + 1, ty, st, binds, w, t)
}

// A target: the expressions in it.
#[cycle(resolve)]
fn idents_in_assign(
    part: &[u8],
    at: usize,
    ty: bool,
    st: Walk,
    binds: &mut [u64],
    w: &mut Words,
    t: &mut Table,
) -> Walk
    requires { PreKind 8 10 part.now at st (mem binds.old w.old t.old) }
    ensures { Done part.now at ty st (mem binds.old w.old t.old) result (mem binds.new w.new t.new) }
{
    each(&part[8..], at + 1, ty, st, binds, w, t)
}

// An expression.
#[cycle(resolve)]
fn idents_in_expr(
    part: &[u8],
    at: usize,
    ty: bool,
    st: Walk,
    binds: &mut [u64],
    w: &mut Words,
    t: &mut Table,
) -> Walk
    requires { PreKind 11 14 part.now at st (mem binds.old w.old t.old) }
    ensures { Done part.now at ty st (mem binds.old w.old t.old) result (mem binds.new w.new t.new) }
{
    match kinds::of(part) {
        Some(Kind::Ident) => {
            let name = nodefile::value(part) as usize;
            lookup::resolve_ident(name, at, ty, st, binds, w, t)
        }
        Some(Kind::Lambda) => idents_in_def(part, at, st, binds, w, t),
        Some(Kind::Compr) => idents_in_compr(part, at, st, binds, w, t),
        _ => each(&part[8..], at + 1, ty, st, binds, w, t),
    }
}

// A type: a local directly in it is refused.
#[cycle(resolve)]
fn idents_in_type_expr(
    part: &[u8],
    at: usize,
    st: Walk,
    binds: &mut [u64],
    w: &mut Words,
    t: &mut Table,
) -> Walk
    requires { PreKind 18 18 part.now at st (mem binds.old w.old t.old) }
    ensures { DoneAny part.now at st (mem binds.old w.old t.old) result (mem binds.new w.new t.new) }
{
    each(&part[8..], at + 1, true, st, binds, w, t)
}

// A clause of a comprehension: an IfClause's expression; a ForClause's expression before its target.
#[cycle(resolve)]
fn idents_in_clause(
    part: &[u8],
    at: usize,
    ty: bool,
    st: Walk,
    binds: &mut [u64],
    w: &mut Words,
    t: &mut Table,
) -> Walk
    requires { PreKind 15 16 part.now at st (mem binds.old w.old t.old) }
    ensures { Done part.now at ty st (mem binds.old w.old t.old) result (mem binds.new w.new t.new) }
{
    let kids = &part[8..];
    if kinds::of(part) == Some(Kind::IfClause) {
        return each(kids, at + 1, ty, st, binds, w, t);
    }
    let b = 8 * nodefile::size(kids) as usize;
    let s = each(&kids[b..], at + 1 + b / 8, ty, st, binds, w, t);
    resolve_node(&kids[..b], at + 1, ty, s, binds, w, t)
}

// A parameter: its type, then its default; its Name is a target with nothing in it.
#[cycle(resolve)]
fn idents_in_param(
    part: &[u8],
    at: usize,
    ty: bool,
    st: Walk,
    binds: &mut [u64],
    w: &mut Words,
    t: &mut Table,
) -> Walk
    requires { PreKind 17 17 part.now at st (mem binds.old w.old t.old) }
    ensures { Done part.now at ty st (mem binds.old w.old t.old) result (mem binds.new w.new t.new) }
{
    each(&part[8..], at + 1, ty, st, binds, w, t)
}

// A Def or a Lambda: all but its last child outside, its last child inside.
#[cycle(resolve)]
fn idents_in_def(
    part: &[u8],
    at: usize,
    st: Walk,
    binds: &mut [u64],
    w: &mut Words,
    t: &mut Table,
) -> Walk
    requires { PreDef part.now at st (mem binds.old w.old t.old) }
    ensures { DoneAny part.now at st (mem binds.old w.old t.old) result (mem binds.new w.new t.new) }
{
    let scope = nodefile::value(part) as usize;
    let kids = &part[8..];
    let b = last(kids);
    let s = each(&kids[..b], at + 1, false, st, binds, w, t);
    let inside = lookup::enter_def(scope, s, binds, t);
    let r = resolve_node(&kids[b..], at + 1 + b / 8, false, inside, binds, w, t);
    lookup::exit_def(scope, r, binds, t)
}

// A comprehension: its first clause outside, the variables, then the rest inside.
#[cycle(resolve)]
fn idents_in_compr(
    part: &[u8],
    at: usize,
    st: Walk,
    binds: &mut [u64],
    w: &mut Words,
    t: &mut Table,
) -> Walk
    requires { PreKind 13 13 part.now at st (mem binds.old w.old t.old) }
    ensures { DoneAny part.now at st (mem binds.old w.old t.old) result (mem binds.new w.new t.new) }
{
    let kids = &part[8..];
    let b = 8 * nodefile::size(kids) as usize;
    let s = resolve_node(&kids[..b], at + 1, false, st, binds, w, t)?;
    let r = collect::add_compr(kids, at + 1, Ok(s), binds, w, t)?;
    let q = each(&kids[b..], at + 1 + b / 8, false, Ok(r), binds, w, t)?;
    store::unscope(binds, t, s.bindings, r.bindings);
    Ok(q)
}

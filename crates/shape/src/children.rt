// Number 8: the root, and the children of each node against the table.
ghost use Rattle.std.specs.Prelude.{◌≡◌, ℕ, ◌*◌, ◌≤◌, List, map, length};
ghost use Rattle.base.specs.Says.{Says};
ghost use Rattle.nodefile.specs.Kinds.{number};
ghost use Rattle.nodefile.specs.Node.{size_of, after};
ghost use Rattle.nodefile.specs.Kids.{Kids, Fits};
ghost use Rattle.shape.specs.Nodes.{Sound};
ghost use Rattle.lexical.specs.Table.{row, matches, allowed};
ghost use Rattle.shape.specs.Children.{BadChildren};
ghost use Rattle.shape.specs.Inside.Row.{place_of, HeadIn};

use nodefile::kinds::{self, Kind, Role};

// The kinds from the first to the second, both among them.
#[derive(Clone, Copy, Debug, PartialEq, Eq)]
struct Kinds(Kind, Kind);

const STATEMENT: Kinds = Kinds(Kind::Block, Kind::Load);

const TARGET: Kinds = Kinds(Kind::Name, Kind::Place);

const EXPRESSION: Kinds = Kinds(Kind::Ident, Kind::Other);

const CLAUSE: Kinds = Kinds(Kind::ForClause, Kind::IfClause);

const NAME: Kinds = Kinds(Kind::Name, Kind::Name);

const FOR_CLAUSE: Kinds = Kinds(Kind::ForClause, Kind::ForClause);

const PARAM: Kinds = Kinds(Kind::Param, Kind::Param);

const TYPE: Kinds = Kinds(Kind::Type, Kind::Type);

// A place of a row of the table: one child, at most one, or any number of children.
#[derive(Clone, Copy, Debug, PartialEq, Eq)]
enum Item {
    One(Kinds),
    Opt(Kinds),
    Many(Kinds),
}

use Item::{Many, One, Opt};

// The row of a kind.
#[tactic(auto, unfolding(lexical::specs::Table::row))]
fn row(kind: Kind) -> &'static [Item]
    ensures { map place_of result.now ≡ row (number kind) }
{
    match kind {
        Kind::Block => &[Many(STATEMENT)],
        Kind::Plain => &[Opt(EXPRESSION)],
        Kind::Assign => &[One(TARGET), Opt(TYPE), One(EXPRESSION)],
        Kind::Modify => &[One(TARGET), One(EXPRESSION)],
        Kind::If => &[One(EXPRESSION), One(STATEMENT), Opt(STATEMENT)],
        Kind::For => &[One(TARGET), One(EXPRESSION), One(STATEMENT)],
        Kind::Def => &[One(NAME), Many(PARAM), Opt(TYPE), One(STATEMENT)],
        Kind::Load => &[Many(NAME)],
        Kind::Name => &[],
        Kind::Tuple => &[Many(TARGET)],
        Kind::Place => &[One(EXPRESSION), Opt(EXPRESSION)],
        Kind::Ident => &[],
        Kind::Lambda => &[Many(PARAM), One(EXPRESSION)],
        Kind::Compr => &[
            One(FOR_CLAUSE),
            Many(CLAUSE),
            One(EXPRESSION),
            Opt(EXPRESSION),
        ],
        Kind::Other => &[Many(EXPRESSION)],
        Kind::ForClause => &[One(TARGET), One(EXPRESSION)],
        Kind::IfClause => &[One(EXPRESSION)],
        Kind::Param => &[One(NAME), Opt(TYPE), Opt(EXPRESSION)],
        Kind::Type => &[One(EXPRESSION)],
    }
}

// Whether a part starts with a node of one of the kinds.
fn head_in(t: &[u8], kinds: Kinds) -> bool
    ensures { Says result (HeadIn t.now kinds) }
{
    if t.len() < 8 {
        return false;
    }
    // A number of five bits against the numbers of two kinds: their order is document 01's.
    let kind = nodefile::kind(t);
    kinds.0 as u64 <= kind && kind <= kinds.1 as u64
}

// What stands after the first node of a part.
fn after(t: &[u8]) -> &[u8]
    requires { 8 * size_of t.now ≤ length t.now }
    ensures { result.now ≡ after t.now }
{
    let end = 8 * nodefile::size(t) as usize;
    &t[end..]
}

// Whether the children in a part are as a row says: a walk over both. (Children take unequal room: it goes by what is left.)
fn matches(row: &[Item], kids: &[u8]) -> bool
    requires { Fits kids.now }
    ensures { (ks : List ℕ) → Kids kids.now ks → result ≡ matches (map place_of row.now) ks }
{
    let mut t = kids;
    for item in row {
        match *item {
            One(kinds) => {
                if !head_in(t, kinds) {
                    return false;
                }
                t = after(t);
            }
            Opt(kinds) => {
                if head_in(t, kinds) {
                    t = after(t);
                }
            }
            Many(kinds) => {
                while head_in(t, kinds) {
                    t = after(t);
                }
            }
        }
    }
    t.is_empty()
}

// Whether the children in a part are what the table allows a node of a kind; a Param may have none.
fn kids_allowed(kids: &[u8], kind: Kind) -> bool
    requires { Fits kids.now }
    ensures { (ks : List ℕ) → Kids kids.now ks → result ≡ allowed (number kind) ks }
{
    (kind == Kind::Param && kids.is_empty()) || matches(row(kind), kids)
}

// Number 8 of the whole list.
pub fn bad_children(ns: &[u8]) -> bool
    requires { Sound ns.now }
    ensures { Says result (BadChildren ns.now) }
{
    if kinds::role_of(ns) != Some(Role::Statement) {
        return true;
    }
    let mut t = ns;
    // A node is judged with its children: the walk goes by what is left.
    while t.len() >= 8 {
        let end = 8 * nodefile::size(t) as usize;
        // Number 7 leaves no node without a kind.
        let Some(kind) = kinds::of(t) else {
            return true;
        };
        if !kids_allowed(&t[8..end], kind) {
            return true;
        }
        t = &t[8..];
    }
    false
}

// The kinds of nodes (document 01, "The node file"), and which of them stand in one another's places.
ghost use Rattle.std.specs.Prelude.{◌≡◌, ◌&&◌, eqb, ltb};
ghost use Rattle.nodefile.specs.Kinds.{Numbered, KindIs, RoleIs, HasRole, number};
ghost use Rattle.nodefile.specs.Listed.{is_scope};
ghost use Rattle.nodefile.specs.Node.{kind_of, size_of};

// What a node is. In a file it is a number of five bits.
#[derive(Clone, Copy, Debug, PartialEq, Eq)]
pub enum Kind {
    Block,
    Plain,
    Assign,
    Modify,
    If,
    For,
    Def,
    Load,
    Name,
    Tuple,
    Place,
    Ident,
    Lambda,
    Compr,
    Other,
    ForClause,
    IfClause,
    Param,
    Type,
}

// A number that is no kind's.
#[derive(Clone, Copy, Debug, PartialEq, Eq)]
pub struct NoKind(pub u64);

impl TryFrom<u64> for Kind {
    type Error = NoKind;

    ghost try_from_gives = { Numbered };

    fn try_from(number: u64) -> Result<Self, NoKind> {
        match number {
            0 => Ok(Kind::Block),
            1 => Ok(Kind::Plain),
            2 => Ok(Kind::Assign),
            3 => Ok(Kind::Modify),
            4 => Ok(Kind::If),
            5 => Ok(Kind::For),
            6 => Ok(Kind::Def),
            7 => Ok(Kind::Load),
            8 => Ok(Kind::Name),
            9 => Ok(Kind::Tuple),
            10 => Ok(Kind::Place),
            11 => Ok(Kind::Ident),
            12 => Ok(Kind::Lambda),
            13 => Ok(Kind::Compr),
            14 => Ok(Kind::Other),
            15 => Ok(Kind::ForClause),
            16 => Ok(Kind::IfClause),
            17 => Ok(Kind::Param),
            18 => Ok(Kind::Type),
            _ => Err(NoKind(number)),
        }
    }
}

// What a node stands for where others hold it; nodes of one role have one function in each walk.
#[derive(Clone, Copy, Debug, PartialEq, Eq)]
pub enum Role {
    Statement,
    Target,
    Expression,
    Clause,
    Parameter,
    Type,
}

impl Kind {
    pub fn role(self) -> Role
        ensures { RoleIs (number self) result }
    {
        match self {
            Kind::Block
            | Kind::Plain
            | Kind::Assign
            | Kind::Modify
            | Kind::If
            | Kind::For
            | Kind::Def
            | Kind::Load => Role::Statement,
            Kind::Name | Kind::Tuple | Kind::Place => Role::Target,
            Kind::Ident | Kind::Lambda | Kind::Compr | Kind::Other => Role::Expression,
            Kind::ForClause | Kind::IfClause => Role::Clause,
            Kind::Param => Role::Parameter,
            Kind::Type => Role::Type,
        }
    }
}

// The kind of the node that t starts with; none if its number is no kind's.
pub fn of(t: &[u8]) -> Option<Kind>
    ensures { KindIs (kind_of t.now) result }
{
    Kind::try_from(crate::kind(t)).ok()
}

// The role of the node that t starts with.
pub fn role_of(t: &[u8]) -> Option<Role>
    ensures { HasRole (kind_of t.now) result }
{
    of(t).map(|kind| kind.role())
}

// Whether the kind with this number has a scope of its own: Def and Lambda.
#[tactic(auto, unfolding(lexical::specs::Tree::way, lexical::specs::Tree::is_fn))]
pub fn is_scope(kind: u64) -> bool
    ensures { result ≡ is_scope kind }
{
    matches!(Kind::try_from(kind), Ok(Kind::Def | Kind::Lambda))
}

// Whether the node that t starts with has one.
pub fn has_scope(t: &[u8]) -> bool
    ensures { result ≡ is_scope (kind_of t.now) }
{
    is_scope(crate::kind(t))
}

// Whether t starts with a Param that has a Name.
pub fn is_named_param(t: &[u8]) -> bool
    ensures { result ≡ (eqb (kind_of t.now) 17 && ltb 1 (size_of t.now)) }
{
    of(t) == Some(Kind::Param) && crate::size(t) > 1
}

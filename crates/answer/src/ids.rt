// The numbers that are counted apart.

// A binding, in order of making.
#[derive(Clone, Copy, Debug, PartialEq, Eq)]
pub struct BindingId(pub usize);

// A scope: 0 the module, else the number that the file gives a Def or a Lambda.
#[derive(Clone, Copy, Debug, PartialEq, Eq)]
pub struct ScopeId(pub usize);

// A slot of the module.
#[derive(Clone, Copy, Debug, PartialEq, Eq)]
pub struct ModuleSlotId(pub usize);

// A slot of a scope.
#[derive(Clone, Copy, Debug, PartialEq, Eq)]
pub struct LocalSlotId(pub usize);

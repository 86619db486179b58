// A slot: its scope, its name.
pub use crate::pair::{high as scope, low as name, make};

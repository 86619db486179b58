// An error: its node, its code.
pub use crate::pair::{high as node, low as code, make};

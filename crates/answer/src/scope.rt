// A scope: its parameter variables, its slots.
pub use crate::pair::{
    high as params, low as slots, with_high as with_params, with_low as with_slots,
};

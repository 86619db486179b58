// How many values a field has, where more than one record has such a field.

// A name, a node, a count.
pub const WORD: u64 = 65536;

// A bit.
pub const FLAG: u64 = 2;

// A slot, a binding.
pub const PLACE: u64 = 32768;

#![tactic(auto)]

// Keys of cells: document 01's key algebra, from `morton_constants.rs` and the whole-number half of `morton.rs`.
use axes::Three;

pub mod keys; // keys.rt: level, parent, children, siblings, ancestors

pub use keys::{get_ancestors, get_child_index, get_children, get_level, get_parent, get_siblings};

// Keys by value, with room for the most neighbours; unused places are 0.
#[derive(Clone, Copy)]
pub struct KeyList {
    pub keys: [u64; Three::NEIGHBOURS],
    pub len: usize,
}

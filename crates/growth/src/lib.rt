#![tactic(auto)]

// How a tree grows: what a build is told besides its points. The definitions stand in specs/, the laws of the grown tree in proofs/.

// The number of axes, the cell limit, the order of the expansions, and whether empty cells are stored.
#[derive(Clone, Copy)]
pub struct Rule {
    pub axes: usize,
    pub limit: usize,
    pub order: usize,
    pub keep: bool,
}

// A tree that was grown: how many nodes it has, and its depth.
#[derive(Clone, Copy)]
pub struct Grown {
    pub nodes: usize,
    pub depth: u64,
}

#![tactic(auto)]

// What a salvage of columns answers. The definitions stand in specs/, the laws of the salvaged tree in proofs/.

// How many nodes, sources and changes there are.
#[derive(Clone, Copy)]
pub struct Salvaged {
    pub nodes: usize,
    pub sources: usize,
    pub changes: usize,
}

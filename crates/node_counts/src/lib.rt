#![tactic(auto)]

// The counts of a salvage: kept where a leaf's run fits, else 0.
ghost use Rattle.std.specs.Prelude.{◌≡◌, ◌+◌, leb};
ghost use Rattle.node_counts.specs.Counts.{counts_kept, Countable};

// Whether a run does not pass the end of so many entries. `begin + own` may be past the largest number, so the room is compared instead.
pub fn run_fits(begin: usize, own: usize, entries: usize) -> bool
    ensures { result ≡ leb (begin + own) entries }
{
    if entries < begin {
        return false;
    }
    own <= entries - begin
}

// Clears the count of each node with children, of the root, and of each leaf whose run passes the end of so many entries.
pub fn keep_counts(axes: usize, key: &[u64], begin: &[usize], own: &mut [usize], entries: usize)
    requires { Countable axes key.now begin.now own.old }
    ensures { own.new ≡ counts_kept axes key.now begin.now own.old entries }
{
    for q in 0..key.len() {
        if !tree::is_leaf(axes, key, q) || !run_fits(begin[q], own[q], entries) {
            own[q] = 0;
        }
    }
}

#![tactic(auto)]

// Totals worked out afresh: from a node's begin to the begin of the first node that is not under it.
ghost use Rattle.std.specs.Prelude.{◌≡◌, List, ℕ};
ghost use Rattle.tree.specs.Totals.{total_column};
ghost use Rattle.node_totals.specs.Totals.{Counted, Totallable};

// The total of each node, from the begins and the number of sources.
pub fn fill_totals(axes: usize, key: &[u64], begin: &[usize], sources: usize, total: &mut [usize])
    requires { Totallable axes key.now begin.now sources total.old }
    ensures { (own : List ℕ) → Counted axes key.now begin.now sources own → total.new ≡ total_column axes key.now own }
{
    for q in 0..key.len() {
        let end = tree::end_of(axes, key, q);
        let past = if end < key.len() { begin[end] } else { sources };
        total[q] = past - begin[q];
    }
}

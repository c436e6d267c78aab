#![tactic(auto)]

// Whether a tree is grown by the rule, judged by its totals with no room: document 02, order 7.
ghost use Rattle.std.specs.Prelude.{◌≡◌, Bool, ◌<◌, length};
ghost use Rattle.tree.specs.Finding.{TreeKeys};
ghost use Rattle.sums.specs.Tells.{Tells};
ghost use Rattle.grown_right.specs.Grown.{kept_by, splits_by, Inner, Grown};

use growth::Rule;

// Whether a cell with n sources is stored.
fn is_kept(g: Rule, n: usize) -> bool
    ensures { result ≡ kept_by g n }
{
    if g.keep {
        return true;
    }
    0 < n
}

// Whether a cell other than the root, with key k and n sources, has children.
fn does_split(g: Rule, k: u64, n: usize) -> bool
    ensures { result ≡ splits_by g k n }
{
    if k % 32768 < 16 {
        return g.limit < n;
    }
    false
}

// Whether each node other than the root is stored and split as the rule says.
fn nodes_right(g: Rule, key: &[u64], total: &[usize]) -> bool
    requires { TreeKeys g.axes key.now × (length total.now ≡ length key.now) }
    ensures { Tells (Inner g key.now total.now) result }
{
    for node in 1..key.len() {
        let n = total[node];
        if !is_kept(g, n) {
            return false;
        }
        if full::has_children(g.axes, key, node) != does_split(g, key[node], n) {
            return false;
        }
    }
    true
}

// Whether the tree is grown by the rule, where its totals are the sources in its cells.
pub fn is_grown(g: Rule, key: &[u64], total: &[usize]) -> bool
    requires { TreeKeys g.axes key.now × (length total.now ≡ length key.now) }
    ensures { Tells (Grown g key.now total.now) result }
{
    let kept = is_kept(g, total[0]);
    if full::has_children(g.axes, key, 0) != kept {
        return false;
    }
    if !nodes_right(g, key, total) {
        return false;
    }
    if !g.keep {
        return true;
    }
    full::is_full(g.axes, key)
}

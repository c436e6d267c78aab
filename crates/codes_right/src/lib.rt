#![tactic(auto)]

// Whether the order column of a tree holds its points, judged by the points' codes where there is room for them: document 02, order 7.
ghost use Rattle.std.specs.Prelude.{◌≡◌, true, ◌≤◌, length};
ghost use Rattle.morton.specs.Keys.{axes_known, level_of};
ghost use Rattle.tree.specs.WellFormed.{well_formed};
ghost use Rattle.sums.specs.Tells.{Tells};
ghost use Rattle.points_right.specs.Points.{code_in, RunRight, PointsRight};

// Whether the entries from one place to another are numbers of codes that the cell with key k holds, each above the one before it.
fn run_right(axes: usize, codes: &[u64], order: &[usize], k: u64, from: usize, to: usize) -> bool
    requires { (axes ≤ 3) × (level_of k ≤ 16) × (to ≤ length order.now) }
    ensures { Tells (RunRight (length codes.now) (code_in axes codes.now) order.now k from to) result }
{
    let shift = axes as u64 * (16 - k % 32768);
    let cell = k / 32768;
    let mut low = 0;
    for p in from..to {
        let i = order[p];
        if i < low {
            return false;
        }
        if codes.len() <= i {
            return false;
        }
        if codes[i] >> shift != cell {
            return false;
        }
        low = i + 1;
    }
    true
}

// Whether the order column of a well-formed tree holds the points with these codes: as many, and each leaf's run right.
pub fn codes_right(
    axes: usize,
    codes: &[u64],
    key: &[u64],
    own: &[usize],
    begin: &[usize],
    total: &[usize],
    order: &[usize],
) -> bool
    requires { (axes_known axes ≡ true) × (well_formed axes key.now own.now begin.now total.now ≡ true) }
    ensures { Tells (PointsRight (length codes.now) (code_in axes codes.now)
        key.now own.now begin.now order.now) result }
{
    if order.len() != codes.len() {
        return false;
    }
    if total[0] != codes.len() {
        return false;
    }
    for node in 0..key.len() {
        let from = begin[node];
        let to = from + own[node];
        if !run_right(axes, codes, order, key[node], from, to) {
            return false;
        }
    }
    true
}

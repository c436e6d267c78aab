#![tactic(auto)]

// Whether the order column of a tree holds its points, judged with no room: document 02, orders 7 and 9. Each point is read once.
ghost use Rattle.std.specs.Prelude.{◌≡◌, true, ◌+◌, ◌*◌, ◌≤◌, ◌<◌, length};
ghost use Rattle.morton.specs.Keys.{axes_known, level_of};
ghost use Rattle.space.specs.Cells.{frame_of};
ghost use Rattle.space.specs.Rows.{rows_of};
ghost use Rattle.tree.specs.WellFormed.{well_formed};
ghost use Rattle.sums.specs.Tells.{Tells};
ghost use Rattle.points_right.specs.Points.{point_in, RunRight, PointsRight};

use space::{Box, Frame};

// Whether point i lies in the cell with key k.
fn is_held(f: Frame, points: &[f64], k: u64, i: usize) -> bool
    requires { (1 ≤ f.axes) × (f.axes ≤ 3) × (i * f.axes + f.axes ≤ length points.now) × (level_of k ≤ 16) }
    ensures { result ≡ point_in f points.now k i }
{
    let Some(code) = space::code_at(f, points, i * f.axes) else {
        return false;
    };
    let shift = f.axes as u64 * (16 - k % 32768);
    code >> shift == k / 32768
}

// Whether the entries from one place to another are numbers of points, n in all, that the cell with key k holds, each above the one before it.
fn run_right(
    f: Frame,
    points: &[f64],
    n: usize,
    order: &[usize],
    k: u64,
    from: usize,
    to: usize,
) -> bool
    requires { (1 ≤ f.axes) × (f.axes ≤ 3) × (n * f.axes ≤ length points.now) × (level_of k ≤ 16) × (to ≤ length order.now) }
    ensures { Tells (RunRight n (point_in f points.now) order.now k from to) result }
{
    let mut low = 0;
    for p in from..to {
        let i = order[p];
        if i < low {
            return false;
        }
        if n <= i {
            return false;
        }
        if !is_held(f, points, k, i) {
            return false;
        }
        low = i + 1;
    }
    true
}

// Whether the order column of a well-formed tree holds these points: as many, and each leaf's run right.
pub fn points_right(
    b: Box,
    points: &[f64],
    key: &[u64],
    own: &[usize],
    begin: &[usize],
    total: &[usize],
    order: &[usize],
) -> bool
    requires { (axes_known b.axes ≡ true) × (well_formed b.axes key.now own.now begin.now total.now ≡ true) }
    ensures { Tells (PointsRight (rows_of b points.now) (point_in (frame_of b) points.now)
        key.now own.now begin.now order.now) result }
{
    let n = points.len() / b.axes;
    if order.len() != n {
        return false;
    }
    if total[0] != n {
        return false;
    }
    let f = space::frame_of(b);
    for node in 0..key.len() {
        let from = begin[node];
        let to = from + own[node];
        if !run_right(f, points, n, order, key[node], from, to) {
            return false;
        }
    }
    true
}

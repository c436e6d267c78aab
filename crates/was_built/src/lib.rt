#![tactic(auto)]

// Whether a tree handed in is the build of its sources, judged with no room and without building it: document 02, order 7.
ghost use Rattle.std.specs.Prelude.{◌≡◌, true, ◌≤◌, length};
ghost use Rattle.morton.specs.Keys.{axes_known};
ghost use Rattle.space.specs.Rows.{rows_of};
ghost use Rattle.tree.specs.Columns.{columns};
ghost use Rattle.tree.specs.WellFormed.{well_formed};
ghost use Rattle.was_built.specs.Build.{is_build};

use growth::Rule;
use space::Box;

// Whether a well-formed tree and its order column are the build of these sources.
pub fn is_build(
    b: Box,
    limit: usize,
    keep: bool,
    sources: &[f64],
    key: &[u64],
    own: &[usize],
    begin: &[usize],
    total: &[usize],
    order: &[usize],
) -> bool
    requires { (axes_known b.axes ≡ true) × (well_formed b.axes key.now own.now begin.now total.now ≡ true) }
    ensures { result ≡ is_build b limit keep sources.now (columns key.now own.now begin.now total.now) order.now }
{
    if !points_right::points_right(b, sources, key, own, begin, total, order) {
        return false;
    }
    let g = Rule {
        axes: b.axes,
        limit,
        order: 0,
        keep,
    };
    grown_right::is_grown(g, key, total)
}

// The same, by the codes of the sources, which are written to the work: each source is read once, one after the other.
fn is_coded_build(
    b: Box,
    limit: usize,
    keep: bool,
    sources: &[f64],
    key: &[u64],
    own: &[usize],
    begin: &[usize],
    total: &[usize],
    order: &[usize],
    work: &mut [u64],
) -> bool
    requires { (axes_known b.axes ≡ true) × (well_formed b.axes key.now own.now begin.now total.now ≡ true) × (rows_of b sources.now ≤ length work.old) }
    ensures { result ≡ is_build b limit keep sources.now (columns key.now own.now begin.now total.now) order.now }
{
    if space::points_to_codes(b, sources, work).is_err() {
        return false;
    }
    let n = sources.len() / b.axes;
    if !codes_right::codes_right(b.axes, &work[..n], key, own, begin, total, order) {
        return false;
    }
    let g = Rule {
        axes: b.axes,
        limit,
        order: 0,
        keep,
    };
    grown_right::is_grown(g, key, total)
}

// Whether a well-formed tree and its order column are the build of these sources: by the sources' codes where the work has room for them. It holds anything then.
pub fn is_build_in(
    b: Box,
    limit: usize,
    keep: bool,
    sources: &[f64],
    key: &[u64],
    own: &[usize],
    begin: &[usize],
    total: &[usize],
    order: &[usize],
    work: &mut [u64],
) -> bool
    requires { (axes_known b.axes ≡ true) × (well_formed b.axes key.now own.now begin.now total.now ≡ true) }
    ensures { result ≡ is_build b limit keep sources.now (columns key.now own.now begin.now total.now) order.now }
{
    if work.len() < sources.len() / b.axes {
        return is_build(b, limit, keep, sources, key, own, begin, total, order);
    }
    is_coded_build(b, limit, keep, sources, key, own, begin, total, order, work)
}

// Near work over a U list that is at hand.
ghost use Rattle.std.specs.Prelude.{◌≡◌, ◌≤◌, ◌<◌, length, get_or};
ghost use Rattle.tree.specs.Nodes.{own_of};
ghost use Rattle.tree.specs.WellFormed.{most_sources, SoundTree};
ghost use Rattle.rows.specs.Lists.{u_row, near_work};
ghost use Rattle.rows.specs.Written.{Written};
ghost use Rattle.near_pass.specs.Sums.{row_sources, work_of, most_work, Weights};
ghost use Rattle.near_work.specs.Work.{Beside};

// What the node with key k owns, 0 if there is none.
fn own_of(axes: usize, key: &[u64], own: &[usize], k: u64) -> usize
    requires { Beside axes key.now own.now }
    ensures { result ≡ own_of key.now own.now k }
{
    let found = tree::find_node(axes, key, k);
    match found {
        Some(node) => own[node],
        None => 0,
    }
}

// The sources in a row.
fn row_sources(axes: usize, key: &[u64], own: &[usize], row: &[u64]) -> u64
    requires { Beside axes key.now own.now × (row_sources key.now own.now row.now ≤ most_sources) }
    ensures { result ≡ row_sources key.now own.now row.now }
{
    let mut sources: u64 = 0;
    for k in row {
        sources += own_of(axes, key, own, *k) as u64;
    }
    sources
}

// What a node adds to near work.
fn work_of(
    axes: usize,
    key: &[u64],
    own: &[usize],
    counts: &[usize],
    starts: &[usize],
    flat: &[u64],
    node: usize,
) -> u64
    requires { SoundTree axes key.now own.now × Written key.now (u_row axes key.now own.now) starts.now flat.now × (node < length key.now) × Weights axes key.now counts.now }
    ensures { result ≡ work_of axes key.now own.now counts.now (get_or key.now node 0) }
{
    if !tree::is_leaf(axes, key, node) {
        return 0;
    }
    let from = starts[node];
    let to = starts[node + 1];
    let sources = row_sources(axes, key, own, &flat[from..to]);
    counts[node] as u64 * sources
}

// Near work, read from a U list as the list call has written it, with the targets of each leaf in a column.
pub fn near_work(
    axes: usize,
    key: &[u64],
    own: &[usize],
    counts: &[usize],
    starts: &[usize],
    flat: &[u64],
) -> u64
    requires { SoundTree axes key.now own.now × Written key.now (u_row axes key.now own.now) starts.now flat.now × Weights axes key.now counts.now }
    ensures work { result ≡ near_work axes key.now own.now (own_of key.now counts.now) }
    ensures bounded { result ≤ most_work }
{
    let mut work: u64 = 0;
    for node in 0..key.len() {
        work += work_of(axes, key, own, counts, starts, flat, node);
    }
    work
}

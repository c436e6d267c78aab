#![tactic(auto)]

// The rows of a salvage's input of which a change is told: dropped, cleared or moved.
ghost use Rattle.std.specs.Prelude.{◌≡◌, ◌<◌, length};
ghost use Rattle.sourced.specs.Room.{Puts};
ghost use Rattle.changed_rows.specs.Told.{beside, told_node, told_row, told_keys, Comparable};

// Whether the code, one of 2, 4 and 5, is told of a row with a valid key.
fn node_told(
    code: u64,
    first: bool,
    own: usize,
    begin: usize,
    count: usize,
    new_begin: usize,
) -> bool
    ensures { result ≡ told_node code first own begin count new_begin }
{
    if code == 2 {
        return !first;
    }
    if !first {
        return false;
    }
    if code == 4 {
        if own == 0 {
            return false;
        }
        return count == 0;
    }
    begin != new_begin
}

// Whether the code, one of 1, 2, 4 and 5, is told of a row.
fn row_told(
    code: u64,
    axes: usize,
    key: &[u64],
    own: &[usize],
    begin: &[usize],
    nodes: &[u64],
    counts: &[usize],
    begins: &[usize],
    firsts: &[usize],
    row: usize,
) -> bool
    requires { Comparable (beside axes key.now own.now begin.now nodes.now counts.now begins.now) firsts.now × (row < length key.now) }
    ensures { result ≡ told_row (beside axes key.now own.now begin.now nodes.now counts.now begins.now) code row }
{
    let k = key[row];
    let valid = kept_keys::is_valid(axes, k);
    if code == 1 {
        return !valid;
    }
    if !valid {
        return false;
    }
    let found = tree::find_node(axes, nodes, k);
    match found {
        Some(node) => {
            let first = firsts[node] == row + 1;
            node_told(
                code,
                first,
                own[row],
                begin[row],
                counts[node],
                begins[node],
            )
        }
        None => false,
    }
}

// Puts the keys of the rows of which the code is told, by row.
pub fn put_rows(
    code: u64,
    axes: usize,
    key: &[u64],
    own: &[usize],
    begin: &[usize],
    nodes: &[u64],
    counts: &[usize],
    begins: &[usize],
    firsts: &[usize],
    changed: &mut [u64],
    from: usize,
) -> usize
    requires { Comparable (beside axes key.now own.now begin.now nodes.now counts.now begins.now) firsts.now }
    ensures { Puts changed.old from (told_keys (beside axes key.now own.now begin.now nodes.now counts.now begins.now) code) changed.new result }
{
    let mut n = from;
    for row in 0..key.len() {
        if row_told(
            code, axes, key, own, begin, nodes, counts, begins, firsts, row,
        ) {
            n = sourced::put(changed, n, key[row]);
        }
    }
    n
}

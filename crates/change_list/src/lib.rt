#![tactic(auto)]

// The change list of a salvage: each change by code and key.
ghost use Rattle.std.specs.Prelude.{◌≡◌, ◌++◌, ◌-◌, ◌≤◌, length, take, replicate};
ghost use Rattle.sourced.specs.Room.{Puts};
ghost use Rattle.changed_rows.specs.Told.{beside, Comparable};
ghost use Rattle.change_list.specs.List.{zero_nodes, code_runs, ListedAll};

// Puts the keys of the nodes that no row has, by node.
fn put_added(nodes: &[u64], firsts: &[usize], changed: &mut [u64], from: usize) -> usize
    requires { length firsts.now ≡ length nodes.now }
    ensures { Puts changed.old from (zero_nodes nodes.now firsts.now) changed.new result }
{
    let mut n = from;
    for q in 0..nodes.len() {
        if firsts[q] == 0 {
            n = sourced::put(changed, n, nodes[q]);
        }
    }
    n
}

// Writes the code in the places from n up to m.
fn put_code(codes: &mut [u64], code: u64, n: usize, m: usize)
    requires { (n ≤ m) × (m ≤ length codes.old) }
    ensures { take m codes.new ≡ take n codes.old ++ replicate (m - n) code }
{
    codes[n..m].fill(code);
}

// Writes the codes of the five parts, which end at these places.
fn put_codes(codes: &mut [u64], a: usize, b: usize, c: usize, d: usize, e: usize)
    requires { (a ≤ b) × (b ≤ c) × (c ≤ d) × (d ≤ e) × (e ≤ length codes.old) }
    ensures { take e codes.new ≡ code_runs a b c d e }
{
    put_code(codes, 1, 0, a);
    put_code(codes, 2, a, b);
    put_code(codes, 3, b, c);
    put_code(codes, 4, c, d);
    put_code(codes, 5, d, e);
}

// Lists the changes: their number, one more than the room for keys where that is too small.
pub fn list_changes(
    axes: usize,
    key: &[u64],
    own: &[usize],
    begin: &[usize],
    nodes: &[u64],
    counts: &[usize],
    begins: &[usize],
    firsts: &[usize],
    codes: &mut [u64],
    changed: &mut [u64],
) -> usize
    requires { Comparable (beside axes key.now own.now begin.now nodes.now counts.now begins.now) firsts.now }
    ensures { ListedAll (beside axes key.now own.now begin.now nodes.now counts.now begins.now) codes.new changed.new result }
{
    let a = changed_rows::put_rows(
        1, axes, key, own, begin, nodes, counts, begins, firsts, changed, 0,
    );
    let b = changed_rows::put_rows(
        2, axes, key, own, begin, nodes, counts, begins, firsts, changed, a,
    );
    let c = put_added(nodes, firsts, changed, b);
    sourced::sort_part(changed, b, c);
    let d = changed_rows::put_rows(
        4, axes, key, own, begin, nodes, counts, begins, firsts, changed, c,
    );
    let e = changed_rows::put_rows(
        5, axes, key, own, begin, nodes, counts, begins, firsts, changed, d,
    );
    if changed.len() < e {
        return e;
    }
    if codes.len() < e {
        return e;
    }
    put_codes(codes, a, b, c, d, e);
    e
}

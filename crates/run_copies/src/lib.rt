#![tactic(auto)]

// The runs of an order column copied to a new one, node by node.
ghost use Rattle.std.specs.Prelude.{◌≡◌, ◌++◌, ◌+◌, ◌≤◌, length, take, drop};
ghost use Rattle.slices.specs.Lists.{filled};
ghost use Rattle.run_copies.specs.Runs.{runs, Copiable};

// Copies n entries from `from` on to the places from `at` on.
fn copy_run(order: &[usize], from: usize, n: usize, out: &mut [usize], at: usize)
    requires { (from + n ≤ length order.now) × (at + n ≤ length out.old) }
    ensures { take (at + n) out.new ≡ take at out.old ++ take n (drop from order.now) }
{
    // Not `copy_from_slice`: it would have the archive ask its caller for memmove.
    for j in 0..n {
        out[at + j] = order[from + j];
    }
}

// Each run in turn, and 0 in the unused rest.
pub fn copy_runs(begin: &[usize], own: &[usize], order: &[usize], out: &mut [usize])
    requires { Copiable order.now begin.now own.now out.old }
    ensures { out.new ≡ filled (length out.old) (runs order.now begin.now own.now) }
{
    let mut at = 0;
    for q in 0..own.len() {
        let n = own[q];
        if 0 < n {
            copy_run(order, begin[q], n, out, at);
            at += n;
        }
    }
    slices::clear_from_usize(out, at);
}

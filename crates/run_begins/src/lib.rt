#![tactic(auto)]

// Begins are the running sums of the own counts.
ghost use Rattle.std.specs.Prelude.{◌≡◌, ◌≤◌, length};
ghost use Rattle.slices.specs.Lists.{sum};
ghost use Rattle.tree.specs.WellFormed.{most_sources};
ghost use Rattle.growth.specs.Columns.{begin_column};

// The begin of each node: the sum of the own counts before it.
pub fn fill_begins(own: &[usize], begin: &mut [usize])
    requires { (length begin.old ≡ length own.now) × (sum own.now ≤ most_sources) }
    ensures { begin.new ≡ begin_column own.now }
{
    let mut run = 0;
    for q in 0..own.len() {
        begin[q] = run;
        run += own[q];
    }
}

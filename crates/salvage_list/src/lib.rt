#![tactic(auto)]

// The order column, the begins and the change list of a salvage, from its nodes and their counts.
ghost use Rattle.std.specs.Prelude.{◌≡◌, length};
ghost use Rattle.slices.specs.Lists.{filled};
ghost use Rattle.salvaged.specs.Nodes.{input};
ghost use Rattle.salvaged.specs.Columns.{new_order_of, new_begins};
ghost use Rattle.salvage_list.specs.Listed.{Listable, Listed};

// Copies the runs, works out the begins, and lists the changes. In `new_total` the numbers of the first rows are left.
pub fn list(
    axes: usize,
    key: &[u64],
    own: &[usize],
    begin: &[usize],
    order: &[usize],
    new_order: &mut [usize],
    new_key: &[u64],
    new_own: &[usize],
    new_begin: &mut [usize],
    new_total: &mut [usize],
    codes: &mut [u64],
    changed: &mut [u64],
) -> usize
    requires { Listable (input axes key.now own.now begin.now order.now) new_order.old new_key.now new_own.now new_begin.old new_total.old }
    ensures listed { Listed (input axes key.now own.now begin.now order.now) codes.new changed.new result }
    ensures new_order_after { new_order.new ≡ filled (length new_order.old) (new_order_of (input axes key.now own.now begin.now order.now)) }
    ensures new_begin_after { new_begin.new ≡ new_begins (input axes key.now own.now begin.now order.now) }
{
    run_copies::copy_runs(new_begin, new_own, order, new_order);
    first_rows::number_first(axes, new_key, key, new_total);
    run_begins::fill_begins(new_own, new_begin);
    change_list::list_changes(
        axes, key, own, begin, new_key, new_own, new_begin, new_total, codes, changed,
    )
}

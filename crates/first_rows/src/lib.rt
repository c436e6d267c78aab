#![tactic(auto)]

// A repeated key keeps its first row: a column of the input, node by node.
ghost use Rattle.std.specs.Prelude.{◌≡◌, map, length};
ghost use Rattle.salvaged.specs.Columns.{first_of};
ghost use Rattle.slices.specs.Lists.{range};
ghost use Rattle.first_rows.specs.First.{Fillable, Numberable};

// For each node what the column has in the first row with its key, 0 if no row has it: from the last row back, so that the first stays.
pub fn take_first(axes: usize, key: &[u64], rows: &[u64], column: &[usize], out: &mut [usize])
    requires { Fillable axes key.now rows.now column.now out.old }
    ensures { out.new ≡ map (first_of rows.now column.now) key.now }
{
    slices::clear_usize(out);
    for i in (0..rows.len()).rev() {
        if let Some(node) = tree::find_node(axes, key, rows[i]) {
            out[node] = column[i];
        }
    }
}

// For each node the number of the first row with its key, counted from 1, 0 if no row has it.
pub fn number_first(axes: usize, key: &[u64], rows: &[u64], out: &mut [usize])
    requires { Numberable axes key.now rows.now out.old }
    ensures { out.new ≡ map (first_of rows.now (range 1 (length rows.now))) key.now }
{
    slices::clear_usize(out);
    for i in (0..rows.len()).rev() {
        if let Some(node) = tree::find_node(axes, key, rows[i]) {
            out[node] = i + 1;
        }
    }
}

#![tactic(auto)]

// Whether the columns of a tree file are a tree's, judged where they stand: document 02, order 6. The tests are those of `tree`, and so are the laws.
ghost use Rattle.std.specs.Prelude.{◌≡◌};
ghost use Rattle.tree.specs.WellFormed.{well_formed};
ghost use Rattle.tree.specs.Pass.{rows_right, Rooted, Rowed};
ghost use Rattle.tree_file.specs.Trailer.{column_in};
ghost use Rattle.sums.specs.Tells.{Tells};
ghost use Rattle.file_columns.specs.Columns.{Sectioned};
ghost use Rattle.file_tree.specs.Rows.{OneLength, RootRow};

use file_columns::{count_of, key_of, number_of};
use file_sections::Sections;
use tree::MOST_SOURCES;

// Whether the rows after the root's are right but for the totals: one pass, each row against the one before it.
fn rows_right(file: &[u8], s: Sections) -> bool
    requires { Sectioned file.now s × Rooted s.axes (column_in file.now 1) (column_in file.now 2) (column_in file.now 3) }
    ensures { result ≡ rows_right s.axes (column_in file.now 1) (column_in file.now 2) (column_in file.now 3) }
{
    let axes = s.axes;
    let n = count_of(file, s, 1);
    let mut run = 0;
    for i in 1..n {
        let p = key_of(file, s, 1, i - 1);
        let k = key_of(file, s, 1, i);
        if !tree::may_follow(axes, p, k) {
            return false;
        }
        let owned = number_of(file, s, 2, i - 1);
        if !tree::may_own(p, k, owned) {
            return false;
        }
        let first = number_of(file, s, 3, i);
        if first != run {
            return false;
        }
        let count = number_of(file, s, 2, i);
        if MOST_SOURCES - run < count {
            return false;
        }
        run += count;
    }
    true
}

// Whether the totals are right where all else is: one pass from the last row back, with the sums that wait for a parent, one for each level.
fn totals_right(file: &[u8], s: Sections) -> bool
    requires { Sectioned file.now s × Rowed s.axes (column_in file.now 1) (column_in file.now 2) (column_in file.now 3) (column_in file.now 4) }
    ensures { result ≡ well_formed s.axes (column_in file.now 1) (column_in file.now 2) (column_in file.now 3) (column_in file.now 4) }
{
    let mut waiting = [0usize; 18];
    let n = count_of(file, s, 1);
    for i in (0..n).rev() {
        let k = key_of(file, s, 1, i);
        let own = number_of(file, s, 2, i);
        let total = number_of(file, s, 4, i);
        let level = (k % 32768) as usize;
        let sum = own + waiting[level + 1];
        if total != sum {
            return false;
        }
        waiting[level + 1] = 0;
        waiting[level] += sum;
    }
    true
}

// Whether the columns have one length, and at least a row.
fn one_length(file: &[u8], s: Sections) -> bool
    requires { Sectioned file.now s }
    ensures { Tells (OneLength (column_in file.now 1) (column_in file.now 2) (column_in file.now 3) (column_in file.now 4)) result }
{
    let n = count_of(file, s, 1);
    if n < 1 {
        return false;
    }
    if count_of(file, s, 2) != n {
        return false;
    }
    if count_of(file, s, 3) != n {
        return false;
    }
    count_of(file, s, 4) == n
}

// Whether the first row is the root's, which owns nothing.
fn root_right(file: &[u8], s: Sections) -> bool
    requires { Sectioned file.now s }
    ensures { Tells (RootRow (column_in file.now 1) (column_in file.now 2) (column_in file.now 3)) result }
{
    if key_of(file, s, 1, 0) != 0 {
        return false;
    }
    if number_of(file, s, 2, 0) != 0 {
        return false;
    }
    number_of(file, s, 3, 0) == 0
}

// Whether the columns are a well-formed tree: their lengths, the root's row, the others, and the totals.
pub fn columns_right(file: &[u8], s: Sections) -> bool
    requires { Sectioned file.now s }
    ensures { result ≡ well_formed s.axes (column_in file.now 1) (column_in file.now 2) (column_in file.now 3) (column_in file.now 4) }
{
    if !one_length(file, s) {
        return false;
    }
    if !root_right(file, s) {
        return false;
    }
    if !rows_right(file, s) {
        return false;
    }
    totals_right(file, s)
}

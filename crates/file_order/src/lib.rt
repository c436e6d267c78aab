#![tactic(auto)]

// Whether the order column of a tree file arranges all indices below a number, judged where it stands: document 02, order 6. The tests are those of `arrangement`, and so are the laws.
ghost use Rattle.std.specs.Prelude.{◌≡◌};
ghost use Rattle.sums.specs.Arrangement.{arranges};
ghost use Rattle.sums.specs.Tells.{Tells};
ghost use Rattle.arrangement.specs.Windows.{AllBelow, OnceFrom};
ghost use Rattle.tree_file.specs.Trailer.{column_in};
ghost use Rattle.file_columns.specs.Columns.{Sectioned};

use arrangement::WINDOW;
use file_columns::{count_of, number_of};
use file_sections::Sections;

// Whether each entry is below n.
fn all_below(file: &[u8], s: Sections, n: usize) -> bool
    requires { Sectioned file.now s }
    ensures { Tells (AllBelow (column_in file.now 5) n) result }
{
    let count = count_of(file, s, 5);
    for i in 0..count {
        let index = number_of(file, s, 5, i);
        if n <= index {
            return false;
        }
    }
    true
}

// Whether no index of the window that starts at `from` stands twice.
fn once_from(file: &[u8], s: Sections, from: usize) -> bool
    requires { Sectioned file.now s }
    ensures { Tells (OnceFrom (column_in file.now 5) from) result }
{
    let count = count_of(file, s, 5);
    let mut seen = [0u64; 2048];
    for i in 0..count {
        let index = number_of(file, s, 5, i);
        if index < from {
            continue;
        }
        let at = index - from;
        if WINDOW <= at {
            continue;
        }
        let word = at / 64;
        let old = seen[word];
        if (old >> (at % 64)) % 2 != 0 {
            return false;
        }
        seen[word] = old + arrangement::bit_at(at % 64);
    }
    true
}

// Whether the column has as many entries as there are indices below n, and each of them once.
pub fn order_right(file: &[u8], s: Sections, n: usize) -> bool
    requires { Sectioned file.now s }
    ensures { result ≡ arranges (column_in file.now 5) n }
{
    if count_of(file, s, 5) != n {
        return false;
    }
    if !all_below(file, s, n) {
        return false;
    }
    let mut from: usize = 0;
    while from < n {
        if !once_from(file, s, from) {
            return false;
        }
        if n - from <= WINDOW {
            return true;
        }
        from += WINDOW;
    }
    true
}

#![tactic(auto)]

// Columns of a tree file copied out of it: document 02, order 6.
ghost use Rattle.std.specs.Prelude.{◌≡◌, ◌≤◌, length};
ghost use Rattle.slices.specs.Lists.{filled};
ghost use Rattle.tree_file.specs.Trailer.{width_of, column_in};
ghost use Rattle.file_columns.specs.Columns.{Sectioned};

use file_columns::{count_of, key_of, number_of};
use file_sections::Sections;

// Puts a section of numbers into a slice, and 0 into the rest of it.
pub fn take_numbers(file: &[u8], s: Sections, code: usize, out: &mut [usize])
    requires { Sectioned file.now s × (1 ≤ code) × (code ≤ 9) × (width_of code ≡ 4) × (length (column_in file.now code) ≤ length out.old) }
    ensures { out.new ≡ filled (length out.old) (column_in file.now code) }
{
    let n = count_of(file, s, code);
    for i in 0..n {
        out[i] = number_of(file, s, code, i);
    }
    slices::clear_from_usize(out, n);
}

// Puts a section of keys into a slice, and 0 into the rest of it.
pub fn take_keys(file: &[u8], s: Sections, code: usize, out: &mut [u64])
    requires { Sectioned file.now s × (1 ≤ code) × (code ≤ 9) × (width_of code ≡ 8) × (length (column_in file.now code) ≤ length out.old) }
    ensures { out.new ≡ filled (length out.old) (column_in file.now code) }
{
    let n = count_of(file, s, code);
    for i in 0..n {
        out[i] = key_of(file, s, code, i);
    }
    slices::clear_from(out, n);
}

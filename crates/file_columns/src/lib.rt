#![tactic(auto)]

// Entries of the sections of a tree file, by code and number: document 02, order 6. Whoever judges a file that has no room to stand in reads it so.
ghost use Rattle.std.specs.Prelude.{◌≡◌, ◌≤◌, length, get_or};
ghost use Rattle.tree_file.specs.Trailer.{width_of, column_in};
ghost use Rattle.file_columns.specs.Columns.{Sectioned};

use file_sections::Sections;

// How many numbers the section of a code holds.
pub fn count_of(file: &[u8], s: Sections, code: usize) -> usize
    requires { Sectioned file.now s × (1 ≤ code) × (code ≤ 9) }
    ensures { result ≡ length (column_in file.now code) }
{
    let counts = s.counts;
    counts[code - 1]
}

// Number i of a section of numbers, 0 past the last.
pub fn number_of(file: &[u8], s: Sections, code: usize, i: usize) -> usize
    requires { Sectioned file.now s × (1 ≤ code) × (code ≤ 9) × (width_of code ≡ 4) }
    ensures { result ≡ get_or (column_in file.now code) i 0 }
{
    let starts = s.starts;
    let counts = s.counts;
    file_bytes::number_at(file, starts[code - 1], counts[code - 1], i)
}

// Key i of a section of keys, 0 past the last.
pub fn key_of(file: &[u8], s: Sections, code: usize, i: usize) -> u64
    requires { Sectioned file.now s × (1 ≤ code) × (code ≤ 9) × (width_of code ≡ 8) }
    ensures { result ≡ get_or (column_in file.now code) i 0 }
{
    let starts = s.starts;
    let counts = s.counts;
    file_bytes::key_at(file, starts[code - 1], counts[code - 1], i)
}

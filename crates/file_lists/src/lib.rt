#![tactic(auto)]

// Whether the lists of a tree file are its tree's, judged where they stand: document 02, order 6. No row is made again; the tests are those of `list_check`, and so are the laws.
ghost use Rattle.std.specs.Prelude.{◌≡◌, ◌+◌, ◌≤◌, get_or};
ghost use Rattle.rows.specs.Written.{row_of};
ghost use Rattle.sums.specs.Tells.{Tells};
ghost use Rattle.sums.specs.Right.{StartsRight, ListsRight, lists_are};
ghost use Rattle.list_rows.specs.Entries.{Counted, Cell};
ghost use Rattle.list_rows.specs.Rows.{too_many};
ghost use Rattle.list_check.specs.Checks.{Started, FarSays, NearRight, NodeSays, Below};
ghost use Rattle.tree_file.specs.Trailer.{width_of, column_in};
ghost use Rattle.file_columns.specs.Columns.{Sectioned};

use file_columns::{count_of, key_of, number_of};
use file_sections::Sections;
use list_rows::Row;
use morton::keys;

// Whether the starts of a list go from 0 to the number of list keys, one more than there are nodes, and never fall.
fn starts_right(file: &[u8], s: Sections, code: usize) -> bool
    requires { Sectioned file.now s × (1 ≤ code) × (code ≤ 8) × (width_of code ≡ 4) }
    ensures { Tells (StartsRight (column_in file.now 1) (column_in file.now code) (column_in file.now (code + 1))) result }
{
    let n = count_of(file, s, 1);
    if count_of(file, s, code) != n + 1 {
        return false;
    }
    let first = number_of(file, s, code, 0);
    if first != 0 {
        return false;
    }
    for i in 0..n {
        let here = number_of(file, s, code, i);
        let next = number_of(file, s, code, i + 1);
        if next < here {
            return false;
        }
    }
    let last = number_of(file, s, code, n);
    let flat = count_of(file, s, code + 1);
    if last != flat {
        return false;
    }
    true
}

// A node below the root, with its place and its parent's.
fn row_of(file: &[u8], s: Sections, node: usize) -> Row
    requires { Sectioned file.now s × Counted s.axes (column_in file.now 1) (column_in file.now 2) (column_in file.now 4) × Below (column_in file.now 1) node }
    ensures cell { Cell s.axes (column_in file.now 1) result }
    ensures key { result.cell ≡ get_or (column_in file.now 1) node 0 }
{
    let axes = s.axes;
    let cell = key_of(file, s, 1, node);
    let place = places::place_of(axes, cell);
    let above = places::place_of(axes, keys::parent_of(axes, cell));
    Row { cell, place, above }
}

// How many sources are met above a node and in its V row, if that row passes.
fn far_sources(file: &[u8], s: Sections, node: usize, row: Row, above: usize) -> Option<usize>
    requires sectioned { Sectioned file.now s × Counted s.axes (column_in file.now 1) (column_in file.now 2) (column_in file.now 4)
        × StartsRight (column_in file.now 1) (column_in file.now 8) (column_in file.now 9) }
    requires below { Below (column_in file.now 1) node × Cell s.axes (column_in file.now 1) row × (row.cell ≡ get_or (column_in file.now 1) node 0) × (above ≤ too_many) }
    ensures { FarSays s.axes (column_in file.now 1) (column_in file.now 2) (column_in file.now 4)
        (column_in file.now 8) (column_in file.now 9) node above result }
{
    let from = number_of(file, s, 8, node);
    let to = number_of(file, s, 8, node + 1);
    let count = file_rows::row_sources(file, s, true, row, 9, from, to)?;
    Some(list_rows::held(above + count))
}

// Whether the U row of a node passes, and brings the rest of all sources.
fn near_right(file: &[u8], s: Sections, node: usize, row: Row, met: usize) -> bool
    requires sectioned { Sectioned file.now s × Counted s.axes (column_in file.now 1) (column_in file.now 2) (column_in file.now 4)
        × StartsRight (column_in file.now 1) (column_in file.now 6) (column_in file.now 7) }
    requires below { Below (column_in file.now 1) node × Cell s.axes (column_in file.now 1) row × (row.cell ≡ get_or (column_in file.now 1) node 0) × (met ≤ too_many) }
    ensures { Tells (NearRight s.axes (column_in file.now 1) (column_in file.now 2) (column_in file.now 4)
        (column_in file.now 6) (column_in file.now 7) node met) result }
{
    let from = number_of(file, s, 6, node);
    let to = number_of(file, s, 6, node + 1);
    if !file_rows::is_leaf(file, s, node) {
        return to <= from;
    }
    let Some(count) = file_rows::row_sources(file, s, false, row, 7, from, to) else {
        return false;
    };
    let all = number_of(file, s, 4, 0);
    count + met == all
}

// How many sources are met above a node and in its V row, if both its rows are right.
fn node_sources(file: &[u8], s: Sections, node: usize, above: usize) -> Option<usize>
    requires sectioned { Sectioned file.now s × Counted s.axes (column_in file.now 1) (column_in file.now 2) (column_in file.now 4)
        × Started (column_in file.now 1) (column_in file.now 6) (column_in file.now 7) (column_in file.now 8) (column_in file.now 9) }
    requires below { Below (column_in file.now 1) node × (above ≤ too_many) }
    ensures { NodeSays s.axes (column_in file.now 1) (column_in file.now 2) (column_in file.now 4) (column_in file.now 6)
        (column_in file.now 7) (column_in file.now 8) (column_in file.now 9) node above result }
{
    let row = row_of(file, s, node);
    let met = far_sources(file, s, node, row, above)?;
    if near_right(file, s, node, row, met) {
        return Some(met);
    }
    None
}

// Whether the rows of all nodes are right. What is met in the V rows rides on the path from the root, one count for each level.
fn rows_right(file: &[u8], s: Sections) -> bool
    requires { Sectioned file.now s × Counted s.axes (column_in file.now 1) (column_in file.now 2) (column_in file.now 4)
        × Started (column_in file.now 1) (column_in file.now 6) (column_in file.now 7) (column_in file.now 8) (column_in file.now 9) }
    ensures { Tells (ListsRight s.axes (column_in file.now 1) (column_in file.now 2)
        (row_of (column_in file.now 1) (column_in file.now 6) (column_in file.now 7))
        (row_of (column_in file.now 1) (column_in file.now 8) (column_in file.now 9))) result }
{
    let first_u = number_of(file, s, 6, 1);
    if first_u != 0 {
        return false;
    }
    let first_v = number_of(file, s, 8, 1);
    if first_v != 0 {
        return false;
    }
    let n = count_of(file, s, 1);
    let mut far = [0usize; 17];
    for node in 1..n {
        let k = key_of(file, s, 1, node);
        let level = (k % 32768) as usize;
        let above = far[level - 1];
        let Some(met) = node_sources(file, s, node, above) else {
            return false;
        };
        far[level] = met;
    }
    true
}

// Whether the lists are the tree's, for columns that are a well-formed tree.
pub fn lists_right(file: &[u8], s: Sections) -> bool
    requires { Sectioned file.now s × Counted s.axes (column_in file.now 1) (column_in file.now 2) (column_in file.now 4) }
    ensures { result ≡ lists_are s.axes (column_in file.now 1) (column_in file.now 2) (column_in file.now 6) (column_in file.now 7)
        (column_in file.now 8) (column_in file.now 9) }
{
    if !starts_right(file, s, 6) {
        return false;
    }
    if !starts_right(file, s, 8) {
        return false;
    }
    rows_right(file, s)
}

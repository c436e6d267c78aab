#![tactic(auto)]

// The targets of each leaf: each target is looked up and counted at its leaf's number. Targets are coded a piece at a time, which is
// quicker than to code and look up one after the other, and takes no room that grows with them.
ghost use Rattle.std.specs.Prelude.{◌≡◌, ℕ, ◌+◌, ◌*◌, ◌≤◌, ◌<◌, length, get_or, take, replicate};
ghost use Rattle.refusal.specs.Outcome.{accepted};
ghost use Rattle.tree.specs.Finding.{TreeKeys};
ghost use Rattle.space.specs.Rows.{rows_of, most_points};
ghost use Rattle.grouping.specs.Passes.{Counted};
ghost use Rattle.lookup.specs.Batch.{held_before, leaf_keys, codes_inside, points_outcome};
ghost use Rattle.target_counts.specs.Pieces.{Piece, Added};

use hints::Blocks;
use refusal::Refusal;
use space::{Box, Frame};

// The targets of a piece.
const PIECE: usize = 512;

// A piece's length, or what is left if that is less.
fn piece_of(rest: usize) -> usize
    ensures { (result ≤ rest) × (result ≤ 512) × (1 ≤ rest → 1 ≤ result) }
{
    rest.min(PIECE)
}

// Puts the codes of so many targets, at equal distances from one row on, up to the first of them that is outside; answers how many.
// More than one place calls it, so that a compiler leaves it a function of its own: joined with the whole call, its loop has too few
// registers.
fn code_rows(
    f: Frame,
    targets: &[f64],
    from: usize,
    far: usize,
    most: usize,
    codes: &mut [u64],
) -> usize
    requires le_axes { (1 ≤ f.axes) × (f.axes ≤ 3) × (1 ≤ far) × (far ≤ most_points) × (most ≤ 512) × (length codes.old ≡ 512) }
    requires far_bound { (from + most * far ≤ most_points) × ((from + most * far) * f.axes ≤ length targets.now) }
    ensures { (length codes.new ≡ 512) × Piece f targets.now from far most codes.new result }
{
    let step = far * f.axes;
    let mut at = from * f.axes;
    for n in 0..most {
        match space::code_at(f, targets, at) {
            Some(code) => {
                codes[n] = code;
            }
            None => {
                return n;
            }
        }
        at += step;
    }
    most
}

// Counts the first n codes at their leaves, up to the first that no leaf holds, by hints; answers how many.
fn count_codes(
    axes: usize,
    key: &[u64],
    words: &[u64; hints::WORDS],
    blocks: Blocks,
    codes: &[u64],
    n: usize,
    counts: &mut [usize],
) -> usize
    requires tree_keys { TreeKeys axes key.now × (n ≤ length codes.now) × (n ≤ 512) × (length key.now ≤ length counts.old) }
    requires by_index { (j : ℕ) → get_or counts.old j 0 + n ≤ most_points }
    ensures value { result ≡ held_before axes key.now (take n codes.now) }
    ensures added { Added key.now (leaf_keys axes key.now codes.now) result counts.old counts.new }
{
    for row in 0..n {
        let code = codes[row];
        let hint = hints::hint_of(axes, key, words, blocks, code);
        let leaf = leaf_search::leaf_from(axes, key, hint, code);
        match leaf {
            Some(node) => {
                counts[node] += 1;
            }
            None => {
                return row;
            }
        }
    }
    n
}

// Counts the targets, up to the first that is outside or in no leaf, by hints. What the codes hold does not matter.
fn count_by(
    b: Box,
    key: &[u64],
    words: &[u64; hints::WORDS],
    blocks: Blocks,
    targets: &[f64],
    codes: &mut [u64],
    counts: &mut [usize],
) -> Result<(), Refusal>
    requires codes_len { length codes.old ≡ 512 }
    requires le_axes { (1 ≤ b.axes) × (b.axes ≤ 3) × TreeKeys b.axes key.now × (rows_of b targets.now ≤ most_points) }
    requires key_in_bounds { (length key.now ≤ length counts.old) × (counts.old ≡ replicate (length counts.old) 0) }
    ensures value { result ≡ points_outcome b key.now targets.now }
    ensures counted { points_outcome b key.now targets.now ≡ accepted
        → Counted key.now (leaf_keys b.axes key.now (codes_inside b targets.now)) (rows_of b targets.now) counts.new }
{
    let f = space::frame_of(b);
    let axes = b.axes;
    let rows = targets.len() / axes;
    let mut row = 0;
    while row < rows {
        let most = piece_of(rows - row);
        let n = code_rows(f, targets, row, 1, most, codes);
        if n < 1 {
            return Err(Refusal::Point(space::wall_of(f, targets, row * axes, row)));
        }
        let found = count_codes(axes, key, words, blocks, codes, n, counts);
        if found < n {
            return Err(Refusal::Unstored(row + found));
        }
        row += n;
    }
    Ok(())
}

// Puts the codes of some targets, from all over them, up to the first of these that is outside; answers how many.
fn some_codes(f: Frame, targets: &[f64], rows: usize, codes: &mut [u64]) -> usize
    requires { (1 ≤ f.axes) × (f.axes ≤ 3) × (rows ≤ most_points) × (rows * f.axes ≤ length targets.now) × (length codes.old ≡ 512) }
    ensures { (result ≤ 64) × (length codes.new ≡ 512) }
{
    let far = rows / hints::PROBES;
    if far < 1 {
        return code_rows(f, targets, 0, 1, rows, codes);
    }
    code_rows(f, targets, 0, far, hints::PROBES, codes)
}

// The same with hints of its own, made for where the targets are.
pub fn count_targets(
    b: Box,
    key: &[u64],
    targets: &[f64],
    counts: &mut [usize],
) -> Result<(), Refusal>
    requires le_axes { (1 ≤ b.axes) × (b.axes ≤ 3) × TreeKeys b.axes key.now × (rows_of b targets.now ≤ most_points) }
    requires key_in_bounds { (length key.now ≤ length counts.old) × (counts.old ≡ replicate (length counts.old) 0) }
    ensures value { result ≡ points_outcome b key.now targets.now }
    ensures counted { points_outcome b key.now targets.now ≡ accepted
        → Counted key.now (leaf_keys b.axes key.now (codes_inside b targets.now)) (rows_of b targets.now) counts.new }
{
    let rows = targets.len() / b.axes;
    let mut codes = [0u64; PIECE];
    let some = some_codes(space::frame_of(b), targets, rows, &mut codes);
    let mut words = [0u64; hints::WORDS];
    let blocks = hints::prepare_for(b.axes, key, rows, &codes, some, &mut words);
    count_by(b, key, &words, blocks, targets, &mut codes, counts)
}

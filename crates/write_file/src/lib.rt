#![tactic(auto)]

// The writer of a tree file: document 02, order 6. Columns, order, U and V in nine sections, then the trailer.
ghost use Rattle.std.specs.Prelude.{◌≡◌, ◌≤◌, max, length};
ghost use Rattle.refusal.specs.Outcome.{accepted};
ghost use Rattle.tree.specs.Columns.{columns};
ghost use Rattle.sourced.specs.Answers.{tree_check};
ghost use Rattle.tree_file.specs.Contents.{contents};
ghost use Rattle.tree_file.specs.Checks.{writeable, rest_right};
ghost use Rattle.file_layout.specs.Lengths.{body_length};
ghost use Rattle.write_file.specs.Fitting.{lengths_fit};
ghost use Rattle.write_file.specs.Answers.{write_check, write_answer, write_left};

use refusal::Refusal;

fn larger(a: usize, b: usize) -> usize
    ensures { result ≡ max a b }
{
    if a < b { b } else { a }
}

// Whether columns of these lengths are counted, and their bytes together within a u32. Each length is tested first, so that no product wraps.
fn lengths_fit(
    keys: usize,
    own: usize,
    begin: usize,
    total: usize,
    order: usize,
    us: usize,
    uk: usize,
    vs: usize,
    vk: usize,
) -> bool
    ensures { result ≡ lengths_fit keys own begin total order us uk vs vk }
{
    if keys > 1048576 {
        return false;
    }
    if larger(uk, vk) > 16777216 {
        return false;
    }
    if larger(own, larger(begin, total)) > 1073741824 {
        return false;
    }
    if larger(order, larger(us, vs)) > 1073741824 {
        return false;
    }
    8 * (keys + uk + vk) + 4 * (own + begin + total + order + us + vs) <= 4294967295
}

// The bytes of all sections.
fn body_length(
    keys: usize,
    own: usize,
    begin: usize,
    total: usize,
    order: usize,
    us: usize,
    uk: usize,
    vs: usize,
    vk: usize,
) -> usize
    requires { body_length keys own begin total order us uk vs vk ≤ 4294967295 }
    ensures { result ≡ body_length keys own begin total order us uk vs vk }
{
    8 * (keys + uk + vk) + 4 * (own + begin + total + order + us + vs)
}

// Whether the order column and the lists are the tree's, for a tree that is well formed.
fn rest_right(
    axes: usize,
    key: &[u64],
    own: &[usize],
    begin: &[usize],
    total: &[usize],
    indices: &[usize],
    u_starts: &[usize],
    u_keys: &[u64],
    v_starts: &[usize],
    v_keys: &[u64],
) -> bool
    requires { tree_check axes (columns key.now own.now begin.now total.now) ≡ accepted }
    ensures { result ≡ rest_right (contents axes key.now own.now begin.now total.now indices.now
        u_starts.now u_keys.now v_starts.now v_keys.now) }
{
    if !arrangement::is_arrangement(indices, total[0]) {
        return false;
    }
    list_check::are_lists(axes, key, own, total, u_starts, u_keys, v_starts, v_keys)
}

// The refusals of a tree.
fn tree_outcome(
    axes: usize,
    key: &[u64],
    own: &[usize],
    begin: &[usize],
    total: &[usize],
    indices: &[usize],
    u_starts: &[usize],
    u_keys: &[u64],
    v_starts: &[usize],
    v_keys: &[u64],
) -> Result<(), Refusal>
    ensures { result ≡ writeable (contents axes key.now own.now begin.now total.now indices.now
        u_starts.now u_keys.now v_starts.now v_keys.now) }
{
    if !axes::axes_known(axes) {
        return Err(Refusal::Dims);
    }
    if !lengths_fit(
        key.len(),
        own.len(),
        begin.len(),
        total.len(),
        indices.len(),
        u_starts.len(),
        u_keys.len(),
        v_starts.len(),
        v_keys.len(),
    ) {
        return Err(Refusal::Count);
    }
    sourced::check_tree(axes, key, own, begin, total)?;
    if rest_right(
        axes, key, own, begin, total, indices, u_starts, u_keys, v_starts, v_keys,
    ) {
        return Ok(());
    }
    Err(Refusal::Section)
}

// The refusals of all arguments, with so much room for the file.
fn write_outcome(
    axes: usize,
    key: &[u64],
    own: &[usize],
    begin: &[usize],
    total: &[usize],
    indices: &[usize],
    u_starts: &[usize],
    u_keys: &[u64],
    v_starts: &[usize],
    v_keys: &[u64],
    room: usize,
) -> Result<(), Refusal>
    ensures { result ≡ write_check (contents axes key.now own.now begin.now total.now indices.now
        u_starts.now u_keys.now v_starts.now v_keys.now) room }
{
    tree_outcome(
        axes, key, own, begin, total, indices, u_starts, u_keys, v_starts, v_keys,
    )?;
    let bytes = body_length(
        key.len(),
        own.len(),
        begin.len(),
        total.len(),
        indices.len(),
        u_starts.len(),
        u_keys.len(),
        v_starts.len(),
        v_keys.len(),
    );
    if bytes + 116 <= room {
        return Ok(());
    }
    Err(Refusal::Room(11))
}

// Writes a tree's file into the lent slice, and answers its length.
pub fn write_tree(
    axes: usize,
    key: &[u64],
    own: &[usize],
    begin: &[usize],
    total: &[usize],
    indices: &[usize],
    u_starts: &[usize],
    u_keys: &[u64],
    v_starts: &[usize],
    v_keys: &[u64],
    file: &mut [u8],
) -> Result<usize, Refusal>
    ensures answer { result ≡ write_answer (contents axes key.now own.now begin.now total.now indices.now
        u_starts.now u_keys.now v_starts.now v_keys.now) (length file.old) }
    ensures file { file.new ≡ write_left (contents axes key.now own.now begin.now total.now indices.now
        u_starts.now u_keys.now v_starts.now v_keys.now) (length file.old) }
{
    let checked = write_outcome(
        axes,
        key,
        own,
        begin,
        total,
        indices,
        u_starts,
        u_keys,
        v_starts,
        v_keys,
        file.len(),
    );
    if let Err(refusal) = checked {
        file_bytes::clear(file);
        return Err(refusal);
    }
    let bytes = file_layout::put_file(
        axes, key, own, begin, total, indices, u_starts, u_keys, v_starts, v_keys, file,
    );
    file_bytes::clear_from(file, bytes);
    Ok(bytes)
}

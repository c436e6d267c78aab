#![tactic(auto)]

// The bytes of a tree file put into a lent slice: document 02, order 6. Nine sections without gaps, then the trailer.
ghost use Rattle.std.specs.Prelude.{◌≡◌, List, [], ◌∷◌, ◌++◌, ◌+◌, ◌*◌, ◌≤◌, length};
ghost use Rattle.slices.specs.Lists.{sum};
ghost use Rattle.tree_file.specs.Bytes.{u32, in_bytes};
ghost use Rattle.tree_file.specs.Contents.{contents};
ghost use Rattle.tree_file.specs.Written.{body, file_of};
ghost use Rattle.file_bytes.specs.Pasted.{pasted};
ghost use Rattle.file_layout.specs.Lengths.{body_length, section_lengths, entry, entries_from};

// The bytes of each section.
fn section_lengths(
    keys: usize,
    own: usize,
    begin: usize,
    total: usize,
    order: usize,
    us: usize,
    uk: usize,
    vs: usize,
    vk: usize,
) -> [usize; 9]
    requires { body_length keys own begin total order us uk vs vk ≤ 4294967295 }
    ensures { result ≡ section_lengths keys own begin total order us uk vs vk }
{
    [
        8 * keys,
        4 * own,
        4 * begin,
        4 * total,
        4 * order,
        4 * us,
        8 * uk,
        4 * vs,
        8 * vk,
    ]
}

// Puts sections 1 to 5 at the front, and answers where they end.
fn put_columns(
    file: &mut [u8],
    key: &[u64],
    own: &[usize],
    begin: &[usize],
    total: &[usize],
    indices: &[usize],
) -> usize
    requires { 8 * length key.now + (4 * length own.now + (4 * length begin.now + (4 * length total.now + 4 * length indices.now))) ≤ length file.old }
    ensures bytes { file.new ≡ pasted file.old 0 (body (in_bytes 8 key.now ∷ in_bytes 4 own.now ∷ in_bytes 4 begin.now
        ∷ in_bytes 4 total.now ∷ in_bytes 4 indices.now ∷ [])) }
    ensures end { result ≡ 8 * length key.now + 4 * length own.now + 4 * length begin.now + 4 * length total.now + 4 * length indices.now }
{
    file_bytes::put_keys(file, 0, key);
    let first = 8 * key.len();
    file_bytes::put_numbers(file, first, own);
    let second = first + 4 * own.len();
    file_bytes::put_numbers(file, second, begin);
    let third = second + 4 * begin.len();
    file_bytes::put_numbers(file, third, total);
    let fourth = third + 4 * total.len();
    file_bytes::put_numbers(file, fourth, indices);
    fourth + 4 * indices.len()
}

// Puts sections 6 to 9 from a place on, and answers where they end.
fn put_lists(
    file: &mut [u8],
    at: usize,
    u_starts: &[usize],
    u_keys: &[u64],
    v_starts: &[usize],
    v_keys: &[u64],
) -> usize
    requires { at + (4 * length u_starts.now + (8 * length u_keys.now + (4 * length v_starts.now + 8 * length v_keys.now))) ≤ length file.old }
    ensures bytes { file.new ≡ pasted file.old at (body (in_bytes 4 u_starts.now ∷ in_bytes 8 u_keys.now
        ∷ in_bytes 4 v_starts.now ∷ in_bytes 8 v_keys.now ∷ [])) }
    ensures end { result ≡ at + 4 * length u_starts.now + 8 * length u_keys.now + 4 * length v_starts.now + 8 * length v_keys.now }
{
    file_bytes::put_numbers(file, at, u_starts);
    let first = at + 4 * u_starts.len();
    file_bytes::put_keys(file, first, u_keys);
    let second = first + 8 * u_keys.len();
    file_bytes::put_numbers(file, second, v_starts);
    let third = second + 4 * v_starts.len();
    file_bytes::put_keys(file, third, v_keys);
    third + 8 * v_keys.len()
}

// Puts one entry of the trailer.
fn put_entry(file: &mut [u8], at: usize, code: usize, back: usize, bytes: usize)
    requires { at + 12 ≤ length file.old }
    ensures { file.new ≡ pasted file.old at (entry code back bytes) }
{
    file_bytes::put_number(file, at, code as u64);
    file_bytes::put_number(file, at + 4, back as u64);
    file_bytes::put_number(file, at + 8, bytes as u64);
}

// Puts an entry for each section, with codes from 1 on. From the trailer's start it is as far back to a section as the sections from it on are long.
fn put_entries(file: &mut [u8], at: usize, lengths: &[usize; 9], whole: usize)
    requires { (at + 108 ≤ length file.old) × (whole ≡ sum lengths.now) × (length lengths.now ≡ 9) }
    ensures { file.new ≡ pasted file.old at (entries_from 1 lengths.now) }
{
    let mut back = whole;
    for i in 0..9 {
        let bytes = lengths[i];
        put_entry(file, at + 12 * i, i + 1, back, bytes);
        back -= bytes;
    }
}

// Puts the trailer.
fn put_trailer(file: &mut [u8], at: usize, lengths: &[usize; 9], axes: usize)
    requires { (at + 116 ≤ length file.old) × (at ≡ sum lengths.now) × (length lengths.now ≡ 9) }
    ensures { file.new ≡ pasted file.old at (entries_from 1 lengths.now ++ u32 axes ++ u32 9) }
{
    put_entries(file, at, lengths, at);
    file_bytes::put_number(file, at + 108, axes as u64);
    file_bytes::put_number(file, at + 112, 9);
}

// Puts the file at the front of a slice that has room for it, and answers its length.
pub fn put_file(
    axes: usize,
    key: &[u64],
    own: &[usize],
    begin: &[usize],
    total: &[usize],
    indices: &[usize],
    u_starts: &[usize],
    u_keys: &[u64],
    v_starts: &[usize],
    v_keys: &[u64],
    file: &mut [u8],
) -> usize
    requires { (body_length (length key.now) (length own.now) (length begin.now) (length total.now) (length indices.now) (length u_starts.now)
        (length u_keys.now) (length v_starts.now) (length v_keys.now) ≤ 4294967295)
        × (length (file_of (contents axes key.now own.now begin.now total.now indices.now u_starts.now u_keys.now v_starts.now v_keys.now)) ≤ length file.old) }
    ensures bytes { file.new ≡ pasted file.old 0 (file_of (contents axes key.now own.now begin.now total.now
        indices.now u_starts.now u_keys.now v_starts.now v_keys.now)) }
    ensures length { result ≡ length (file_of (contents axes key.now own.now begin.now total.now
        indices.now u_starts.now u_keys.now v_starts.now v_keys.now)) }
{
    let lengths = section_lengths(
        key.len(),
        own.len(),
        begin.len(),
        total.len(),
        indices.len(),
        u_starts.len(),
        u_keys.len(),
        v_starts.len(),
        v_keys.len(),
    );
    let middle = put_columns(file, key, own, begin, total, indices);
    let end = put_lists(file, middle, u_starts, u_keys, v_starts, v_keys);
    put_trailer(file, end, &lengths, axes);
    end + 116
}

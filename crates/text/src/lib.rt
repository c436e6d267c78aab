#![tactic(auto)]

// The text of a listing, written into a lent slice: document 01, "The survey file and the listing". Nodes in Z order are printed by level.
ghost use Rattle.std.specs.Prelude.{◌≡◌, List, [], ◌∷◌, ◌++◌, ℕ, ◌+◌, ◌≤◌, ◌-◌, ◌<◌, min, length, get_or, take, replicate};
ghost use Rattle.sourced.specs.Room.{Holds, Puts};
ghost use Rattle.rows.specs.Written.{row_at};
ghost use Rattle.text.specs.Digits.{decimal};
ghost use Rattle.text.specs.Listing.{field, fields, line, refusal_line, lettered, of_level, node_line, lines_from, node_lines, listing, text_answer, text_left};

use refusal::Refusal;

// Where the lines of nodes end, and the number that is printed next.
#[derive(Clone, Copy)]
struct Lines {
    end: usize,
    number: usize,
}

// Puts one more byte where there is room, and counts it; the count stays at one more than the room once it is past it.
fn put(out: &mut [u8], n: usize, byte: u8) -> usize
    ensures { Puts out.old n (byte ∷ []) out.new result }
{
    if n < out.len() {
        out[n] = byte;
        return n + 1;
    }
    out.len() + 1
}

// Puts a number in decimal.
fn put_decimal(out: &mut [u8], n: usize, x: u64) -> usize
    ensures { Puts out.old n (decimal x) out.new result }
{
    if x < 10 {
        return put(out, n, 48 + x as u8);
    }
    let m = put_decimal(out, n, x / 10);
    put(out, m, 48 + (x % 10) as u8)
}

// Puts a blank and a number.
fn put_field(out: &mut [u8], n: usize, x: u64) -> usize
    ensures { Puts out.old n (field x) out.new result }
{
    let m = put(out, n, b' ');
    put_decimal(out, m, x)
}

// Puts each number of a slice after a blank.
fn put_fields(out: &mut [u8], n: usize, xs: &[u64]) -> usize
    ensures { Puts out.old n (fields xs.now) out.new result }
{
    let mut m = n;
    for x in xs {
        m = put_field(out, m, *x);
    }
    m
}

// Puts the bytes of a word.
fn put_word(out: &mut [u8], n: usize, word: &[u8]) -> usize
    ensures { Puts out.old n word.now out.new result }
{
    let mut m = n;
    for byte in word {
        m = put(out, m, *byte);
    }
    m
}

// An entry of a column, 0 past its end.
fn start_at(column: &[usize], i: usize) -> usize
    ensures { result ≡ get_or column.now i 0 }
{
    if i < column.len() {
        return column[i];
    }
    0
}

// Puts a letter and the keys of a node's row.
fn put_row(
    out: &mut [u8],
    n: usize,
    letter: u8,
    starts: &[usize],
    keys: &[u64],
    node: usize,
) -> usize
    requires { node < 18446744073709551615 }
    ensures { Puts out.old n (lettered letter (row_at starts.now keys.now node)) out.new result }
{
    let blank = put(out, n, b' ');
    let m = put(out, blank, letter);
    let from = start_at(starts, node);
    let to = start_at(starts, node + 1).min(keys.len());
    if to <= from {
        return m;
    }
    put_fields(out, m, &keys[from..to])
}

// Puts the line of a node under the number it is printed with.
fn put_node(
    out: &mut [u8],
    n: usize,
    number: usize,
    key: &[u64],
    own: &[usize],
    u_starts: &[usize],
    u_keys: &[u64],
    v_starts: &[usize],
    v_keys: &[u64],
    node: usize,
) -> usize
    requires { node < length key.now }
    ensures { Puts out.old n (node_line key.now own.now
        (row_at u_starts.now u_keys.now) (row_at v_starts.now v_keys.now) number node) out.new result }
{
    let numbered = put_decimal(out, n, number as u64);
    let named = put_field(out, numbered, key[node]);
    let owned = put_field(out, named, start_at(own, node) as u64);
    let near = put_row(out, owned, b'U', u_starts, u_keys, node);
    let far = put_row(out, near, b'V', v_starts, v_keys, node);
    put(out, far, b'\n')
}

// Puts the lines of the nodes of one level, with numbers from `number` on.
fn put_level(
    out: &mut [u8],
    n: usize,
    number: usize,
    level: u64,
    key: &[u64],
    own: &[usize],
    u_starts: &[usize],
    u_keys: &[u64],
    v_starts: &[usize],
    v_keys: &[u64],
) -> Lines
    requires { number + length (of_level key.now level) ≤ length key.now }
    ensures lines { Puts out.old n (lines_from key.now own.now (row_at u_starts.now u_keys.now)
        (row_at v_starts.now v_keys.now) number (of_level key.now level)) out.new result.end }
    ensures number { result.number ≡ number + length (of_level key.now level) }
{
    let mut end = n;
    let mut next = number;
    for node in 0..key.len() {
        if key[node] % 32768 == level {
            end = put_node(
                out, end, next, key, own, u_starts, u_keys, v_starts, v_keys, node,
            );
            next += 1;
        }
    }
    Lines { end, number: next }
}

// Puts the lines of all nodes, level by level.
fn put_nodes(
    out: &mut [u8],
    n: usize,
    key: &[u64],
    own: &[usize],
    u_starts: &[usize],
    u_keys: &[u64],
    v_starts: &[usize],
    v_keys: &[u64],
) -> usize
    ensures { Puts out.old n (node_lines key.now own.now
        (row_at u_starts.now u_keys.now) (row_at v_starts.now v_keys.now)) out.new result }
{
    let mut end = n;
    let mut number = 0;
    for level in 0..17 {
        let lines = put_level(
            out, end, number, level, key, own, u_starts, u_keys, v_starts, v_keys,
        );
        end = lines.end;
        number = lines.number;
    }
    end
}

// Puts a line of a word and numbers.
fn put_line(out: &mut [u8], n: usize, word: &[u8], numbers: &[u64]) -> usize
    ensures { Puts out.old n (line word.now numbers.now) out.new result }
{
    let a = put_word(out, n, word);
    let b = put_fields(out, a, numbers);
    put(out, b, b'\n')
}

// Sets every byte from place `from` on to 0.
fn clear_from(s: &mut [u8], from: usize)
    ensures { s.new ≡ take from s.old ++ replicate (length s.old - from) 0 }
{
    if from < s.len() {
        s[from..].fill(0);
    }
}

// Ends a text of n bytes: clears the rest and answers n, or clears all and answers none if the text has no room.
fn finish(out: &mut [u8], n: usize) -> Option<usize>
    ensures { (text : List ℕ) → Holds out.old n text → (result ≡ text_answer (length out.old) text) × (out.new ≡ text_left (length out.old) text) }
{
    if out.len() < n {
        out.fill(0);
        return None;
    }
    clear_from(out, n);
    Some(n)
}

// The listing of a tree with these columns and rows: its length, or none if it has no room.
pub fn write_listing(
    axes: usize,
    depth: u64,
    sources: usize,
    work: u64,
    key: &[u64],
    own: &[usize],
    u_starts: &[usize],
    u_keys: &[u64],
    v_starts: &[usize],
    v_keys: &[u64],
    out: &mut [u8],
) -> Option<usize>
    ensures answer { result ≡ text_answer (length out.old) (listing key.now own.now
        (row_at u_starts.now u_keys.now) (row_at v_starts.now v_keys.now) axes depth sources work) }
    ensures text { out.new ≡ text_left (length out.old) (listing key.now own.now
        (row_at u_starts.now u_keys.now) (row_at v_starts.now v_keys.now) axes depth sources work) }
{
    let numbers = [axes as u64, key.len() as u64, depth, sources as u64, work];
    let n = put_line(out, 0, b"tree", &numbers);
    let m = put_nodes(out, n, key, own, u_starts, u_keys, v_starts, v_keys);
    finish(out, m)
}

// The one line of a refusal: its length, or none if it has no room.
pub fn write_refusal(refusal: Refusal, out: &mut [u8]) -> Option<usize>
    ensures answer { result ≡ text_answer (length out.old) (refusal_line refusal) }
    ensures text { out.new ≡ text_left (length out.old) (refusal_line refusal) }
{
    let told = refusal::tell(refusal);
    let numbers = [
        told.number,
        told.value as u64,
        told.axis as u64,
        told.reason as u64,
    ];
    let count = told.count + 1;
    let n = put_line(out, 0, b"refused", &numbers[..count]);
    finish(out, n)
}

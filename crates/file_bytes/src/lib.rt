#![tactic(auto)]

// Numbers of a tree file put into bytes and read from them, little-endian: document 02, order 6.
ghost use Rattle.std.specs.Prelude.{◌≡◌, ◌++◌, ◌+◌, ◌-◌, ◌*◌, ◌≤◌, ◌<◌, length, get_or, take, replicate};
ghost use Rattle.tree_file.specs.Bytes.{u32, bytes_of, in_bytes, entries_at};
ghost use Rattle.file_bytes.specs.Pasted.{pasted};

// Puts the last four bytes of a number at a place.
pub fn put_number(out: &mut [u8], at: usize, x: u64)
    requires { at + 4 ≤ length out.old }
    ensures { out.new ≡ pasted out.old at (u32 x) }
{
    let second = x / 256;
    let third = second / 256;
    let fourth = third / 256;
    out[at] = (x % 256) as u8;
    out[at + 1] = (second % 256) as u8;
    out[at + 2] = (third % 256) as u8;
    out[at + 3] = (fourth % 256) as u8;
}

// Puts the eight bytes of a key at a place.
pub fn put_key(out: &mut [u8], at: usize, x: u64)
    requires { at + 8 ≤ length out.old }
    ensures { out.new ≡ pasted out.old at (bytes_of 8 x) }
{
    put_number(out, at, x);
    put_number(out, at + 4, x / 4294967296);
}

// Puts the numbers of a column, four bytes each, from a place on.
pub fn put_numbers(out: &mut [u8], at: usize, xs: &[usize])
    requires { at + 4 * length xs.now ≤ length out.old }
    ensures { out.new ≡ pasted out.old at (in_bytes 4 xs.now) }
{
    for i in 0..xs.len() {
        put_number(out, at + 4 * i, xs[i] as u64);
    }
}

// Puts keys, eight bytes each, from a place on.
pub fn put_keys(out: &mut [u8], at: usize, xs: &[u64])
    requires { at + 8 * length xs.now ≤ length out.old }
    ensures { out.new ≡ pasted out.old at (in_bytes 8 xs.now) }
{
    for i in 0..xs.len() {
        put_key(out, at + 8 * i, xs[i]);
    }
}

// Sets every byte to 0.
pub fn clear(s: &mut [u8])
    ensures { s.new ≡ replicate (length s.old) 0 }
{
    s.fill(0);
}

// Sets every byte from place `from` on to 0.
pub fn clear_from(s: &mut [u8], from: usize)
    ensures { s.new ≡ take from s.old ++ replicate (length s.old - from) 0 }
{
    if from < s.len() {
        clear(&mut s[from..]);
    }
}

// Number i of n that take four bytes each from a place on, 0 past the last.
pub fn number_at(file: &[u8], at: usize, n: usize, i: usize) -> usize
    requires { at + 4 * n ≤ length file.now }
    ensures { result ≡ get_or (entries_at file.now 4 at n) i 0 }
{
    if i >= n {
        return 0;
    }
    survey::u32_at(file, at + 4 * i) as usize
}

// Key i of n that take eight bytes each from a place on, 0 past the last.
pub fn key_at(file: &[u8], at: usize, n: usize, i: usize) -> u64
    requires { at + 8 * n ≤ length file.now }
    ensures { result ≡ get_or (entries_at file.now 8 at n) i 0 }
{
    if i >= n {
        return 0;
    }
    survey::u32_at(file, at + 8 * i) + 4294967296 * survey::u32_at(file, at + 8 * i + 4)
}

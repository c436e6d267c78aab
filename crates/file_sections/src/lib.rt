#![tactic(auto)]

// Where the sections of a tree file stand: document 02, order 6. The trailer and its entries are read and judged; no section is looked into.
ghost use Rattle.std.specs.Prelude.{◌≡◌, true, ◌&&◌, cond, ℕ, suc, ◌+◌, ◌*◌, ◌%◌, ◌≤◌, ◌<◌, leb, ltb, eqb, length, get_or};
ghost use Rattle.slices.specs.Every.{every};
ghost use Rattle.tree_file.specs.Trailer.{width_of, axes_in, entries_in, trailer_fits, trailer as trailer_of, code_taken, is_inside, is_whole, sections_good};
ghost use Rattle.file_sections.specs.Answers.{section_by, Entered, Placed, located, sections_in};

use refusal::Refusal;

// What a code is for: a section whose numbers are so wide; kept for later, and skipped; or no code.
#[derive(Clone, Copy)]
pub enum Section {
    Known(usize),
    Skipped,
    Bad,
}

// The axes of a file, and for codes 1 to 9 in their order where the section starts and how many numbers it holds.
#[derive(Clone, Copy)]
pub struct Sections {
    pub axes: usize,
    pub starts: [usize; 9],
    pub counts: [usize; 9],
}

// What a code is for.
fn section_of(code: u64) -> Section
    ensures { result ≡ section_by code }
{
    match code {
        1 | 7 | 9 => Section::Known(8),
        2..=6 | 8 => Section::Known(4),
        10..=31 => Section::Skipped,
        _ => Section::Bad,
    }
}

// Whether a section stands between the file's start and the trailer.
fn is_inside(trailer: usize, back: u64, bytes: u64) -> bool
    ensures { result ≡ (leb back trailer && leb bytes back) }
{
    if back > trailer as u64 {
        return false;
    }
    bytes <= back
}

// Whether so many bytes are whole entries.
fn is_whole(bytes: u64, width: usize) -> bool
    ensures { result ≡ cond (eqb width 8) (eqb (bytes % 8) 0) (eqb (bytes % 4) 0) }
{
    if width == 8 {
        return bytes % 8 == 0;
    }
    bytes % 4 == 0
}

// Whether an entry's code is one, and its section inside the file and whole.
fn entry_right(file: &[u8], trailer: usize, i: usize) -> bool
    requires { (trailer ≡ trailer_of file.now) × (trailer + 12 * i + 12 ≤ length file.now) }
    ensures { result ≡ (code_taken file.now i && (is_inside file.now i && is_whole file.now i)) }
{
    let at = trailer + 12 * i;
    let section = section_of(survey::u32_at(file, at));
    let back = survey::u32_at(file, at + 4);
    let bytes = survey::u32_at(file, at + 8);
    match section {
        Section::Bad => false,
        Section::Skipped => is_inside(trailer, back, bytes),
        Section::Known(width) => {
            if !is_inside(trailer, back, bytes) {
                return false;
            }
            is_whole(bytes, width)
        }
    }
}

// The entries of a trailer, one by one. Where all are good: for each code the number of its entry, counted from 1; 0 where there is none.
fn find_entries(file: &[u8], trailer: usize, n: usize) -> Option<[usize; 32]>
    requires { (trailer ≡ trailer_of file.now) × (trailer + 12 * n + 8 ≤ length file.now) }
    ensures { Entered file.now n result }
{
    let mut at = [0usize; 32];
    for i in 0..n {
        if !entry_right(file, trailer, i) {
            return None;
        }
        let code = survey::u32_at(file, trailer + 12 * i) as usize;
        if at[code] != 0 {
            return None;
        }
        at[code] = i + 1;
    }
    Some(at)
}

// Whether none of the codes 1 to 9 is missing.
fn all_present(at: [usize; 32]) -> bool
    requires { length at ≡ 32 }
    ensures { result ≡ every 9 (λ c. ltb 0 (get_or at (suc c) 0)) }
{
    for c in 0..9 {
        if at[c + 1] == 0 {
            return false;
        }
    }
    true
}

// The bytes of a number in a section.
fn width_of(code: usize) -> usize
    ensures { (result ≡ width_of code) × (4 ≤ result) }
{
    if code == 1 {
        return 8;
    }
    if code == 7 {
        return 8;
    }
    if code == 9 {
        return 8;
    }
    4
}

// Where codes 1 to 9 stand, by the numbers of their entries.
fn locate(file: &[u8], trailer: usize, axes: usize, at: [usize; 32]) -> Sections
    requires { Placed file.now trailer axes at }
    ensures { result ≡ located file.now }
{
    let mut starts = [0usize; 9];
    let mut counts = [0usize; 9];
    for c in 0..9 {
        let entry = trailer + 12 * (at[c + 1] - 1);
        let back = survey::u32_at(file, entry + 4) as usize;
        let bytes = survey::u32_at(file, entry + 8) as usize;
        starts[c] = trailer - back;
        counts[c] = bytes / width_of(c + 1);
    }
    Sections {
        axes,
        starts,
        counts,
    }
}

// Where the sections of a tree file stand, or why it is refused.
pub fn find_sections(file: &[u8]) -> Result<Sections, Refusal>
    ensures { result ≡ sections_in file.now }
{
    let n = file.len();
    if n < 8 {
        return Err(Refusal::Section);
    }
    let entries = survey::u32_at(file, n - 4);
    if 12 * entries + 8 > n as u64 {
        return Err(Refusal::Section);
    }
    let axes = survey::u32_at(file, n - 8) as usize;
    if !axes::axes_known(axes) {
        return Err(Refusal::Dims);
    }
    let trailer = n - (12 * entries + 8) as usize;
    let Some(at) = find_entries(file, trailer, entries as usize) else {
        return Err(Refusal::Section);
    };
    if !all_present(at) {
        return Err(Refusal::Section);
    }
    Ok(locate(file, trailer, axes, at))
}

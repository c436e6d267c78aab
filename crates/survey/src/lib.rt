#![tactic(auto)]

// The house file: document 01, "The survey file and the listing".
ghost use Rattle.std.specs.Prelude.{◌≡◌, true, ◌&&◌, ◌+◌, ◌-◌, ◌*◌, ◌≤◌, ◌<◌, length, get_or};
ghost use Rattle.std.specs.Float.{binary64};
ghost use Rattle.std.specs.Float.Ieee.{of_bits, nan_bits};
ghost use Rattle.survey.specs.Bytes.{number_at, u32_at, f64_at, f64s_at};
ghost use Rattle.survey.specs.File.{axes as axes_in, centre_entry, flags_known, rows_fill, file_outcome, said, survey as survey_in, source_rows, target_rows, filled_with, entry_at};

use refusal::Refusal;
use space::Box;

// What a file says. `sources` and `targets` are numbers of rows.
#[derive(Clone, Copy)]
pub struct Survey {
    pub b: Box,
    pub keep: bool,
    pub limit: usize,
    pub order: usize,
    pub sources: usize,
    pub targets: usize,
}

fn byte_at(file: &[u8], at: usize) -> u64
    requires { at < length file.now }
    ensures { (result ≡ get_or file.now at 0) × (result < 256) }
{
    file[at] as u64
}

// The u32 that begins at a place.
pub fn u32_at(file: &[u8], at: usize) -> u64
    requires { at + 4 ≤ length file.now }
    ensures { (result ≡ u32_at file.now at) × (result < 4294967296) }
{
    let low = byte_at(file, at) + 256 * byte_at(file, at + 1);
    let high = byte_at(file, at + 2) + 256 * byte_at(file, at + 3);
    low + 65536 * high
}

// Whether a bit pattern is a NaN's: the exponent is all ones, and the digits are not 0.
fn is_nan(pattern: u64) -> bool
    ensures { result ≡ nan_bits binary64 pattern }
{
    if pattern % 0x8000_0000_0000_0000 / 0x10_0000_0000_0000 != 2047 {
        return false;
    }
    pattern % 0x10_0000_0000_0000 != 0
}

// The f64 of a bit pattern. A NaN is made by a division: the toolchain makes none of a pattern.
fn number_of(pattern: u64) -> f64
    ensures { result ≡ of_bits binary64 pattern }
{
    if is_nan(pattern) {
        return 0.0 / 0.0;
    }
    f64::from_bits(pattern)
}

// The f64 that begins at a place.
fn f64_at(file: &[u8], at: usize) -> f64
    requires { at + 8 ≤ length file.now }
    ensures { result ≡ f64_at file.now at }
{
    number_of(u32_at(file, at) + 4294967296 * u32_at(file, at + 4))
}

// Rows of f64, in bytes.
fn bytes_of(rows: u64, axes: u64) -> u64
    requires { (rows < 4294967296) × (axes ≤ 3) }
    ensures { (result ≡ rows * axes * 8) × (result ≤ 103079215104) }
{
    rows * axes * 8
}

// Whether the rows fill the file exactly.
fn rows_fill(file: &[u8], axes: u64) -> bool
    requires { (64 ≤ length file.now) × (axes ≡ axes_in file.now) × (axes ≤ 3) }
    ensures { result ≡ rows_fill file.now }
{
    let trailer = file.len() - 64;
    let target_bytes = bytes_of(u32_at(file, trailer + 60), axes);
    let source_bytes = bytes_of(u32_at(file, trailer + 52), axes);
    if u32_at(file, trailer + 48) != trailer as u64 {
        return false;
    }
    if u32_at(file, trailer + 56) != target_bytes {
        return false;
    }
    source_bytes + target_bytes == trailer as u64
}

// Why a file is refused, if it is.
fn check_file(file: &[u8]) -> Result<(), Refusal>
    ensures { result ≡ file_outcome file.now }
{
    if file.len() < 64 {
        return Err(Refusal::File);
    }
    if file.len() > 32768 {
        return Err(Refusal::File);
    }
    let trailer = file.len() - 64;
    let axes = u32_at(file, trailer);
    if !axes::axes_known(axes as usize) {
        return Err(Refusal::Dims);
    }
    if u32_at(file, trailer + 4) / 2 != 0 {
        return Err(Refusal::File);
    }
    if !rows_fill(file, axes) {
        return Err(Refusal::File);
    }
    Ok(())
}

// The centre's entry on an axis, 0 past the axes.
fn centre_on(file: &[u8], axes: u64, a: usize) -> f64
    requires { (64 ≤ length file.now) × (axes ≡ axes_in file.now) × (a < 3) }
    ensures { result ≡ centre_entry file.now a }
{
    if a as u64 >= axes {
        return 0.0;
    }
    f64_at(file, file.len() - 64 + 16 + 8 * a)
}

// The box of a file.
fn box_in(file: &[u8]) -> Box
    requires { 64 ≤ length file.now }
    ensures { result ≡ (said file.now).b }
{
    let trailer = file.len() - 64;
    let axes = u32_at(file, trailer);
    Box {
        centre: [
            centre_on(file, axes, 0),
            centre_on(file, axes, 1),
            centre_on(file, axes, 2),
        ],
        radius: f64_at(file, trailer + 40),
        axes: axes as usize,
    }
}

// What a file that is not refused says.
fn trailer_of(file: &[u8]) -> Survey
    requires { 64 ≤ length file.now }
    ensures { result ≡ said file.now }
{
    let trailer = file.len() - 64;
    let b = box_in(file);
    Survey {
        b,
        keep: u32_at(file, trailer + 4) % 2 == 1,
        limit: u32_at(file, trailer + 8) as usize,
        order: u32_at(file, trailer + 12) as usize,
        sources: u32_at(file, trailer + 52) as usize,
        targets: u32_at(file, trailer + 60) as usize,
    }
}

// The number at place i of a column of n numbers that begin at a place of the file, 0 past them.
fn entry(file: &[u8], at: usize, n: usize, i: usize) -> f64
    requires { at + 8 * n ≤ length file.now }
    ensures { result ≡ entry_at file.now at n i }
{
    if i >= n {
        return 0.0;
    }
    f64_at(file, at + 8 * i)
}

// Fills a column with n numbers that begin at a place of the file, and then with 0.
fn read_numbers(file: &[u8], at: usize, n: usize, out: &mut [f64])
    requires { (at + 8 * n ≤ length file.now) × (n ≤ length out.old) }
    ensures { out.new ≡ filled_with (length out.old) (f64s_at file.now n at) }
{
    for (i, x) in out.iter_mut().enumerate() {
        *x = entry(file, at, n, i);
    }
}

// Reads a file: what it says, and the numbers of its source and target rows, then 0; after a refusal there are no numbers.
// A file has room for 4,088 numbers at most, so the columns are never short.
pub fn read_survey(
    file: &[u8],
    sources: &mut [f64; 4088],
    targets: &mut [f64; 4088],
) -> Result<Survey, Refusal>
    ensures survey { result ≡ survey_in file.now }
    ensures sources { sources.new ≡ filled_with 4088 (source_rows file.now) }
    ensures targets { targets.new ≡ filled_with 4088 (target_rows file.now) }
{
    if let Err(refusal) = check_file(file) {
        read_numbers(file, 0, 0, sources);
        read_numbers(file, 0, 0, targets);
        return Err(refusal);
    }
    let survey = trailer_of(file);
    let b = survey.b;
    let source_numbers = survey.sources * b.axes;
    read_numbers(file, 0, source_numbers, sources);
    read_numbers(file, 8 * source_numbers, survey.targets * b.axes, targets);
    Ok(survey)
}

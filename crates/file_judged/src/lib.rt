#![tactic(auto)]

// The refusals of a tree file with so much room for what it holds: document 02, order 6. 13 and 17 are judged where the file stands, so whatever room there is.
ghost use Rattle.std.specs.Prelude.{◌≡◌, Ok};
ghost use Rattle.refusal.specs.declared.Refusal.TheVariants.{Tree, Section};
ghost use Rattle.refusal.specs.Chain.{ask, ◌then◌};
ghost use Rattle.tree_file.specs.Trailer.{tree_in};
ghost use Rattle.tree_file.specs.Checks.{columns_right, rest_right};
ghost use Rattle.file_sections.specs.Answers.{located};
ghost use Rattle.file_columns.specs.Columns.{Sectioned};
ghost use Rattle.file_judged.specs.Rooms.{given, room_check, read_check};

use file_columns::{count_of, number_of};
use file_sections::Sections;
use refusal::Refusal;

// The refusals of the tree in a file whose sections stand.
fn tree_outcome(file: &[u8], s: Sections) -> Result<(), Refusal>
    requires { Sectioned file.now s }
    ensures { result ≡ (ask (columns_right (tree_in file.now)) Tree then ask (rest_right (tree_in file.now)) Section) }
{
    if !file_tree::columns_right(file, s) {
        return Err(Refusal::Tree);
    }
    let sources = number_of(file, s, 4, 0);
    if !file_order::order_right(file, s, sources) {
        return Err(Refusal::Section);
    }
    if !file_lists::lists_right(file, s) {
        return Err(Refusal::Section);
    }
    Ok(())
}

// The refusals of lent slices with so many entries.
fn room_outcome(
    file: &[u8],
    s: Sections,
    order: usize,
    nodes: usize,
    us: usize,
    uk: usize,
    vs: usize,
    vk: usize,
) -> Result<(), Refusal>
    requires { Sectioned file.now s }
    ensures { result ≡ room_check (tree_in file.now) (given order nodes us uk vs vk) }
{
    if order < count_of(file, s, 5) {
        return Err(Refusal::Room(2));
    }
    if nodes < count_of(file, s, 1) {
        return Err(Refusal::Room(3));
    }
    if us < count_of(file, s, 6) {
        return Err(Refusal::Room(4));
    }
    if vs < count_of(file, s, 8) {
        return Err(Refusal::Room(5));
    }
    if uk < count_of(file, s, 7) {
        return Err(Refusal::Room(6));
    }
    if vk < count_of(file, s, 9) {
        return Err(Refusal::Room(7));
    }
    Ok(())
}

// Where the sections stand of a file that is not refused with so much room.
pub fn judge(
    file: &[u8],
    order: usize,
    nodes: usize,
    us: usize,
    uk: usize,
    vs: usize,
    vk: usize,
) -> Result<Sections, Refusal>
    ensures { result ≡ (read_check file.now (given order nodes us uk vs vk) then Ok (located file.now)) }
{
    let s = file_sections::find_sections(file)?;
    tree_outcome(file, s)?;
    room_outcome(file, s, order, nodes, us, uk, vs, vk)?;
    Ok(s)
}

// A cell's level, parent, children, siblings and ancestors, by its key.
ghost use Rattle.std.specs.Prelude.{◌≡◌, ◌^◌, ◌<◌, ◌%◌};
ghost use Rattle.slices.specs.Lists.{filled};
ghost use Rattle.morton.specs.Keys.{level_of, code_of, ValidKey, parent, child, children, ancestors};
ghost use Rattle.morton.specs.Answers.{key_check, below_root_check, above_deepest, level_answer, parent_answer, child_index_answer, children_answer, siblings_answer, ancestors_answer, key_list};

use crate::KeyList;
use axes::Three;
use refusal::Refusal;

// A key's last 15 bits.
pub fn level_of(key: u64) -> u64
    ensures { result ≡ level_of key }
{
    key % 32768
}

// The bits before those.
pub fn code_of(key: u64) -> u64
    ensures { result ≡ code_of key }
{
    key / 32768
}

// Where a table of so many slots has what it holds of a cell.
pub fn slot_of<const SLOTS: usize>(key: u64) -> usize
    requires { 0 < SLOTS }
    ensures below { result < SLOTS }
    ensures value { result ≡ code_of key % SLOTS }
{
    code_of(key) as usize % SLOTS
}

// The refusals that every key call begins with.
pub fn check_key(axes: usize, key: u64) -> Result<(), Refusal>
    ensures { result ≡ key_check axes key }
{
    if axes < 1 {
        return Err(Refusal::Dims);
    }
    if 3 < axes {
        return Err(Refusal::Dims);
    }
    let level = level_of(key);
    if 16 < level {
        return Err(Refusal::Key);
    }
    if code_of(key) >> (axes as u64 * level) != 0 {
        return Err(Refusal::Key);
    }
    Ok(())
}

// And those of a call on a cell with a parent.
fn check_below_root(axes: usize, key: u64) -> Result<(), Refusal>
    ensures { result ≡ below_root_check axes key }
{
    check_key(axes, key)?;
    if level_of(key) == 0 {
        return Err(Refusal::Root);
    }
    Ok(())
}

// And those of a call on a cell with children.
fn check_above_deepest(axes: usize, key: u64) -> Result<(), Refusal>
    ensures { result ≡ above_deepest axes key }
{
    check_key(axes, key)?;
    if 16 <= level_of(key) {
        return Err(Refusal::Deep);
    }
    Ok(())
}

// The level of a valid key.
pub fn get_level(axes: usize, key: u64) -> Result<u64, Refusal>
    ensures { result ≡ level_answer axes key }
{
    check_key(axes, key)?;
    Ok(level_of(key))
}

// The key one level up, of a valid key below the root.
pub fn parent_of(axes: usize, key: u64) -> u64
    requires { ValidKey axes key × (0 < level_of key) }
    ensures { result ≡ parent axes key }
{
    (code_of(key) >> axes) * 32768 + (level_of(key) - 1)
}

pub fn get_parent(axes: usize, key: u64) -> Result<u64, Refusal>
    ensures { result ≡ parent_answer axes key }
{
    check_below_root(axes, key)?;
    Ok(parent_of(axes, key))
}

// A cell's number among its siblings; the root's is 0.
pub fn get_child_index(axes: usize, key: u64) -> Result<u64, Refusal>
    ensures { result ≡ child_index_answer axes key }
{
    check_key(axes, key)?;
    Ok(code_of(key) % (1 << axes))
}

// Child number c of a valid key above the deepest level.
pub fn child_of(axes: usize, key: u64, c: u64) -> u64
    requires { ValidKey axes key × (level_of key < 16) × (c < 2 ^ axes) }
    ensures { result ≡ child axes key c }
{
    ((code_of(key) << axes) + c) * 32768 + (level_of(key) + 1)
}

// The children of a valid key above the deepest level, in order.
fn list_children(axes: usize, key: u64) -> KeyList
    requires { ValidKey axes key × (level_of key < 16) }
    ensures { result ≡ key_list (children axes key) }
{
    let count = axes::children_of(axes);
    let mut keys = [0u64; Three::NEIGHBOURS];
    for c in 0..count {
        keys[c] = child_of(axes, key, c as u64);
    }
    KeyList { keys, len: count }
}

pub fn get_children(axes: usize, key: u64) -> Result<KeyList, Refusal>
    ensures { result ≡ children_answer axes key }
{
    check_above_deepest(axes, key)?;
    Ok(list_children(axes, key))
}

// The parent's children, the cell itself among them.
pub fn get_siblings(axes: usize, key: u64) -> Result<KeyList, Refusal>
    ensures { result ≡ siblings_answer axes key }
{
    check_below_root(axes, key)?;
    Ok(list_children(axes, parent_of(axes, key)))
}

// A valid key, and the cells above it up to the root.
fn list_ancestors(axes: usize, key: u64) -> KeyList
    requires { ValidKey axes key }
    ensures { result ≡ key_list (ancestors axes key) }
{
    let mut keys = [0u64; Three::NEIGHBOURS];
    keys[0] = key;
    let mut at = key;
    let mut len: usize = 1;
    while 0 < level_of(at) {
        at = parent_of(axes, at);
        keys[len] = at;
        len += 1;
    }
    KeyList { keys, len }
}

pub fn get_ancestors(axes: usize, key: u64) -> Result<KeyList, Refusal>
    ensures { result ≡ ancestors_answer axes key }
{
    check_key(axes, key)?;
    Ok(list_ancestors(axes, key))
}

#![tactic(auto)]

// Both lists of a tree in Z order: the U and V rows of all nodes, written whole in one pass.
mod starts; // starts.rt: the starts of both lists in one column

ghost use Rattle.std.specs.Prelude.{◌≡◌, true, ◌≤◌, ◌<◌, length};
ghost use Rattle.tree.specs.WellFormed.{totals_right};
ghost use Rattle.tree.specs.WellFormed.{SoundTree};
ghost use Rattle.rows.specs.Written.{keys_room};
ghost use Rattle.links.specs.Links.{LinkedTree};
ghost use Rattle.lists.specs.Halves.{RowsRoom, WritesLists, WritesTree, room_check};
ghost use Rattle.node_rows.specs.Stack.{Ready};

pub use node_rows::Sizes;
use node_rows::{HELD_ROOM, STACK_ROOM};
use refusal::Refusal;
use starts::HALF;

pub const MOST_KEYS: usize = 16777216;

// Writes both rows of each node but the root, which has none, one after the other, and where each begins and the last one ends; it stops where U has no room.
fn fill_rows(
    axes: usize,
    key: &[u64],
    own: &[usize],
    total: &[usize],
    links: &[usize],
    stack: &mut [usize],
    held: &mut [u64],
    starts: &mut [usize],
    u_keys: &mut [u64],
    v_keys: &mut [u64],
) -> Sizes
    requires linked_tree { LinkedTree axes key.now own.now total.now links.now × Ready axes key.now own.now 1 stack.old held.old }
    requires rows_room { RowsRoom key.now starts.old u_keys.old v_keys.old }
    ensures { WritesLists axes key.now own.now starts.new u_keys.new v_keys.new result.u result.v }
{
    starts[0] = 0;
    starts[1] = 0;
    let mut sizes = Sizes { u: 0, v: 0 };
    for i in 1..key.len() {
        sizes = node_rows::put_node(
            axes, key, own, total, links, i, sizes, stack, held, u_keys, v_keys,
        );
        if u_keys.len() < sizes.u {
            return sizes;
        }
        starts[i + 1] = sizes.v + sizes.u * HALF;
    }
    sizes
}

// The same with a stack of its own.
pub fn write_rows(
    axes: usize,
    key: &[u64],
    own: &[usize],
    total: &[usize],
    links: &[usize],
    starts: &mut [usize],
    u_keys: &mut [u64],
    v_keys: &mut [u64],
) -> Sizes
    requires { LinkedTree axes key.now own.now total.now links.now × RowsRoom key.now starts.old u_keys.old v_keys.old }
    ensures { WritesLists axes key.now own.now starts.new u_keys.new v_keys.new result.u result.v }
{
    let mut stack = [0usize; STACK_ROOM];
    let mut held = [0u64; HELD_ROOM];
    node_rows::begin(axes, key, own, total, links, &mut stack);
    fill_rows(
        axes, key, own, total, links, &mut stack, &mut held, starts, u_keys, v_keys,
    )
}

// The room for keys that counts: at most 16,777,216 entries.
fn room_of(len: usize) -> usize
    ensures { result ≡ keys_room len }
{
    len.min(MOST_KEYS)
}

// Refused where the slices of keys have too little room for so many, U's before V's.
pub fn check_room(sizes: Sizes, u_room: usize, v_room: usize) -> Result<(), Refusal>
    ensures { result ≡ room_check sizes.u sizes.v u_room v_room }
{
    if u_room < sizes.u {
        return Err(Refusal::Room(6));
    }
    if v_room < sizes.v {
        return Err(Refusal::Room(7));
    }
    Ok(())
}

// Writes both lists whole, with 0 in the unused rests, and answers how many keys each has; where a slice of keys is short it is refused, and leaves 0 throughout.
// V's starts hold the links until both lists stand.
pub fn write_lists(
    axes: usize,
    key: &[u64],
    own: &[usize],
    total: &[usize],
    u_starts: &mut [usize],
    u_keys: &mut [u64],
    v_starts: &mut [usize],
    v_keys: &mut [u64],
) -> Result<Sizes, Refusal>
    requires { SoundTree axes key.now own.now × (length key.now < length u_starts.old) × (length key.now < length v_starts.old)
        × (totals_right axes key.now own.now total.now ≡ true) }
    ensures { WritesTree axes key.now own.now u_starts.old u_keys.old v_starts.old v_keys.old
        u_starts.new u_keys.new v_starts.new v_keys.new result }
{
    links::link_nodes(key, total, v_starts);
    let u_room = room_of(u_keys.len());
    let v_room = room_of(v_keys.len());
    let sizes = write_rows(
        axes,
        key,
        own,
        total,
        v_starts,
        u_starts,
        &mut u_keys[..u_room],
        &mut v_keys[..v_room],
    );
    if let Err(refusal) = check_room(sizes, u_room, v_room) {
        sourced::clear_lists(u_starts, u_keys, v_starts, v_keys);
        return Err(refusal);
    }
    let places = key.len() + 1;
    starts::finish(u_starts, u_keys, v_starts, v_keys, places, sizes.u, sizes.v);
    Ok(sizes)
}

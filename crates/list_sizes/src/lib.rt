#![tactic(auto)]

// How many keys the U rows and the V rows of a tree have, with no list: each row is made in room for one, counted, and forgotten.
ghost use Rattle.std.specs.Prelude.{◌≡◌, true, ◌+◌, ◌≤◌, length, replicate};
ghost use Rattle.tree.specs.Columns.{columns};
ghost use Rattle.tree.specs.WellFormed.{SoundTree, totals_right};
ghost use Rattle.links.specs.Links.{LinkedTree};
ghost use Rattle.node_rows.specs.Stack.{Ready};
ghost use Rattle.list_sizes.specs.Sizes.{counted, CountsBoth, room_check, sizes_answer};

use node_rows::{HELD_ROOM, STACK_ROOM, Sizes};
use refusal::Refusal;

// The most keys of a list, and the most of one V row.
const MOST_KEYS: usize = 16777216;

const FAR_ROOM: usize = 189;

// So many keys and so many more, as far as they count.
fn more(n: usize, m: usize) -> usize
    ensures { result ≡ counted (n + m) }
{
    if MOST_KEYS < n {
        return MOST_KEYS + 1;
    }
    if MOST_KEYS - n < m {
        return MOST_KEYS + 1;
    }
    n + m
}

// Counts the keys in both rows of each node but the root, which has none.
fn count_rows(
    axes: usize,
    key: &[u64],
    own: &[usize],
    total: &[usize],
    links: &[usize],
    stack: &mut [usize],
    held: &mut [u64],
    row: &mut [u64],
    far: &mut [u64],
) -> Sizes
    requires linked_tree { LinkedTree axes key.now own.now total.now links.now × Ready axes key.now own.now 1 stack.old held.old }
    requires key_in_bounds { (length key.now ≤ length row.old) × (189 ≤ length far.old) }
    ensures { CountsBoth axes key.now own.now result.u result.v }
{
    let mut u: usize = 0;
    let mut v: usize = 0;
    for i in 1..key.len() {
        let none = Sizes { u: 0, v: 0 };
        let sizes = node_rows::put_node(
            axes, key, own, total, links, i, none, stack, held, row, far,
        );
        u = more(u, sizes.u);
        v = more(v, sizes.v);
    }
    Sizes { u, v }
}

// The same with links, a stack and room for a V row of its own.
fn count_lists(
    axes: usize,
    key: &[u64],
    own: &[usize],
    total: &[usize],
    links: &mut [usize],
    row: &mut [u64],
) -> Sizes
    requires sound_tree { SoundTree axes key.now own.now × (totals_right axes key.now own.now total.now ≡ true) }
    requires key_in_bounds { (length key.now ≤ length links.old) × (length key.now ≤ length row.old) }
    ensures { CountsBoth axes key.now own.now result.u result.v }
{
    links::link_nodes(key, total, links);
    let mut stack = [0usize; STACK_ROOM];
    let mut held = [0u64; HELD_ROOM];
    let mut far = [0u64; FAR_ROOM];
    node_rows::begin(axes, key, own, total, links, &mut stack);
    count_rows(
        axes, key, own, total, links, &mut stack, &mut held, row, &mut far,
    )
}

// The refusals that the arguments alone decide, for so many entries in each of the two lent slices.
fn room_outcome(
    axes: usize,
    key: &[u64],
    own: &[usize],
    begin: &[usize],
    total: &[usize],
    links: usize,
    row: usize,
) -> Result<(), Refusal>
    ensures { result ≡ room_check axes (columns key.now own.now begin.now total.now) links row }
{
    sourced::check_tree(axes, key, own, begin, total)?;
    if links < key.len() {
        return Err(Refusal::Room(1));
    }
    if row < key.len() {
        return Err(Refusal::Room(1));
    }
    Ok(())
}

// How many keys the list call writes for a tree, or why it cannot: both slices are room for the work, and 0 throughout after it.
pub fn get_list_sizes(
    axes: usize,
    key: &[u64],
    own: &[usize],
    begin: &[usize],
    total: &[usize],
    links: &mut [usize],
    row: &mut [u64],
) -> Result<Sizes, Refusal>
    ensures answer { result ≡ sizes_answer axes (columns key.now own.now begin.now total.now)
        (length links.old) (length row.old) }
    ensures links { links.new ≡ replicate (length links.old) 0 }
    ensures row { row.new ≡ replicate (length row.old) 0 }
{
    let checked = room_outcome(axes, key, own, begin, total, links.len(), row.len());
    if let Err(refusal) = checked {
        slices::clear_usize(links);
        slices::clear(row);
        return Err(refusal);
    }
    let sizes = count_lists(axes, key, own, total, links, row);
    slices::clear_usize(links);
    slices::clear(row);
    lists::check_room(sizes, MOST_KEYS, MOST_KEYS)?;
    Ok(sizes)
}

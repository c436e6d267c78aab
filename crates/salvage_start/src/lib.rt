#![tactic(auto)]

// The nodes of a salvage with their counts, and the refusals up to the room for them.
ghost use Rattle.std.specs.Prelude.{◌≡◌, min, IfOk};
ghost use Rattle.refusal.specs.Outcome.{ending};
ghost use Rattle.slices.specs.Lists.{sum};
ghost use Rattle.salvaged.specs.Nodes.{input};
ghost use Rattle.kept_sources.specs.Rows.{Readable};
ghost use Rattle.salvage_start.specs.Started.{Roomy, Filled, start_check, StartedWith};

use refusal::Refusal;

pub const MOST_SOURCES: usize = 1048576;

// The nodes' keys, their counts, and where their runs began. How many nodes, more than the room where there is none for all.
fn fill_nodes(
    axes: usize,
    key: &[u64],
    own: &[usize],
    begin: &[usize],
    order: &[usize],
    room: usize,
    new_key: &mut [u64],
    new_own: &mut [usize],
    new_begin: &mut [usize],
) -> usize
    requires { Readable (input axes key.now own.now begin.now order.now) × Roomy room new_key.old new_own.old new_begin.old }
    ensures { Filled (input axes key.now own.now begin.now order.now) room new_key.new new_own.new new_begin.new result }
{
    if room == 0 {
        return 1;
    }
    let n = kept_keys::keep_keys(axes, key, new_key, new_own, new_begin, room);
    if room < n {
        return n;
    }
    first_rows::take_first(axes, &new_key[..n], key, own, &mut new_own[..n]);
    first_rows::take_first(axes, &new_key[..n], key, begin, &mut new_begin[..n]);
    node_counts::keep_counts(
        axes,
        &new_key[..n],
        &new_begin[..n],
        &mut new_own[..n],
        order.len(),
    );
    n
}

// The sum of the counts, one more than the most sources where it is more than these.
fn sum_own(own: &[usize]) -> usize
    ensures { result ≡ min (sum own.now) 1048577 }
{
    let mut run = 0;
    for &n in own {
        if MOST_SOURCES - run < n {
            return MOST_SOURCES + 1;
        }
        run += n;
    }
    run
}

// How many nodes are put, and how many sources they have.
#[derive(Clone, Copy)]
pub struct Started {
    pub nodes: usize,
    pub sources: usize,
}

// Checks the call with so many places and so much room, and puts the nodes. After a refusal the slices hold anything.
pub fn start(
    axes: usize,
    key: &[u64],
    own: &[usize],
    begin: &[usize],
    order: &[usize],
    places: usize,
    room: usize,
    new_key: &mut [u64],
    new_own: &mut [usize],
    new_begin: &mut [usize],
) -> Result<Started, Refusal>
    requires { Roomy room new_key.old new_own.old new_begin.old }
    ensures outcome_value { ending result ≡ start_check (input axes key.now own.now begin.now order.now) places room }
    ensures started_with { IfOk result (λ s. StartedWith (input axes key.now own.now begin.now order.now) places room s.nodes s.sources new_key.new new_own.new new_begin.new) }
{
    if !axes::axes_known(axes) {
        return Err(Refusal::Dims);
    }
    if own.len() != key.len() {
        return Err(Refusal::Shape);
    }
    if begin.len() != key.len() {
        return Err(Refusal::Shape);
    }
    let n = fill_nodes(
        axes, key, own, begin, order, room, new_key, new_own, new_begin,
    );
    if room < n {
        kept_sources::sources_outcome(axes, key, own, begin, order, places)?;
        return Err(Refusal::Room(3));
    }
    let sources = sum_own(&new_own[..n]);
    if MOST_SOURCES < sources {
        return Err(Refusal::Tree);
    }
    if places < sources {
        return Err(Refusal::Room(2));
    }
    Ok(Started { nodes: n, sources })
}

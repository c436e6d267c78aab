#![tactic(auto)]

// The reader of tree files for C.
ghost use Rattle.std.specs.Prelude.{◌≡◌, length};
ghost use Rattle.refusal.specs.Outcome.{ending, answer_or};
ghost use Rattle.tree_file.specs.Trailer.{tree_in};
ghost use Rattle.file_judged.specs.Rooms.{rooms};
ghost use Rattle.read_file.specs.Answers.{reading_answer, reading_left};
ghost use Rattle.exports_keys.specs.Told.{told};
ghost use Rattle.exports_reading.specs.Told.{no_tree};

use exports_keys::Ended;
use read_file::ReadTree;
use refusal::Refusal;

// Tells how the reading ended, and the numbers of the tree, 0 after a refusal.
fn tell_read(
    answer: Result<ReadTree, Refusal>,
    axes: &mut usize,
    nodes: &mut usize,
    sources: &mut usize,
    u: &mut usize,
    v: &mut usize,
) -> Ended
    ensures ended { result ≡ told (ending answer) }
    ensures axes { axes.new ≡ (answer_or no_tree answer).axes }
    ensures nodes { nodes.new ≡ (answer_or no_tree answer).nodes }
    ensures sources { sources.new ≡ (answer_or no_tree answer).sources }
    ensures u { u.new ≡ (answer_or no_tree answer).u }
    ensures v { v.new ≡ (answer_or no_tree answer).v }
{
    let none = ReadTree {
        axes: 0,
        nodes: 0,
        sources: 0,
        u: 0,
        v: 0,
    };
    let mut tree = none;
    let ended = exports_keys::tell(answer, none, &mut tree);
    *axes = tree.axes;
    *nodes = tree.nodes;
    *sources = tree.sources;
    *u = tree.u;
    *v = tree.v;
    ended
}

// The tree of a file, with its order column and its lists, and how many axes, nodes, sources, U keys and V keys there are.
pub fn lohandema_read_tree(
    file: &[u8],
    indices: &mut [usize],
    key: &mut [u64],
    own: &mut [usize],
    begin: &mut [usize],
    total: &mut [usize],
    u_starts: &mut [usize],
    u_keys: &mut [u64],
    v_starts: &mut [usize],
    v_keys: &mut [u64],
    axes: &mut usize,
    nodes: &mut usize,
    sources: &mut usize,
    u: &mut usize,
    v: &mut usize,
) -> Ended
    ensures ended { result ≡ told (ending (reading_answer file.now (rooms indices.old key.old own.old begin.old total.old
        u_starts.old u_keys.old v_starts.old v_keys.old))) }
    ensures axes { axes.new ≡ (answer_or no_tree (reading_answer file.now (rooms indices.old key.old own.old begin.old total.old
        u_starts.old u_keys.old v_starts.old v_keys.old))).axes }
    ensures nodes { nodes.new ≡ (answer_or no_tree (reading_answer file.now (rooms indices.old key.old own.old begin.old total.old
        u_starts.old u_keys.old v_starts.old v_keys.old))).nodes }
    ensures sources { sources.new ≡ (answer_or no_tree (reading_answer file.now (rooms indices.old key.old own.old begin.old total.old
        u_starts.old u_keys.old v_starts.old v_keys.old))).sources }
    ensures u { u.new ≡ (answer_or no_tree (reading_answer file.now (rooms indices.old key.old own.old begin.old total.old
        u_starts.old u_keys.old v_starts.old v_keys.old))).u }
    ensures v { v.new ≡ (answer_or no_tree (reading_answer file.now (rooms indices.old key.old own.old begin.old total.old
        u_starts.old u_keys.old v_starts.old v_keys.old))).v }
    ensures indices { indices.new ≡ reading_left file.now (rooms indices.old key.old own.old begin.old total.old
        u_starts.old u_keys.old v_starts.old v_keys.old) (length indices.old) (tree_in file.now).order }
    ensures key { key.new ≡ reading_left file.now (rooms indices.old key.old own.old begin.old total.old
        u_starts.old u_keys.old v_starts.old v_keys.old) (length key.old) (tree_in file.now).keys }
    ensures own { own.new ≡ reading_left file.now (rooms indices.old key.old own.old begin.old total.old
        u_starts.old u_keys.old v_starts.old v_keys.old) (length own.old) (tree_in file.now).own }
    ensures begin { begin.new ≡ reading_left file.now (rooms indices.old key.old own.old begin.old total.old
        u_starts.old u_keys.old v_starts.old v_keys.old) (length begin.old) (tree_in file.now).begin }
    ensures total { total.new ≡ reading_left file.now (rooms indices.old key.old own.old begin.old total.old
        u_starts.old u_keys.old v_starts.old v_keys.old) (length total.old) (tree_in file.now).total }
    ensures u_starts { u_starts.new ≡ reading_left file.now (rooms indices.old key.old own.old begin.old total.old
        u_starts.old u_keys.old v_starts.old v_keys.old) (length u_starts.old) (tree_in file.now).u_starts }
    ensures u_keys { u_keys.new ≡ reading_left file.now (rooms indices.old key.old own.old begin.old total.old
        u_starts.old u_keys.old v_starts.old v_keys.old) (length u_keys.old) (tree_in file.now).u_keys }
    ensures v_starts { v_starts.new ≡ reading_left file.now (rooms indices.old key.old own.old begin.old total.old
        u_starts.old u_keys.old v_starts.old v_keys.old) (length v_starts.old) (tree_in file.now).v_starts }
    ensures v_keys { v_keys.new ≡ reading_left file.now (rooms indices.old key.old own.old begin.old total.old
        u_starts.old u_keys.old v_starts.old v_keys.old) (length v_keys.old) (tree_in file.now).v_keys }
{
    let answer = read_file::read_tree(
        file, indices, key, own, begin, total, u_starts, u_keys, v_starts, v_keys,
    );
    tell_read(answer, axes, nodes, sources, u, v)
}

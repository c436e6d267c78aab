#![tactic(auto)]

// The balancing for C.
ghost use Rattle.std.specs.Prelude.{◌≡◌, length, replicate};
ghost use Rattle.tree.specs.Columns.{columns};
ghost use Rattle.balanced.specs.Outcomes.{rooms, balance_answer, order_left, keys_left, own_left, begins_left, totals_left};
ghost use Rattle.refusal.specs.Outcome.{ending, answer_or};
ghost use Rattle.exports_keys.specs.Told.{told};
ghost use Rattle.exports_points.specs.Boxes.{box_at};
ghost use Rattle.exports_balance.specs.Told.{no_tree};

use exports_keys::Ended;
use growth::Grown;
use refusal::Refusal;

// Tells the number of nodes and the depth, or 0 and 0.
fn tell_balanced(answer: Result<Grown, Refusal>, nodes: &mut usize, depth: &mut u64) -> Ended
    ensures ended { result ≡ told (ending answer) }
    ensures nodes { nodes.new ≡ (answer_or no_tree answer).nodes }
    ensures depth { depth.new ≡ (answer_or no_tree answer).depth }
{
    let none = Grown { nodes: 0, depth: 0 };
    let mut grown = none;
    let ended = exports_keys::tell(answer, none, &mut grown);
    *nodes = grown.nodes;
    *depth = grown.depth;
    ended
}

// The old columns and their order column are read; the new ones are lent.
pub fn lohandema_balance_tree(
    centre: &[f64; 3],
    radius: f64,
    axes: usize,
    points: &[f64],
    key: &[u64],
    own: &[usize],
    begin: &[usize],
    total: &[usize],
    indices: &[usize],
    work: &mut [u64],
    new_indices: &mut [usize],
    new_key: &mut [u64],
    new_own: &mut [usize],
    new_begin: &mut [usize],
    new_total: &mut [usize],
    nodes: &mut usize,
    depth: &mut u64,
) -> Ended
    ensures ended { result ≡ told (ending (balance_answer
        (box_at centre.now radius axes) points.now (columns key.now own.now begin.now total.now) indices.now
        (rooms work.old new_indices.old new_key.old new_own.old new_begin.old new_total.old))) }
    ensures work { work.new ≡ replicate (length work.old) 0 }
    ensures new_indices { new_indices.new ≡ order_left
        (box_at centre.now radius axes) points.now (columns key.now own.now begin.now total.now) indices.now
        (rooms work.old new_indices.old new_key.old new_own.old new_begin.old new_total.old) }
    ensures new_key { new_key.new ≡ keys_left
        (box_at centre.now radius axes) points.now (columns key.now own.now begin.now total.now) indices.now
        (rooms work.old new_indices.old new_key.old new_own.old new_begin.old new_total.old) }
    ensures new_own { new_own.new ≡ own_left
        (box_at centre.now radius axes) points.now (columns key.now own.now begin.now total.now) indices.now
        (rooms work.old new_indices.old new_key.old new_own.old new_begin.old new_total.old) }
    ensures new_begin { new_begin.new ≡ begins_left
        (box_at centre.now radius axes) points.now (columns key.now own.now begin.now total.now) indices.now
        (rooms work.old new_indices.old new_key.old new_own.old new_begin.old new_total.old) }
    ensures new_total { new_total.new ≡ totals_left
        (box_at centre.now radius axes) points.now (columns key.now own.now begin.now total.now) indices.now
        (rooms work.old new_indices.old new_key.old new_own.old new_begin.old new_total.old) }
    ensures nodes { nodes.new ≡ (answer_or no_tree (balance_answer
        (box_at centre.now radius axes) points.now (columns key.now own.now begin.now total.now) indices.now
        (rooms work.old new_indices.old new_key.old new_own.old new_begin.old new_total.old))).nodes }
    ensures depth { depth.new ≡ (answer_or no_tree (balance_answer
        (box_at centre.now radius axes) points.now (columns key.now own.now begin.now total.now) indices.now
        (rooms work.old new_indices.old new_key.old new_own.old new_begin.old new_total.old))).depth }
{
    let b = exports_points::box_at(centre, radius, axes);
    let answer = balanced::balance_tree(
        b,
        points,
        key,
        own,
        begin,
        total,
        indices,
        work,
        new_indices,
        new_key,
        new_own,
        new_begin,
        new_total,
    );
    tell_balanced(answer, nodes, depth)
}

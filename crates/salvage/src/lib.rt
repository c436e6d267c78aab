#![tactic(auto)]

// Salvage of columns: document 02, order 8.
ghost use Rattle.std.specs.Prelude.{◌≡◌, ◌++◌, ◌-◌, length, take, replicate};
ghost use Rattle.salvaged.specs.Nodes.{input};
ghost use Rattle.salvaged.specs.Answers.{salvage_answer, order_left, keys_left, own_left, begins_left, totals_left, codes_left, changed_left};
ghost use Rattle.salvage.specs.Rooms.{rooms};

use refusal::Refusal;
use salvaged::Salvaged;

// Clears the order column, the keys and the change list.
fn clear_keys(order: &mut [usize], key: &mut [u64], codes: &mut [u64], changed: &mut [u64])
    ensures order_after { order.new ≡ replicate (length order.old) 0 }
    ensures key_after { key.new ≡ replicate (length key.old) 0 }
    ensures codes_after { codes.new ≡ replicate (length codes.old) 0 }
    ensures changed_after { changed.new ≡ replicate (length changed.old) 0 }
{
    slices::clear_usize(order);
    slices::clear(key);
    slices::clear(codes);
    slices::clear(changed);
}

// Sets the node columns to 0 from n on.
fn clear_nodes(
    n: usize,
    key: &mut [u64],
    own: &mut [usize],
    begin: &mut [usize],
    total: &mut [usize],
)
    ensures key_after { key.new ≡ take n key.old ++ replicate (length key.old - n) 0 }
    ensures own_after { own.new ≡ take n own.old ++ replicate (length own.old - n) 0 }
    ensures begin_after { begin.new ≡ take n begin.old ++ replicate (length begin.old - n) 0 }
    ensures total_after { total.new ≡ take n total.old ++ replicate (length total.old - n) 0 }
{
    slices::clear_from(key, n);
    slices::clear_from_usize(own, n);
    slices::clear_from_usize(begin, n);
    slices::clear_from_usize(total, n);
}

// Sets the change list to 0 from n on.
fn clear_list(n: usize, codes: &mut [u64], changed: &mut [u64])
    ensures codes_after { codes.new ≡ take n codes.old ++ replicate (length codes.old - n) 0 }
    ensures changed_after { changed.new ≡ take n changed.old ++ replicate (length changed.old - n) 0 }
{
    slices::clear_from(codes, n);
    slices::clear_from(changed, n);
}

// The tree that can be had from damaged columns, and the list of what was changed: the valid keys, the root and all missing ancestors in order, a repeated key with its first row. Answers how many nodes, sources and changes there are.
pub fn salvage(
    axes: usize,
    key: &[u64],
    own: &[usize],
    begin: &[usize],
    indices: &[usize],
    new_indices: &mut [usize],
    new_key: &mut [u64],
    new_own: &mut [usize],
    new_begin: &mut [usize],
    new_total: &mut [usize],
    codes: &mut [u64],
    changed: &mut [u64],
) -> Result<Salvaged, Refusal>
    ensures value { result ≡ salvage_answer (input axes key.now own.now begin.now indices.now)
        (rooms new_indices.old new_key.old new_own.old new_begin.old new_total.old codes.old changed.old) }
    ensures new_indices_after { new_indices.new ≡ order_left (input axes key.now own.now begin.now indices.now)
        (rooms new_indices.old new_key.old new_own.old new_begin.old new_total.old codes.old changed.old) }
    ensures new_key_after { new_key.new ≡ keys_left (input axes key.now own.now begin.now indices.now)
        (rooms new_indices.old new_key.old new_own.old new_begin.old new_total.old codes.old changed.old) }
    ensures new_own_after { new_own.new ≡ own_left (input axes key.now own.now begin.now indices.now)
        (rooms new_indices.old new_key.old new_own.old new_begin.old new_total.old codes.old changed.old) }
    ensures new_begin_after { new_begin.new ≡ begins_left (input axes key.now own.now begin.now indices.now)
        (rooms new_indices.old new_key.old new_own.old new_begin.old new_total.old codes.old changed.old) }
    ensures new_total_after { new_total.new ≡ totals_left (input axes key.now own.now begin.now indices.now)
        (rooms new_indices.old new_key.old new_own.old new_begin.old new_total.old codes.old changed.old) }
    ensures codes_after { codes.new ≡ codes_left (input axes key.now own.now begin.now indices.now)
        (rooms new_indices.old new_key.old new_own.old new_begin.old new_total.old codes.old changed.old) }
    ensures changed_after { changed.new ≡ changed_left (input axes key.now own.now begin.now indices.now)
        (rooms new_indices.old new_key.old new_own.old new_begin.old new_total.old codes.old changed.old) }
{
    let room = tree::node_room(
        new_key.len(),
        new_own.len(),
        new_begin.len(),
        new_total.len(),
    );
    let started = salvage_start::start(
        axes,
        key,
        own,
        begin,
        indices,
        new_indices.len(),
        room,
        new_key,
        new_own,
        new_begin,
    );
    let s = match started {
        Ok(s) => s,
        Err(refusal) => {
            clear_keys(new_indices, new_key, codes, changed);
            tree::clear_columns(new_own, new_begin, new_total);
            return Err(refusal);
        }
    };
    let n = s.nodes;
    let changes = salvage_list::list(
        axes,
        key,
        own,
        begin,
        indices,
        new_indices,
        &new_key[..n],
        &new_own[..n],
        &mut new_begin[..n],
        &mut new_total[..n],
        codes,
        changed,
    );
    if codes.len().min(changed.len()) < changes {
        clear_keys(new_indices, new_key, codes, changed);
        tree::clear_columns(new_own, new_begin, new_total);
        return Err(Refusal::Room(10));
    }
    node_totals::fill_totals(
        axes,
        &new_key[..n],
        &new_begin[..n],
        s.sources,
        &mut new_total[..n],
    );
    clear_nodes(n, new_key, new_own, new_begin, new_total);
    clear_list(changes, codes, changed);
    Ok(Salvaged {
        nodes: n,
        sources: s.sources,
        changes,
    })
}

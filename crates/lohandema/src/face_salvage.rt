// The salvage of columns for C.
ghost use Rattle.std.specs.Prelude.{◌≡◌};
ghost use Rattle.salvaged.specs.Nodes.{input};
ghost use Rattle.salvaged.specs.Answers.{salvage_answer, order_left, keys_left, own_left, begins_left, totals_left, codes_left, changed_left};
ghost use Rattle.salvage.specs.Rooms.{rooms};
ghost use Rattle.refusal.specs.Outcome.{ending, answer_or};
ghost use Rattle.exports_keys.specs.Told.{told};
ghost use Rattle.exports_salvage.specs.Told.{no_salvage};

use exports_keys::Ended;

// The old columns and their order column are read; the new ones and the change list are lent.
#[unsafe(no_mangle)]
pub extern "C" fn lohandema_salvage(
    axes: usize,
    key: &[u64],
    own: &[usize],
    begin: &[usize],
    indices: &[usize],
    new_indices: &mut [usize],
    new_key: &mut [u64],
    new_own: &mut [usize],
    new_begin: &mut [usize],
    new_total: &mut [usize],
    codes: &mut [u64],
    changed: &mut [u64],
    nodes: &mut usize,
    sources: &mut usize,
    changes: &mut usize,
) -> Ended
    ensures ended { result ≡ told (ending (salvage_answer (input axes key.now own.now begin.now indices.now)
        (rooms new_indices.old new_key.old new_own.old new_begin.old new_total.old codes.old changed.old))) }
    ensures new_indices { new_indices.new ≡ order_left (input axes key.now own.now begin.now indices.now)
        (rooms new_indices.old new_key.old new_own.old new_begin.old new_total.old codes.old changed.old) }
    ensures new_key { new_key.new ≡ keys_left (input axes key.now own.now begin.now indices.now)
        (rooms new_indices.old new_key.old new_own.old new_begin.old new_total.old codes.old changed.old) }
    ensures new_own { new_own.new ≡ own_left (input axes key.now own.now begin.now indices.now)
        (rooms new_indices.old new_key.old new_own.old new_begin.old new_total.old codes.old changed.old) }
    ensures new_begin { new_begin.new ≡ begins_left (input axes key.now own.now begin.now indices.now)
        (rooms new_indices.old new_key.old new_own.old new_begin.old new_total.old codes.old changed.old) }
    ensures new_total { new_total.new ≡ totals_left (input axes key.now own.now begin.now indices.now)
        (rooms new_indices.old new_key.old new_own.old new_begin.old new_total.old codes.old changed.old) }
    ensures codes { codes.new ≡ codes_left (input axes key.now own.now begin.now indices.now)
        (rooms new_indices.old new_key.old new_own.old new_begin.old new_total.old codes.old changed.old) }
    ensures changed { changed.new ≡ changed_left (input axes key.now own.now begin.now indices.now)
        (rooms new_indices.old new_key.old new_own.old new_begin.old new_total.old codes.old changed.old) }
    ensures nodes { nodes.new ≡ (answer_or no_salvage (salvage_answer (input axes key.now own.now begin.now indices.now)
        (rooms new_indices.old new_key.old new_own.old new_begin.old new_total.old codes.old changed.old))).nodes }
    ensures sources { sources.new ≡ (answer_or no_salvage (salvage_answer (input axes key.now own.now begin.now indices.now)
        (rooms new_indices.old new_key.old new_own.old new_begin.old new_total.old codes.old changed.old))).sources }
    ensures changes { changes.new ≡ (answer_or no_salvage (salvage_answer (input axes key.now own.now begin.now indices.now)
        (rooms new_indices.old new_key.old new_own.old new_begin.old new_total.old codes.old changed.old))).changes }
{
    exports_salvage::lohandema_salvage(
        axes,
        key,
        own,
        begin,
        indices,
        new_indices,
        new_key,
        new_own,
        new_begin,
        new_total,
        codes,
        changed,
        nodes,
        sources,
        changes,
    )
}

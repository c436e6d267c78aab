#![tactic(auto)]

// The text that is printed of a tree: its listing, or the refusal of its lists or of a target.
ghost use Rattle.std.specs.Prelude.{◌≡◌, length};
ghost use Rattle.tree.specs.Columns.{columns};
ghost use Rattle.interaction.specs.Answers.{u_starts_left, u_keys_left, v_starts_left, v_keys_left};
ghost use Rattle.text.specs.Listing.{text_answer, text_left};
ghost use Rattle.report.specs.Report.{tree_text, text_counts};

use space::Box;

// Writes the text of a tree grown from so many sources, over its lists and the targets of each node, which are left in the other slices. Answers its length, or none if it has no room.
pub fn list_tree(
    b: Box,
    sources: usize,
    key: &[u64],
    own: &[usize],
    begin: &[usize],
    total: &[usize],
    targets: &[f64],
    u_starts: &mut [usize],
    u_keys: &mut [u64],
    v_starts: &mut [usize],
    v_keys: &mut [u64],
    counts: &mut [usize],
    out: &mut [u8],
) -> Option<usize>
    ensures answer { result ≡ text_answer (length out.old) (tree_text b (columns key.now own.now begin.now total.now) targets.now
        (length u_starts.old) (length u_keys.old) (length v_starts.old) (length v_keys.old) (length counts.old) sources) }
    ensures text { out.new ≡ text_left (length out.old) (tree_text b (columns key.now own.now begin.now total.now) targets.now
        (length u_starts.old) (length u_keys.old) (length v_starts.old) (length v_keys.old) (length counts.old) sources) }
    ensures u_starts { u_starts.new ≡ u_starts_left b.axes (columns key.now own.now begin.now total.now)
        (length u_starts.old) (length u_keys.old) (length v_starts.old) (length v_keys.old) }
    ensures u_keys { u_keys.new ≡ u_keys_left b.axes (columns key.now own.now begin.now total.now)
        (length u_starts.old) (length u_keys.old) (length v_starts.old) (length v_keys.old) }
    ensures v_starts { v_starts.new ≡ v_starts_left b.axes (columns key.now own.now begin.now total.now)
        (length u_starts.old) (length u_keys.old) (length v_starts.old) (length v_keys.old) }
    ensures v_keys { v_keys.new ≡ v_keys_left b.axes (columns key.now own.now begin.now total.now)
        (length u_starts.old) (length u_keys.old) (length v_starts.old) (length v_keys.old) }
    ensures counts { counts.new ≡ text_counts b (columns key.now own.now begin.now total.now) targets.now
        (length u_starts.old) (length u_keys.old) (length v_starts.old) (length v_keys.old) (length counts.old) }
{
    let axes = b.axes;
    let listed = interaction::get_interaction_lists(
        axes, key, own, begin, total, u_starts, u_keys, v_starts, v_keys,
    );
    if let Err(refusal) = listed {
        slices::clear_usize(counts);
        return text::write_refusal(refusal, out);
    }
    let answer = near_work::get_near_work(b, key, own, begin, total, targets, counts);
    match answer {
        Err(refusal) => text::write_refusal(refusal, out),
        Ok(work) => {
            let depth = tree::depth_of(key);
            text::write_listing(
                axes, depth, sources, work, key, own, u_starts, u_keys, v_starts, v_keys, out,
            )
        }
    }
}

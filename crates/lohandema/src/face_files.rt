// The writer of tree files for C.
ghost use Rattle.std.specs.Prelude.{◌≡◌, length};
ghost use Rattle.tree_file.specs.Contents.{contents};
ghost use Rattle.refusal.specs.Outcome.{ending, answer_or};
ghost use Rattle.write_file.specs.Answers.{write_answer, write_left};
ghost use Rattle.exports_keys.specs.Told.{told};

use exports_keys::Ended;

// The file of a tree, and its length.
#[unsafe(no_mangle)]
pub extern "C" fn lohandema_write_tree(
    axes: usize,
    key: &[u64],
    own: &[usize],
    begin: &[usize],
    total: &[usize],
    indices: &[usize],
    u_starts: &[usize],
    u_keys: &[u64],
    v_starts: &[usize],
    v_keys: &[u64],
    file: &mut [u8],
    written: &mut usize,
) -> Ended
    ensures ended { result ≡ told (ending (write_answer (contents axes key.now own.now begin.now total.now indices.now
        u_starts.now u_keys.now v_starts.now v_keys.now) (length file.old))) }
    ensures written { written.new ≡ answer_or 0 (write_answer (contents axes key.now own.now begin.now total.now indices.now
        u_starts.now u_keys.now v_starts.now v_keys.now) (length file.old)) }
    ensures file { file.new ≡ write_left (contents axes key.now own.now begin.now total.now indices.now
        u_starts.now u_keys.now v_starts.now v_keys.now) (length file.old) }
{
    exports_files::lohandema_write_tree(
        axes, key, own, begin, total, indices, u_starts, u_keys, v_starts, v_keys, file, written,
    )
}

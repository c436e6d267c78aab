// The key calls for C: numbers, and references to numbers and arrays of fixed length.
ghost use Rattle.std.specs.Prelude.{◌≡◌, false};
ghost use Rattle.morton.specs.Answers.{level_answer, parent_answer, child_index_answer, children_answer, siblings_answer, ancestors_answer};
ghost use Rattle.anchors.specs.Answers.{decode_answer, encode_answer, touching_answer};
ghost use Rattle.neighbours.specs.Answer.{neighbours_answer};
ghost use Rattle.refusal.specs.Outcome.{ending, answer_or};
ghost use Rattle.exports_keys.specs.Told.{told, no_keys, nowhere};

use axes::Three;
use exports_keys::Ended;

#[unsafe(no_mangle)]
pub extern "C" fn lohandema_get_level(axes: usize, key: u64, level: &mut u64) -> Ended
    ensures ended { result ≡ told (ending (level_answer axes key)) }
    ensures level { level.new ≡ answer_or 0 (level_answer axes key) }
{
    exports_keys::lohandema_get_level(axes, key, level)
}

#[unsafe(no_mangle)]
pub extern "C" fn lohandema_get_parent(axes: usize, key: u64, parent: &mut u64) -> Ended
    ensures ended { result ≡ told (ending (parent_answer axes key)) }
    ensures parent { parent.new ≡ answer_or 0 (parent_answer axes key) }
{
    exports_keys::lohandema_get_parent(axes, key, parent)
}

#[unsafe(no_mangle)]
pub extern "C" fn lohandema_get_child_index(axes: usize, key: u64, index: &mut u64) -> Ended
    ensures ended { result ≡ told (ending (child_index_answer axes key)) }
    ensures index { index.new ≡ answer_or 0 (child_index_answer axes key) }
{
    exports_keys::lohandema_get_child_index(axes, key, index)
}

#[unsafe(no_mangle)]
pub extern "C" fn lohandema_encode_morton_point(
    axes: usize,
    anchor: &[u64; 3],
    level: u64,
    key: &mut u64,
) -> Ended
    ensures ended { result ≡ told (ending (encode_answer axes level anchor.now)) }
    ensures key { key.new ≡ answer_or 0 (encode_answer axes level anchor.now) }
{
    exports_keys::lohandema_encode_morton_point(axes, anchor, level, key)
}

#[unsafe(no_mangle)]
pub extern "C" fn lohandema_get_children(
    axes: usize,
    key: u64,
    keys: &mut [u64; Three::NEIGHBOURS],
    len: &mut usize,
) -> Ended
    ensures ended { result ≡ told (ending (children_answer axes key)) }
    ensures keys { keys.new ≡ (answer_or no_keys (children_answer axes key)).keys }
    ensures len { len.new ≡ (answer_or no_keys (children_answer axes key)).len }
{
    exports_keys::lohandema_get_children(axes, key, keys, len)
}

#[unsafe(no_mangle)]
pub extern "C" fn lohandema_get_siblings(
    axes: usize,
    key: u64,
    keys: &mut [u64; Three::NEIGHBOURS],
    len: &mut usize,
) -> Ended
    ensures ended { result ≡ told (ending (siblings_answer axes key)) }
    ensures keys { keys.new ≡ (answer_or no_keys (siblings_answer axes key)).keys }
    ensures len { len.new ≡ (answer_or no_keys (siblings_answer axes key)).len }
{
    exports_keys::lohandema_get_siblings(axes, key, keys, len)
}

#[unsafe(no_mangle)]
pub extern "C" fn lohandema_get_ancestors(
    axes: usize,
    key: u64,
    keys: &mut [u64; Three::NEIGHBOURS],
    len: &mut usize,
) -> Ended
    ensures ended { result ≡ told (ending (ancestors_answer axes key)) }
    ensures keys { keys.new ≡ (answer_or no_keys (ancestors_answer axes key)).keys }
    ensures len { len.new ≡ (answer_or no_keys (ancestors_answer axes key)).len }
{
    exports_keys::lohandema_get_ancestors(axes, key, keys, len)
}

#[unsafe(no_mangle)]
pub extern "C" fn lohandema_get_neighbours(
    axes: usize,
    key: u64,
    keys: &mut [u64; Three::NEIGHBOURS],
    len: &mut usize,
) -> Ended
    ensures ended { result ≡ told (ending (neighbours_answer axes key)) }
    ensures keys { keys.new ≡ (answer_or no_keys (neighbours_answer axes key)).keys }
    ensures len { len.new ≡ (answer_or no_keys (neighbours_answer axes key)).len }
{
    exports_keys::lohandema_get_neighbours(axes, key, keys, len)
}

#[unsafe(no_mangle)]
pub extern "C" fn lohandema_decode_key(
    axes: usize,
    key: u64,
    anchor: &mut [u64; 3],
    level: &mut u64,
) -> Ended
    ensures ended { result ≡ told (ending (decode_answer axes key)) }
    ensures anchor { anchor.new ≡ (answer_or nowhere (decode_answer axes key)).anchor }
    ensures level { level.new ≡ (answer_or nowhere (decode_answer axes key)).level }
{
    exports_keys::lohandema_decode_key(axes, key, anchor, level)
}

#[unsafe(no_mangle)]
pub extern "C" fn lohandema_touching(axes: usize, a: u64, b: u64, touches: &mut bool) -> Ended
    ensures ended { result ≡ told (ending (touching_answer axes a b)) }
    ensures touches { touches.new ≡ answer_or false (touching_answer axes a b) }
{
    exports_keys::lohandema_touching(axes, a, b, touches)
}

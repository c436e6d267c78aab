#![tactic(auto)]

// The key calls for C: numbers, and references to numbers and arrays of fixed length.
ghost use Rattle.std.specs.Prelude.{◌≡◌, false};
ghost use Rattle.morton.specs.Answers.{level_answer, parent_answer, child_index_answer, children_answer, siblings_answer, ancestors_answer};
ghost use Rattle.anchors.specs.Answers.{decode_answer, encode_answer, touching_answer};
ghost use Rattle.neighbours.specs.Answer.{neighbours_answer};
ghost use Rattle.refusal.specs.Outcome.{ending, answer_or};
ghost use Rattle.exports_keys.specs.Told.{told, no_keys, nowhere};

use axes::Three;
use morton::KeyList;
use refusal::Refusal;

// How a call ended: the number and values of its refusal, 0 throughout where there is none. The axis and the reason are those of
// 6 and 7, and 0 with every other number.
#[repr(C)]
#[derive(Clone, Copy)]
pub struct Ended {
    pub number: u32,
    pub axis: u16,
    pub reason: u16,
    pub value: usize,
}

pub fn end_of(outcome: Result<(), Refusal>) -> Ended
    ensures { result ≡ told outcome }
{
    let told = refusal::tell_outcome(outcome);
    Ended {
        number: told.number as u32,
        axis: told.axis,
        reason: told.reason,
        value: told.value,
    }
}

// Tells an answer, or what stands in its place after a refusal.
pub fn tell<T: Copy>(answer: Result<T, Refusal>, other: T, place: &mut T) -> Ended
    ensures ended { result ≡ told (ending answer) }
    ensures place { place.new ≡ answer_or other answer }
{
    match answer {
        Ok(found) => {
            *place = found;
            end_of(Ok(()))
        }
        Err(refusal) => {
            *place = other;
            end_of(Err(refusal))
        }
    }
}

fn tell_keys(
    answer: Result<KeyList, Refusal>,
    keys: &mut [u64; Three::NEIGHBOURS],
    len: &mut usize,
) -> Ended
    ensures ended { result ≡ told (ending answer) }
    ensures keys { keys.new ≡ (answer_or no_keys answer).keys }
    ensures len { len.new ≡ (answer_or no_keys answer).len }
{
    match answer {
        Ok(list) => {
            let found = list.keys;
            *keys = found;
            *len = list.len;
            end_of(Ok(()))
        }
        Err(refusal) => {
            let none = [0u64; Three::NEIGHBOURS];
            *keys = none;
            *len = 0;
            end_of(Err(refusal))
        }
    }
}

pub fn lohandema_get_level(axes: usize, key: u64, level: &mut u64) -> Ended
    ensures ended { result ≡ told (ending (level_answer axes key)) }
    ensures level { level.new ≡ answer_or 0 (level_answer axes key) }
{
    tell(morton::get_level(axes, key), 0, level)
}

pub fn lohandema_get_parent(axes: usize, key: u64, parent: &mut u64) -> Ended
    ensures ended { result ≡ told (ending (parent_answer axes key)) }
    ensures parent { parent.new ≡ answer_or 0 (parent_answer axes key) }
{
    tell(morton::get_parent(axes, key), 0, parent)
}

pub fn lohandema_get_child_index(axes: usize, key: u64, index: &mut u64) -> Ended
    ensures ended { result ≡ told (ending (child_index_answer axes key)) }
    ensures index { index.new ≡ answer_or 0 (child_index_answer axes key) }
{
    tell(morton::get_child_index(axes, key), 0, index)
}

pub fn lohandema_encode_morton_point(
    axes: usize,
    anchor: &[u64; 3],
    level: u64,
    key: &mut u64,
) -> Ended
    ensures ended { result ≡ told (ending (encode_answer axes level anchor.now)) }
    ensures key { key.new ≡ answer_or 0 (encode_answer axes level anchor.now) }
{
    let place = *anchor;
    tell(anchors::encode_morton_point(axes, place, level), 0, key)
}

pub fn lohandema_get_children(
    axes: usize,
    key: u64,
    keys: &mut [u64; Three::NEIGHBOURS],
    len: &mut usize,
) -> Ended
    ensures ended { result ≡ told (ending (children_answer axes key)) }
    ensures keys { keys.new ≡ (answer_or no_keys (children_answer axes key)).keys }
    ensures len { len.new ≡ (answer_or no_keys (children_answer axes key)).len }
{
    tell_keys(morton::get_children(axes, key), keys, len)
}

pub fn lohandema_get_siblings(
    axes: usize,
    key: u64,
    keys: &mut [u64; Three::NEIGHBOURS],
    len: &mut usize,
) -> Ended
    ensures ended { result ≡ told (ending (siblings_answer axes key)) }
    ensures keys { keys.new ≡ (answer_or no_keys (siblings_answer axes key)).keys }
    ensures len { len.new ≡ (answer_or no_keys (siblings_answer axes key)).len }
{
    tell_keys(morton::get_siblings(axes, key), keys, len)
}

pub fn lohandema_get_ancestors(
    axes: usize,
    key: u64,
    keys: &mut [u64; Three::NEIGHBOURS],
    len: &mut usize,
) -> Ended
    ensures ended { result ≡ told (ending (ancestors_answer axes key)) }
    ensures keys { keys.new ≡ (answer_or no_keys (ancestors_answer axes key)).keys }
    ensures len { len.new ≡ (answer_or no_keys (ancestors_answer axes key)).len }
{
    tell_keys(morton::get_ancestors(axes, key), keys, len)
}

pub fn lohandema_get_neighbours(
    axes: usize,
    key: u64,
    keys: &mut [u64; Three::NEIGHBOURS],
    len: &mut usize,
) -> Ended
    ensures ended { result ≡ told (ending (neighbours_answer axes key)) }
    ensures keys { keys.new ≡ (answer_or no_keys (neighbours_answer axes key)).keys }
    ensures len { len.new ≡ (answer_or no_keys (neighbours_answer axes key)).len }
{
    tell_keys(neighbours::get_neighbours(axes, key), keys, len)
}

pub fn lohandema_decode_key(axes: usize, key: u64, anchor: &mut [u64; 3], level: &mut u64) -> Ended
    ensures ended { result ≡ told (ending (decode_answer axes key)) }
    ensures anchor { anchor.new ≡ (answer_or nowhere (decode_answer axes key)).anchor }
    ensures level { level.new ≡ (answer_or nowhere (decode_answer axes key)).level }
{
    match anchors::decode_key(axes, key) {
        Ok(found) => {
            let place = found.anchor;
            *anchor = place;
            *level = found.level;
            end_of(Ok(()))
        }
        Err(refusal) => {
            let none = [0u64; 3];
            *anchor = none;
            *level = 0;
            end_of(Err(refusal))
        }
    }
}

pub fn lohandema_touching(axes: usize, a: u64, b: u64, touches: &mut bool) -> Ended
    ensures ended { result ≡ told (ending (touching_answer axes a b)) }
    ensures touches { touches.new ≡ answer_or false (touching_answer axes a b) }
{
    tell(anchors::touching(axes, a, b), false, touches)
}

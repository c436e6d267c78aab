// The answer of each key call in one form, and whether two answers are one.
ghost use Rattle.std.specs.Prelude.{◌≡◌};
ghost use Rattle.axes.specs.Axes.{neighbours_room};
ghost use Rattle.key_vectors.specs.Sameness.{same_numbers, same_list, same_refusal, same_answer};

use crate::text;
use anchors::Decoded;
use axes::Three;
use morton::KeyList;
use refusal::Refusal;
use text::Numbers;

// The key calls, by the words that name them in a line.
#[derive(Clone, Copy)]
pub enum Call {
    Level,
    Parent,
    Index,
    Children,
    Siblings,
    Ancestors,
    Neighbours,
    Decode,
    Encode,
    Touching,
}

// A refusal's number and its value.
#[derive(Clone, Copy)]
pub struct Refused {
    pub number: u64,
    pub value: u64,
}

// The numbers answered, or the refusal.
pub type Answer = Result<Numbers, Refused>;

fn told(refusal: Refusal) -> Refused {
    let told = refusal::tell(refusal);
    Refused {
        number: told.number,
        value: told.value as u64,
    }
}

fn one(number: u64) -> Numbers {
    let mut values = [0u64; Three::NEIGHBOURS];
    values[0] = number;
    Numbers { len: 1, values }
}

fn of_number(answer: Result<u64, Refusal>) -> Answer {
    let number = answer.map_err(told)?;
    Ok(one(number))
}

fn of_touch(answer: Result<bool, Refusal>) -> Answer {
    let touch = answer.map_err(told)?;
    Ok(one(touch as u64))
}

fn of_keys(answer: Result<KeyList, Refusal>) -> Answer {
    let list = answer.map_err(told)?;
    let values = list.keys;
    Ok(Numbers {
        len: list.len,
        values,
    })
}

// Three anchors and the level.
fn of_anchors(answer: Result<Decoded, Refusal>) -> Answer {
    let cell = answer.map_err(told)?;
    let anchor = cell.anchor;
    let mut values = [0u64; Three::NEIGHBOURS];
    values[0] = anchor[0];
    values[1] = anchor[1];
    values[2] = anchor[2];
    values[3] = cell.level;
    Ok(Numbers { len: 4, values })
}

// A call on one key; none where the call takes more.
fn answer_of_key(call: Call, axes: usize, key: u64) -> Option<Answer> {
    match call {
        Call::Level => Some(of_number(morton::get_level(axes, key))),
        Call::Parent => Some(of_number(morton::get_parent(axes, key))),
        Call::Index => Some(of_number(morton::get_child_index(axes, key))),
        Call::Children => Some(of_keys(morton::get_children(axes, key))),
        Call::Siblings => Some(of_keys(morton::get_siblings(axes, key))),
        Call::Ancestors => Some(of_keys(morton::get_ancestors(axes, key))),
        Call::Neighbours => Some(of_keys(neighbours::get_neighbours(axes, key))),
        Call::Decode => Some(of_anchors(anchors::decode_key(axes, key))),
        Call::Encode | Call::Touching => None,
    }
}

// A call with its arguments: axes and a key; or axes, three anchors and a level; or axes and two keys. None with other arguments.
pub fn answer_of(call: Call, given: Numbers) -> Option<Answer> {
    let values = given.values;
    let axes = values[0] as usize;
    match call {
        Call::Encode => {
            if given.len != 5 {
                return None;
            }
            let anchor = [values[1], values[2], values[3]];
            Some(of_number(anchors::encode_morton_point(axes, anchor, values[4])))
        }
        Call::Touching => {
            if given.len != 3 {
                return None;
            }
            Some(of_touch(anchors::touching(axes, values[1], values[2])))
        }
        _ => {
            if given.len != 2 {
                return None;
            }
            answer_of_key(call, axes, values[1])
        }
    }
}

fn same_numbers(a: [u64; Three::NEIGHBOURS], b: [u64; Three::NEIGHBOURS]) -> bool
    ensures { result ≡ same_numbers (neighbours_room 3) a b }
{
    for n in 0..Three::NEIGHBOURS {
        if a[n] != b[n] {
            return false;
        }
    }
    true
}

fn same_list(a: Numbers, b: Numbers) -> bool
    ensures { result ≡ same_list a b }
{
    if a.len != b.len {
        return false;
    }
    same_numbers(a.values, b.values)
}

fn same_refusal(a: Refused, b: Refused) -> bool
    ensures { result ≡ same_refusal a b }
{
    if a.number != b.number {
        return false;
    }
    a.value == b.value
}

// Whether two answers are one: both are there, with one refusal, or one length and the same number in every place.
pub fn same(a: Option<Answer>, b: Option<Answer>) -> bool
    ensures { result ≡ same_answer a b }
{
    match (a, b) {
        (Some(Ok(p)), Some(Ok(q))) => same_list(p, q),
        (Some(Err(p)), Some(Err(q))) => same_refusal(p, q),
        _ => false,
    }
}

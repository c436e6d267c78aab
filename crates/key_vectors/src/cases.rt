// A line: a call's word, its arguments, `=` and the answer that was recorded.
use crate::{calls, text};
use calls::{Answer, Call, Refused};

#[derive(Clone, Copy)]
pub enum Verdict {
    Comment,
    Agrees,
    Differs,
}

fn call_of(word: &[u8]) -> Option<Call> {
    match word {
        b"level" => Some(Call::Level),
        b"parent" => Some(Call::Parent),
        b"index" => Some(Call::Index),
        b"children" => Some(Call::Children),
        b"siblings" => Some(Call::Siblings),
        b"ancestors" => Some(Call::Ancestors),
        b"neighbours" => Some(Call::Neighbours),
        b"decode" => Some(Call::Decode),
        b"encode" => Some(Call::Encode),
        b"touching" => Some(Call::Touching),
        _ => None,
    }
}

// The answer to a call that is written as its word and its arguments; none where they cannot be read.
fn made(s: &[u8]) -> Option<Answer> {
    let blank = text::find(s, 0, b' ');
    let call = call_of(&s[0..blank])?;
    let given = text::read_numbers(&s[blank..])?;
    calls::answer_of(call, given)
}

// ` ! NUMBER VALUE`, without its first two bytes.
fn recorded_refusal(s: &[u8]) -> Option<Answer> {
    let read = text::read_numbers(s)?;
    if read.len != 2 {
        return None;
    }
    let values = read.values;
    if values[0] < 1 {
        return None;
    }
    Some(Err(Refused {
        number: values[0],
        value: values[1],
    }))
}

// The recorded answer, as it stands after the `=`; none where it cannot be read.
fn recorded(s: &[u8]) -> Option<Answer> {
    if 2 < s.len() {
        if check::same(&s[0..2], b" !") {
            return recorded_refusal(&s[2..]);
        }
    }
    let numbers = text::read_numbers(s)?;
    Some(Ok(numbers))
}

// Whether the call gives the recorded answer; a line that cannot be read differs.
pub fn judge(line: &[u8]) -> Verdict {
    if line.len() < 1 {
        return Verdict::Differs;
    }
    if line[0] == b'#' {
        return Verdict::Comment;
    }
    let equals = text::find(line, 0, b'=');
    if line.len() <= equals {
        return Verdict::Differs;
    }
    if equals < 1 {
        return Verdict::Differs;
    }
    let blank = equals - 1;
    if line[blank] != b' ' {
        return Verdict::Differs;
    }
    let after = equals + 1;
    if calls::same(made(&line[0..blank]), recorded(&line[after..])) {
        return Verdict::Agrees;
    }
    Verdict::Differs
}

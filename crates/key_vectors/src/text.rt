// Places, numbers and lists of numbers in a text.
ghost use Rattle.std.specs.Prelude.{◌≡◌, ℕ, ◌≤◌, ◌<◌, length, get_or, IfSome};
ghost use Rattle.axes.specs.Axes.{neighbours_room};

use axes::Three;

// The first place of a byte, from a place on, or the text's length.
pub fn find(s: &[u8], from: usize, byte: u8) -> usize
    requires { from ≤ length s.now }
    ensures within { (from ≤ result) × (result ≤ length s.now) }
    ensures before { (k : ℕ) → k < result → from ≤ k → get_or s.now k 0 ≡ byte → ⊥ }
    ensures found { result < length s.now → get_or s.now result 0 ≡ byte }
{
    for i in from..s.len() {
        if s[i] == byte {
            return i;
        }
    }
    s.len()
}

// A digit's number, and 10 for any other byte.
fn digit(byte: u8) -> u64
    ensures { result ≤ 10 }
{
    if byte < b'0' {
        return 10;
    }
    if b'9' < byte {
        return 10;
    }
    (byte - b'0') as u64
}

// A number that was read, and the place after it.
#[derive(Clone, Copy)]
pub struct Number {
    pub value: u64,
    pub next: usize,
}

// The number whose digits start at a place; none where there is no digit, or the number does not fit.
fn number_at(s: &[u8], from: usize) -> Option<Number>
    requires { from ≤ length s.now }
    ensures { IfSome result (λ number. (from ≤ number.next) × (number.next ≤ length s.now)) }
{
    let mut value: u64 = 0;
    for next in from..s.len() {
        let unit = digit(s[next]);
        if 9 < unit {
            return if from < next {
                Some(Number { value, next })
            } else {
                None
            };
        }
        if 1844674407370955161 < value {
            return None;
        }
        let tens = value * 10;
        if 18446744073709551615 - tens < unit {
            return None;
        }
        value = tens + unit;
    }
    if s.len() <= from {
        return None;
    }
    Some(Number {
        value,
        next: s.len(),
    })
}

// Up to as many numbers as a key list has keys; unused places are 0.
#[derive(Clone, Copy)]
pub struct Numbers {
    pub len: usize,
    pub values: [u64; Three::NEIGHBOURS],
}

// The numbers of a text in which each has one blank before it, and nothing else stands.
pub fn read_numbers(s: &[u8]) -> Option<Numbers>
    ensures { IfSome result (λ numbers. numbers.len ≤ neighbours_room 3) }
{
    let mut values = [0u64; Three::NEIGHBOURS];
    let mut len: usize = 0;
    let mut at: usize = 0;
    // Kept as a while: each number moves the place by its length.
    while at < s.len() {
        if s[at] != b' ' {
            return None;
        }
        let number = number_at(s, at + 1)?;
        if Three::NEIGHBOURS <= len {
            return None;
        }
        values[len] = number.value;
        len += 1;
        at = number.next;
    }
    Some(Numbers { len, values })
}

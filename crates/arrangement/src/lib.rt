#![tactic(auto)]

// Whether an order column arranges all indices below a number: document 02, orders 6 and 12. Nothing is lent: the indices met are marked in a small local table, window by window.
ghost use Rattle.std.specs.Prelude.{◌≡◌, ◌<◌, ◌^◌, ◌*◌};
ghost use Rattle.sums.specs.Arrangement.{arranges};
ghost use Rattle.sums.specs.Tells.{Tells};
ghost use Rattle.arrangement.specs.Windows.{AllBelow, OnceFrom};

// The indices of a window: one bit each in 2,048 words.
pub const WINDOW: usize = 131072;

// The bit for place b of a word.
pub fn bit_at(b: usize) -> u64
    requires { b < 64 }
    ensures { result ≡ 2 ^ b }
{
    1u64 << b
}

// Whether each entry is below n.
fn all_below(order: &[usize], n: usize) -> bool
    ensures { Tells (AllBelow order.now n) result }
{
    order.iter().all(|index| *index < n)
}

// Whether no index of a window stands twice.
fn once_from(order: &[usize], window: usize) -> bool
    ensures { Tells (OnceFrom order.now (window * 131072)) result }
{
    let mut seen = [0u64; 2048];
    for &index in order {
        if index / WINDOW != window {
            continue;
        }
        let at = index % WINDOW;
        let word = at / 64;
        let old = seen[word];
        if (old >> (at % 64)) % 2 != 0 {
            return false;
        }
        seen[word] = old + bit_at(at % 64);
    }
    true
}

// Whether the column has as many entries as there are indices below n, and each of them once.
pub fn is_arrangement(order: &[usize], n: usize) -> bool
    ensures { result ≡ arranges order.now n }
{
    if order.len() != n {
        return false;
    }
    if !all_below(order, n) {
        return false;
    }
    for window in 0..n.div_ceil(WINDOW) {
        if !once_from(order, window) {
            return false;
        }
    }
    true
}

#![tactic(auto)]

// The keys of a salvage: gathered from the rows, each once, and put in the nodes' order.
ghost use Rattle.std.specs.Prelude.{◌≡◌, true, ℕ, ◌≤◌, ◌<◌, length, get_or};
ghost use Rattle.morton.specs.Keys.{axes_known, valid};
ghost use Rattle.gathering.specs.Links.{Linked, Roomy};
ghost use Rattle.kept_keys.specs.Gathered.{Rooted, Gathered, Ordered};

// Whether a key is valid.
pub fn is_valid(axes: usize, k: u64) -> bool
    requires { axes_known axes ≡ true }
    ensures { result ≡ valid axes k }
{
    let level = k % 32768;
    if 16 < level {
        return false;
    }
    let shift = axes as u64 * level;
    if (k / 32768) >> shift == 0 {
        return true;
    }
    false
}

// The root alone.
fn put_root(key: &mut [u64], child: &mut [usize], next: &mut [usize])
    requires { (0 < length key.old) × (0 < length child.old) × (0 < length next.old) }
    ensures { Rooted key.new child.new }
{
    key[0] = 0;
    child[0] = 0;
    next[0] = 0;
}

// The valid keys of the rows, the root and all ancestors, each once: how many, one more than the room where there is none for all.
fn gather(
    axes: usize,
    rows: &[u64],
    key: &mut [u64],
    child: &mut [usize],
    next: &mut [usize],
    room: usize,
) -> usize
    requires { (axes_known axes ≡ true) × Roomy room 1 key.old child.old next.old }
    ensures { Gathered axes rows.now room key.new result }
{
    put_root(key, child, next);
    let mut n = 1;
    for &k in rows {
        if is_valid(axes, k) {
            n = gathering::put_key(axes, k, key, child, next, room, n);
            if room < n {
                return n;
            }
        }
    }
    n
}

// The keys of a salvage in the first places of `key`, in order: how many there are, one more than the room where there is none for all.
pub fn keep_keys(
    axes: usize,
    rows: &[u64],
    key: &mut [u64],
    child: &mut [usize],
    next: &mut [usize],
    room: usize,
) -> usize
    requires { (axes_known axes ≡ true) × Roomy room 1 key.old child.old next.old }
    ensures { Ordered axes rows.now room key.new result }
{
    let n = gather(axes, rows, key, child, next, room);
    if room < n {
        return n;
    }
    ranking::sort_keys(axes, &mut key[..n]);
    n
}

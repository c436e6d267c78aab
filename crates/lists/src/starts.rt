// The starts of both lists: two in one entry while the rows are written, then parted.
ghost use Rattle.std.specs.Prelude.{◌≡◌, map, ◌≤◌, length, take};
ghost use Rattle.lists.specs.Halves.{upper, lower, half_of, first_of};

// A column's entries hold two starts: V's in the lower half, U's in the upper one.
pub const HALF: usize = 4294967296;

// Parts the first n entries of `both`: the upper halves stay, the lower ones go to `low`.
fn part_starts(both: &mut [usize], low: &mut [usize], n: usize)
    requires { (n ≤ length both.old) × (n ≤ length low.old) }
    ensures { (take n both.new ≡ map upper (take n both.old)) × (take n low.new ≡ map lower (take n both.old)) }
{
    for i in 0..n {
        let x = both[i];
        both[i] = x / HALF;
        low[i] = x % HALF;
    }
}

// Parts the starts, and sets the unused rests to 0.
pub fn finish(
    u_starts: &mut [usize],
    u_keys: &mut [u64],
    v_starts: &mut [usize],
    v_keys: &mut [u64],
    n: usize,
    u: usize,
    v: usize,
)
    requires { (n ≤ length u_starts.old) × (n ≤ length v_starts.old) }
    ensures u_starts_after { u_starts.new ≡ half_of upper n u_starts.old (length u_starts.old) }
    ensures v_starts_after { v_starts.new ≡ half_of lower n u_starts.old (length v_starts.old) }
    ensures u_keys_after { (u_keys.new ≡ first_of u u_keys.old) × (v_keys.new ≡ first_of v v_keys.old) }
{
    part_starts(u_starts, v_starts, n);
    slices::clear_from_usize(u_starts, n);
    slices::clear_from_usize(v_starts, n);
    slices::clear_from(u_keys, u);
    slices::clear_from(v_keys, v);
}

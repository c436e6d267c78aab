#![tactic(auto)]

// The code of a cell's anchors and back, by shifts and masks on whole words.
ghost use Rattle.std.specs.Prelude.{◌≡◌, ◌+◌, ◌*◌, ◌^◌, ◌≤◌, ◌<◌};
ghost use Rattle.slices.specs.Lists.{filled};
ghost use Rattle.codes.specs.Codes.{spread, anchor, encode, anchors_of};
ghost use Rattle.codes.specs.Runs.{Apart, Together};
ghost use Rattle.codes.specs.Masks.{Spread, Gathered};
ghost use Rattle.codes.specs.Anchors.{Bytes2};

// The masks of runs of 8, 4, 2 and 1 bits, each followed by `gap` times as many free places.
#[derive(Clone, Copy)]
struct Masks {
    gap: usize,
    eights: u64,
    fours: u64,
    twos: u64,
    ones: u64,
}

// Those of two anchors in codes of 2 axes, the second 32 bits up.
const TWO: Masks = Masks {
    gap: 1,
    eights: 0x00ff_00ff_00ff_00ff,
    fours: 0x0f0f_0f0f_0f0f_0f0f,
    twos: 0x3333_3333_3333_3333,
    ones: 0x5555_5555_5555_5555,
};

// Those of an anchor in a code of 3 axes.
const THREE: Masks = Masks {
    gap: 2,
    eights: 0x0000_ff00_00ff,
    fours: 0x00f0_0f00_f00f,
    twos: 0x0c30_c30c_30c3,
    ones: 0x2492_4924_9249,
};

// One step apart: the high half of each run moves up by the shift, and the mask keeps the halves.
fn apart(runs: u64, shift: usize, mask: u64) -> u64
    requires { shift < 64 }
    ensures { Apart runs shift mask result }
{
    (runs | (runs << shift)) & mask
}

// One step together: every second run moves down by the shift, onto the one below it.
fn together(runs: u64, shift: usize, mask: u64) -> u64
    requires { shift < 64 }
    ensures { Together runs shift mask result }
{
    (runs | (runs >> shift)) & mask
}

// The bits of the anchors in a word, each followed by `gap` free places.
#[inline(always)]
fn spread(masks: Masks, anchors: u64) -> u64
    requires { masks.gap < 8 }
    ensures { Spread masks anchors result }
{
    let eights = apart(anchors, 8 * masks.gap, masks.eights);
    let fours = apart(eights, 4 * masks.gap, masks.fours);
    let twos = apart(fours, 2 * masks.gap, masks.twos);
    apart(twos, masks.gap, masks.ones)
}

// The code of two anchors: both are spread in one word, the second in its upper half.
fn code_2(x: u64, y: u64) -> u64
    requires { (x < 65536) × (y < 65536) }
    ensures { result ≡ spread 2 16 x + 2 * spread 2 16 y }
{
    let both = spread(TWO, x + (y << 32));
    (both & 0xffff_ffff) + (both >> 31)
}

// The code of three anchors.
fn code_3(x: u64, y: u64, z: u64) -> u64
    requires { (x < 65536) × (y < 65536) × (z < 65536) }
    ensures { result ≡ spread 3 16 x + 2 * spread 3 16 y + 4 * spread 3 16 z }
{
    spread(THREE, x) + (spread(THREE, y) << 1) + (spread(THREE, z) << 2)
}

// One anchor of a code, from bit 0 on: every bit that is followed by `gap` others.
#[inline(always)]
fn gather(masks: Masks, code: u64) -> u64
    requires { masks.gap < 8 }
    ensures { Gathered masks code result }
{
    let twos = together(code & masks.ones, masks.gap, masks.twos);
    let fours = together(twos, 2 * masks.gap, masks.fours);
    let eights = together(fours, 4 * masks.gap, masks.eights);
    together(eights, 8 * masks.gap, 0xffff)
}

// The code of anchors below 65536 on 1 to 3 axes; anchors past the axes are not read.
pub fn encode(axes: usize, anchor: [u64; 3]) -> u64
    requires { (1 ≤ axes) × (axes ≤ 3) × Bytes2 anchor }
    ensures { result ≡ encode axes axes 16 anchor }
{
    match axes {
        1 => anchor[0],
        2 => code_2(anchor[0], anchor[1]),
        _ => code_3(anchor[0], anchor[1], anchor[2]),
    }
}

// The anchors of a code of 1 to 3 axes.
pub fn decode(axes: usize, code: u64) -> [u64; 3]
    requires { (1 ≤ axes) × (axes ≤ 3) × (code < 2 ^ (axes * 16)) }
    ensures { result ≡ filled 3 (anchors_of axes 16 code) }
{
    match axes {
        1 => [code, 0, 0],
        2 => [gather(TWO, code), gather(TWO, code >> 1), 0],
        _ => [
            gather(THREE, code),
            gather(THREE, code >> 1),
            gather(THREE, code >> 2),
        ],
    }
}

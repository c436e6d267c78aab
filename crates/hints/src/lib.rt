#![tactic(auto)]

// Hints: node numbers in a table of words by the first bits of a code, and a few steps of halving from there. Each is tested before it
// is used, so any table gives the same answer; a wrong one costs time alone.
//
// A word is for a run of codes, the nodes of which begin there. It holds a number in its lowest 23 bits, that of the last node
// that begins by the run's first code, and then 8 counts of 5 bits, one for each eighth of the run: how many nodes more begin by
// the eighth's first code. In a large tree the nodes are counted by 2, 4 or 8. Where nodes crowd, the word is BLOCK and a number
// that leads to a block of words, which part the run further: with a code's number among the runs of that block's words it gives
// the place, modulo BLOCK_ROOM, past the first words.
ghost use Rattle.std.specs.Prelude.{◌≡◌, ◌+◌, ◌*◌, ◌<◌, ◌≤◌, true, length};

pub const WORDS: usize = 12288;

// The words for blocks, past the 4096 first ones. On one axis all words are first ones.
const BLOCK_ROOM: u64 = 8192;

const BLOCK: u64 = 9223372036854775808;

// A word that is to become a block, with the number of the first node that begins in its run.
const CROWDED: u64 = 13835058055282163712;

// Numbers from here on have no hint.
const MOST_NODES: usize = 8388608;

// One for each count; and counts of which the last is full, which no other exceeds.
const ONES: u64 = 35468117025;

const FULL: u64 = 1065151889408;

// A look-up of fewer points than one for so many nodes is not worth a table, and one of fewer than that is not worth blocks.
const NODES_A_POINT: usize = 16;

const NODES_A_POINT_IN_BLOCKS: usize = 5;

// Blocks that leave less room than this are the last ones.
const LITTLE_ROOM: usize = 768;

// Blocks lie no deeper in each other than this: the plan has room for ten numbers of 6 bits.
const DEEPEST: u64 = 10;

// So many codes at most are looked up to see how close the table leads.
pub const PROBES: usize = 64;

// How a table is read. Blocks lie so deep in each other, and an eighth of the run of a block's word has 2^low codes: those numbers
// stand in the plan, 6 bits each, the first blocks' lowest. Nodes are counted by 2^unit. From the table's number to the node it is
// mostly no more than so many steps of halving.
#[derive(Clone, Copy)]
pub struct Blocks {
    pub plan: u64,
    pub deep: u64,
    pub unit: u64,
    pub steps: u64,
}

// How words are filled: an eighth of a word's run has 2^low codes; more than a few nodes in a row that begin inside an eighth are a
// crowd; nodes whose number has a bit of the mask are not counted.
#[derive(Clone, Copy)]
struct Runs {
    low: u64,
    few: usize,
    mask: u64,
}

// ---- a word

// A node's first level-16 code. Where its level is at most 16, `up` is 16 less that; for any other key some number.
fn first_of(axes: usize, k: u64) -> u64
    requires { axes ≤ 3 }
{
    let up = (48 - k % 32) % 32;
    (k / 32768) << (axes as u64 * up % 64)
}

// A word in the making: its number and its counts, and how many nodes in a row, up to the last, began inside an eighth.
#[derive(Clone, Copy)]
struct Part {
    begin: u64,
    counts: u64,
    run: usize,
}

// With a node more that begins by this eighth, counted if nothing is odd about its number.
fn counted(part: Part, eighth: u64, odd: u64, run: usize) -> Part
    requires { eighth ≤ 8 }
{
    let mut counts = part.counts;
    if odd < 1 {
        if counts < FULL {
            counts = (counts + (ONES << (5 * eighth)) % 1099511627776) % 1099511627776;
        }
    }
    Part {
        begin: part.begin,
        counts: counts,
        run: run,
    }
}

// A number without its bits in a mask.
fn rounded(number: u64, mask: u64) -> u64 {
    number ^ number & mask
}

// With a node more that begins so far past the run's first code.
fn with_node(part: Part, node: u64, far: u64, runs: Runs) -> Part
    requires { runs.low < 61 }
{
    let eighth = (far >> runs.low) % 8;
    let odd = node & runs.mask;
    if far != eighth << runs.low {
        return counted(
            part,
            eighth + 1,
            odd,
            std::num::wrapping_add_usize(part.run, 1),
        );
    }
    if eighth != 0 {
        return counted(part, eighth, odd, 0);
    }
    Part {
        begin: rounded(node, runs.mask),
        counts: part.counts,
        run: 0,
    }
}

// A word, and the number of the first node past its run.
#[derive(Clone, Copy)]
struct Word {
    word: u64,
    end: usize,
}

fn word_of(part: Part, end: usize) -> Word {
    Word {
        word: part.counts % 1099511627776 * 8388608 + part.begin % 8388608,
        end: end,
    }
}

// How far past a code a node begins.
fn far_past(axes: usize, k: u64, start: u64) -> u64
    requires { axes ≤ 3 }
{
    std::num::wrapping_sub_u64(first_of(axes, k), start)
}

// Whether there is such a node and it begins in the run from this code on, whose eighths have 2^low codes.
fn in_run(axes: usize, key: &[u64], node: usize, start: u64, low: u64) -> bool
    requires { (axes ≤ 3) × (low < 61) }
    ensures { result ≡ true → node < length key.now }
{
    if key.len() <= node {
        return false;
    }
    far_past(axes, key[node], start) >> low < 8
}

// The number of the first node past a run, where node `from` begins in it and the one `most` on does not: by halving.
fn end_within(axes: usize, key: &[u64], from: usize, most: usize, start: u64, low: u64) -> usize
    requires { (axes ≤ 3) × (low < 61) × (from < length key.now) × (most ≤ 2 * length key.now) }
{
    let mut last = from;
    let mut step = most;
    while 1 < step {
        let half = step / 2;
        if in_run(axes, key, last + half, start, low) {
            last += half;
            step = step - half;
        } else {
            step = half;
        }
    }
    last + 1
}

// The number of the first node past a run that node `from` begins in: by steps of double length, and then within the last step.
fn run_end(axes: usize, key: &[u64], from: usize, start: u64, low: u64) -> usize
    requires { (axes ≤ 3) × (low < 61) × (from < length key.now) }
{
    let mut last = from;
    let mut step = 1;
    while in_run(axes, key, last + step, start, low) {
        last += step;
        step += step;
    }
    end_within(axes, key, last, step, start, low)
}

// The word of the run from this code on; the nodes before `from` begin before it. Where nodes crowd, it is crowded.
fn word_from(axes: usize, key: &[u64], from: usize, start: u64, runs: Runs) -> Word
    requires { (axes ≤ 3) × (runs.low < 61) }
{
    let mut part = Part {
        begin: rounded((from as u64).saturating_sub(1), runs.mask),
        counts: 0,
        run: 0,
    };
    for node in from..key.len() {
        let far = far_past(axes, key[node], start);
        if 8 <= far >> runs.low {
            return word_of(part, node);
        }
        part = with_node(part, node as u64, far, runs);
        if runs.few < part.run {
            return Word {
                word: CROWDED + (from % MOST_NODES) as u64,
                end: run_end(axes, key, node, start, runs.low),
            };
        }
    }
    word_of(part, key.len())
}

// ---- the table

// Fills the words from `base` on, `size` of them, for the runs from this code on.
fn fill(
    axes: usize,
    key: &[u64],
    words: &mut [u64; WORDS],
    base: usize,
    size: usize,
    from: usize,
    start: u64,
    runs: Runs,
)
    requires { (axes ≤ 3) × (runs.low < 61) × (base + size ≤ 12288) }
{
    let mut node = from;
    let mut code = start;
    for place in words[base..base + size].iter_mut() {
        let word = word_from(axes, key, node, code, runs);
        *place = word.word;
        node = word.end;
        code = std::num::wrapping_add_u64(code, 8 << runs.low);
    }
}

// The word that leads to a block, whose first run has this number among the runs of its length.
fn block_at(base: usize, first: u64) -> u64 {
    let past = std::num::wrapping_sub_u64(base as u64, 4096);
    std::num::wrapping_sub_u64(past, first) % BLOCK_ROOM + BLOCK
}

// Fills the block of a crowded word, `size` words from `base` on, which take so many bits of a code; answers the word that leads
// to it.
fn fill_block(
    axes: usize,
    key: &[u64],
    words: &mut [u64; WORDS],
    word: u64,
    base: usize,
    size: usize,
    bits: u64,
    runs: Runs,
) -> u64
    requires { (axes ≤ 3) × (runs.low + bits < 61) × (base + size ≤ 12288) }
{
    let from = (word % 8388608) as usize;
    if key.len() <= from {
        return 0;
    }
    let high = runs.low + bits + 3;
    let start = (first_of(axes, key[from]) >> high) << high;
    fill(axes, key, words, base, size, from, start, runs);
    block_at(base, start >> (runs.low + 3))
}

// The words of a block that takes so many bits, 8 at most.
fn size_of(bits: u64) -> usize
    ensures { (1 ≤ result) × (result ≤ 256) }
{
    match bits {
        0 => 1,
        1 => 2,
        2 => 4,
        3 => 8,
        4 => 16,
        5 => 32,
        6 => 64,
        7 => 128,
        _ => 256,
    }
}

// Makes blocks of the crowded words from `begin` up to `end`, past them, as long as there is room; answers where those end.
fn part_words(
    axes: usize,
    key: &[u64],
    words: &mut [u64; WORDS],
    begin: usize,
    end: usize,
    bits: u64,
    runs: Runs,
) -> usize
    requires { (axes ≤ 3) × (runs.low + bits < 61) × (end ≤ 12288) }
    ensures { result ≤ 12288 }
{
    let size = size_of(bits);
    let mut used = end;
    for at in begin..end {
        let word = words[at];
        if CROWDED <= word {
            if WORDS - size < used {
                return used;
            }
            words[at] = fill_block(axes, key, words, word, used, size, bits, runs);
            used += size;
        }
    }
    used
}

// A crowded word, filled as any other.
fn plain_word(axes: usize, key: &[u64], word: u64, runs: Runs) -> u64
    requires { (axes ≤ 3) × (runs.low < 60) }
{
    let from = (word % 8388608) as usize;
    if key.len() <= from {
        return 0;
    }
    let high = runs.low + 3;
    let start = (first_of(axes, key[from]) >> high) << high;
    word_from(axes, key, from, start, runs).word
}

// Fills the crowded words from `begin` up to `end`, for which there is no room, as any other.
fn leave_crowded(
    axes: usize,
    key: &[u64],
    words: &mut [u64; WORDS],
    begin: usize,
    end: usize,
    low: u64,
    mask: u64,
)
    requires { (axes ≤ 3) × (low < 60) × (end ≤ 12288) }
{
    let few = MOST_NODES;
    let runs = Runs { low, few, mask };
    for at in begin..end {
        let word = words[at];
        if CROWDED <= word {
            words[at] = plain_word(axes, key, word, runs);
        }
    }
}

// How many nodes are no crowd yet in words that leave so much room: any number where it is little, as no blocks come after them.
fn few_at(room: usize) -> usize {
    if room < LITTLE_ROOM {
        return MOST_NODES;
    }
    1
}

// The first bits of a code choose one of so many first words: on one axis 13 bits, else 12.
fn tops(axes: usize) -> usize
    ensures { result ≤ 8192 }
{
    if axes < 2 {
        return 8192;
    }
    4096
}

// An eighth of a first word's run has 2^low codes.
fn top_low(axes: usize) -> u64
    requires { axes ≤ 3 }
    ensures { result ≤ 33 }
{
    if axes < 2 {
        return 0;
    }
    16 * axes as u64 - 15
}

// Fills the first words.
fn fill_tops(axes: usize, key: &[u64], words: &mut [u64; WORDS], few: usize, mask: u64)
    requires { axes ≤ 3 }
{
    let low = top_low(axes);
    fill(
        axes,
        key,
        words,
        0,
        tops(axes),
        0,
        0,
        Runs { low, few, mask },
    );
}

// How many of the words from `begin` up to `end` are crowded.
fn count_crowded(words: &[u64; WORDS], begin: usize, end: usize) -> usize
    requires { end ≤ 12288 }
{
    let mut count = 0;
    for at in begin..end {
        if CROWDED <= words[at] {
            count += 1;
        }
    }
    count
}

// The room that blocks of so many bits may take: large ones part of it, since more blocks come after them.
fn share_of(room: usize, bits: u64) -> usize {
    if bits < 6 {
        return room;
    }
    if bits < 7 {
        return room / 4;
    }
    room / 8
}

// The bits that so many blocks take, 8 at most and as many as there are; 0 where there are no blocks or no room for them.
fn bits_for(crowded: usize, room: usize, low: u64) -> u64
    ensures { (result ≤ 8) × (result ≤ low) }
{
    if crowded < 1 {
        return 0;
    }
    for bits in (1..=low.min(8)).rev() {
        if crowded <= share_of(room, bits) / size_of(bits) {
            return bits;
        }
    }
    0
}

// A table with blocks so deep. How many steps of halving come after it stays open.
fn read_by(plan: u64, deep: u64, unit: u64) -> Blocks {
    Blocks {
        plan,
        deep,
        unit,
        steps: 0,
    }
}

// Fills the table, which counts nodes by 2^unit, with blocks where more than a few nodes crowd in a first word, and then in a
// block's.
fn fill_table(
    axes: usize,
    key: &[u64],
    words: &mut [u64; WORDS],
    top_few: usize,
    unit: u64,
) -> Blocks
    requires { (axes ≤ 3) × (unit < 4) }
{
    let mask = std::num::wrapping_sub_u64(1 << unit, 1);
    fill_tops(axes, key, words, top_few, mask);
    let mut low = top_low(axes);
    let mut begin = 0;
    let mut end = tops(axes);
    let mut plan = 0;
    for deep in 0..DEEPEST {
        let crowded = count_crowded(words, begin, end);
        let room = WORDS - end;
        let bits = bits_for(crowded, room, low);
        if bits < 1 {
            leave_crowded(axes, key, words, begin, end, low, mask);
            return read_by(plan, deep, unit);
        }
        low = low - bits;
        let few = few_at(room.saturating_sub(crowded << bits));
        let used = part_words(axes, key, words, begin, end, bits, Runs { low, few, mask });
        plan = plan | low << (6 * deep);
        begin = end;
        end = used;
    }
    leave_crowded(axes, key, words, begin, end, low, mask);
    read_by(plan, DEEPEST, unit)
}

// Whether a table is worth while for a look-up of so many points, and numbers are small enough for it.
fn is_worth(nodes: usize, points: usize) -> bool {
    if MOST_NODES < nodes {
        return false;
    }
    nodes / NODES_A_POINT <= points
}

// How many nodes are no crowd in a first word of a table for so many points: any number where blocks are not worth while.
fn first_few(nodes: usize, points: usize) -> usize {
    if points < nodes / NODES_A_POINT_IN_BLOCKS {
        return MOST_NODES;
    }
    1
}

// By 2 to which power the nodes of a tree are counted: a word counts 31 at most.
fn unit_for(nodes: usize) -> u64
    ensures { result < 4 }
{
    if nodes < 65536 {
        return 0;
    }
    if nodes < 131072 {
        return 1;
    }
    if nodes < 200000 {
        return 2;
    }
    3
}

// The table for a look-up of so many points; where that is not worth while, one without a number.
fn table_for(axes: usize, key: &[u64], points: usize, words: &mut [u64; WORDS]) -> Blocks
    requires { axes ≤ 3 }
{
    if is_worth(key.len(), points) {
        let few = first_few(key.len(), points);
        return fill_table(axes, key, words, few, unit_for(key.len()));
    }
    read_by(0, 0, 0)
}

// ---- the hint

// The table's number for a code. Each code takes as many turns, so that the turns can be foreseen.
fn number_at(axes: usize, words: &[u64; WORDS], blocks: Blocks, code: u64) -> usize
    requires { axes ≤ 3 }
{
    let mut low = top_low(axes);
    let mut word = words[((code >> low) / 8 % 8192) as usize];
    let mut plan = blocks.plan;
    for _ in 0..blocks.deep {
        let inner = plan % 64;
        let at = std::num::wrapping_add_u64(word, (code >> inner) / 8) % BLOCK_ROOM + 4096;
        let next = words[at as usize];
        plan = plan / 64;
        if BLOCK <= word {
            word = next;
            low = inner;
        }
    }
    let eighth = (code >> low) % 8;
    let count = (word >> (23 + 5 * eighth)) % 32;
    (word % 8388608 + (count << blocks.unit % 4) % 256) as usize
}

// 1 if a node begins by a code, 0 if not: reckoned and not asked, since the answer cannot be foreseen.
fn begins_by(axes: usize, k: u64, code: u64) -> u64
    requires { axes ≤ 3 }
{
    std::num::wrapping_sub_u64(code, first_of(axes, k)) >> 63 ^ 1
}

// The last node that begins by a code, where it is less than 2 to so many steps past `from`: by halving.
fn close_to(axes: usize, key: &[u64], from: usize, steps: u64, code: u64) -> usize
    requires { axes ≤ 3 }
{
    if key.len() < 1 {
        return 0;
    }
    let last = key.len() - 1;
    let mut at = from;
    for left in (0..steps % 32).rev() {
        let next = std::num::wrapping_add_usize(at, 1 << left).min(last);
        let more = begins_by(axes, key[next], code) << left;
        at = std::num::wrapping_add_usize(at, more as usize);
    }
    at.min(last)
}

// A number that is mostly the leaf's that holds a code.
pub fn hint_of(axes: usize, key: &[u64], words: &[u64; WORDS], blocks: Blocks, code: u64) -> usize
    requires { axes ≤ 3 }
{
    let from = number_at(axes, words, blocks, code);
    close_to(axes, key, from, blocks.steps, code)
}

// ---- how many steps

fn wide(x: u32) -> u64 {
    x as u64
}

// The steps from one number to another: as many as their difference has bits.
fn steps_between(from: usize, to: usize) -> u64 {
    if to < from {
        return 0;
    }
    64u64.saturating_sub(wide(u64::leading_zeros((to - from) as u64)))
}

// Counts for each number of steps the codes that take so many from the table's number, of some of the first n; answers of how many.
fn count_steps(
    axes: usize,
    key: &[u64],
    words: &[u64; WORDS],
    blocks: Blocks,
    codes: &[u64],
    n: usize,
    counts: &mut [usize; 64],
) -> usize
    requires { (axes ≤ 3) × (n ≤ length codes.now) × (n ≤ 1048576) }
{
    let far = n / PROBES + 1;
    let mut probes: usize = 0;
    let mut row = 0;
    while row < n {
        let code = codes[row];
        let node = close_to(axes, key, 0, 23, code);
        let steps = steps_between(number_at(axes, words, blocks, code), node);
        let at = (steps % 64) as usize;
        counts[at] = std::num::wrapping_add_usize(counts[at], 1);
        probes = std::num::wrapping_add_usize(probes, 1);
        row += far;
    }
    probes
}

// The fewest steps, 23 at most, that all but a twelfth of the codes do with.
fn fewest_steps(counts: &[usize; 64], probes: usize) -> u64 {
    let mut more: usize = 0;
    for steps in (1..=23).rev() {
        more = std::num::wrapping_add_usize(more, counts[steps]);
        if probes / 12 < more {
            return steps as u64;
        }
    }
    0
}

// Fills the table for a look-up of so many points, of which the first n codes are some, and says how to read it: with the fewest
// steps that do for these codes.
pub fn prepare_for(
    axes: usize,
    key: &[u64],
    points: usize,
    codes: &[u64],
    n: usize,
    words: &mut [u64; WORDS],
) -> Blocks
    requires { (axes ≤ 3) × (n ≤ length codes.now) × (n ≤ 1048576) }
{
    let blocks = table_for(axes, key, points, words);
    let mut counts = [0usize; 64];
    let probes = count_steps(axes, key, words, blocks, codes, n, &mut counts);
    Blocks {
        plan: blocks.plan,
        deep: blocks.deep,
        unit: blocks.unit,
        steps: fewest_steps(&counts, probes),
    }
}

// The same for a look-up of the first n codes.
pub fn prepare(
    axes: usize,
    key: &[u64],
    codes: &[u64],
    n: usize,
    words: &mut [u64; WORDS],
) -> Blocks
    requires { (axes ≤ 3) × (n ≤ length codes.now) × (n ≤ 1048576) }
{
    prepare_for(axes, key, n, codes, n, words)
}

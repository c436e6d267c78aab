#![tactic(auto)]

// Replays recorded lookups: for each file of a container on standard input, the tree of its sources is built as the listing
// program does, and the leaf of each target is looked up in it. differential/README.md says how they are made. Where a
// slice is short, which no file brings about, nothing is answered; that differs from every record.
use refusal::Refusal;
use space::Box;
use std::io;
use std::io::Print;
use survey::Survey;
use whole_input::read_full;

fn write_refusal(rt: &impl Print, refusal: Refusal) -> io::Result<()> {
    let told = refusal::tell(refusal);
    let number = told.number;
    let value = told.value;
    print!(rt; "refused {number} {value}")?;
    if told.count == 3 {
        let axis = told.axis;
        let reason = told.reason;
        print!(rt; " {axis} {reason}")?;
    }
    println!(rt; "")
}

// How many points there were, the sum of the steps, and each point's leaf.
fn write_leaves(rt: &impl Print, points: usize, steps: usize, leaves: &[u64]) -> io::Result<()> {
    print!(rt; "leaves {points} {steps}")?;
    for leaf in leaves.iter().take(points) {
        print!(rt; " {leaf}")?;
    }
    println!(rt; "")
}

// Looks up the points in a tree of so many nodes.
fn look_up(
    rt: &impl Print,
    b: Box,
    key: &[u64],
    own: &[usize],
    begin: &[usize],
    total: &[usize],
    nodes: usize,
    points: &[f64],
    rows: usize,
) -> io::Result<()> {
    if key.len() < nodes {
        return Ok(());
    }
    if own.len() < nodes {
        return Ok(());
    }
    if begin.len() < nodes {
        return Ok(());
    }
    if total.len() < nodes {
        return Ok(());
    }
    let mut leaves = [0u64; 4088];
    let found = lookup::points_to_keys(
        b,
        &key[..nodes],
        &own[..nodes],
        &begin[..nodes],
        &total[..nodes],
        points,
        &mut leaves,
    );
    match found {
        Err(refusal) => write_refusal(rt, refusal),
        Ok(steps) => write_leaves(rt, rows, steps, &leaves),
    }
}

// Builds the tree of the sources, and looks up the targets in it.
fn build(
    rt: &impl Print,
    b: Box,
    limit: usize,
    order: usize,
    keep: bool,
    sources: &[f64],
    targets: &[f64],
    rows: usize,
) -> io::Result<()> {
    let mut work = [0u64; 8176];
    let mut indices = [0usize; 4088];
    let mut key = [0u64; 2048];
    let mut own = [0usize; 2048];
    let mut begin = [0usize; 2048];
    let mut total = [0usize; 2048];
    let built = build::build_tree(
        b,
        sources,
        targets,
        limit,
        order,
        keep,
        true,
        &mut work,
        &mut indices,
        &mut key,
        &mut own,
        &mut begin,
        &mut total,
    );
    match built {
        Err(refusal) => write_refusal(rt, refusal),
        Ok(grown) => {
            let nodes = grown.nodes;
            look_up(rt, b, &key, &own, &begin, &total, nodes, targets, rows)
        }
    }
}

// What a file says, with its numbers in two slices of which the first m and n count.
fn build_rows(
    rt: &impl Print,
    survey: Survey,
    sources: &[f64],
    m: usize,
    targets: &[f64],
    n: usize,
) -> io::Result<()> {
    if sources.len() < m {
        return Ok(());
    }
    if targets.len() < n {
        return Ok(());
    }
    let b = survey.b;
    build(
        rt,
        b,
        survey.limit,
        survey.order,
        survey.keep,
        &sources[..m],
        &targets[..n],
        survey.targets,
    )
}

fn answer(rt: &impl Print, file: &[u8]) -> io::Result<()> {
    let mut sources = [0.0f64; 4088];
    let mut targets = [0.0f64; 4088];
    let read = survey::read_survey(file, &mut sources, &mut targets);
    match read {
        Err(refusal) => write_refusal(rt, refusal),
        Ok(survey) => {
            let b = survey.b;
            let m = survey.sources * b.axes;
            let n = survey.targets * b.axes;
            build_rows(rt, survey, &sources, m, &targets, n)
        }
    }
}

// Answers each file of a container: its number, and what is answered to it.
fn replay(rt: &impl Print, s: &[u8]) -> io::Result<()> {
    let mut number: u64 = 0;
    let mut at: usize = 0;
    while at < s.len() {
        println!(rt; "file {number}")?;
        let Some(part) = container::part_at(s, at) else {
            return println!(rt; "not whole");
        };
        answer(rt, &s[part.start..part.end])?;
        number += 1;
        at = part.end;
    }
    Ok(())
}

fn main(rt: HostRuntime) -> io::Result<()> {
    let mut room = [0u8; 65536];
    let n = read_full(&mut rt.reader(), &mut room)?;
    if n == 65536 {
        println!(rt; "lookup vectors: the input is too long")?;
        return Ok(());
    }
    replay(&rt, &room[..n])
}

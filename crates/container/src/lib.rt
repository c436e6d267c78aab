#![tactic(auto)]

// A container of files: each stands after its length, a u32 in little-endian. Recorded surveys come to a program in one.
ghost use Rattle.std.specs.Prelude.{◌≡◌, ◌≤◌, ◌<◌, length, IfSome};
ghost use Rattle.container.specs.Parts.{part_at};

// Where a file's bytes begin and end.
#[derive(Clone, Copy)]
pub struct Part {
    pub start: usize,
    pub end: usize,
}

// The file whose length stands at a place; none where the container ends before its bytes do. Whoever goes on from its end comes
// to the container's end.
pub fn part_at(s: &[u8], at: usize) -> Option<Part>
    ensures part { result ≡ part_at s.now at }
    ensures inside { IfSome result (λ part. (part.start ≤ part.end) × (part.end ≤ length s.now)) }
    ensures further { IfSome result (λ part. at < part.end) }
{
    if s.len() < 4 {
        return None;
    }
    if s.len() - 4 < at {
        return None;
    }
    let size = survey::u32_at(s, at) as usize;
    let start = at + 4;
    if s.len() - start < size {
        return None;
    }
    Some(Part {
        start,
        end: start + size,
    })
}

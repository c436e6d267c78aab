#![tactic(auto)]

// The refusals of documents 01 and 02: one case a number, and the number and values of each.
ghost use Rattle.std.specs.Prelude.{◌≡◌, [], ◌∷◌};
ghost use Rattle.refusal.specs.Numbers.{number_of, values_of, outcome_number, outcome_values, tells};

// Which wall of the box a point is behind: the point's index, the axis from 0, and the reason. It is 1 where the coordinate is
// not finite, 2 where it is below the box, 3 where it is above.
#[derive(Clone, Copy)]
pub struct Wall {
    pub index: usize,
    pub axis: u16,
    pub reason: u16,
}

// In the order of document 01's table, then of document 02's numbers, under their names. A case holds its values where they are
// not one 0.
#[derive(Clone, Copy)]
pub enum Refusal {
    Dims,
    Box,
    Shape,
    Count,
    Order,
    Source(Wall),
    Point(Wall),
    Room(usize),
    Key,
    Root,
    Deep,
    Unstored(usize),
    Tree,
    NotLeaf(usize),
    File,
    Grid,
    Section,
    NotBuilt,
    Partial,
    Reading(usize),
}

// What is told of a refusal: its number, how many values go with it, and the values: the index, which slice is short or 0; the
// axis and the reason of a wall, 0 where there is none.
#[derive(Clone, Copy)]
pub struct Told {
    pub number: u64,
    pub count: usize,
    pub value: usize,
    pub axis: u16,
    pub reason: u16,
}

// A number with one value.
fn one(number: u64, value: usize) -> Told
    ensures { result ≡ tells number (value ∷ []) }
{
    Told {
        number,
        count: 1,
        value,
        axis: 0,
        reason: 0,
    }
}

// A number with the three values of a wall.
fn three(number: u64, wall: Wall) -> Told
    ensures { result ≡ tells number (wall.index ∷ wall.axis ∷ wall.reason ∷ []) }
{
    Told {
        number,
        count: 3,
        value: wall.index,
        axis: wall.axis,
        reason: wall.reason,
    }
}

// The number and the values of a refusal.
pub fn tell(refusal: Refusal) -> Told
    ensures { result ≡ tells (number_of refusal) (values_of refusal) }
{
    match refusal {
        Refusal::Dims => one(1, 0),
        Refusal::Box => one(2, 0),
        Refusal::Shape => one(3, 0),
        Refusal::Count => one(4, 0),
        Refusal::Order => one(5, 0),
        Refusal::Source(wall) => three(6, wall),
        Refusal::Point(wall) => three(7, wall),
        Refusal::Room(which) => one(8, which),
        Refusal::Key => one(9, 0),
        Refusal::Root => one(10, 0),
        Refusal::Deep => one(11, 0),
        Refusal::Unstored(index) => one(12, index),
        Refusal::Tree => one(13, 0),
        Refusal::NotLeaf(index) => one(14, index),
        Refusal::File => one(15, 0),
        Refusal::Grid => one(16, 0),
        Refusal::Section => one(17, 0),
        Refusal::NotBuilt => one(18, 0),
        Refusal::Partial => one(19, 0),
        Refusal::Reading(index) => one(20, index),
    }
}

// The same of an outcome: 0 throughout where the call was not refused.
pub fn tell_outcome(outcome: Result<(), Refusal>) -> Told
    ensures { result ≡ tells (outcome_number outcome) (outcome_values outcome) }
{
    match outcome {
        Ok(()) => Told {
            number: 0,
            count: 0,
            value: 0,
            axis: 0,
            reason: 0,
        },
        Err(refusal) => tell(refusal),
    }
}

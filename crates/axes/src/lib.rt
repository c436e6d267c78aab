#![tactic(auto)]

// Each number of axes has three figures of its own: children, neighbours, and the room of a V row.
ghost use Rattle.std.specs.Prelude.{◌≡◌};
ghost use Rattle.axes.specs.Axes.{axes_known, children_room, neighbours_room, far_room};

#[derive(Clone, Copy)]
pub struct One;

impl One {
    pub const CHILDREN: usize = 2;

    pub const NEIGHBOURS: usize = 2;

    pub const V_ROOM: usize = 3;
}

#[derive(Clone, Copy)]
pub struct Two;

impl Two {
    pub const CHILDREN: usize = 4;

    pub const NEIGHBOURS: usize = 8;

    pub const V_ROOM: usize = 27;
}

#[derive(Clone, Copy)]
pub struct Three;

impl Three {
    pub const CHILDREN: usize = 8;

    pub const NEIGHBOURS: usize = 26;

    pub const V_ROOM: usize = 189;
}

// Whether there are 1 to 3 axes.
pub fn axes_known(axes: usize) -> bool
    ensures { result ≡ axes_known axes }
{
    1 <= axes && axes <= 3
}

// Children, neighbours and V room of so many axes; 0 where their number is not 1 to 3.
fn figures(axes: usize) -> (usize, usize, usize)
    ensures { result ≡ (children_room axes, neighbours_room axes, far_room axes) }
{
    match axes {
        1 => (One::CHILDREN, One::NEIGHBOURS, One::V_ROOM),
        2 => (Two::CHILDREN, Two::NEIGHBOURS, Two::V_ROOM),
        3 => (Three::CHILDREN, Three::NEIGHBOURS, Three::V_ROOM),
        _ => (0, 0, 0),
    }
}

// How many children a cell has.
pub fn children_of(axes: usize) -> usize
    ensures { result ≡ children_room axes }
{
    figures(axes).0
}

// How many neighbours a cell has, those off the box counted.
pub fn neighbours_of(axes: usize) -> usize
    ensures { result ≡ neighbours_room axes }
{
    figures(axes).1
}

// How many cells a V row has at most.
pub fn v_room(axes: usize) -> usize
    ensures { result ≡ far_room axes }
{
    figures(axes).2
}

//! Where cells lie, and what they hold.

ghost use Rattle.std.specs.Prelude.{◌≡◌};
ghost use Rattle.cp_store.specs.Inside.{HasCells, MovesBy};
ghost use Rattle.cp_store.specs.Memory.{memory_of, address_onward, cell_at};

/// Where a cell lies.
#[derive(Clone, Copy, Debug, PartialEq, Eq)]
pub enum Address {
    /// A cell of a component, by its number among those of all components.
    Permanent(usize),
    /// A cell of the process that is executed, by its number among those of its frames.
    Local(usize),
}

/// A call, or the initial statement of a process: what it executes, and where its variables lie.
#[derive(Clone, Copy, PartialEq, Eq)]
pub struct Frame {
    pub routine: usize,
    pub component: usize,
    /// The first permanent cell of the component.
    pub own: usize,
    /// Its first cell among those of the process.
    pub base: usize,
    /// The first of its `var` parameters among those of the process.
    pub references: usize,
}

/// What the frames of a process hold, frame upon frame.
#[derive(Drop)]
pub struct Room {
    pub cells: Vec<i16>,
    /// The places that `var` parameters name.
    pub references: Vec<Address>,
}

impl Address {
    /// The address this many cells further on.
    #[tactic(auto, using(crate::proofs::Reaches::onward_exact))]
    pub fn plus(self, cells: usize) -> Address
        requires { MovesBy self cells }
        ensures { result ≡ address_onward self cells }
    {
        match self {
            Address::Permanent(number) => Address::Permanent(number + cells),
            Address::Local(number) => Address::Local(number + cells),
        }
    }
}

/// What the cell at an address holds.
pub fn cell(permanents: &[i16], room: &Room, at: Address) -> i16
    requires { HasCells (memory_of permanents.now room.now) at 1 }
    ensures { result ≡ cell_at (memory_of permanents.now room.now) at }
{
    match at {
        Address::Permanent(number) => permanents[number],
        Address::Local(number) => room.cells[number],
    }
}

//! What grows while a program is laid out: its routines, its items, and the names of its constants.

ghost use Rattle.std.specs.Prelude.{◌≡◌, max, map, length, IfOk};
ghost use Rattle.std.specs.String.{string_bytes};
ghost use Rattle.cp_slots.specs.Code.{item_seen};
ghost use Rattle.cp_symbols.specs.Kinds.{plus};
ghost use Rattle.cp_layout.specs.Layers as spec;
ghost use Rattle.cp_layout.specs.Layers.{pending_seen};

use cp_slots::{Action, Item, ResolvedRoutine};
use std::alloc::{AllocError, Global};

/// An item that is not in the tables yet.
#[derive(Drop)]
pub struct Pending {
    pub action: Action,
    pub line: u32,
    /// How many entries of a control stack the action itself may need.
    pub need: usize,
}

/// What goes into the tables.
#[derive(Drop)]
pub struct Lists {
    pub routines: Vec<ResolvedRoutine>,
    pub items: Vec<Item>,
    /// The constants of the enumerations.
    pub constants: Vec<String>,
    /// The items of the statement that is laid out: its function calls, and itself.
    pub pending: Vec<Pending>,
    /// The greatest number of arguments.
    pub arguments: usize,
}

impl Lists {
    /// How many entries of a control stack a list needs.
    pub fn need_of(&self, list: Option<usize>) -> usize
        ensures { result ≡ spec.need_of (map item_seen self.now.items.items) list }
    {
        match list {
            Some(at) => match self.items.get(at) {
                Some(item) => item.need,
                None => 0,
            },
            None => 0,
        }
    }

    /// The same of a list inside an item.
    pub fn need_inside(&self, list: Option<usize>) -> usize
        ensures { result ≡ spec.need_inside (map item_seen self.now.items.items) list }
    {
        match list {
            Some(_) => self.need_of(list).saturating_add(1),
            None => 0,
        }
    }

    /// The most that the items of the statement need.
    pub fn pending_need(&self) -> usize
        ensures { result ≡ spec.pending_need_from 0 (map pending_seen self.now.pending.items) }
    {
        most_need(&self.pending)
    }

    /// The number that the first item of the statement will have, where one more is to come.
    pub fn again(&self) -> usize
        ensures { result ≡ plus (length (map item_seen self.now.items.items)) (length (map pending_seen self.now.pending.items)) }
    {
        self.items.len().saturating_add(self.pending.len())
    }

    /// The constants of the enumerations.
    #[tactic(auto, using(crate::proofs::SymbolLists::constants_step, crate::proofs::SymbolLists::constants_none))]
    pub fn constant_symbols(&self, alloc: Global) -> Result<Vec<String>, AllocError>
        ensures { IfOk result (λ v. map string_bytes v.items ≡ map string_bytes self.now.constants.items) }
    {
        let mut names = Vec::new(alloc);
        for name in &self.constants {
            names.push(String::from_str(alloc, name.as_str())?)?;
        }
        Ok(names)
    }

    /// A call or a start has this many arguments.
    pub fn count_arguments(&mut self, count: usize)
        ensures { self.new ≡ record self.old { arguments = max self.old.arguments count } }
    {
        self.arguments = self.arguments.max(count);
    }
}

// The most that items need.
fn most_need(items: &[Pending]) -> usize
    ensures { result ≡ spec.pending_need_from 0 (map pending_seen items.now) }
{
    let mut most = 0;
    for item in items {
        if most < item.need {
            most = item.need;
        }
    }
    most
}

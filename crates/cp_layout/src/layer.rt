//! What is laid out so far.

ghost use Rattle.std.specs.Prelude.{◌≡◌, [], ◌∷◌, ◌++◌, map, length, IfOk, OnOk};
ghost use Rattle.cp_layout.specs.declared.layer.Content.TheVariants as content;
ghost use Rattle.cp_slots.specs.Code.{action_seen};
ghost use Rattle.cp_symbols.specs.Kinds.{plus, times};
ghost use Rattle.cp_layout.specs.Layers as spec;
ghost use Rattle.cp_layout.specs.Layers.{layer_seen, owned_seen, pending_seen, Lays, Leads};
ghost use Rattle.cp_layout.specs.LaidDeclarations.{component_cell};
ghost use Rattle.cp_layout.specs.Symbols.{AreSymbolsOf};

use crate::frame::RoutineFrame;
use crate::kinds::Types;
use crate::lists::{Lists, Pending};
use crate::names::Names;
use crate::surroundings::Surroundings;
use crate::symbols::{NotedName, symbols_of};
use cp_slots::{Action, ComponentParameter, Item, ResolvedRoutine};
use cp_symbols::{CellType, FunctionResult, LayoutMeaning, Symbols};
use cp_tree::{Identifier, SystemKind, Tree};
use std::alloc::{AllocError, Global};
use std::mem;

/// How an argument is passed.
#[derive(Clone, Copy, Drop)]
pub enum Passing {
    Constant(CellType),
    Reference,
    Component,
}

/// A parameter, by its first cell, or by its number among the `var` parameters.
#[derive(Clone, Copy, Drop)]
pub struct ParameterLayout {
    pub slot: usize,
    pub passing: Passing,
}

/// The heading of a routine, or of an initial statement, whose name is empty.
#[derive(Drop)]
pub struct HeadingLayout<'a> {
    pub name: &'a str,
    pub parameters: Vec<ParameterLayout>,
    pub result: Option<FunctionResult>,
}

/// Component variables of one type that follow one another.
#[derive(Clone, Copy, Drop)]
pub struct Contained {
    pub system: usize,
    pub count: usize,
}

/// What is in permanent cells that follow one another.
#[derive(Clone, Copy, Drop)]
pub enum Content {
    Variable(CellType),
    /// A parameter that is a component, in one cell.
    Component,
}

/// The permanent cells and the components of a system type, or of the program.
#[derive(Drop)]
pub struct Owned {
    /// How many cells there are.
    pub cells: usize,
    /// What is in them, from the first on.
    pub contents: Vec<Content>,
    /// The parameters that are components.
    pub parameters: Vec<ComponentParameter>,
    pub contained: Vec<Contained>,
    /// How many components there are, itself included.
    pub count: usize,
}

/// A system type.
#[derive(Drop)]
pub struct SystemCells {
    pub kind: SystemKind,
    pub owned: Owned,
    /// The number of its first routine; the last is its initial statement.
    pub first: usize,
    pub initial: usize,
}

/// What is laid out so far.
#[derive(Drop)]
pub struct Layouter<'a> {
    /// What expressions and types read.
    pub around: Surroundings<'a>,
    /// Of the routine that is laid out.
    pub frame: RoutineFrame,
    pub lists: Lists,
    /// All names that were declared, from which symbols are made where they are asked for.
    pub noted: Vec<NotedName<'a>>,
    /// Whether a system type is laid out.
    pub is_inside: bool,
}

impl Owned {
    pub fn new(alloc: Global) -> Owned
        ensures { owned_seen result ≡ spec.no_owned }
    {
        Owned {
            cells: 0,
            contents: Vec::new(alloc),
            parameters: Vec::new(alloc),
            contained: Vec::new(alloc),
            count: 1,
        }
    }

    /// A variable of this many cells, by the first of them.
    pub fn add_variable(&mut self, value_type: CellType, cells: usize) -> Result<usize, AllocError>
        ensures slot { IfOk result (λ n. n ≡ (owned_seen self.old).cells) }
        ensures cells { OnOk result (owned_seen self.new ≡ record (owned_seen self.old) { cells = plus (owned_seen self.old).cells cells; contents = (owned_seen self.old).contents ++ content.Variable value_type ∷ [] }) }
    {
        let slot = self.cells;
        self.cells = slot.saturating_add(cells);
        self.contents.push(Content::Variable(value_type))?;
        Ok(slot)
    }

    /// The cell of a parameter that is a component.
    pub fn add_component_cell(&mut self, system: usize) -> Result<usize, AllocError>
        ensures slot { IfOk result (λ n. n ≡ (owned_seen self.old).cells) }
        ensures cell { OnOk result (owned_seen self.new ≡ record (owned_seen self.old) { cells = plus (owned_seen self.old).cells 1; contents = (owned_seen self.old).contents ++ content.Component ∷ []; parameters = (owned_seen self.old).parameters ++ component_cell (owned_seen self.old).cells system ∷ [] }) }
    {
        let slot = self.cells;
        self.cells = slot.saturating_add(1);
        self.contents.push(Content::Component)?;
        self.parameters.push(ComponentParameter { slot, system })?;
        Ok(slot)
    }

    /// Components, each of which counts as this many. The number of the first is the count of those before it.
    pub fn add_components(&mut self, contained: Contained, each: usize) -> Result<usize, AllocError>
        ensures first { IfOk result (λ n. n ≡ (owned_seen self.old).count) }
        ensures components { OnOk result (owned_seen self.new ≡ record (owned_seen self.old) { count = plus (owned_seen self.old).count (times each contained.count); contained = (owned_seen self.old).contained ++ contained ∷ [] }) }
    {
        let first = self.count;
        self.count = first.saturating_add(each.saturating_mul(contained.count));
        self.contained.push(contained)?;
        Ok(first)
    }
}

impl<'a> Layouter<'a> {
    /// The predeclared names alone.
    #[tactic(auto, unfolding(crate::specs::Layers::layer_seen))]
    pub fn new(alloc: Global, tree: &'a Tree) -> Result<Layouter<'a>, AllocError>
        ensures { IfOk result (λ l. layer_seen l ≡ spec.nothing_laid tree.now.lines.items) }
    {
        Ok(Layouter {
            around: Surroundings {
                lines: &tree.lines,
                types: Types::new(alloc),
                names: Names::new(alloc)?,
                systems: Vec::new(alloc),
                headings: Vec::new(alloc),
                owned: Owned::new(alloc),
            },
            frame: RoutineFrame::new(alloc),
            lists: Lists {
                routines: Vec::new(alloc),
                items: Vec::new(alloc),
                constants: Vec::new(alloc),
                pending: Vec::new(alloc),
                arguments: 0,
            },
            noted: Vec::new(alloc),
            is_inside: false,
        })
    }

    /// The symbols of what is laid out.
    #[tactic(auto, unfolding(crate::specs::Layers::layer_seen))]
    pub fn symbols(&self, alloc: Global) -> Result<Symbols, AllocError>
        ensures { IfOk result (λ s. AreSymbolsOf s (layer_seen self.now)) }
    {
        Ok(Symbols {
            declared: symbols_of(alloc, &self.noted)?,
            routines: self.around.routine_symbols(alloc)?,
            systems: self.around.system_symbols(alloc)?,
            types: self.around.types.symbols(alloc)?,
            constants: self.lists.constant_symbols(alloc)?,
        })
    }

    /// Declares a name, and notes what it stands for.
    #[tactic(auto, unfolding(crate::specs::Layers::layer_seen))]
    pub fn declare(
        &mut self,
        node: &'a Identifier,
        meaning: LayoutMeaning,
    ) -> Result<(), AllocError>
        ensures { Leads (spec.with_name (layer_seen self.old) node.now.name meaning) (layer_seen self.new) result }
    {
        let name = node.name.as_str();
        let routine = self.lists.routines.len();
        let system = self.own_system();
        self.noted.push(NotedName {
            name,
            meaning,
            routine,
            system,
        })?;
        self.around.names.add(name, meaning)
    }

    // The system type that is laid out.
    #[tactic(auto, unfolding(crate::specs::Layers::layer_seen))]
    fn own_system(&self) -> Option<usize>
        ensures { result ≡ spec.own_system (layer_seen self.now) }
    {
        if self.is_inside {
            Some(self.around.systems.len())
        } else {
            None
        }
    }

    /// Whether it is the routine that is laid out.
    #[tactic(auto, unfolding(crate::specs::Layers::layer_seen))]
    pub fn is_own(&self, routine: usize) -> bool
        ensures { result ≡ spec.is_own (layer_seen self.now) routine }
    {
        routine == self.lists.routines.len()
    }

    /// The frame has room for those of a routine that is called, and the answer is what the call needs of a control stack.
    #[tactic(auto, unfolding(crate::specs::Layers::layer_seen))]
    pub fn reserve(&mut self, routine: usize) -> usize
        ensures need { result ≡ spec.call_need (layer_seen self.old) routine }
        ensures room { layer_seen self.new ≡ spec.with_room (layer_seen self.old) routine }
    {
        let Some(callee) = self.lists.routines.get(routine) else {
            return 2;
        };
        let body = callee.body;
        self.frame.reserve(callee);
        self.lists.need_of(body).saturating_add(2)
    }

    /// One more item of the statement, by the token at which it begins.
    #[tactic(auto, unfolding(crate::specs::Layers::layer_seen))]
    pub fn add(&mut self, at: usize, action: Action, need: usize) -> Result<(), AllocError>
        ensures { Leads (spec.add_item (layer_seen self.old) at (action_seen action) need) (layer_seen self.new) result }
    {
        let line = self.around.line(at);
        self.lists.pending.push(Pending { action, line, need })?;
        Ok(())
    }

    /// The items of the statement go into the tables, before those that begin at `next`; the answer is the first.
    pub fn settle(
        &mut self,
        alloc: Global,
        next: Option<usize>,
    ) -> Result<Option<usize>, AllocError>
        ensures { Lays (λ o. o) (spec.settle_items (layer_seen self.old) next) (layer_seen self.new) result }
    {
        let pending = self.take_pending(alloc);
        self.add_items(pending, next)
    }

    #[tactic(auto, unfolding(crate::specs::Layers::layer_seen))]
    fn take_pending(&mut self, alloc: Global) -> Vec<Pending>
        ensures taken { map pending_seen result.items ≡ (layer_seen self.old).pending }
        ensures left { layer_seen self.new ≡ spec.without_pending (layer_seen self.old) }
    {
        mem::replace(&mut self.lists.pending, Vec::new(alloc))
    }

    #[tactic(auto, using(crate::proofs::Settling::settled_last, crate::proofs::Settling::settled_none))]
    fn add_items(
        &mut self,
        pending: Vec<Pending>,
        next: Option<usize>,
    ) -> Result<Option<usize>, AllocError>
        ensures { Lays (λ o. o) (spec.add_items (layer_seen self.old) (map pending_seen pending.items) next) (layer_seen self.new) result }
    {
        let mut left = pending;
        let mut first = next;
        while let Some(item) = left.pop() {
            first = Some(self.add_item(item, first)?);
        }
        Ok(first)
    }

    #[tactic(auto, unfolding(crate::specs::Layers::layer_seen))]
    fn add_item(&mut self, pending: Pending, next: Option<usize>) -> Result<usize, AllocError>
        ensures { Lays (λ n. n) (length (layer_seen self.old).items, spec.with_item (layer_seen self.old) (pending_seen pending) next) (layer_seen self.new) result }
    {
        let need = self.lists.need_of(next).max(pending.need);
        let at = self.lists.items.len();
        self.lists.items.push(Item {
            action: pending.action,
            next,
            line: pending.line,
            routine: self.lists.routines.len(),
            need,
        })?;
        Ok(at)
    }

    /// The routine of the frame is whole.
    #[tactic(auto, unfolding(crate::specs::Layers::layer_seen))]
    pub fn add_routine(&mut self, alloc: Global, body: Option<usize>) -> Result<(), AllocError>
        ensures { Leads (spec.with_routine (layer_seen self.old) body) (layer_seen self.new) result }
    {
        let result = self.result_slot();
        let frame = mem::replace(&mut self.frame, RoutineFrame::new(alloc));
        let references = frame.extents.len();
        self.lists.routines.push(ResolvedRoutine {
            body,
            room: frame.image.len().saturating_add(frame.room),
            image: frame.image,
            references,
            result,
            reference_room: references.saturating_add(frame.reference_room),
            own: self.around.owned.cells,
            extents: frame.extents,
            system: self.around.systems.len(),
        })?;
        Ok(())
    }

    // The cell of the result of the function that is laid out.
    #[tactic(auto, unfolding(crate::specs::Layers::layer_seen))]
    fn result_slot(&self) -> usize
        ensures { result ≡ spec.own_result (layer_seen self.now) }
    {
        match self.around.result(self.lists.routines.len()) {
            Some(result) => result.slot,
            None => 0,
        }
    }
}

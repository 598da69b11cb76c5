//! What names stand for, with slots.

ghost use Rattle.std.specs.Prelude.{◌≡◌, ◌∷◌, ◌-◌, length, drop, IfOk, OnOk};
ghost use Rattle.cp_layout.specs.Layers as spec;
ghost use Rattle.cp_layout.specs.Layers.{names_seen, declared_seen};

use cp_symbols::{CellBase, CellType, LayoutMeaning, PredeclaredRoutine, values_of};
use std::alloc::{AllocError, Global};

// Whether a system type sees it where it is the program's.
fn is_open(meaning: LayoutMeaning) -> bool
    ensures { result ≡ spec.is_open meaning }
{
    match meaning {
        LayoutMeaning::Constant(..) | LayoutMeaning::Kind(_) | LayoutMeaning::Predeclared(_) =>
            true,
        _ => false,
    }
}

#[derive(Clone, Copy, Drop)]
struct DeclaredName<'a> {
    name: &'a str,
    meaning: LayoutMeaning,
}

/// The names that are visible, the latest last.
#[derive(Drop)]
pub struct Names<'a> {
    items: Vec<DeclaredName<'a>>,
}

impl<'a> Names<'a> {
    #[tactic(auto, unfolding(crate::specs::Layers::names_seen))]
    fn empty(alloc: Global) -> Names<'a>
        ensures { names_seen result ≡ spec.no_names }
    {
        Names {
            items: Vec::new(alloc),
        }
    }

    /// The predeclared names.
    pub fn new(alloc: Global) -> Result<Names<'a>, AllocError>
        ensures { IfOk result (λ n. names_seen n ≡ spec.outermost) }
    {
        let mut names = Names::empty(alloc);
        names.add_procedures()?;
        names.add_functions()?;
        names.add("true", LayoutMeaning::Constant(CellBase::Boolean, 1))?;
        names.add("false", LayoutMeaning::Constant(CellBase::Boolean, 0))?;
        names.add_types()?;
        Ok(names)
    }

    fn add_procedures(&mut self) -> Result<(), AllocError>
        ensures { OnOk result (names_seen self.new ≡ spec.with_procedures (names_seen self.old)) }
    {
        self.add(
            "display",
            LayoutMeaning::Predeclared(PredeclaredRoutine::Display),
        )?;
        self.add(
            "continue",
            LayoutMeaning::Predeclared(PredeclaredRoutine::Continue),
        )?;
        self.add(
            "delay",
            LayoutMeaning::Predeclared(PredeclaredRoutine::Delay),
        )
    }

    fn add_functions(&mut self) -> Result<(), AllocError>
        ensures { OnOk result (names_seen self.new ≡ spec.with_functions (names_seen self.old)) }
    {
        self.add(
            "empty",
            LayoutMeaning::Predeclared(PredeclaredRoutine::Empty),
        )?;
        self.add("abs", LayoutMeaning::Predeclared(PredeclaredRoutine::Abs))?;
        self.add("ord", LayoutMeaning::Predeclared(PredeclaredRoutine::Ord))?;
        self.add("chr", LayoutMeaning::Predeclared(PredeclaredRoutine::Chr))?;
        self.add("pred", LayoutMeaning::Predeclared(PredeclaredRoutine::Pred))?;
        self.add("succ", LayoutMeaning::Predeclared(PredeclaredRoutine::Succ))
    }

    fn add_types(&mut self) -> Result<(), AllocError>
        ensures { OnOk result (names_seen self.new ≡ spec.with_types (names_seen self.old)) }
    {
        self.add("queue", LayoutMeaning::Kind(CellType::Queue))?;
        self.add("char", LayoutMeaning::Kind(values_of(CellBase::Char)))?;
        self.add("boolean", LayoutMeaning::Kind(values_of(CellBase::Boolean)))?;
        self.add("integer", LayoutMeaning::Kind(values_of(CellBase::Integer)))
    }

    /// Declares a name.
    #[tactic(auto, unfolding(crate::specs::Layers::names_seen), using(crate::proofs::NamesSeen::seen_push))]
    pub fn add(&mut self, name: &'a str, meaning: LayoutMeaning) -> Result<(), AllocError>
        ensures { OnOk result (names_seen self.new ≡ (name.now, meaning) ∷ names_seen self.old) }
    {
        self.items.push(DeclaredName { name, meaning })?;
        Ok(())
    }

    /// What a name stands for: its latest declaration.
    #[tactic(auto, unfolding(crate::specs::Layers::names_seen), using(crate::proofs::NamesSeen::seen_all, crate::proofs::NamesSeen::seen_none, crate::proofs::NamesSeen::seen_last))]
    pub fn look(&self, name: &str) -> Option<LayoutMeaning>
        ensures { result ≡ spec.find name.now (names_seen self.now) }
    {
        let mut left = self.items.len();
        while 0 < left {
            left -= 1;
            let declared = self.items[left];
            if declared.name == name {
                return Some(declared.meaning);
            }
        }
        None
    }

    /// The type that a name stands for where a type is written: the latest of that name, past what is no type.
    #[tactic(auto, unfolding(crate::specs::Layers::names_seen), using(crate::proofs::NamesSeen::seen_all, crate::proofs::NamesSeen::seen_none, crate::proofs::NamesSeen::seen_last))]
    pub fn look_type(&self, name: &str) -> Option<CellType>
        ensures { result ≡ spec.find_type name.now (names_seen self.now) }
    {
        let mut left = self.items.len();
        while 0 < left {
            left -= 1;
            let declared = self.items[left];
            if let LayoutMeaning::Kind(value_type) = declared.meaning {
                if declared.name == name {
                    return Some(value_type);
                }
            }
        }
        None
    }

    /// How many names there are, as a scope begins.
    #[tactic(auto, unfolding(crate::specs::Layers::names_seen), using(crate::proofs::NamesSeen::seen_length))]
    pub fn open(&self) -> usize
        ensures { result ≡ length (names_seen self.now) }
    {
        self.items.len()
    }

    /// Closes the scope that began with this many names.
    #[tactic(auto, unfolding(crate::specs::Layers::names_seen), using(crate::proofs::NamesSeen::seen_first))]
    pub fn close(&mut self, count: usize)
        ensures { names_seen self.new ≡ drop (length (names_seen self.old) - count) (names_seen self.old) }
    {
        self.items.truncate(count);
    }

    // Declares a name again, if a system type sees it.
    fn add_open(&mut self, declared: DeclaredName<'a>) -> Result<(), AllocError>
        ensures { OnOk result (names_seen self.new ≡ spec.with_open (declared_seen declared.entry) (names_seen self.old)) }
    {
        if is_open(declared.meaning) {
            return self.add(declared.name, declared.meaning);
        }
        Ok(())
    }

    /// What a system type sees of these names: no variables and no routines.
    #[tactic(auto, unfolding(crate::specs::Layers::names_seen), using(crate::proofs::NamesSeen::open_more, crate::proofs::NamesSeen::open_all))]
    pub fn inside(&self, alloc: Global) -> Result<Names<'a>, AllocError>
        ensures { IfOk result (λ n. names_seen n ≡ spec.seen_inside (names_seen self.now)) }
    {
        let mut names = Names::empty(alloc);
        for declared in &self.items {
            names.add_open(*declared)?;
        }
        Ok(names)
    }
}

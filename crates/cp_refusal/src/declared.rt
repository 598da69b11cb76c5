//! The declarations of a program, and what a name stands for at a place of it.

use crate::extent::{Extent, between, body_end, definition_end};
use crate::rules::{mark_before, name_at};
use cp_check::names_at_fault;
use cp_scope::{ScopeTable, ValueType};
use cp_text::{Mark, Tokens};
use cp_tree::{
    Body, Constant, ConstantDefinition, Definition, Group, Identifier, Part, PartKind, Program,
    ProgramPartKind, Routine, RoutineKind, Simple, SimpleKind, System, SystemDefinition, Tree,
    Type, TypeKind, VariableGroup,
};
use std::alloc::{AllocError, Global};

/// What a name was declared as.
#[derive(Clone, Copy)]
pub enum Declared<'a> {
    Constant(&'a Constant),
    /// A constant of an enumeration, in which so many stand before it.
    Member(usize),
    Type(&'a Type),
    System(&'a System),
    Variable(&'a Type),
    /// A parameter without `var`, with the name of its type.
    Parameter(&'a Identifier),
    VarParameter(&'a Identifier),
    Routine(&'a Routine),
}

impl<'a> Declared<'a> {
    /// The name of the type of a parameter.
    pub fn type_name(self) -> Option<&'a Identifier> {
        match self {
            Declared::Parameter(name) | Declared::VarParameter(name) => Some(name),
            _ => None,
        }
    }

    pub fn as_system(self) -> Option<&'a System> {
        match self {
            Declared::System(system) => Some(system),
            _ => None,
        }
    }

    pub fn as_routine(self) -> Option<&'a Routine> {
        match self {
            Declared::Routine(routine) => Some(routine),
            _ => None,
        }
    }

    /// Whether a system type sees it where it is the program's.
    pub fn is_open(self) -> bool {
        !matches!(self, Declared::Variable(_) | Declared::Routine(_))
    }
}

/// A declaration of a name.
#[derive(Clone, Copy, Drop)]
pub struct Declaration<'a> {
    pub name: &'a str,
    pub what: Declared<'a>,
    /// The number of the token that it names.
    pub at: usize,
    /// The name of the system type that it is in; empty in the program.
    pub owner: &'a str,
    /// The name of the routine that it is in; empty outside of routines.
    pub routine: &'a str,
    /// The numbers of the token from which on it is visible, and of the one that ends its block. A system type is visible from its end on.
    seen: Extent,
}

impl<'a> Declaration<'a> {
    pub fn is_routine(&self) -> bool {
        matches!(self.what, Declared::Routine(_))
    }

    /// Whether it is a system type in which a token stands.
    fn has_inside(&self, at: usize) -> bool {
        matches!(self.what, Declared::System(_)) && self.at <= at && at < self.seen.from
    }

    /// Whether the checker knows it by this token: a routine, or a type.
    fn is_known_at(&self, at: usize) -> bool {
        match self.what {
            Declared::Routine(_) => self.at == at,
            Declared::System(system) => system.at == at,
            Declared::Type(written) => written.at == at,
            _ => false,
        }
    }

    /// Whether it is a parameter of a routine or a system type.
    fn is_parameter_of(&self, called: Declaration) -> bool {
        let (owner, routine) = match called.what {
            Declared::System(_) => (called.name, ""),
            _ => (called.owner, called.name),
        };
        matches!(
            self.what,
            Declared::Parameter(_) | Declared::VarParameter(_)
        ) && self.owner == owner
            && self.routine == routine
    }

    /// Whether it is a variable of a system type or of the program, and not of a routine there.
    pub fn is_permanent(&self) -> bool {
        matches!(self.what, Declared::Variable(_)) && self.routine.is_empty()
    }
}

/// A block in which names are declared, and the number of the token that ends it.
#[derive(Clone, Copy)]
struct Block<'a> {
    owner: &'a str,
    routine: &'a str,
    end: usize,
}

/// A body, and whether it is that of a routine.
#[derive(Clone, Copy, Drop)]
pub struct OwnedBody<'a> {
    pub body: &'a Body,
    pub is_of_routine: bool,
}

/// The declarations of a program, in the order of its text, but for fields of records.
pub struct Declarations<'a> {
    pub tokens: &'a Tokens,
    pub all: Vec<Declaration<'a>>,
    pub bodies: Vec<OwnedBody<'a>>,
    /// The names that the checker knew where it ended.
    pub scopes: ScopeTable,
    /// Whether memory was refused for one of them.
    is_refused: bool,
}

// One call where it is dropped, not one for each list: proofs of functions that may end early are much shorter.
impl<'a> Drop for Declarations<'a> {
    fn drop(self) {
        let Declarations {
            tokens: _,
            all: _,
            bodies: _,
            scopes: _,
            is_refused: _,
        } = self;
    }
}

impl<'a> Declarations<'a> {
    pub fn of(
        alloc: Global,
        tokens: &'a Tokens,
        tree: &'a Tree,
    ) -> Result<Declarations<'a>, AllocError> {
        let Ok(scopes) = names_at_fault(alloc, tree) else {
            return Err(AllocError);
        };
        let mut declarations = Declarations {
            tokens,
            all: Vec::new(alloc),
            bodies: Vec::new(alloc),
            scopes,
            is_refused: false,
        };
        declarations.add_program(&tree.program);
        if declarations.is_refused {
            return Err(AllocError);
        }
        Ok(declarations)
    }

    fn add_program(&mut self, program: &'a Program) {
        let block = Block {
            owner: "",
            routine: "",
            end: self.tokens.count(),
        };
        for part in &program.parts {
            match &part.kind {
                ProgramPartKind::Constants(all) => self.add_constants(all, block),
                ProgramPartKind::Types(all) => self.add_definitions(all, block),
                ProgramPartKind::Variables(groups) => self.add_variables(groups, block),
            }
        }
        self.add_routines(&program.routines, &program.body, block);
    }

    fn add_definitions(&mut self, all: &'a [SystemDefinition], block: Block<'a>) {
        for one in all {
            match &one.value {
                Definition::Type(written) => self.add_type(&one.name, written, block),
                Definition::System(system) => self.add_system(&one.name, system, block),
            }
        }
    }

    fn add_type(&mut self, name: &'a Identifier, written: &'a Type, block: Block<'a>) {
        self.add_members(written, block);
        let from = definition_end(self.tokens, name.at);
        self.add(name, Declared::Type(written), from, block);
    }

    fn add_system(&mut self, name: &'a Identifier, system: &'a System, block: Block<'a>) {
        let end = body_end(self.tokens, &system.body);
        let inner = Block {
            owner: name.name.as_str(),
            end,
            ..block
        };
        self.add(name, Declared::System(system), end, block);
        for group in &system.parameters {
            self.add_group(group, false, inner);
        }
        self.add_parts(&system.parts, inner);
        self.add_routines(&system.routines, &system.body, inner);
    }

    /// Adds the routines of a block, and its body.
    fn add_routines(&mut self, routines: &'a [Routine], body: &'a Body, block: Block<'a>) {
        for routine in routines {
            let inner = Block {
                routine: routine.name.name.as_str(),
                end: body_end(self.tokens, &routine.body),
                ..block
            };
            if !matches!(routine.kind, RoutineKind::Invariants) {
                let from = after_heading(routine);
                self.add(&routine.name, Declared::Routine(routine), from, block);
                self.add_heading(routine, inner);
                self.add_parts(&routine.parts, inner);
            }
            self.add_body(&routine.body, inner);
        }
        self.add_body(body, block);
    }

    fn add_heading(&mut self, routine: &'a Routine, block: Block<'a>) {
        match &routine.kind {
            RoutineKind::Procedure(groups) => {
                for one in groups {
                    self.add_group(&one.group, one.is_var, block);
                }
            }
            RoutineKind::Function(groups, _) => {
                for group in groups {
                    self.add_group(group, false, block);
                }
            }
            RoutineKind::Invariants => {}
        }
    }

    fn add_parts(&mut self, parts: &'a [Part], block: Block<'a>) {
        for part in parts {
            match &part.kind {
                PartKind::Constants(all) => self.add_constants(all, block),
                PartKind::Types(all) => {
                    for one in all {
                        self.add_type(&one.name, &one.value, block);
                    }
                }
                PartKind::Variables(groups) => self.add_variables(groups, block),
            }
        }
    }

    fn add_constants(&mut self, all: &'a [ConstantDefinition], block: Block<'a>) {
        for one in all {
            let from = definition_end(self.tokens, one.name.at);
            self.add(&one.name, Declared::Constant(&one.value), from, block);
        }
    }

    fn add_variables(&mut self, groups: &'a [VariableGroup], block: Block<'a>) {
        for group in groups {
            let written = &group.variable_type;
            self.add_members(written, block);
            let from = definition_end(self.tokens, written.at);
            for name in &group.names {
                self.add(name, Declared::Variable(written), from, block);
            }
        }
    }

    fn add_group(&mut self, group: &'a Group, is_var: bool, block: Block<'a>) {
        let written = &group.type_name;
        let what = if is_var {
            Declared::VarParameter(written)
        } else {
            Declared::Parameter(written)
        };
        for name in &group.names {
            self.add(name, what, written.at.saturating_add(1), block);
        }
    }

    /// Adds the constants of the enumerations that are written in a type.
    fn add_members(&mut self, written: &'a Type, block: Block<'a>) {
        match &written.kind {
            TypeKind::Simple(simple) | TypeKind::Set(simple) => self.add_enumeration(simple, block),
            TypeKind::Array(index, element) => {
                self.add_enumeration(index, block);
                self.add_members(element, block);
            }
            TypeKind::Record(groups, _) => {
                for group in groups {
                    self.add_members(&group.field_type, block);
                }
            }
        }
    }

    fn add_enumeration(&mut self, written: &'a Simple, block: Block<'a>) {
        if let SimpleKind::Enumeration(names) = &written.kind {
            for (number, name) in names.iter().enumerate() {
                let from = name.at.saturating_add(1);
                self.add(name, Declared::Member(number), from, block);
            }
        }
    }

    fn add(&mut self, name: &'a Identifier, what: Declared<'a>, from: usize, block: Block<'a>) {
        let added = self.all.push(Declaration {
            name: name.name.as_str(),
            what,
            at: name.at,
            owner: block.owner,
            routine: block.routine,
            seen: between(from, block.end),
        });
        self.is_refused = self.is_refused || added.is_err();
    }

    fn add_body(&mut self, body: &'a Body, block: Block<'a>) {
        let added = self.bodies.push(OwnedBody {
            body,
            is_of_routine: !block.routine.is_empty(),
        });
        self.is_refused = self.is_refused || added.is_err();
    }

    /// The innermost declaration of a name that is visible at a place; none where the language itself declares it.
    pub fn find(&self, name: &str, at: usize) -> Option<Declaration<'a>> {
        let owner = self.owner_at(at);
        self.all
            .iter()
            .rev()
            .find(|one| {
                one.name == name
                    && one.seen.from <= at
                    && at < one.seen.to
                    && (one.owner == owner || one.what.is_open())
            })
            .copied()
    }

    /// The same where the name stands itself.
    pub fn named(&self, name: &Identifier) -> Option<Declaration<'a>> {
        self.find(name.name.as_str(), name.at)
    }

    /// The name of the system type of which an entry has this name; empty where there is none, or the name is also declared otherwise.
    pub fn owner_of_entry(&self, name: &str) -> &'a str {
        let mut owner = "";
        for one in &self.all {
            if one.name == name {
                if mark_before(self.tokens, one.at) != Some(Mark::Entry) {
                    return "";
                }
                owner = one.owner;
            }
        }
        owner
    }

    /// The system type with a name.
    pub fn system_type(&self, name: &str) -> Option<&'a System> {
        self.all
            .iter()
            .filter(|one| one.name == name)
            .find_map(|one| one.what.as_system())
    }

    /// The array, the record or the component that a variable or a parameter is, as the checker knows it. Each name on the way to it is declared before.
    pub fn structure_of(&self, one: &Declaration<'a>) -> Option<ValueType> {
        let mut what = one.what;
        for _ in &self.all {
            let (name, at) = match what {
                Declared::Variable(written) | Declared::Type(written) => match &written.kind {
                    TypeKind::Array(..) => return Some(ValueType::Array(written.at)),
                    TypeKind::Record(..) => return Some(ValueType::Record(written.at)),
                    TypeKind::Simple(
                        Simple {
                            kind: SimpleKind::Name(name),
                            ..
                        },
                    ) => (name.as_str(), written.at),
                    _ => return None,
                },
                Declared::Parameter(name) | Declared::VarParameter(name) => {
                    (name.name.as_str(), name.at)
                }
                Declared::System(system) => {
                    return Some(ValueType::Component(system.kind, system.at));
                }
                _ => return None,
            };
            what = self.find(name, at)?.what;
        }
        None
    }

    /// The system type of a variable or of its elements, or of a parameter.
    pub fn component_type(&self, one: &Declaration<'a>) -> Option<Declaration<'a>> {
        let found = match self.structure_of(one)? {
            ValueType::Array(at) => self.scopes.shapes().array(at)?.element,
            other => other,
        };
        match found {
            ValueType::Component(_, at) => self.known_at(at),
            _ => None,
        }
    }

    /// The same as it is written.
    pub fn component_of(&self, one: &Declaration<'a>) -> Option<&'a System> {
        self.component_type(one)?.what.as_system()
    }

    /// Where the entry with a name of the system type is written that the checker knows by a token.
    pub fn entry(&self, system: usize, name: &str) -> Option<usize> {
        let owner = self.known_at(system)?.name;
        let entry = self.all.iter().find(|one| {
            one.owner == owner && one.name == name && self.scopes.shapes().is_entry(one.at)
        })?;
        Some(entry.at)
    }

    /// The routine or the type that the checker knows by this token.
    pub fn known_at(&self, at: usize) -> Option<Declaration<'a>> {
        self.all.iter().find(|one| one.is_known_at(at)).copied()
    }

    /// The parameter before which so many stand, of the routine or the system type that the checker knows by a token.
    pub fn parameter(&self, heading: usize, number: usize) -> Option<Declaration<'a>> {
        let called = self.known_at(heading)?;
        self.all
            .iter()
            .filter(|one| one.is_parameter_of(called))
            .nth(number)
            .copied()
    }

    /// The name of the system type that a token is in; empty in the program.
    pub fn owner_at(&self, at: usize) -> &'a str {
        match self.all.iter().find(|one| one.has_inside(at)) {
            Some(one) => one.name,
            None => "",
        }
    }

    /// Whether the name at a token is that of the language's own routine.
    pub fn is_standard(&self, at: usize, routine: &str) -> bool {
        name_at(self.tokens, at) == routine && self.find(routine, at).is_none()
    }
}

/// The number of a token in the heading of a routine behind which no name stands in it.
fn after_heading(routine: &Routine) -> usize {
    let last = match &routine.kind {
        RoutineKind::Function(_, result) => result.at,
        RoutineKind::Procedure(groups) => match groups.last() {
            Some(one) => one.group.type_name.at,
            None => routine.name.at,
        },
        RoutineKind::Invariants => routine.at,
    };
    last.saturating_add(1)
}

//! Where a name is declared that is not visible at a place, or declared there again.

use crate::declared::{Declaration, Declarations, Declared};
use crate::extent::{Extent, Part, between, body_end, part_extent};
use crate::foreign::is_self;
use crate::rules::{is_mark_of, mark_at, mark_before, name_at};
use cp_scope::{Meaning, ValueType};
use cp_text::{Kind, Mark};
use cp_tree::{Routine, RoutineKind, SystemKind};

/// What stands behind a name where it is declared.
const DECLARING: [Mark; 3] = [Mark::Colon, Mark::Comma, Mark::Equal];

impl<'a> Declaration<'a> {
    /// Whether it is in a block around a place, of which the system type and the routine have these names.
    fn is_around(&self, owner: &str, routine: &str) -> bool {
        let is_of_program = self.owner.is_empty() && self.routine.is_empty();
        is_of_program && self.what.is_open()
            || self.owner == owner && (self.routine.is_empty() || self.routine == routine)
    }
}

impl<'a> Declarations<'a> {
    /// The routine in which a token is.
    pub fn routine_around(&self, at: usize) -> Option<&'a Routine> {
        self.all.iter().filter_map(|one| one.what.as_routine()).find(|routine| {
            routine.name.at <= at && at <= body_end(self.tokens, &routine.body)
        })
    }

    /// Whether the token is the name of the routine in which it is.
    pub fn is_routine_itself(&self, at: usize) -> bool {
        match self.routine_around(at) {
            Some(routine) => routine.name.name.as_str() == name_at(self.tokens, at),
            None => false,
        }
    }

    /// The same of a function.
    pub fn is_function_itself(&self, at: usize) -> bool {
        match self.routine_around(at) {
            Some(routine) => matches!(routine.kind, RoutineKind::Function(..))
                && self.is_routine_itself(at),
            None => false,
        }
    }

    /// Whether a routine is called within its own type, or the program.
    pub fn is_called_within(&self, routine: &Routine) -> bool {
        let behind = routine.name.at.saturating_add(1);
        self.is_called(routine, between(behind, self.tokens.count()))
    }

    /// Whether a routine is called among some tokens.
    fn is_called(&self, routine: &Routine, places: Extent) -> bool {
        let name = routine.name.name.as_str();
        (places.from..places.to).any(|place| {
            name_at(self.tokens, place) == name
                && mark_before(self.tokens, place) != Some(Mark::Period)
                && !is_mark_of(self.tokens, place.saturating_add(1), &DECLARING)
                && matches!(self.find(name, place), Some(one) if one.at == routine.name.at)
        })
    }

    /// Whether a token is in a system type of a kind.
    pub fn is_in(&self, kind: SystemKind, at: usize) -> bool {
        match self.system_type(self.owner_at(at)) {
            Some(system) => system.kind == kind,
            None => false,
        }
    }

    /// Whether the name that begins at a token, with its selectors, is assigned.
    pub fn is_changed(&self, at: usize) -> bool {
        let behind = part_extent(self.tokens, at, Part::Name).to;
        mark_at(self.tokens, behind) == Some(Mark::Becomes)
    }

    /// Where the name is declared that stands behind a token and a period in a system type, if the token is what other languages name a component by in itself; and
    /// what is said of it, in which `@` stands for its line.
    pub fn behind_self(&self, at: usize) -> Option<(usize, &'static str)> {
        let is_named = mark_at(self.tokens, at.saturating_add(1)) == Some(Mark::Period);
        if !is_named || !is_self(name_at(self.tokens, at)) {
            return None;
        }
        let one = self.find(name_at(self.tokens, at.saturating_add(2)), at)?;
        let is_hiding = !one.routine.is_empty()
            && self.all.iter().any(|other| {
                other.name == one.name && other.owner == one.owner && other.routine.is_empty()
            });
        let said = match one.what {
            _ if is_hiding =>
                ": ^ is here what line @ declares, which hides what the system type declares: give one of them another name",
            Declared::Routine(routine) if routine.is_entry =>
                ": ^ of line @ is an entry, and can't be called within its own type: put what both need into a routine without entry",
            Declared::Parameter(_) if one.routine.is_empty() =>
                ": ^ of line @ names a parameter, which keeps its value and has no word before it",
            _ => ": ^ of line @ is named alone",
        };
        Some((one.at, said))
    }

    /// Why a declaration is not visible at a place, of which the system type and the routine have these names; a `@` stands for its line.
    fn why_unseen(&self, one: &Declaration, at: usize, owner: &str, routine: &str) -> &'static str {
        let is_of_program = one.owner.is_empty() && one.routine.is_empty();
        let is_own = matches!(one.what, Declared::System(_)) && one.name == owner;
        if one.at > at && one.is_around(owner, routine) && self.is_calling(one, at) {
            ": it is declared only further down, in line @, and calls the routine in which this stands: no two routines call each other"
        } else if one.at > at && one.is_around(owner, routine) {
            ": it is declared only further down, in line @"
        } else if is_own && self.is_entry_behind(at, owner) {
            ": this stands in that type itself, and its entries can't be called within it: put what both need into a routine without entry"
        } else if is_own && self.is_qualifying(at) {
            ": this stands in that type itself, and there its variables and routines are named without it"
        } else if one.is_around(owner, routine) {
            ": it is visible only from the end of its declaration on"
        } else if is_of_program && one.is_routine() {
            ": line @ declares it as a routine of the program, and a system type sees none"
        } else if is_of_program && self.is_changed(at) {
            ": line @ declares it as a variable of the program, and a system type sees none: what it changes is declared in it, or in a monitor that it is given"
        } else if is_of_program {
            ": line @ declares it as a variable of the program, and a system type sees none: what it needs is given to it as a parameter"
        } else {
            ": line @ declares it in another block, which alone sees it"
        }
    }

    /// Where a name is declared that is not visible at a token, and why it is not: in a block around that, or else in another one.
    pub fn elsewhere(&self, name: &str, at: usize) -> Option<(usize, &'static str)> {
        let owner = self.owner_at(at);
        let routine = match self.routine_around(at) {
            Some(routine) => routine.name.name.as_str(),
            None => "",
        };
        let mut found = None;
        for one in &self.all {
            if one.name == name && (found.is_none() || one.is_around(owner, routine)) {
                found = Some((one.at, self.why_unseen(one, at, owner, routine)));
            }
        }
        found
    }

    /// Whether a routine calls the one in which a token is.
    fn is_calling(&self, one: &Declaration, at: usize) -> bool {
        match (self.routine_around(at), one.what.as_routine()) {
            (Some(around), Some(routine)) => {
                let end = body_end(self.tokens, &routine.body);
                self.is_called(around, between(one.at, end))
            }
            _ => false,
        }
    }

    /// Whether an entry of a system type is named behind a token and a period.
    fn is_entry_behind(&self, at: usize, owner: &str) -> bool {
        let name = name_at(self.tokens, at.saturating_add(2));
        self.is_qualifying(at)
            && self.all.iter().any(|one| {
                one.owner == owner
                    && one.name == name
                    && mark_before(self.tokens, one.at) == Some(Mark::Entry)
            })
    }

    /// Whether a period stands behind a token.
    fn is_qualifying(&self, at: usize) -> bool {
        mark_at(self.tokens, at.saturating_add(1)) == Some(Mark::Period)
    }

    /// Whether what is declared at one token can stand at another.
    pub fn fits(&self, declared: usize, at: usize) -> bool {
        let Some(one) = self.declaration_at(declared) else {
            return true;
        };
        let next = mark_at(self.tokens, at.saturating_add(1));
        let before = mark_before(self.tokens, at);
        let is_type = matches!(one.what, Declared::Type(_) | Declared::System(_));
        let is_constant = matches!(one.what, Declared::Constant(_) | Declared::Member(_));
        if next == Some(Mark::DoublePeriod) || before == Some(Mark::DoublePeriod) {
            is_constant
        } else if self.is_in_body(at) {
            let is_called = next == Some(Mark::OpenParenthesis) && !self.is_in_init(at);
            !is_type && (!is_called || one.is_routine())
        } else {
            is_type || !matches!(before, Some(Mark::Colon | Mark::Of))
        }
    }

    /// Whether a token stands in an `init`.
    fn is_in_init(&self, at: usize) -> bool {
        let marks = [
            Mark::Init,
            Mark::Semicolon,
            Mark::Becomes,
            Mark::Begin,
            Mark::End,
        ];
        match (0..at)
            .rev()
            .find(|place| is_mark_of(self.tokens, *place, &marks))
        {
            Some(place) => mark_at(self.tokens, place) == Some(Mark::Init),
            None => false,
        }
    }

    /// Whether a token stands in the body of a routine, a system type or the program.
    pub fn is_in_body(&self, at: usize) -> bool {
        self.bodies.iter().any(|one| { one.body.at <= at && at < body_end(self.tokens, one.body) })
    }

    /// The declaration of the name at a token, unless that is a field.
    pub fn declaration_at(&self, at: usize) -> Option<Declaration<'a>> {
        self.all.iter().find(|one| one.at == at).copied()
    }

    /// The token of the first declaration in the block of this one, and with its name.
    pub fn first_of_name(&self, other: Declaration) -> Option<usize> {
        let first = self.all.iter().find(|one| {
            one.name == other.name
                && one.at < other.at
                && one.owner == other.owner
                && one.routine == other.routine
        })?;
        Some(first.at)
    }

    /// What the name at a token stands for where the check ends.
    pub fn meaning_at(&self, at: usize) -> Option<Meaning> {
        match self.tokens.get(at) {
            Some(Kind::Name(name)) => self.scopes.look(name),
            _ => None,
        }
    }

    /// The type that the name at a token stands for.
    pub fn type_named_at(&self, at: usize) -> Option<ValueType> {
        match self.meaning_at(at) {
            Some(Meaning::Kind(found)) => Some(found),
            _ => None,
        }
    }
}

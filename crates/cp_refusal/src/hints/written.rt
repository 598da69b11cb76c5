//! What is written in a body of a program, in reading order.

use crate::declared::OwnedBody;
use cp_tree::{
    Designator, Expression, Factor, FactorKind, Identifier, Selector, Statement, StatementKind,
    Sum, Term,
};
use std::alloc::{AllocError, Global};

/// What is around a statement in its body.
#[derive(Clone, Copy, Drop)]
pub struct Around {
    /// Where the outermost loop around it begins, if there is one.
    pub outermost_loop: Option<usize>,
    /// Whether it is a part of another statement.
    pub is_nested: bool,
    /// Whether it stands in a branch of an `if`.
    pub is_branch: bool,
    /// Whether a `while` or a `repeat` is around it.
    pub is_tested_again: bool,
}

const NOTHING_AROUND: Around = Around {
    outermost_loop: None,
    is_nested: false,
    is_branch: false,
    is_tested_again: false,
};

impl Around {
    /// What is around the parts of a statement.
    fn within(self, statement: &Statement) -> Around {
        let (is_loop, is_tested) = match &statement.kind {
            StatementKind::While(..) | StatementKind::Repeat(..) => (true, true),
            StatementKind::For(..) | StatementKind::Cycle(_) => (true, false),
            _ => (false, false),
        };
        Around {
            outermost_loop: match self.outermost_loop {
                None if is_loop => Some(statement.at),
                outermost => outermost,
            },
            is_nested: true,
            is_branch: self.is_branch || matches!(statement.kind, StatementKind::If(..)),
            is_tested_again: self.is_tested_again || is_tested,
        }
    }
}

/// A statement, and what is around it.
#[derive(Clone, Copy, Drop)]
pub struct PlacedStatement<'a> {
    pub statement: &'a Statement,
    pub around: Around,
}

/// What is done with what a name stands for.
#[derive(Clone, Copy, PartialEq, Eq)]
pub enum Use {
    Read,
    Set,
    /// It is an argument, whose parameter may be `var`.
    Passed,
}

/// A name with its selectors where it stands in a body.
#[derive(Clone, Copy, Drop)]
pub struct WrittenName<'a> {
    pub name: &'a Identifier,
    pub selectors: &'a [Selector],
    pub used: Use,
}

/// The statements and names of a body, with all that is inside of others. A name that is set stands behind the value that it is given.
pub struct Written<'a> {
    pub owned: OwnedBody<'a>,
    pub statements: Vec<PlacedStatement<'a>>,
    /// Statements that are done one after another.
    pub sequences: Vec<&'a [Statement]>,
    pub names: Vec<WrittenName<'a>>,
    /// Whether memory was refused for one of them.
    is_refused: bool,
}

// One call where it is dropped, not one for each list: proofs of functions that may end early are much shorter.
impl<'a> Drop for Written<'a> {
    fn drop(self) {
        let Written {
            owned: _,
            statements: _,
            sequences: _,
            names: _,
            is_refused: _,
        } = self;
    }
}

impl<'a> Written<'a> {
    /// What is written in a body.
    pub fn in_body(alloc: Global, owned: OwnedBody<'a>) -> Result<Written<'a>, AllocError> {
        let mut written = Written {
            owned,
            statements: Vec::new(alloc),
            sequences: Vec::new(alloc),
            names: Vec::new(alloc),
            is_refused: false,
        };
        written.add_sequence(&owned.body.statements, NOTHING_AROUND);
        if written.is_refused {
            return Err(AllocError);
        }
        Ok(written)
    }

    #[cycle(statements)]
    fn add_sequence(&mut self, nodes: &'a [Statement], around: Around) {
        let added = self.sequences.push(nodes);
        self.is_refused = self.is_refused || added.is_err();
        for node in nodes {
            self.add_statement(node, around);
        }
    }

    #[cycle(statements)]
    fn add_statement(&mut self, node: &'a Statement, around: Around) {
        self.add_placed(node, around);
        let within = around.within(node);
        match &node.kind {
            StatementKind::Empty => {}
            StatementKind::Assign(target, value) => {
                self.add_expression(value);
                self.add_designator(target, Use::Set);
            }
            StatementKind::Call(called, nodes) => self.add_call(called, nodes),
            StatementKind::Init(starts) => {
                for one in starts {
                    self.add_call(&one.target, &one.arguments);
                }
            }
            StatementKind::Block(inner) | StatementKind::Cycle(inner) => {
                self.add_sequence(inner, within);
            }
            StatementKind::If(test, then, otherwise) => {
                self.add_expression(test);
                self.add_statement(then, within);
                if let Some(inner) = otherwise {
                    self.add_statement(inner, within);
                }
            }
            StatementKind::Case(selector, arms, _) => {
                self.add_expression(selector);
                for one in arms {
                    self.add_statement(&one.body, within);
                }
            }
            StatementKind::While(test, body) => {
                self.add_expression(test);
                self.add_statement(body, within);
            }
            StatementKind::Repeat(inner, test) => {
                self.add_sequence(inner, within);
                self.add_expression(test);
            }
            StatementKind::For(variable, from, _, to, body) => {
                self.add_expression(from);
                self.add_expression(to);
                self.add_name(variable, &[], Use::Set);
                self.add_name(variable, &[], Use::Read);
                self.add_statement(body, within);
            }
            StatementKind::Asserted(_, tests, inner) => {
                self.add_expressions(tests);
                self.add_statement(inner, within);
            }
        }
    }

    fn add_placed(&mut self, statement: &'a Statement, around: Around) {
        let added = self.statements.push(PlacedStatement { statement, around });
        self.is_refused = self.is_refused || added.is_err();
    }

    fn add_call(&mut self, name: &'a Designator, nodes: &'a [Expression]) {
        self.add_designator(name, Use::Read);
        for one in nodes {
            match name_alone(one) {
                Some(passed) => self.add_designator(passed, Use::Passed),
                None => self.add_expression(one),
            }
        }
    }

    fn add_name(&mut self, name: &'a Identifier, selectors: &'a [Selector], used: Use) {
        let added = self.names.push(WrittenName {
            name,
            selectors,
            used,
        });
        self.is_refused = self.is_refused || added.is_err();
    }

    #[cycle(names)]
    fn add_designator(&mut self, node: &'a Designator, used: Use) {
        for one in &node.selectors {
            if let Selector::Index(index) = one {
                self.add_expression(index);
            }
        }
        self.add_name(&node.name, &node.selectors, used);
    }

    #[cycle(names)]
    fn add_expressions(&mut self, nodes: &'a [Expression]) {
        for one in nodes {
            self.add_expression(one);
        }
    }

    #[cycle(names)]
    fn add_expression(&mut self, node: &'a Expression) {
        self.add_sum(&node.left);
        if let Some((_, right)) = &node.right {
            self.add_sum(right);
        }
    }

    #[cycle(names)]
    fn add_sum(&mut self, node: &'a Sum) {
        self.add_term(&node.first);
        for (_, term) in &node.more {
            self.add_term(term);
        }
    }

    #[cycle(names)]
    fn add_term(&mut self, node: &'a Term) {
        self.add_factor(&node.first);
        for (_, factor) in &node.more {
            self.add_factor(factor);
        }
    }

    #[cycle(names)]
    fn add_factor(&mut self, node: &'a Factor) {
        match &node.kind {
            FactorKind::Named(named, arguments) => {
                self.add_designator(named, Use::Read);
                self.add_expressions(arguments);
            }
            FactorKind::Group(inner) => self.add_expression(inner),
            FactorKind::Not(inner) => self.add_factor(inner),
            FactorKind::Set(elements) => self.add_expressions(elements),
            FactorKind::Number(_) | FactorKind::Character(_) => {}
        }
    }
}

/// The name with its selectors that an expression is, where it is nothing else, be it in parentheses or not.
pub fn name_alone(node: &Expression) -> Option<&Designator> {
    let first = &node.left.first;
    if node.right.is_some()
        || node.left.sign.is_some()
        || !node.left.more.is_empty()
        || !first.more.is_empty()
    {
        return None;
    }
    match &first.first.kind {
        FactorKind::Named(named, arguments) if arguments.is_empty() => Some(named),
        FactorKind::Group(inner) => name_alone(inner),
        _ => None,
    }
}

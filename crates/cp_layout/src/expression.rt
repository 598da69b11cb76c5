//! Expressions and designators. Their function calls become items before the statement that holds them.

ghost use Rattle.std.specs.Prelude.{◌≡◌, [], ◌++◌, map, IfOk, OnOk};
ghost use Rattle.cp_tree.specs.View.{expression_view, expressions_view, expressions_of, sum_view, term_view, terms_view, terms_of, factor_view, factors_view, factors_of, designator_view, selector_view, selectors_view, selectors_of};
ghost use Rattle.cp_slots.specs.Code.{expression_seen, set_seen, component_seen, argument_seen};
ghost use Rattle.cp_slots.specs.Code as code;
ghost use Rattle.cp_layout.specs.Values.{value_seen, designated_seen};
ghost use Rattle.cp_layout.specs.Layers.{layer_seen, around_seen, Lays, parameter_of};
ghost use Rattle.cp_layout.specs.LaidExpressions as spec;

use crate::layer::{Layouter, Passing};
use crate::surroundings::Surroundings;
use crate::value::{
    Designated, Value, comparison_of, in_two_boxes, load, negation_of, no_value, number, opposite,
    ordinal, place_at, place_of, product_of, set_expression, standard_value, sum_of,
};
use cp_slots::{
    Action, Argument, ArgumentValue, ComponentPlace, OrdinalExpression, PlaceOrigin, SetExpression,
};
use cp_symbols::{CellBase, CellType, FunctionResult};
use cp_tree::{
    Addition, Designator, Expression as Written, Factor, FactorKind, Multiplication, Selector,
    Sign, Sum, Term,
};
use std::alloc::{AllocError, Global};

impl<'a> Layouter<'a> {
    /// A name with its selectors.
    #[cycle(expression)]
    #[tactic(auto, unfolding(crate::specs::LaidExpressions::designator, crate::specs::Layers::layer_seen))]
    pub fn designator(&mut self, alloc: Global, node: &Designator) -> Result<Designated, AllocError>
        ensures { Lays designated_seen (spec.designator (layer_seen self.old) (designator_view node.now)) (layer_seen self.new) result }
    {
        let start = self.around.names.meaning_of(alloc, &node.name);
        self.selectors(alloc, start, &node.selectors)
    }

    #[cycle(expression)]
    #[tactic(auto, using(crate::proofs::Laid::selectors_step, crate::proofs::Laid::selectors_none))]
    fn selectors(
        &mut self,
        alloc: Global,
        start: Designated,
        nodes: &[Selector],
    ) -> Result<Designated, AllocError>
        ensures { Lays designated_seen (spec.selectors (layer_seen self.old) (designated_seen start) (selectors_of (selectors_view nodes.now))) (layer_seen self.new) result }
    {
        let mut whole = start;
        for node in nodes {
            whole = self.part_of(alloc, whole, node)?;
        }
        Ok(whole)
    }

    #[cycle(expression)]
    fn part_of(
        &mut self,
        alloc: Global,
        whole: Designated,
        node: &Selector,
    ) -> Result<Designated, AllocError>
        ensures { Lays designated_seen (spec.selector (layer_seen self.old) (designated_seen whole) (selector_view node.now)) (layer_seen self.new) result }
    {
        match node {
            Selector::Field(name) => Ok(self.around.field(whole, name)),
            Selector::Index(index) => {
                let index = ordinal(self.expression(alloc, index)?);
                self.around.element(alloc, whole, index)
            }
        }
    }

    #[cycle(expression)]
    #[tactic(auto, unfolding(crate::specs::LaidExpressions::factor, crate::specs::LaidExpressions::value_of_name))]
    fn factor(&mut self, alloc: Global, node: &Factor) -> Result<Value, AllocError>
        ensures { Lays value_seen (spec.factor (layer_seen self.old) (factor_view node.now)) (layer_seen self.new) result }
    {
        match &node.kind {
            FactorKind::Number(value) => Ok(number(integer(*value), CellBase::Integer)),
            FactorKind::Character(code) => Ok(number(i16::from(*code), CellBase::Char)),
            FactorKind::Named(name, arguments) => {
                let whole = self.designator(alloc, name)?;
                self.value_of_name(alloc, node.at, whole, arguments)
            }
            FactorKind::Group(inner) => self.expression(alloc, inner),
            FactorKind::Not(inner) => {
                let value = self.factor(alloc, inner)?;
                negation_of(alloc, value)
            }
            FactorKind::Set(nodes) => Ok(Value::Set(self.elements(alloc, nodes)?)),
        }
    }

    // The elements of a set.
    #[cycle(expression)]
    #[tactic(auto, using(crate::proofs::Laid::elements_step, crate::proofs::Laid::elements_none))]
    fn elements(&mut self, alloc: Global, nodes: &[Written]) -> Result<SetExpression, AllocError>
        ensures { Lays set_seen (spec.elements (layer_seen self.old) code.empty_set (expressions_of (expressions_view nodes.now))) (layer_seen self.new) result }
    {
        let mut whole = SetExpression::Empty;
        for node in nodes {
            let element = ordinal(self.expression(alloc, node)?);
            whole = with_element(alloc, whole, element)?;
        }
        Ok(whole)
    }

    // A variable, a constant, or a call of a function.
    #[cycle(expression)]
    #[tactic(auto, unfolding(crate::specs::LaidExpressions::value_of_name, crate::specs::LaidExpressions::function))]
    fn value_of_name(
        &mut self,
        alloc: Global,
        at: usize,
        whole: Designated,
        nodes: &[Written],
    ) -> Result<Value, AllocError>
        ensures { Lays value_seen (spec.value_of_name (layer_seen self.old) at (designated_seen whole) (expressions_of (expressions_view nodes.now))) (layer_seen self.new) result }
    {
        match whole {
            Designated::Value(value) => Ok(value),
            Designated::Variable(place, value_type) => Ok(load(place, value_type)),
            Designated::Component(place, _) => Ok(Value::Component(place)),
            Designated::Predeclared(function) => {
                let value = self.first_value(alloc, nodes)?;
                standard_value(alloc, function, value)
            }
            Designated::Routine(routine) => {
                self.function(alloc, at, ComponentPlace::Own, false, routine, nodes)
            }
            Designated::Entry(place, routine) => {
                self.function(alloc, at, place, true, routine, nodes)
            }
            Designated::Contained(..) | Designated::Nothing => Ok(no_value()),
        }
    }

    // A call of a function, whose result is in a cell of its own.
    #[cycle(expression)]
    #[tactic(auto, unfolding(crate::specs::LaidExpressions::function, crate::specs::LaidExpressions::arguments, crate::specs::Layers::layer_seen))]
    fn function(
        &mut self,
        alloc: Global,
        at: usize,
        component: ComponentPlace,
        is_entry: bool,
        routine: usize,
        nodes: &[Written],
    ) -> Result<Value, AllocError>
        ensures { Lays value_seen (spec.function (layer_seen self.old) at (component_seen component) is_entry routine (expressions_of (expressions_view nodes.now))) (layer_seen self.new) result }
    {
        let Some(outcome) = self.around.result(routine) else {
            return Ok(no_value());
        };
        let arguments = self.arguments(alloc, routine, nodes)?;
        self.call_value(alloc, at, component, is_entry, routine, outcome, arguments)
    }

    #[tactic(auto, unfolding(crate::specs::Layers::layer_seen))]
    fn call_value(
        &mut self,
        alloc: Global,
        at: usize,
        component: ComponentPlace,
        is_entry: bool,
        routine: usize,
        outcome: FunctionResult,
        arguments: Vec<Argument>,
    ) -> Result<Value, AllocError>
        ensures { Lays value_seen (spec.call_value (layer_seen self.old) at (component_seen component) is_entry routine outcome (map argument_seen arguments.items)) (layer_seen self.new) result }
    {
        let slot = self.frame.add_cell()?;
        let need = self.reserve(routine);
        let action = Action::Call {
            routine,
            component,
            is_entry,
            arguments,
            result: Some(slot),
        };
        self.add(at, action, need)?;
        Ok(load(
            place_at(alloc, PlaceOrigin::Local(slot)),
            outcome.value_type,
        ))
    }

    /// The argument of a predeclared routine.
    #[cycle(expression)]
    #[tactic(auto, unfolding(crate::specs::LaidExpressions::first_value))]
    pub fn first_value(&mut self, alloc: Global, nodes: &[Written]) -> Result<Value, AllocError>
        ensures { Lays value_seen (spec.first_value (layer_seen self.old) (expressions_of (expressions_view nodes.now))) (layer_seen self.new) result }
    {
        match nodes {
            [] => Ok(no_value()),
            [first, ..] => self.expression(alloc, first),
        }
    }

    /// The arguments of a routine, or of the system type with this initial statement.
    #[cycle(expression)]
    #[tactic(auto, unfolding(crate::specs::LaidExpressions::arguments, crate::specs::Layers::layer_seen))]
    pub fn arguments(
        &mut self,
        alloc: Global,
        routine: usize,
        nodes: &[Written],
    ) -> Result<Vec<Argument>, AllocError>
        ensures { Lays (λ v. map argument_seen v.items) (spec.arguments (layer_seen self.old) routine (expressions_of (expressions_view nodes.now))) (layer_seen self.new) result }
    {
        let arguments = self.all_arguments(alloc, routine, nodes)?;
        self.lists.count_arguments(arguments.len());
        Ok(arguments)
    }

    #[cycle(expression)]
    #[tactic(auto, using(crate::proofs::Laid::arguments_step, crate::proofs::Laid::arguments_none))]
    fn all_arguments(
        &mut self,
        alloc: Global,
        routine: usize,
        nodes: &[Written],
    ) -> Result<Vec<Argument>, AllocError>
        ensures { Lays (λ v. map argument_seen v.items) (spec.arguments_from (layer_seen self.old) routine 0 (expressions_of (expressions_view nodes.now))) (layer_seen self.new) result }
    {
        let mut arguments = Vec::new(alloc);
        for place in 0..nodes.len() {
            let value = self.expression(alloc, &nodes[place])?;
            self.add_argument(alloc, routine, place, value, &mut arguments)?;
        }
        Ok(arguments)
    }

    // A value where the routine has a parameter at this place.
    #[tactic(auto, unfolding(crate::specs::Layers::layer_seen), using(crate::proofs::Around::passed_around))]
    fn add_argument(
        &self,
        alloc: Global,
        routine: usize,
        place: usize,
        value: Value,
        arguments: &mut Vec<Argument>,
    ) -> Result<(), AllocError>
        ensures { OnOk result (map argument_seen arguments.new.items ≡ map argument_seen arguments.old.items ++ spec.with_argument (layer_seen self.now) (parameter_of (layer_seen self.now) routine place) (value_seen value) []) }
    {
        if let Some(parameter) = self.around.parameter(routine, place) {
            arguments.push(Argument {
                slot: parameter.slot,
                value: self.around.argument_for(alloc, parameter.passing, value),
            })?;
        }
        Ok(())
    }

    #[cycle(expression)]
    #[tactic(auto, using(crate::proofs::Laid::term_laid))]
    fn term(&mut self, alloc: Global, node: &Term) -> Result<Value, AllocError>
        ensures { Lays value_seen (spec.term (layer_seen self.old) (term_view node.now)) (layer_seen self.new) result }
    {
        let first = self.factor(alloc, &node.first)?;
        self.more_factors(alloc, first, &node.more)
    }

    #[cycle(expression)]
    #[tactic(auto, using(crate::proofs::Laid::factors_step, crate::proofs::Laid::factors_none))]
    fn more_factors(
        &mut self,
        alloc: Global,
        first: Value,
        nodes: &[(Multiplication, Factor)],
    ) -> Result<Value, AllocError>
        ensures { Lays value_seen (spec.more_factors (layer_seen self.old) (value_seen first) (factors_of (factors_view nodes.now))) (layer_seen self.new) result }
    {
        let mut total = first;
        for (operation, node) in nodes {
            let next = self.factor(alloc, node)?;
            total = product_of(alloc, *operation, total, next)?;
        }
        Ok(total)
    }

    #[cycle(expression)]
    #[tactic(auto, using(crate::proofs::Laid::sum_laid))]
    fn sum(&mut self, alloc: Global, node: &Sum) -> Result<Value, AllocError>
        ensures { Lays value_seen (spec.sum (layer_seen self.old) (sum_view node.now)) (layer_seen self.new) result }
    {
        let first = self.term(alloc, &node.first)?;
        let first = with_sign(alloc, node.sign, first)?;
        self.more_terms(alloc, first, &node.more)
    }

    #[cycle(expression)]
    #[tactic(auto, using(crate::proofs::Laid::terms_step, crate::proofs::Laid::terms_none))]
    fn more_terms(
        &mut self,
        alloc: Global,
        first: Value,
        nodes: &[(Addition, Term)],
    ) -> Result<Value, AllocError>
        ensures { Lays value_seen (spec.more_terms (layer_seen self.old) (value_seen first) (terms_of (terms_view nodes.now))) (layer_seen self.new) result }
    {
        let mut total = first;
        for (operation, node) in nodes {
            let next = self.term(alloc, node)?;
            total = sum_of(alloc, *operation, total, next)?;
        }
        Ok(total)
    }

    /// An expression.
    #[cycle(expression)]
    #[tactic(auto, unfolding(crate::specs::LaidExpressions::expression))]
    pub fn expression(&mut self, alloc: Global, node: &Written) -> Result<Value, AllocError>
        ensures { Lays value_seen (spec.expression (layer_seen self.old) (expression_view node.now)) (layer_seen self.new) result }
    {
        let left = self.sum(alloc, &node.left)?;
        match &node.right {
            None => Ok(left),
            Some((relation, right)) => {
                let right = self.sum(alloc, right)?;
                comparison_of(alloc, *relation, left, right)
            }
        }
    }
}

impl<'a> Surroundings<'a> {
    // A value as the argument of a parameter.
    fn argument_for(&self, alloc: Global, passing: Passing, value: Value) -> ArgumentValue
        ensures { code.value_seen result ≡ spec.argument_for (around_seen self.now) passing (value_seen value) }
    {
        match passing {
            Passing::Reference => ArgumentValue::Reference(place_of(alloc, value)),
            Passing::Component => match value {
                Value::Component(place) => ArgumentValue::Component(place),
                _ => ArgumentValue::Component(ComponentPlace::Own),
            },
            Passing::Constant(CellType::Ordinal(range)) => ArgumentValue::Scalar {
                value: ordinal(value),
                low: range.low,
                high: range.high,
            },
            Passing::Constant(CellType::Set(base)) => ArgumentValue::Set {
                value: set_expression(value),
                low: byte_or(0, base.low),
                high: byte_or(u8::MAX, base.high),
            },
            Passing::Constant(value_type) => ArgumentValue::Copy {
                source: place_of(alloc, value),
                size: self.types.cells_of(value_type),
            },
        }
    }
}

/// A number as it is written; there is none above the greatest integer.
pub fn integer(value: u16) -> i16
    ensures { result ≡ spec.as_integer value }
{
    if value <= 32767 {
        value as i16
    } else {
        i16::MAX
    }
}

/// A count as a number, at most the greatest integer.
pub fn integer_of(count: usize) -> i16
    ensures { result ≡ spec.as_integer count }
{
    if count <= 32767 {
        count as i16
    } else {
        i16::MAX
    }
}

/// A number of a byte, or the other one.
pub fn byte_or(other: u8, number: i16) -> u8
    ensures { result ≡ spec.byte_or other number }
{
    if 0 <= number && number <= 255 {
        number as u8
    } else {
        other
    }
}

// A value after its sign.
fn with_sign(alloc: Global, sign: Option<Sign>, value: Value) -> Result<Value, AllocError>
    ensures { IfOk result (λ v. value_seen v ≡ spec.with_sign sign (value_seen value)) }
{
    match sign {
        Some(Sign::Minus) => opposite(alloc, value),
        _ => Ok(value),
    }
}

// A set with one element more.
fn with_element(
    alloc: Global,
    whole: SetExpression,
    element: OrdinalExpression,
) -> Result<SetExpression, AllocError>
    ensures { IfOk result (λ s. set_seen s ≡ code.with_element (set_seen whole) (expression_seen element)) }
{
    let (fewer, element) = in_two_boxes(alloc, whole, element)?;
    Ok(SetExpression::With(fewer, element))
}

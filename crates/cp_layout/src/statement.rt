//! Statements as items. The items of a list are added last to first, each after those inside it.

ghost use Rattle.std.specs.Prelude.{◌≡◌, map, option_map};
ghost use Rattle.cp_tree.specs.View.{expression_view, expressions_view, expressions_of, designator_view, statement_view, statements_view, statements_of, arm_view, arms_view, arms_of, start_view};
ghost use Rattle.cp_slots.specs.Code.{action_seen, arm_seen, component_seen};
ghost use Rattle.cp_layout.specs.Values.{value_seen, designated_seen};
ghost use Rattle.cp_layout.specs.Layers.{layer_seen, around_seen, Lays, Leads, is_own, result_of, settle_items, add_item};
ghost use Rattle.cp_layout.specs.LaidStatements as spec;
ghost use Rattle.cp_layout.specs.LaidStatements.{target_seen, callee_seen, placed_seen, token_of};

use crate::expression::byte_or;
use crate::layer::Layouter;
use crate::surroundings::Surroundings;
use crate::value::{Designated, Value, ordinal, place_at, place_of, set_expression};
use cp_slots::{Action, ComponentPlace, Place, PlaceOrigin, ResolvedArm, Said, ShownKind};
use cp_symbols::{CellBase, CellType, LayoutMeaning, PredeclaredRoutine, values_of};
use cp_tree::{
    Arm as WrittenArm, AssertionKind, Designator, Direction, Expression as Written, Identifier,
    NAMELESS, Start, Statement, StatementKind,
};
use std::alloc::{AllocError, Global};

/// A variable that is assigned to.
#[derive(Drop)]
struct StatementTarget {
    place: Place,
    value_type: CellType,
}

/// What a call statement calls.
#[derive(Drop)]
enum CalledRoutine {
    Predeclared(PredeclaredRoutine),
    /// A routine of a component, and whether it is called by the component.
    Routine(ComponentPlace, bool, usize),
    Nothing,
}

fn callee_of(named: Designated) -> CalledRoutine
    ensures { callee_seen result ≡ spec.callee_of (designated_seen named) }
{
    match named {
        Designated::Predeclared(routine) => CalledRoutine::Predeclared(routine),
        Designated::Routine(routine) => CalledRoutine::Routine(ComponentPlace::Own, false, routine),
        Designated::Entry(place, routine) => CalledRoutine::Routine(place, true, routine),
        _ => CalledRoutine::Nothing,
    }
}

// A component with its system type.
fn component_place_of(named: Designated) -> Option<(ComponentPlace, usize)>
    ensures { option_map placed_seen result ≡ spec.component_place_of (designated_seen named) }
{
    match named {
        Designated::Component(place, system) => Some((place, system)),
        _ => None,
    }
}

impl<'a> Layouter<'a> {
    /// The items of a list, before those that begin at `after`, and the first of them.
    #[cycle(statement)]
    #[tactic(auto, using(crate::proofs::LaidLists::statements_step, crate::proofs::LaidLists::statements_none))]
    pub fn list(
        &mut self,
        alloc: Global,
        nodes: &[Statement],
        after: Option<usize>,
    ) -> Result<Option<usize>, AllocError>
        ensures { Lays (λ o. o) (spec.statements (layer_seen self.old) (statements_of (statements_view nodes.now)) after) (layer_seen self.new) result }
    {
        let mut next = after;
        let mut left = nodes.len();
        while 0 < left {
            left -= 1;
            next = self.statement(alloc, &nodes[left], next)?;
        }
        Ok(next)
    }

    // The items of a statement, before those that begin at `next`.
    #[cycle(statement)]
    #[tactic(auto, using(crate::proofs::LaidLists::asserted_laid), unfolding(crate::specs::LaidStatements::statement))]
    fn statement(
        &mut self,
        alloc: Global,
        node: &Statement,
        next: Option<usize>,
    ) -> Result<Option<usize>, AllocError>
        ensures { Lays (λ o. o) (spec.statement (layer_seen self.old) (statement_view node.now) next) (layer_seen self.new) result }
    {
        let at = node.at;
        match &node.kind {
            StatementKind::Empty => self.finish(alloc, at, Action::Empty, 0, next),
            StatementKind::Assign(target, value) => self.assign(alloc, at, target, value, next),
            StatementKind::Call(name, arguments) => self.call(alloc, at, name, arguments, next),
            StatementKind::Block(list) => {
                let list = self.list(alloc, list, None)?;
                self.block(alloc, at, list, next)
            }
            StatementKind::If(test, then, None) => {
                let then = self.statement(alloc, then, None)?;
                self.choose(alloc, at, test, then, None, next)
            }
            StatementKind::If(test, then, Some(otherwise)) => {
                let then = self.statement(alloc, then, None)?;
                let otherwise = self.statement(alloc, otherwise, None)?;
                self.choose(alloc, at, test, then, otherwise, next)
            }
            StatementKind::Case(selector, arms, _) => {
                let arms = self.arms(alloc, arms)?;
                self.select(alloc, at, selector, arms, next)
            }
            StatementKind::While(test, body) => {
                let body = self.statement(alloc, body, None)?;
                self.while_item(alloc, at, test, body, next)
            }
            StatementKind::Repeat(list, test) => {
                let body = self.list(alloc, list, None)?;
                self.repeat(alloc, at, body, test, next)
            }
            StatementKind::For(name, from, direction, to, body) => {
                let body = self.statement(alloc, body, None)?;
                self.for_item(alloc, at, name, from, *direction, to, body, next)
            }
            StatementKind::Cycle(list) => {
                let list = self.list(alloc, list, None)?;
                self.cycle_item(alloc, at, list, next)
            }
            StatementKind::Init(starts) => self.starts(alloc, starts, next),
            StatementKind::Asserted(kind, tests, inner) => {
                let first = self.statement(alloc, inner, next)?;
                self.assertions(alloc, *kind, tests, first)
            }
        }
    }

    // What is said before a statement, whose items begin at `next`.
    #[tactic(auto, using(crate::proofs::LaidLists::assertions_step, crate::proofs::LaidLists::assertions_none))]
    fn assertions(
        &mut self,
        alloc: Global,
        kind: AssertionKind,
        nodes: &[Written],
        next: Option<usize>,
    ) -> Result<Option<usize>, AllocError>
        ensures { Lays (λ o. o) (spec.assertions (layer_seen self.old) kind (expressions_view nodes.now) next) (layer_seen self.new) result }
    {
        let mut first = next;
        let mut left = nodes.len();
        while 0 < left {
            left -= 1;
            first = self.assertion(alloc, kind, &nodes[left], first)?;
        }
        Ok(first)
    }

    #[tactic(auto, unfolding(crate::specs::LaidStatements::assertion))]
    fn assertion(
        &mut self,
        alloc: Global,
        kind: AssertionKind,
        node: &Written,
        next: Option<usize>,
    ) -> Result<Option<usize>, AllocError>
        ensures { Lays (λ o. o) (settle_items (spec.assertion (layer_seen self.old) (token_of (expression_view node.now)) kind (expression_view node.now)) next) (layer_seen self.new) result }
    {
        let at = node.at;
        let test = ordinal(self.expression(alloc, node)?);
        let said = said_of(kind);
        self.finish(alloc, at, Action::Assert { test, said }, 0, next)
    }

    #[cycle(statement)]
    #[tactic(auto, using(crate::proofs::LaidLists::arms_step, crate::proofs::LaidLists::arms_none))]
    fn arms(&mut self, alloc: Global, nodes: &[WrittenArm]) -> Result<Vec<ResolvedArm>, AllocError>
        ensures { Lays (λ v. map arm_seen v.items) (spec.arms (layer_seen self.old) (arms_of (arms_view nodes.now))) (layer_seen self.new) result }
    {
        let mut arms = Vec::new(alloc);
        for node in nodes {
            arms.push(self.arm(alloc, node)?)?;
        }
        Ok(arms)
    }

    #[cycle(statement)]
    #[tactic(auto, unfolding(crate::specs::LaidStatements::one_arm, crate::specs::Layers::layer_seen))]
    fn arm(&mut self, alloc: Global, node: &WrittenArm) -> Result<ResolvedArm, AllocError>
        ensures { Lays arm_seen (spec.one_arm (layer_seen self.old) (arm_view node.now)) (layer_seen self.new) result }
    {
        let body = self.statement(alloc, &node.body, None)?;
        let labels = self.around.names.labels(alloc, &node.labels)?;
        Ok(ResolvedArm { labels, body })
    }

    // The variable on the left of an assignment, or of a `for`.
    fn target(&self, alloc: Global, named: Designated) -> StatementTarget
        ensures { target_seen result ≡ spec.target_of (layer_seen self.now) (designated_seen named) }
    {
        match named {
            Designated::Variable(place, value_type) => StatementTarget { place, value_type },
            Designated::Routine(routine) => self.result_target(alloc, routine),
            _ => no_target(alloc),
        }
    }

    // The result of the function that is laid out.
    #[tactic(auto, unfolding(crate::specs::Layers::layer_seen))]
    fn result_target(&self, alloc: Global, routine: usize) -> StatementTarget
        ensures { target_seen result ≡ spec.result_target (is_own (layer_seen self.now) routine) (result_of (layer_seen self.now) routine) }
    {
        let is_own = self.is_own(routine);
        match self.around.result(routine) {
            Some(result) => {
                if is_own {
                    StatementTarget {
                        place: place_at(alloc, PlaceOrigin::Local(result.slot)),
                        value_type: result.value_type,
                    }
                } else {
                    no_target(alloc)
                }
            }
            None => no_target(alloc),
        }
    }

    fn assign(
        &mut self,
        alloc: Global,
        at: usize,
        left: &Designator,
        right: &Written,
        next: Option<usize>,
    ) -> Result<Option<usize>, AllocError>
        ensures { Lays (λ o. o) (settle_items (spec.assign (layer_seen self.old) at (designator_view left.now) (expression_view right.now)) next) (layer_seen self.new) result }
    {
        let named = self.designator(alloc, left)?;
        let target = self.target(alloc, named);
        let value = self.expression(alloc, right)?;
        let action = self.around.assignment(alloc, target, value);
        self.finish(alloc, at, action, 0, next)
    }

    #[tactic(auto, unfolding(crate::specs::LaidStatements::call_statement))]
    fn call(
        &mut self,
        alloc: Global,
        at: usize,
        name: &Designator,
        nodes: &[Written],
        next: Option<usize>,
    ) -> Result<Option<usize>, AllocError>
        ensures { Lays (λ o. o) (settle_items (spec.call_statement (layer_seen self.old) at (designator_view name.now) (expressions_of (expressions_view nodes.now))) next) (layer_seen self.new) result }
    {
        let whole = self.designator(alloc, name)?;
        self.call_of(alloc, at, callee_of(whole), nodes)?;
        self.settle(alloc, next)
    }

    fn call_of(
        &mut self,
        alloc: Global,
        at: usize,
        callee: CalledRoutine,
        nodes: &[Written],
    ) -> Result<(), AllocError>
        ensures { Leads (spec.call_of (layer_seen self.old) at (callee_seen callee) (expressions_of (expressions_view nodes.now))) (layer_seen self.new) result }
    {
        match callee {
            CalledRoutine::Predeclared(routine) => self.perform(alloc, at, routine, nodes),
            CalledRoutine::Routine(component, is_entry, routine) => {
                self.invoke(alloc, at, component, is_entry, routine, nodes)
            }
            CalledRoutine::Nothing => self.add(at, Action::Empty, 0),
        }
    }

    // A call of a procedure.
    #[tactic(auto, unfolding(crate::specs::LaidStatements::procedure))]
    fn invoke(
        &mut self,
        alloc: Global,
        at: usize,
        component: ComponentPlace,
        is_entry: bool,
        routine: usize,
        nodes: &[Written],
    ) -> Result<(), AllocError>
        ensures { Leads (spec.procedure (layer_seen self.old) at (component_seen component) is_entry routine (expressions_of (expressions_view nodes.now))) (layer_seen self.new) result }
    {
        let arguments = self.arguments(alloc, routine, nodes)?;
        let need = self.reserve(routine);
        let action = Action::Call {
            routine,
            component,
            is_entry,
            arguments,
            result: None,
        };
        self.add(at, action, need)
    }

    // A call of a predeclared procedure.
    #[tactic(auto, unfolding(crate::specs::LaidStatements::standard))]
    fn perform(
        &mut self,
        alloc: Global,
        at: usize,
        routine: PredeclaredRoutine,
        nodes: &[Written],
    ) -> Result<(), AllocError>
        ensures { Leads (spec.standard (layer_seen self.old) at routine (expressions_of (expressions_view nodes.now))) (layer_seen self.new) result }
    {
        let value = self.first_value(alloc, nodes)?;
        if waits(routine) {
            self.check(alloc, at)?;
        }
        self.add(at, standard_action(alloc, routine, value), 0)
    }

    /// A call of the invariants of the block, where it has some.
    #[tactic(auto, unfolding(crate::specs::LaidStatements::check_invariants, crate::specs::Layers::layer_seen))]
    pub fn check(&mut self, alloc: Global, at: usize) -> Result<(), AllocError>
        ensures { Leads (spec.check_invariants (layer_seen self.old) at) (layer_seen self.new) result }
    {
        match self.around.names.look(NAMELESS) {
            Some(LayoutMeaning::Routine(routine)) => {
                self.invoke(alloc, at, ComponentPlace::Own, false, routine, &[])
            }
            _ => Ok(()),
        }
    }

    #[tactic(auto, unfolding(crate::specs::Layers::layer_seen))]
    fn block(
        &mut self,
        alloc: Global,
        at: usize,
        list: Option<usize>,
        next: Option<usize>,
    ) -> Result<Option<usize>, AllocError>
        ensures { Lays (λ o. o) (settle_items (spec.block_item (layer_seen self.old) at list) next) (layer_seen self.new) result }
    {
        let need = self.lists.need_inside(list);
        self.finish(alloc, at, Action::Block(list), need, next)
    }

    #[tactic(auto, unfolding(crate::specs::Layers::layer_seen))]
    fn cycle_item(
        &mut self,
        alloc: Global,
        at: usize,
        list: Option<usize>,
        next: Option<usize>,
    ) -> Result<Option<usize>, AllocError>
        ensures { Lays (λ o. o) (settle_items (spec.cycle_item (layer_seen self.old) at list) next) (layer_seen self.new) result }
    {
        let need = self.lists.need_inside(list);
        self.finish(alloc, at, Action::Cycle(list), need, next)
    }

    // The last item of a statement, before those that begin at `next`.
    fn finish(
        &mut self,
        alloc: Global,
        at: usize,
        action: Action,
        need: usize,
        next: Option<usize>,
    ) -> Result<Option<usize>, AllocError>
        ensures { Lays (λ o. o) (settle_items (add_item (layer_seen self.old) at (action_seen action) need) next) (layer_seen self.new) result }
    {
        self.add(at, action, need)?;
        self.settle(alloc, next)
    }

    // `if`.
    #[tactic(auto, unfolding(crate::specs::LaidStatements::choose, crate::specs::Layers::layer_seen))]
    fn choose(
        &mut self,
        alloc: Global,
        at: usize,
        test: &Written,
        then: Option<usize>,
        otherwise: Option<usize>,
        next: Option<usize>,
    ) -> Result<Option<usize>, AllocError>
        ensures { Lays (λ o. o) (settle_items (spec.choose (layer_seen self.old) at (expression_view test.now) then otherwise) next) (layer_seen self.new) result }
    {
        let test = ordinal(self.expression(alloc, test)?);
        let need = self
            .lists
            .need_inside(then)
            .max(self.lists.need_inside(otherwise));
        let action = Action::If {
            test,
            then,
            otherwise,
        };
        self.finish(alloc, at, action, need, next)
    }

    // `case`.
    #[tactic(auto, unfolding(crate::specs::LaidStatements::select))]
    fn select(
        &mut self,
        alloc: Global,
        at: usize,
        selector: &Written,
        arms: Vec<ResolvedArm>,
        next: Option<usize>,
    ) -> Result<Option<usize>, AllocError>
        ensures { Lays (λ o. o) (settle_items (spec.select (layer_seen self.old) at (expression_view selector.now) (map arm_seen arms.items)) next) (layer_seen self.new) result }
    {
        let selector = ordinal(self.expression(alloc, selector)?);
        let need = self.arms_need(&arms);
        self.finish(alloc, at, Action::Case { selector, arms }, need, next)
    }

    // The most that arms need.
    #[tactic(auto, unfolding(crate::specs::Layers::layer_seen))]
    fn arms_need(&self, arms: &[ResolvedArm]) -> usize
        ensures { result ≡ spec.arms_need (layer_seen self.now) 0 (map arm_seen arms.now) }
    {
        let mut need = 0;
        for arm in arms {
            need = self.lists.need_inside(arm.body).max(need);
        }
        need
    }

    #[tactic(auto, unfolding(crate::specs::LaidStatements::while_item, crate::specs::Layers::layer_seen))]
    fn while_item(
        &mut self,
        alloc: Global,
        at: usize,
        test: &Written,
        body: Option<usize>,
        next: Option<usize>,
    ) -> Result<Option<usize>, AllocError>
        ensures { Lays (λ o. o) (settle_items (spec.while_item (layer_seen self.old) at (expression_view test.now) body) next) (layer_seen self.new) result }
    {
        let test = ordinal(self.expression(alloc, test)?);
        let need = self.lists.need_inside(body).max(self.lists.pending_need());
        let again = self.lists.again();
        self.finish(alloc, at, Action::While { test, body, again }, need, next)
    }

    // The list as a block, and `until` after it.
    fn repeat(
        &mut self,
        alloc: Global,
        at: usize,
        body: Option<usize>,
        test: &Written,
        next: Option<usize>,
    ) -> Result<Option<usize>, AllocError>
        ensures { Lays (λ o. o) (spec.repeat_items (layer_seen self.old) at body (expression_view test.now) next) (layer_seen self.new) result }
    {
        self.until_item(alloc, test, body)?;
        let until = self.settle(alloc, next)?;
        self.block(alloc, at, body, until)
    }

    #[tactic(auto, unfolding(crate::specs::LaidStatements::until_item, crate::specs::Layers::layer_seen))]
    fn until_item(
        &mut self,
        alloc: Global,
        test: &Written,
        body: Option<usize>,
    ) -> Result<(), AllocError>
        ensures { Leads (spec.until_item (layer_seen self.old) (token_of (expression_view test.now)) (expression_view test.now) body) (layer_seen self.new) result }
    {
        let at = test.at;
        let test = ordinal(self.expression(alloc, test)?);
        let need = self.lists.need_inside(body).max(self.lists.pending_need());
        let again = self.lists.again();
        self.add(at, Action::Until { test, body, again }, need)
    }

    #[tactic(auto, unfolding(crate::specs::LaidStatements::for_item, crate::specs::Layers::layer_seen))]
    fn for_item(
        &mut self,
        alloc: Global,
        at: usize,
        name: &Identifier,
        from: &Written,
        direction: Direction,
        to: &Written,
        body: Option<usize>,
        next: Option<usize>,
    ) -> Result<Option<usize>, AllocError>
        ensures { Lays (λ o. o) (settle_items (spec.for_item (layer_seen self.old) at name.now.name (expression_view from.now) direction (expression_view to.now) body) next) (layer_seen self.new) result }
    {
        let named = self.around.names.meaning_of(alloc, name);
        let target = self.target(alloc, named);
        let (low, high) = bounds_of(target.value_type);
        let from = ordinal(self.expression(alloc, from)?);
        let to = ordinal(self.expression(alloc, to)?);
        let need = self.lists.need_inside(body);
        let action = Action::For {
            variable: target.place.origin,
            low,
            high,
            from,
            to,
            down: is_down(direction),
            body,
        };
        self.finish(alloc, at, action, need, next)
    }

    // The starts of an `init`, each with the calls in its arguments before it.
    #[tactic(auto, using(crate::proofs::LaidLists::starts_step, crate::proofs::LaidLists::starts_none))]
    fn starts(
        &mut self,
        alloc: Global,
        nodes: &[Start],
        next: Option<usize>,
    ) -> Result<Option<usize>, AllocError>
        ensures { Lays (λ o. o) (spec.starts (layer_seen self.old) (map start_view nodes.now) next) (layer_seen self.new) result }
    {
        let mut first = next;
        let mut left = nodes.len();
        while 0 < left {
            left -= 1;
            self.start(alloc, &nodes[left])?;
            first = self.settle(alloc, first)?;
        }
        Ok(first)
    }

    #[tactic(auto, unfolding(crate::specs::LaidStatements::start_statement, crate::specs::Layers::layer_seen))]
    fn start(&mut self, alloc: Global, node: &Start) -> Result<(), AllocError>
        ensures { Leads (spec.start_statement (layer_seen self.old) (start_view node.now)) (layer_seen self.new) result }
    {
        let at = node.target.name.at;
        let named = self.designator(alloc, &node.target)?;
        match component_place_of(named) {
            Some((component, system)) => {
                let routine = self.around.initial(system);
                self.begin_component(alloc, at, component, routine, &node.arguments)
            }
            None => self.add(at, Action::Empty, 0),
        }
    }

    #[tactic(auto, unfolding(crate::specs::LaidStatements::begin_component))]
    fn begin_component(
        &mut self,
        alloc: Global,
        at: usize,
        component: ComponentPlace,
        routine: usize,
        nodes: &[Written],
    ) -> Result<(), AllocError>
        ensures { Leads (spec.begin_component (layer_seen self.old) at (component_seen component) routine (expressions_of (expressions_view nodes.now))) (layer_seen self.new) result }
    {
        let arguments = self.arguments(alloc, routine, nodes)?;
        let need = self.reserve(routine);
        let action = Action::Start {
            component,
            routine,
            arguments,
        };
        self.add(at, action, need)
    }
}

impl<'a> Surroundings<'a> {
    // An assignment of a value to a variable.
    fn assignment(&self, alloc: Global, target: StatementTarget, value: Value) -> Action
        ensures { action_seen result ≡ spec.assignment (around_seen self.now) (target_seen target) (value_seen value) }
    {
        match target.value_type {
            CellType::Ordinal(range) => Action::Assign {
                target: target.place,
                value: ordinal(value),
                low: range.low,
                high: range.high,
            },
            CellType::Set(base) => Action::AssignSet {
                target: target.place,
                value: set_expression(value),
                low: byte_or(0, base.low),
                high: byte_or(u8::MAX, base.high),
            },
            whole => Action::Copy {
                target: target.place,
                source: place_of(alloc, value),
                size: self.types.cells_of(whole),
            },
        }
    }
}

fn no_target(alloc: Global) -> StatementTarget
    ensures { target_seen result ≡ spec.no_target }
{
    StatementTarget {
        place: place_at(alloc, PlaceOrigin::Local(0)),
        value_type: values_of(CellBase::Integer),
    }
}

// The bounds of a type.
fn bounds_of(value_type: CellType) -> (i16, i16)
    ensures { result ≡ (spec.low_of value_type, spec.high_of value_type) }
{
    match value_type {
        CellType::Ordinal(range) => (range.low, range.high),
        _ => (i16::MIN, i16::MAX),
    }
}

// What an annotation speaks of.
fn said_of(kind: AssertionKind) -> Said
    ensures { result ≡ spec.said_of kind }
{
    match kind {
        AssertionKind::Assertion => Said::Assertion,
        AssertionKind::Invariant => Said::Invariant,
    }
}

// Whether the invariants are looked at before it.
fn waits(routine: PredeclaredRoutine) -> bool
    ensures { result ≡ spec.waits routine }
{
    matches!(
        routine,
        PredeclaredRoutine::Delay | PredeclaredRoutine::Continue
    )
}

fn is_down(direction: Direction) -> bool
    ensures { result ≡ spec.is_down direction }
{
    match direction {
        Direction::To => false,
        Direction::Downto => true,
    }
}

// What a predeclared procedure does.
fn standard_action(alloc: Global, routine: PredeclaredRoutine, value: Value) -> Action
    ensures { action_seen result ≡ spec.standard_action routine (value_seen value) }
{
    match routine {
        PredeclaredRoutine::Delay => Action::Delay(place_of(alloc, value)),
        PredeclaredRoutine::Continue => Action::Continue(place_of(alloc, value)),
        PredeclaredRoutine::Display => display(value),
        _ => Action::Empty,
    }
}

// `display` of a value.
fn display(value: Value) -> Action
    ensures { action_seen result ≡ spec.display (value_seen value) }
{
    let kind = shown_kind(&value);
    Action::Display {
        value: ordinal(value),
        kind,
    }
}

fn shown_kind(value: &Value) -> ShownKind
    ensures { result ≡ spec.shown_kind (value_seen value.now) }
{
    match value {
        Value::Ordinal(_, CellBase::Char) => ShownKind::Character,
        Value::Ordinal(_, CellBase::Boolean) => ShownKind::Truth,
        Value::Ordinal(_, CellBase::Enumeration(first, _)) => ShownKind::Constant(*first),
        _ => ShownKind::Integer,
    }
}

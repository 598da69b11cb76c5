//! What is there and what is wanted, where something does not agree.

use crate::declared::Declarations;
use crate::extent::{
    Extent, Part, between, closing, is_adding, is_multiplying, is_relation, part_extent, single,
};
use crate::operands::{
    ANY_ORDINAL, Operands, Value, about_sets, about_unnamed, about_waiting, are_alike, argument_of,
    is_set, phrase, taker, why_not_compared,
};
use crate::place::has_comment_before;
use crate::rules::{is_mark_of, mark_at, mark_before, name_at, put_declared};
use crate::spelling::{Known, similar_declaration};
use crate::teller::{Piece, Teller};
use cp_scope::{Base, Detail, FoundValue, Meaning, Parameter, Role, ValueType, values_of};
use cp_text::Mark;
use cp_tree::SystemKind;

/// The most fields or entries that are told.
const MOST_MEMBERS: usize = 6;

/// What stands behind the last of so many fields or entries that are told, of so many in all.
fn behind_member(told: usize, number: usize) -> &'static str {
    if told >= number {
        ""
    } else if told >= MOST_MEMBERS {
        ", .."
    } else if told.saturating_add(1) == number {
        " and "
    } else {
        ", "
    }
}

/// A source that is refused where a rule is broken, and what has been told of it.
#[derive(Drop)]
pub struct Saying<'a> {
    pub teller: Teller<'a>,
    pub declarations: Declarations<'a>,
}

impl<'a> Saying<'a> {
    /// Says what does not agree.
    pub fn put_detail(&mut self, detail: Detail) {
        match detail {
            Detail::Operand(one) => self.put_operand(one),
            Detail::Operands(left, right) => self.put_operands(left, right),
            Detail::Elements(first, other) => self.put_elements(first, other),
            Detail::Index(before, index) => self.put_no_element(before, index),
            Detail::Period(before, name) => self.put_no_fields(before, name),
            Detail::Member(whole) => self.put_no_member(whole),
            Detail::Value(role) => self.put_no_value(role),
            Detail::Call(role) => self.put_no_call(role),
            Detail::Target(role) => self.put_role("@ is @, and can't be assigned", role),
            Detail::Start(role) => self.put_no_component(role),
            Detail::Counter(role) => self.put_role("for takes a variable, but @ is @", role),
            Detail::Number(heading, given) => self.put_count(heading, given),
            Detail::Argument(heading, number, value) => self.put_argument(heading, number, value),
            Detail::Fixed(found) => self.put_unchangeable(found),
            Detail::Assignment(wanted, value) => self.put_assignment(wanted, value),
            Detail::Bounds(wanted, low, high) => self.put_counting(wanted, low, high),
        }
    }

    fn say(&mut self, sentence: &str, pieces: &[Piece]) {
        self.teller.say(sentence, pieces);
    }

    // -- what stands where

    /// The name with its selectors that begins at the fault, or behind it where that is a `for`.
    fn name(&self) -> Extent {
        let from = match self.teller.mark() {
            Some(Mark::For) => self.teller.at.saturating_add(1),
            _ => self.teller.at,
        };
        part_extent(self.teller.tokens, from, Part::Name)
    }

    /// The same as a value of some type.
    fn name_of(&self, value_type: ValueType) -> Value {
        Value {
            extent: self.name(),
            value_type,
        }
    }

    fn value(&self, found: FoundValue, part: Part) -> Value {
        Value {
            extent: part_extent(self.teller.tokens, found.at, part),
            value_type: found.value_type,
        }
    }

    /// A value that is an expression of its own.
    fn expression(&self, found: FoundValue) -> Value {
        self.value(found, Part::Expression)
    }

    /// The parameters of the routine or the system type that is written at a token.
    fn parameters(&self, heading: usize) -> &[Parameter] {
        self.declarations.scopes.shapes().parameters(heading)
    }

    /// What a name with its selectors stands for.
    fn role(&self, whole: Extent, role: Role) -> &'static str {
        let tokens = self.teller.tokens;
        match role {
            Role::Kind => "a type",
            Role::Function => "a function",
            Role::Procedure => "a procedure",
            Role::Value(_) if mark_before(tokens, whole.to) == Some(Mark::CloseBracket) => {
                "an element"
            }
            Role::Value(_) if whole.is_long() => "a field",
            Role::Value(_) => match self.declarations.meaning_at(whole.from) {
                Some(Meaning::Constant(..)) => "a constant",
                Some(Meaning::Parameter(_)) => "a parameter",
                _ => "a variable",
            },
        }
    }

    /// Says in a sentence what the name at the fault is.
    fn put_role(&mut self, sentence: &str, role: Role) {
        let whole = self.name();
        self.put_role_of(sentence, whole, role);
    }

    /// Says in a sentence what a name with its selectors is.
    fn put_role_of(&mut self, sentence: &str, whole: Extent, role: Role) {
        let role = self.role(whole, role);
        self.say(sentence, &[Piece::Tokens(whole), Piece::Words(role)]);
    }

    // -- values

    /// Says what the word, the sign or the routine before a value takes.
    fn put_operand(&mut self, one: FoundValue) {
        let before = mark_before(self.teller.tokens, one.at);
        let part = match before {
            Some(Mark::Not) => Part::Factor,
            Some(Mark::Plus | Mark::Minus) => Part::Term,
            _ => Part::Expression,
        };
        let value = self.value(one, part);
        if before == Some(Mark::OpenParenthesis) {
            self.put_standard_argument(one.at.saturating_sub(2), value);
            return;
        }
        if before == Some(Mark::Case) && value.value_type.is_ordinal() {
            self.say(
                "@, but a label of this case is of another type",
                &[Piece::Is(value)],
            );
            return;
        }
        let (taker, wanted) = taker(before);
        self.put_taken(taker, wanted, value);
        if before == Some(Mark::Not) && is_relation(mark_at(self.teller.tokens, value.extent.to)) {
            self.teller.put(": a comparison behind not stands in parentheses, as in not (a = b)");
        }
    }

    /// Says what is wanted of a value, and what it is.
    fn put_taken<'x>(&mut self, taker: &'x str, wanted: &'x str, value: Value) {
        self.say(
            "@ takes @, but @",
            &[Piece::Words(taker), Piece::Words(wanted), Piece::Is(value)],
        );
        self.put_about_queue(value.value_type);
    }

    /// Says of a queue what asks about it.
    fn put_about_queue(&mut self, value_type: ValueType) {
        if matches!(value_type, ValueType::Queue) {
            self.teller.put(about_waiting("empty"));
        }
    }

    /// Says what the routine of the language takes whose name is at a token.
    fn put_standard_argument(&mut self, routine: usize, argument: Value) {
        let name = name_at(self.teller.tokens, routine);
        match (name, argument.value_type) {
            ("delay" | "continue" | "empty", ValueType::Queue) => self.say(
                "@ takes a queue variable, and not one in parentheses",
                &[Piece::Tokens(single(routine))],
            ),
            ("delay" | "continue" | "empty", found) => {
                self.put_taken(name, "a queue variable", argument);
                if name != "empty" && !self.declarations.is_in(SystemKind::Monitor, routine) {
                    self.say("; @ stands only in a monitor", &[Piece::Words(name)]);
                } else if matches!(found, ValueType::Array(_)) {
                    self.teller
                        .put(": one of its elements is named by an index, as in q[1]");
                }
            }
            _ => self.put_taken(name, argument_of(name), argument),
        }
    }

    /// Says what the operator before the second of two values takes.
    fn put_operands(&mut self, left: FoundValue, right: FoundValue) {
        let operator = right.at.saturating_sub(1);
        let mark = mark_at(self.teller.tokens, operator);
        let left = Value {
            extent: between(left.at, operator),
            value_type: left.value_type,
        };
        let part = if is_multiplying(mark) {
            Part::Factor
        } else if is_adding(mark) {
            Part::Term
        } else {
            Part::Sum
        };
        let right = self.value(right, part);
        self.teller.put_tokens(single(operator));
        if part == Part::Sum {
            self.put_relation(mark, left, right);
        } else {
            self.put_operation(Operands::of(mark), left, right);
        }
    }

    /// Says which operand of an operator is none such, or that the two do not agree.
    fn put_operation(&mut self, operands: Operands, left: Value, right: Value) {
        let (sentence, first) = match (operands.admits(left), operands.admits(right)) {
            (true, false) => (" takes @, but @", right),
            (false, true) => (" takes @, but @", left),
            _ => (" takes @, but @ and @", left),
        };
        self.say(
            sentence,
            &[
                Piece::Words(operands.phrase()),
                Piece::Is(first),
                Piece::Is(right),
            ],
        );
        self.teller
            .put(about_sets(operands, left.value_type, right.value_type));
        if operands == Operands::BooleansOrSets && self.is_compared(left, right) {
            self.teller.put(
                ": comparisons that and or or joins stand in parentheses, as (a = b) and (c = d)",
            );
        }
    }

    /// Whether a sign that compares stands before or behind two operands.
    fn is_compared(&self, left: Value, right: Value) -> bool {
        let tokens = self.teller.tokens;
        is_relation(mark_before(tokens, left.extent.from))
            || is_relation(mark_at(tokens, right.extent.to))
    }

    /// Says why no such relation stands between two values.
    fn put_relation(&mut self, relation: Option<Mark>, left: Value, right: Value) {
        self.teller.put(why_not_compared(relation, left.value_type, right.value_type));
        if relation == Some(Mark::In) && !is_set(right.value_type) {
            self.say("@", &[Piece::Is(right)]);
            return;
        }
        self.say("@ and @", &[Piece::Is(left), Piece::Is(right)]);
        self.put_about_queue(left.value_type);
        if left.value_type.is_ordinal() && are_alike(left.value_type, right.value_type) {
            self.put_own_type(right);
        }
    }

    /// Says that two elements of a set are of two types, or that the first is not ordinal.
    fn put_elements(&mut self, first: FoundValue, other: FoundValue) {
        let (first, other) = (self.expression(first), self.expression(other));
        let sentence = if first.value_type.is_ordinal() {
            "the elements of a set have to be ordinal and of one type, but @, @"
        } else {
            "the elements of a set have to be ordinal and of one type, but @"
        };
        self.say(sentence, &[Piece::Is(first), Piece::Is(other)]);
    }

    // -- types

    /// Says which of the types with one phrase a value has, by its name or its bounds.
    fn put_own_type(&mut self, value: Value) {
        let found = value.value_type;
        let whole = value.extent;
        let name = self.type_name(found);
        if !name.is_empty() {
            self.say(
                ": @ is of type @",
                &[Piece::Tokens(whole), Piece::Words(name)],
            );
            return;
        }
        match found {
            ValueType::Ordinal(range) if range.base.is_same(Base::Integer) => self.say(
                ": @ is of type @..@",
                &[
                    Piece::Tokens(whole),
                    Piece::Number(range.low),
                    Piece::Number(range.high),
                ],
            ),
            ValueType::Array(at) => {
                let tokens = self.teller.tokens;
                let to = closing(tokens, at, &[Mark::OpenBracket], &[Mark::CloseBracket]);
                self.say(
                    ": @ is of type @, and each array that is written is a type of its own",
                    &[
                        Piece::Tokens(whole),
                        Piece::Tokens(between(at, to.saturating_add(1))),
                    ],
                );
            }
            _ => self.teller.put(about_unnamed(found)),
        }
    }

    /// The name of a type; empty where it has none.
    fn type_name(&self, found: ValueType) -> &'a str {
        match found {
            ValueType::Array(at) | ValueType::Record(at) | ValueType::Component(_, at) => {
                self.name_of_written(at)
            }
            ValueType::Ordinal(range) if found.is_same(values_of(range.base)) => match range.base {
                Base::Integer => "integer",
                Base::Boolean => "boolean",
                Base::Char => "char",
                Base::Enumeration(at, _) => self.name_of_written(at),
            },
            _ => "",
        }
    }

    /// The name of the type that is written at a token; empty where it has none.
    fn name_of_written(&self, at: usize) -> &'a str {
        match self.declarations.known_at(at) {
            Some(one) => one.name,
            None => "",
        }
    }

    // -- calls

    /// Says how many arguments a routine or a system type takes, and how many are given. One of the language itself takes one.
    fn put_count(&mut self, heading: Option<usize>, given: usize) {
        let taken = match heading {
            Some(heading) => self.parameters(heading).len(),
            None => 1,
        };
        let sentence = if taken == 1 {
            "@ takes @ argument, but is called with @"
        } else {
            "@ takes @ arguments, but is called with @"
        };
        let name = self.name();
        self.say(
            sentence,
            &[
                Piece::Tokens(name),
                Piece::Count(taken),
                Piece::Count(given),
            ],
        );
        match heading {
            Some(heading) => self.put_parameters(heading, taken),
            None => {
                let more = if self.is_before_comment() {
                    ": what stands between double quotes is a comment, and there are no strings"
                } else {
                    about_waiting(self.teller.name())
                };
                self.teller.put(more);
            }
        }
    }

    /// Whether a comment follows the token.
    fn is_before_comment(&self) -> bool {
        let (source, tokens) = (self.teller.source, self.teller.tokens);
        has_comment_before(source, tokens, self.teller.at.saturating_add(1))
    }

    /// Says what the parameters of a routine or a system type are, where it has some.
    fn put_parameters(&mut self, heading: usize, number: usize) {
        if let Some(first) = self.declarations.parameter(heading, 0)
            && let Some(last) = self
                .declarations
                .parameter(heading, number.saturating_sub(1))
            && let Some(type_name) = last.what.type_name()
        {
            let is_var = mark_before(self.teller.tokens, first.at) == Some(Mark::Var);
            let from = first.at.saturating_sub(if is_var { 1 } else { 0 });
            self.say(
                ": its heading has @",
                &[Piece::Tokens(between(from, type_name.at.saturating_add(1)))],
            );
        }
    }

    /// Says which argument is of another type than its parameter.
    fn put_argument(&mut self, heading: usize, number: usize, value: FoundValue) {
        let Some(parameter) = self.parameters(heading).get(number).copied() else {
            return;
        };
        let value = self.expression(value);
        let is_alike = are_alike(parameter.value_type, value.value_type);
        let sentence = if is_alike {
            "argument @ of @, @, is @, but of another type than the parameter @"
        } else {
            "argument @ of @, @, is @, but the parameter is @"
        };
        let name = self.name();
        self.say(
            sentence,
            &[
                Piece::Count(number.saturating_add(1)),
                Piece::Tokens(name),
                Piece::Tokens(value.extent),
                Piece::Words(phrase(value.value_type)),
                Piece::Words(if parameter.is_var { "var " } else { "" }),
            ],
        );
        if let Some(declared) = self.declarations.parameter(heading, number) {
            self.teller.put_tokens(single(declared.at));
            if let Some(name) = declared.what.type_name() {
                self.say(": @", &[Piece::Tokens(single(name.at))]);
            }
        }
        if is_alike {
            self.put_own_type(value);
        }
    }

    /// Says that a name has no value, or can't be called with arguments.
    fn put_no_value(&mut self, role: Role) {
        let whole = self.name();
        let is_called = match role {
            Role::Kind => mark_at(self.teller.tokens, whole.to) == Some(Mark::OpenParenthesis),
            Role::Value(_) => true,
            Role::Function | Role::Procedure => false,
        };
        let sentence = match role {
            Role::Value(ValueType::Array(_)) =>
                "@ is @, and can't be called: an element of an array is written with brackets, as in a[1]",
            _ if is_called => "@ is @, and can't be called",
            _ => "@ is @, and has no value",
        };
        self.put_role_of(sentence, whole, role);
        let is_given = is_mark_of(
            self.teller.tokens,
            whole.from.saturating_sub(1),
            &[Mark::Becomes, Mark::OpenParenthesis, Mark::Comma],
        );
        if is_given && matches!(role, Role::Kind) {
            self.put_component_meant(whole);
        }
    }

    /// Says that a statement calls no procedure.
    fn put_no_call(&mut self, role: Role) {
        let is_parameter = matches!(
            self.declarations.meaning_at(self.name().from),
            Some(Meaning::Parameter(_))
        );
        let sentence = match role {
            Role::Value(ValueType::Component(..)) if !is_parameter =>
                "@ is @, and can't be called: init starts it",
            Role::Function =>
                "@ is @: a statement calls a procedure, and a function's value has to be used",
            _ => "@ is @, and can't be called",
        };
        self.put_role(sentence, role);
        if matches!(role, Role::Kind) {
            self.put_component_meant(self.name());
        }
    }

    /// Says that `init` starts no component.
    fn put_no_component(&mut self, role: Role) {
        let sentence = match role {
            Role::Kind => "@ is @, and init starts components alone",
            Role::Value(ValueType::Array(at)) if self.has_fixed_elements(at) => {
                "@ is an array, and init takes its elements one by one"
            }
            Role::Value(ValueType::Component(..)) =>
                "@ is a parameter, and is initialised where it is declared as a variable",
            Role::Value(value_type) => {
                let value = self.name_of(value_type);
                self.say("@, and init starts components alone", &[Piece::Is(value)]);
                return;
            }
            _ => "@ is no component variable of this block, so that init can't start it",
        };
        self.put_role(sentence, role);
        if matches!(role, Role::Kind) {
            self.put_component_meant(self.name());
        }
    }

    /// Whether the elements of the array that is written at a token are queues or components.
    fn has_fixed_elements(&self, at: usize) -> bool {
        match self.declarations.scopes.shapes().array(at) {
            Some(array) => matches!(array.element, ValueType::Queue | ValueType::Component(..)),
            None => false,
        }
    }

    // -- names

    /// Says why what stands before an index has no such element.
    fn put_no_element(&mut self, before: Role, index: FoundValue) {
        let extent = between(self.teller.at, index.at.saturating_sub(1));
        match before {
            Role::Value(ValueType::Array(_)) => {
                let index = self.expression(index);
                self.say(
                    "@ has indices of another type: @",
                    &[Piece::Tokens(extent), Piece::Is(index)],
                );
            }
            Role::Value(value_type) => {
                let whole = Value { extent, value_type };
                self.say("@, and no array: it takes no index", &[Piece::Is(whole)]);
                self.put_set_operations(extent, value_type);
            }
            _ => self.put_role_of("@ is @, and has no elements", extent, before),
        }
    }

    /// Says why what stands before a period has no fields and no routines.
    fn put_no_fields(&mut self, before: Role, name: usize) {
        let extent = between(self.teller.at, name.saturating_sub(1));
        match before {
            Role::Value(value_type) => {
                let sentence = match value_type {
                    ValueType::Array(_) =>
                        "@: one of its elements is named by an index before the period, as in a[1]",
                    ValueType::Queue =>
                        "@: a process waits by delay(q), is let go on by continue(q), and empty(q) asks whether none waits",
                    _ => "@, and no record: it has no fields",
                };
                self.say(sentence, &[Piece::Is(Value { extent, value_type })]);
                self.put_set_operations(extent, value_type);
            }
            Role::Kind => self.put_no_fields_of_type(extent, name),
            _ => self.put_role_of("@ is @, and has no fields", extent, before),
        }
    }

    /// Says of a set what is done with it.
    fn put_set_operations(&mut self, extent: Extent, value_type: ValueType) {
        if is_set(value_type) {
            let whole = Piece::Tokens(extent);
            self.say(
                "; @ or [x] is it with x, @ - [x] is it without x, and x in @ asks whether x is in it",
                &[whole, whole, whole],
            );
        }
    }

    /// Says of a type that it has no fields, and how what may be meant is named.
    fn put_no_fields_of_type(&mut self, extent: Extent, name: usize) {
        let (sentence, base) = match self.declarations.type_named_at(extent.from) {
            Some(ValueType::Record(_) | ValueType::Component(..)) => (
                "@ is @: what stands before a period is a variable of such a type",
                None,
            ),
            Some(ValueType::Ordinal(range)) if matches!(range.base, Base::Enumeration(..)) => (
                "@ is @: the constants of an enumeration are named alone",
                Some(range.base),
            ),
            _ => ("@ is @, and has no fields", None),
        };
        self.put_role_of(sentence, extent, Role::Kind);
        if let Some(base) = base
            && let Some(Meaning::Constant(other, _)) = self.declarations.meaning_at(name)
            && base.is_same(other)
        {
            self.say(", as @", &[Piece::Tokens(single(name))]);
        }
    }

    /// Says that the token is no field of a record and no routine of a component, and which one may have been meant.
    fn put_no_member(&mut self, whole: ValueType) {
        let (sentence, known) = match whole {
            ValueType::Record(at) => ("# is no field of this record", Known::FieldOf(at)),
            ValueType::Component(_, at) => (
                "# is no routine of this component, whose variables can't be reached from outside",
                Known::EntryOf(at),
            ),
            _ => return,
        };
        self.say(sentence, &[]);
        match similar_declaration(&self.teller, &self.declarations, known) {
            Some(other) => put_declared(&mut self.teller, other),
            None => self.put_members(known),
        }
    }

    /// Says which entries the component has that is the argument of the token.
    pub fn put_entries_given(&mut self) {
        let argument = self.teller.at.saturating_add(2);
        let name = self.teller.name_at(argument);
        if self.teller.ahead(1) == Some(Mark::OpenParenthesis)
            && let Some(one) = self.declarations.find(name, argument)
            && one.what.as_system().is_none()
            && let Some(ValueType::Component(_, system)) = self.declarations.structure_of(&one)
        {
            self.say("; @", &[Piece::Tokens(single(argument))]);
            self.put_members(Known::EntryOf(system));
        }
    }

    /// Says which fields or entries there are, or the first of them.
    fn put_members(&mut self, known: Known) {
        let places = known.places(self.teller.tokens);
        let declarations = &self.declarations;
        let number = (places.from..places.to)
            .filter(|place| known.is_declared_at(declarations, *place))
            .count();
        self.teller.put(known.heading(number));
        let mut told: usize = 0;
        for place in places.from..places.to {
            if told < MOST_MEMBERS && known.is_declared_at(&self.declarations, place) {
                told = told.saturating_add(1);
                self.teller.put_tokens(single(place));
                self.teller.put(behind_member(told, number));
            }
        }
    }

    /// Says why a name with its selectors can't be assigned, or that an argument is no name.
    fn put_unchangeable(&mut self, found: Option<ValueType>) {
        let whole = self.name();
        let tokens = self.teller.tokens;
        let argument = part_extent(tokens, whole.from, Part::Expression);
        let (extent, sentence) = if name_at(tokens, whole.from).is_empty()
            || whole.to < argument.to
        {
            (
                argument,
                "@ is an expression, and a var parameter takes a variable",
            )
        } else {
            (whole, self.why_unchangeable(whole, found))
        };
        self.say(sentence, &[Piece::Tokens(extent)]);
    }

    fn why_unchangeable(&self, whole: Extent, found: Option<ValueType>) -> &'static str {
        let is_argument = is_mark_of(
            self.teller.tokens,
            whole.from.saturating_sub(1),
            &[Mark::OpenParenthesis, Mark::Comma],
        );
        match (self.declarations.meaning_at(whole.from), found) {
            (Some(Meaning::Constant(..)), _) if is_argument =>
                "@ is a constant, and a var parameter takes a variable",
            (Some(Meaning::Constant(..)), _) => "@ is a constant, and keeps its value",
            (Some(Meaning::Predeclared(_)), _) => {
                "@ is a function of the language itself, and can't be assigned"
            }
            (_, None) => "@ is a function, and only its own body gives it a value",
            (Some(Meaning::Parameter(_)), _) => self.why_parameter_stays(whole),
            (_, Some(ValueType::Queue)) => {
                "@ is a queue, and no variable that is assigned: delay and continue change it"
            }
            (_, Some(ValueType::Component(..))) => {
                "@ is a component, and no variable that is assigned: its routines change it"
            }
            _ => "@ is an array of queues or components, and can't be assigned",
        }
    }

    fn why_parameter_stays(&self, whole: Extent) -> &'static str {
        let name = name_at(self.teller.tokens, whole.from);
        if whole.is_long() {
            return "@ is a part of a parameter without var, and keeps its value";
        }
        match self.declarations.find(name, whole.from) {
            Some(one) if !one.routine.is_empty() => {
                "@ is a parameter without var, and the routine can't change it"
            }
            _ => "@ is a parameter of its system type, and keeps its value",
        }
    }

    // -- statements

    /// Says why a value can't be assigned to what stands on the left, which has this type.
    fn put_assignment(&mut self, wanted: ValueType, value: FoundValue) {
        let left = self.name_of(wanted);
        let right = self.expression(value);
        if are_alike(wanted, right.value_type) {
            self.say(
                "@ and @, but of another type",
                &[Piece::Is(left), Piece::Is(right)],
            );
            self.put_own_type(right);
        } else {
            self.say(
                "@ takes @, but @",
                &[
                    Piece::Tokens(left.extent),
                    Piece::Words(phrase(wanted)),
                    Piece::Is(right),
                ],
            );
        }
    }

    /// Says why the variable of a `for`, which has this type, and its bounds do not agree.
    fn put_counting(&mut self, wanted: ValueType, low: FoundValue, high: FoundValue) {
        let counted = self.name_of(wanted);
        if !wanted.is_ordinal() {
            self.put_taken("for", ANY_ORDINAL, counted);
            return;
        }
        let (low, high) = (self.expression(low), self.expression(high));
        self.say(
            "the variable and the bounds of for have to be of one type, but @, @ and @",
            &[Piece::Is(counted), Piece::Is(low), Piece::Is(high)],
        );
    }
}

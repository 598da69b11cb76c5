//! Constants and types as they are written.

ghost use Rattle.std.specs.Prelude.{◌≡◌, IfOk, OnOk};
ghost use Rattle.cp_tree.specs.View.{simple_view, type_view, field_group_view, field_groups_view, field_groups_of};
ghost use Rattle.cp_layout.specs.Kinds.{fields_seen, no_fields};
ghost use Rattle.cp_layout.specs.Layers.{layer_seen, names_seen, find, find_type, Lays, Leads};
ghost use Rattle.cp_layout.specs.LaidTypes as spec;

use crate::expression::{integer, integer_of};
use crate::kinds::RecordType;
use crate::layer::Layouter;
use crate::names::Names;
use cp_symbols::{CellBase, CellRange, CellType, LayoutMeaning, values_of};
use cp_tree::{
    Constant, ConstantKind, FieldGroup, Identifier, Sign, Simple, SimpleKind, Type, TypeKind,
};
use std::alloc::{AllocError, Global};

/// The value of a constant.
#[derive(Clone, Copy, Drop)]
pub struct Number {
    pub base: CellBase,
    pub value: i16,
}

// There is no opposite of the least integer.
fn opposite_number(number: i16) -> i16
    ensures { result ≡ spec.opposite_number number }
{
    if number <= i16::MIN {
        i16::MAX
    } else {
        -number
    }
}

fn number_with_sign(sign: Option<Sign>, number: i16) -> i16
    ensures { result ≡ spec.number_with_sign sign number }
{
    match sign {
        Some(Sign::Minus) => opposite_number(number),
        _ => number,
    }
}

impl<'a> Names<'a> {
    /// A constant.
    pub fn constant(&self, node: &Constant) -> Number
        ensures { (result.base, result.value) ≡ spec.constant_of (names_seen self.now) node.now }
    {
        match &node.kind {
            ConstantKind::Number(sign, number) => Number {
                base: CellBase::Integer,
                value: number_with_sign(*sign, integer(*number)),
            },
            ConstantKind::Character(code) => Number {
                base: CellBase::Char,
                value: i16::from(*code),
            },
            ConstantKind::Name(sign, identifier) => {
                self.named_constant(*sign, identifier.name.as_str())
            }
        }
    }

    fn named_constant(&self, sign: Option<Sign>, name: &str) -> Number
        ensures { (result.base, result.value) ≡ spec.constant_meant sign (find name.now (names_seen self.now)) }
    {
        match self.look(name) {
            Some(LayoutMeaning::Constant(base, number)) => Number {
                base,
                value: number_with_sign(sign, number),
            },
            _ => Number {
                base: CellBase::Integer,
                value: 0,
            },
        }
    }

    /// The labels of an arm of `case`.
    #[tactic(auto, using(crate::proofs::LaidLists::labels_step, crate::proofs::LaidLists::labels_none))]
    pub fn labels(&self, alloc: Global, nodes: &[Constant]) -> Result<Vec<i16>, AllocError>
        ensures { IfOk result (λ v. v.items ≡ spec.labels_of (names_seen self.now) nodes.now) }
    {
        let mut labels = Vec::new(alloc);
        for node in nodes {
            labels.push(self.constant(node).value)?;
        }
        Ok(labels)
    }

    /// The type that a name stands for.
    pub fn named_type(&self, name: &str) -> CellType
        ensures { result ≡ spec.type_meant (find_type name.now (names_seen self.now)) }
    {
        match self.look_type(name) {
            Some(value_type) => value_type,
            None => values_of(CellBase::Integer),
        }
    }
}

impl<'a> Layouter<'a> {
    /// A type, with its enumeration constants declared.
    #[cycle(types)]
    #[tactic(auto, unfolding(crate::specs::LaidTypes::written_type))]
    pub fn value_type(&mut self, alloc: Global, node: &'a Type) -> Result<CellType, AllocError>
        ensures { Lays (λ t. t) (spec.written_type (layer_seen self.old) (type_view node.now)) (layer_seen self.new) result }
    {
        match &node.kind {
            TypeKind::Simple(simple) => self.simple(alloc, simple),
            TypeKind::Array(index, element) => {
                let index = range_of(self.simple(alloc, index)?);
                let element = self.value_type(alloc, element)?;
                self.add_array(index, element)
            }
            TypeKind::Set(base) => Ok(CellType::Set(range_of(self.simple(alloc, base)?))),
            TypeKind::Record(groups, _) => {
                let fields = self.field_groups(alloc, groups)?;
                self.add_record(fields)
            }
        }
    }

    #[cycle(types)]
    #[tactic(auto, using(crate::proofs::LaidParts::field_groups_step, crate::proofs::LaidParts::field_groups_none))]
    fn field_groups(
        &mut self,
        alloc: Global,
        groups: &'a [FieldGroup],
    ) -> Result<RecordType<'a>, AllocError>
        ensures { Lays fields_seen (spec.field_groups (layer_seen self.old) no_fields (field_groups_of (field_groups_view groups.now))) (layer_seen self.new) result }
    {
        let mut fields = RecordType::new(alloc);
        for group in groups {
            fields = self.field_group(alloc, fields, group)?;
        }
        Ok(fields)
    }

    // Fields of one type, besides those before them.
    #[cycle(types)]
    #[tactic(auto, unfolding(crate::specs::LaidTypes::field_group, crate::specs::Layers::layer_seen))]
    fn field_group(
        &mut self,
        alloc: Global,
        before: RecordType<'a>,
        group: &'a FieldGroup,
    ) -> Result<RecordType<'a>, AllocError>
        ensures { Lays fields_seen (spec.field_group (layer_seen self.old) (fields_seen before.entry) (field_group_view group.now)) (layer_seen self.new) result }
    {
        let value_type = self.value_type(alloc, &group.field_type)?;
        let cells = self.around.types.cells_of(value_type);
        let mut fields = before;
        add_fields(&mut fields, &group.names, value_type, cells)?;
        Ok(fields)
    }

    #[tactic(auto, unfolding(crate::specs::Layers::layer_seen))]
    fn add_array(&mut self, index: CellRange, element: CellType) -> Result<CellType, AllocError>
        ensures { Lays (λ t. t) (spec.with_array_type (layer_seen self.old) index element) (layer_seen self.new) result }
    {
        self.around.types.add_array(index, element)
    }

    #[tactic(auto, unfolding(crate::specs::Layers::layer_seen))]
    fn add_record(&mut self, fields: RecordType<'a>) -> Result<CellType, AllocError>
        ensures { Lays (λ t. t) (spec.with_record_type (layer_seen self.old) (fields_seen fields.entry)) (layer_seen self.new) result }
    {
        self.around.types.add_record(fields)
    }

    #[tactic(auto, unfolding(crate::specs::LaidTypes::simple_type, crate::specs::Layers::layer_seen))]
    fn simple(&mut self, alloc: Global, node: &'a Simple) -> Result<CellType, AllocError>
        ensures { Lays (λ t. t) (spec.simple_type (layer_seen self.old) (simple_view node.now)) (layer_seen self.new) result }
    {
        match &node.kind {
            SimpleKind::Name(name) => Ok(self.around.names.named_type(name.as_str())),
            SimpleKind::Enumeration(constants) => self.enumeration(alloc, constants),
            SimpleKind::Subrange(low, high) => {
                let low = self.around.names.constant(low);
                let high = self.around.names.constant(high);
                Ok(CellType::Ordinal(CellRange {
                    base: low.base,
                    low: low.value,
                    high: high.value,
                }))
            }
        }
    }

    #[tactic(auto, unfolding(crate::specs::Layers::layer_seen))]
    fn enumeration(
        &mut self,
        alloc: Global,
        constants: &'a [Identifier],
    ) -> Result<CellType, AllocError>
        ensures { Lays (λ t. t) (spec.enumeration (layer_seen self.old) constants.now) (layer_seen self.new) result }
    {
        let first = u16::try_from(self.lists.constants.len()).unwrap_or(u16::MAX);
        let last = integer_of(constants.len().saturating_sub(1));
        let base = CellBase::Enumeration(first, last);
        self.enumerate(alloc, base, constants)?;
        Ok(values_of(base))
    }

    #[tactic(auto, using(crate::proofs::LaidParts::enumerated_step, crate::proofs::LaidParts::enumerated_none))]
    fn enumerate(
        &mut self,
        alloc: Global,
        base: CellBase,
        constants: &'a [Identifier],
    ) -> Result<(), AllocError>
        ensures { Leads (spec.enumerate (layer_seen self.old) base 0 constants.now) (layer_seen self.new) result }
    {
        for (number, identifier) in constants.iter().enumerate() {
            let meaning = LayoutMeaning::Constant(base, integer_of(number));
            self.add_constant(alloc, identifier, meaning)?;
        }
        Ok(())
    }

    #[tactic(auto, unfolding(crate::specs::Layers::layer_seen))]
    fn add_constant(
        &mut self,
        alloc: Global,
        node: &'a Identifier,
        meaning: LayoutMeaning,
    ) -> Result<(), AllocError>
        ensures { Leads (spec.with_constant (layer_seen self.old) node.now.name meaning) (layer_seen self.new) result }
    {
        let name = node.name.as_str();
        self.around.names.add(name, meaning)?;
        self.lists.constants.push(String::from_str(alloc, name)?)?;
        Ok(())
    }
}

// The values of an ordinal type.
fn range_of(value_type: CellType) -> CellRange
    ensures { result ≡ spec.range_of value_type }
{
    match value_type {
        CellType::Ordinal(range) => range,
        _ => CellBase::Integer.whole(),
    }
}

#[tactic(auto, using(crate::proofs::LaidParts::fields_step, crate::proofs::LaidParts::fields_none))]
fn add_fields<'a>(
    fields: &mut RecordType<'a>,
    names: &'a [Identifier],
    value_type: CellType,
    cells: usize,
) -> Result<(), AllocError>
    ensures { OnOk result (fields_seen fields.new ≡ spec.fields_of_type (fields_seen fields.old) names.now value_type cells) }
{
    for identifier in names {
        fields.add(&identifier.name, value_type, cells)?;
    }
    Ok(())
}

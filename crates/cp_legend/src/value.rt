//! Values in words.

ghost use Rattle.std.specs.Prelude.{◌≡◌, ◌++◌, [], map, IfOk, OnOk};
ghost use Rattle.std.specs.String.{string_bytes};
ghost use Rattle.cp_legend.specs.Values.{member_seen, members_of, value_seen, values_of};
ghost use Rattle.cp_legend.specs.Written.{members_text, value_text, values_text};

use std::alloc::{AllocError, Global};

/// A value as a reader of the source knows it.
#[cycle(value)]
#[derive(Drop)]
pub enum SourceValue {
    Integer(i16),
    /// A truth value, a character, an enumeration constant, or the place that a `var` parameter names.
    Named(String),
    /// The elements of an array.
    List(Vec<SourceValue>),
    /// The members of a set.
    Set(Vec<SourceValue>),
    /// The fields of a record.
    Record(Vec<Member>),
}

/// A field of a record.
#[cycle(value)]
#[derive(Drop)]
pub struct Member {
    pub name: String,
    pub value: SourceValue,
}

impl SourceValue {
    /// Appends the value: an array as `[1, 2]`, a set as `{1, 2}`, a record as `(x: 1, y: 2)`.
    #[cycle(value_text)]
    #[tactic(auto, using(std::proofs::lemmas::List::append_assoc))]
    pub fn push_to(&self, text: &mut String) -> Result<(), AllocError>
        ensures { OnOk result (string_bytes text.new ≡ string_bytes text.old ++ value_text (value_seen self.now)) }
    {
        match self {
            SourceValue::Integer(number) => write!(text, "{number}"),
            SourceValue::Named(name) => text.push_str(name.as_str()),
            SourceValue::List(items) => {
                text.push_str("[")?;
                push_all(items, text)?;
                text.push_str("]")
            }
            SourceValue::Set(items) => {
                text.push_str("{")?;
                push_all(items, text)?;
                text.push_str("}")
            }
            SourceValue::Record(members) => {
                text.push_str("(")?;
                push_members(members, text)?;
                text.push_str(")")
            }
        }
    }

    /// The value as a text.
    pub fn text(&self, alloc: Global) -> Result<String, AllocError>
        ensures { IfOk result (λ t. string_bytes t ≡ value_text (value_seen self.now)) }
    {
        let mut text = String::new(alloc);
        self.push_to(&mut text)?;
        Ok(text)
    }
}

#[cycle(value_text)]
#[tactic(auto, using(std::proofs::lemmas::List::append_assoc))]
fn push_all(items: &[SourceValue], text: &mut String) -> Result<(), AllocError>
    ensures { OnOk result (string_bytes text.new ≡ string_bytes text.old ++ values_text [] (values_of (map value_seen items.now))) }
{
    let mut before = "";
    for item in items {
        text.push_str(before)?;
        item.push_to(text)?;
        before = ", ";
    }
    Ok(())
}

#[cycle(value_text)]
#[tactic(auto, using(std::proofs::lemmas::List::append_assoc))]
fn push_members(members: &[Member], text: &mut String) -> Result<(), AllocError>
    ensures { OnOk result (string_bytes text.new ≡ string_bytes text.old ++ members_text [] (members_of (map member_seen members.now))) }
{
    let mut before = "";
    for member in members {
        text.push_str(before)?;
        text.push_str(member.name.as_str())?;
        text.push_str(": ")?;
        member.value.push_to(text)?;
        before = ", ";
    }
    Ok(())
}

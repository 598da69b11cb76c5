//! Displayed values.

/// A displayed value.
#[derive(Clone, Copy, PartialEq, Eq)]
pub enum Shown {
    Integer(i16),
    /// A character's code.
    Char(u8),
    Truth(bool),
    /// The number of an enumeration constant.
    Constant(u16),
}

impl Default for Shown {
    fn default() -> Shown {
        Shown::Integer(0)
    }
}

//! What a page is made of.

use cp_legend::Legend;
use cp_run::Limits;
use cp_slots::Resolved;

/// How many states there may be in all, or in a layer where schedules are counted.
pub const MOST_STATES: u32 = 200_000;

/// Which schedules a page is about.
#[derive(Clone, Copy, PartialEq, Eq)]
pub enum Length {
    /// Those of up to K choices, which are counted.
    Limited,
    /// Those of any length: which ends are possible, and who may wait for ever.
    Any,
}

/// A program, and how much of it a page has.
#[derive(Clone, Copy)]
pub struct PageSubject<'a> {
    pub program: &'a Resolved,
    pub legend: &'a Legend,
    pub limits: Limits,
    pub length: Length,
    /// How many states are expanded.
    pub states: u32,
    /// The bytes of the source.
    pub source: &'a [u8],
    /// The schedule that is laid out when the page is opened.
    pub word: &'a [u8],
    /// How many numbers at its end are a round that can be gone again and again.
    pub round: usize,
}

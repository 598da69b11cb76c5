//! Statuses, frames, options and lines from their numbers.

ghost use Rattle.std.specs.Prelude.{◌≡◌, ◌≤◌, ℕ, length, Option};
ghost use Rattle.cp_parts.specs.Coded.{frame_code, option_code, option_list, status_code};
ghost use Rattle.cp_parts.specs.Taken.{IsByteStatus};

use arrayvec::ArrayVec;
use cp_machine::Status;
use cp_store::Frame;

/// The monitor of a number, or none.
#[inline(always)]
pub fn option_of(number: u32) -> Option<u8>
    requires { number ≤ 256 }
    ensures { option_code result ≡ number }
{
    if number == 0 {
        None
    } else {
        Some((number - 1) as u8)
    }
}

/// The process of a list, or none.
#[inline(always)]
pub fn holder_of(list: &[u8]) -> Option<u8>
    ensures { (x : Option ℕ) → list.now ≡ option_list x → result ≡ x }
{
    if list.is_empty() { None } else { Some(list[0]) }
}

/// A line from its processes.
#[inline(always)]
pub fn line_of(list: &[u8]) -> ArrayVec<u8, 16>
    requires { length list.now ≤ 16 }
    ensures { result.items ≡ list.now }
{
    let mut line = ArrayVec::new();
    for at in 0..list.len() {
        line.push(list[at]);
    }
    line
}

/// The status of two numbers.
#[inline(always)]
pub fn status_of(numbers: &[usize]) -> Status
    requires long { length numbers.now ≡ 2 }
    requires status { (s : Status) × (numbers.now ≡ status_code s) × IsByteStatus s }
    ensures { (s : Status) → numbers.now ≡ status_code s → result ≡ s }
{
    match numbers[0] {
        0 => Status::Unstarted,
        1 => Status::Ended,
        2 => Status::Ready,
        3 => Status::AtGate(numbers[1] as u8),
        _ => Status::Delayed(numbers[1]),
    }
}

/// The frame of five numbers.
#[inline(always)]
pub fn frame_of(numbers: &[usize]) -> Frame
    requires { length numbers.now ≡ 5 }
    ensures { frame_code result ≡ numbers.now }
{
    Frame {
        routine: numbers[0],
        component: numbers[1],
        own: numbers[2],
        base: numbers[3],
        references: numbers[4],
    }
}

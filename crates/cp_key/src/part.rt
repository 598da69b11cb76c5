//! The parts of a state as bytes.

ghost use Rattle.std.specs.Prelude.{◌≡◌, ◌∷◌, ◌++◌, IfOk, IsTrue};
ghost use Rattle.cp_key.specs.Numbers.{number_key, short_key};
ghost use Rattle.cp_key.specs.Key.{IsSmall, address_key, discipline_key, entry_key, frame_key, gates_key, option_key, phase_key, shown_key, signals_key, status_key};

use crate::keyed::Keyed;
use crate::number::{freeze_short, thaw_short};
use crate::reader::KeyReader;
use cp_machine::{Discipline, Entry, Gates, Phase, Shown, Signals, Status};
use cp_store::{Address, Frame};
use std::alloc::AllocError;

// A byte that tells what follows, and then that.
#[inline(always)]
fn freeze_after<T: Keyed>(first: u8, rest: T, key: &mut Vec<u8>) -> Result<(), AllocError>
    ensures { IfOk result (λ _. key.new.items ≡ key.old.items ++ first ∷ T.key_of rest) }
{
    key.push(first)?;
    rest.freeze(key)
}

impl<T: Keyed> Keyed for Option<T> {
    ghost key_of = { option_key T.key_of };

    #[inline(always)]
    fn freeze(self, key: &mut Vec<u8>) -> Result<(), AllocError> {
        match self {
            None => 0u8.freeze(key),
            Some(x) => freeze_after(1, x, key),
        }
    }

    #[inline(always)]
    fn thaw(key: &mut KeyReader) -> Option<T> {
        match key.byte() {
            0 => None,
            _ => Some(T::thaw(key)),
        }
    }
}

impl Keyed for Phase {
    ghost key_of = { phase_key };

    #[inline(always)]
    fn freeze(self, key: &mut Vec<u8>) -> Result<(), AllocError> {
        key.push(match self {
            Phase::Uninitialised => 0,
            Phase::Initialising => 1,
            Phase::Initialised => 2,
        })?;
        Ok(())
    }

    #[inline(always)]
    fn thaw(key: &mut KeyReader) -> Phase {
        match key.byte() {
            0 => Phase::Uninitialised,
            1 => Phase::Initialising,
            _ => Phase::Initialised,
        }
    }

    #[inline(always)]
    fn short(self) -> Option<u8> {
        Some(match self {
            Phase::Uninitialised => 0,
            Phase::Initialising => 1,
            Phase::Initialised => 2,
        })
    }

    #[inline(always)]
    fn of_byte(byte: u8) -> Option<Phase> {
        match byte {
            0 => Some(Phase::Uninitialised),
            1 => Some(Phase::Initialising),
            _ => Some(Phase::Initialised),
        }
    }
}

impl Keyed for Gates {
    ghost key_of = { gates_key };

    #[inline(always)]
    fn freeze(self, key: &mut Vec<u8>) -> Result<(), AllocError> {
        key.push(match self {
            Gates::First => 0,
            Gates::Any => 1,
        })?;
        Ok(())
    }

    #[inline(always)]
    fn thaw(key: &mut KeyReader) -> Gates {
        match key.byte() {
            0 => Gates::First,
            _ => Gates::Any,
        }
    }
}

impl Keyed for Signals {
    ghost key_of = { signals_key };

    #[inline(always)]
    fn freeze(self, key: &mut Vec<u8>) -> Result<(), AllocError> {
        key.push(match self {
            Signals::Return => 0,
            Signals::Continue => 1,
            Signals::Wait => 2,
        })?;
        Ok(())
    }

    #[inline(always)]
    fn thaw(key: &mut KeyReader) -> Signals {
        match key.byte() {
            0 => Signals::Return,
            1 => Signals::Continue,
            _ => Signals::Wait,
        }
    }
}

impl Keyed for Discipline {
    ghost key_of = { discipline_key };

    #[inline(always)]
    fn freeze(self, key: &mut Vec<u8>) -> Result<(), AllocError> {
        self.gates.freeze(key)?;
        self.signals.freeze(key)
    }

    #[inline(always)]
    fn thaw(key: &mut KeyReader) -> Discipline {
        let gates = Gates::thaw(key);
        let signals = Signals::thaw(key);
        Discipline { gates, signals }
    }
}

impl Keyed for Address {
    ghost key_of = { address_key };

    #[inline(always)]
    fn freeze(self, key: &mut Vec<u8>) -> Result<(), AllocError> {
        match self {
            Address::Permanent(cell) => freeze_after(0, cell, key),
            Address::Local(cell) => freeze_after(1, cell, key),
        }
    }

    #[inline(always)]
    fn thaw(key: &mut KeyReader) -> Address {
        match key.byte() {
            0 => Address::Permanent(usize::thaw(key)),
            _ => Address::Local(usize::thaw(key)),
        }
    }
}

// Whether each number of a frame is one byte of its key.
#[inline(always)]
fn is_small(frame: &Frame) -> bool
    ensures { IsTrue result → IsSmall frame.now }
{
    frame.routine < 254
        && frame.component < 254
        && frame.own < 254
        && frame.base < 254
        && frame.references < 254
}

#[inline(always)]
fn freeze_small(frame: &Frame, key: &mut Vec<u8>) -> Result<(), AllocError>
    requires { IsSmall frame.now }
    ensures { IfOk result (λ _. key.new.items ≡ key.old.items ++ frame_key frame.now) }
{
    key.extend_from_slice(&[
        frame.routine as u8,
        frame.component as u8,
        frame.own as u8,
        frame.base as u8,
        frame.references as u8,
    ])
}

#[cold]
#[inline(never)]
fn freeze_large(frame: &Frame, key: &mut Vec<u8>) -> Result<(), AllocError>
    ensures { IfOk result (λ _. key.new.items ≡ key.old.items ++ frame_key frame.now) }
{
    frame.routine.freeze(key)?;
    frame.component.freeze(key)?;
    frame.own.freeze(key)?;
    frame.base.freeze(key)?;
    frame.references.freeze(key)
}

impl Keyed for Frame {
    ghost key_of = { frame_key };

    #[inline(always)]
    fn freeze(self, key: &mut Vec<u8>) -> Result<(), AllocError> {
        if is_small(&self) {
            freeze_small(&self, key)
        } else {
            freeze_large(&self, key)
        }
    }

    #[inline(always)]
    fn thaw(key: &mut KeyReader) -> Frame {
        Frame {
            routine: usize::thaw(key),
            component: usize::thaw(key),
            own: usize::thaw(key),
            base: usize::thaw(key),
            references: usize::thaw(key),
        }
    }
}

fn freeze_both<T: Keyed, U: Keyed>(first: T, second: U, key: &mut Vec<u8>) -> Result<(), AllocError>
    ensures { IfOk result (λ _. key.new.items ≡ key.old.items ++ (T.key_of first ++ U.key_of second)) }
{
    first.freeze(key)?;
    second.freeze(key)
}

// The rest of a list.
#[inline(always)]
fn freeze_rest(item: usize, key: &mut Vec<u8>) -> Result<(), AllocError>
    ensures { IfOk result (λ _. key.new.items ≡ key.old.items ++ 0 ∷ number_key item) }
{
    if item < 254 {
        key.extend_from_slice(&[0, item as u8])
    } else {
        key.push(0)?;
        item.freeze(key)
    }
}

impl Keyed for Entry {
    ghost key_of = { entry_key };

    #[inline(always)]
    fn freeze(self, key: &mut Vec<u8>) -> Result<(), AllocError> {
        match self {
            Entry::Rest(item) => freeze_rest(item, key),
            Entry::Successor(item, value, last) => {
                freeze_after(1, item, key)?;
                freeze_both(value, last, key)
            }
            Entry::Return(caller, slot, monitor) => {
                freeze_after(2, caller, key)?;
                freeze_both(slot, monitor, key)
            }
            Entry::InitEnd(caller, component) => {
                freeze_after(3, caller, key)?;
                component.freeze(key)
            }
        }
    }

    #[inline(always)]
    fn thaw(key: &mut KeyReader) -> Entry {
        match key.byte() {
            0 => Entry::Rest(usize::thaw(key)),
            1 => Entry::Successor(usize::thaw(key), i16::thaw(key), i16::thaw(key)),
            2 => Entry::Return(Frame::thaw(key), Option::thaw(key), Option::thaw(key)),
            _ => Entry::InitEnd(Frame::thaw(key), usize::thaw(key)),
        }
    }
}

impl Keyed for Status {
    ghost key_of = { status_key };

    #[inline(always)]
    fn freeze(self, key: &mut Vec<u8>) -> Result<(), AllocError> {
        match self {
            Status::Unstarted => 0u8.freeze(key),
            Status::Ready => 1u8.freeze(key),
            Status::Ended => 2u8.freeze(key),
            Status::AtGate(monitor) => freeze_after(3, monitor, key),
            Status::Delayed(cell) => freeze_after(4, cell, key),
        }
    }

    #[inline(always)]
    fn thaw(key: &mut KeyReader) -> Status {
        match key.byte() {
            0 => Status::Unstarted,
            1 => Status::Ready,
            2 => Status::Ended,
            3 => Status::AtGate(u8::thaw(key)),
            _ => Status::Delayed(usize::thaw(key)),
        }
    }
}

#[inline(always)]
fn freeze_constant(number: u16, key: &mut Vec<u8>) -> Result<(), AllocError>
    ensures { IfOk result (λ _. key.new.items ≡ key.old.items ++ 4 ∷ short_key number) }
{
    key.push(4)?;
    freeze_short(number, key)
}

impl Keyed for Shown {
    ghost key_of = { shown_key };

    #[inline(always)]
    fn freeze(self, key: &mut Vec<u8>) -> Result<(), AllocError> {
        match self {
            Shown::Integer(number) => freeze_after(0, number, key),
            Shown::Char(code) => freeze_after(1, code, key),
            Shown::Truth(false) => 2u8.freeze(key),
            Shown::Truth(true) => 3u8.freeze(key),
            Shown::Constant(number) => freeze_constant(number, key),
        }
    }

    #[inline(always)]
    fn thaw(key: &mut KeyReader) -> Shown {
        match key.byte() {
            0 => Shown::Integer(i16::thaw(key)),
            1 => Shown::Char(u8::thaw(key)),
            2 => Shown::Truth(false),
            3 => Shown::Truth(true),
            _ => Shown::Constant(thaw_short(key)),
        }
    }
}

//! Readers and writers that take or give one byte at a time, and fail at a call of choice.

use std::alloc::Global;
use std::io::{Error, ErrorKind, Read, Result, Write};

/// Gives one byte a read. The read of number `fails_at`, counted from 1, fails.
#[derive(Drop)]
pub struct OneByteReader<'a> {
    rest: &'a [u8],
    calls: u32,
    fails_at: u32,
}

impl<'a> OneByteReader<'a> {
    pub fn new(bytes: &'a [u8], fails_at: u32) -> OneByteReader<'a> {
        OneByteReader {
            rest: bytes,
            calls: 0,
            fails_at,
        }
    }
}

impl<'a> Read for OneByteReader<'a> {
    fn read(&mut self, buffer: &mut [u8]) -> Result<usize> {
        self.calls = self.calls.saturating_add(1);
        if self.calls == self.fails_at {
            return Err(Error::from(ErrorKind::Other));
        }
        match self.rest.split_first() {
            Some((byte, rest)) => {
                if buffer.is_empty() {
                    return Ok(0);
                }
                buffer[0] = *byte;
                self.rest = rest;
                Ok(1)
            }
            None => Ok(0),
        }
    }
}

/// Gives blanks, as many as there is room for, and never ends.
#[derive(Drop)]
pub struct EndlessReader;

impl Read for EndlessReader {
    fn read(&mut self, buffer: &mut [u8]) -> Result<usize> {
        buffer.fill(b' ');
        Ok(buffer.len())
    }
}

/// What a writer does at the call of its choice.
#[derive(Clone, Copy)]
pub enum FakeRefusal {
    Fails,
    TakesNothing,
}

/// Takes one byte a write. The write of number `refuses_at`, counted from 1, is refused.
#[derive(Drop)]
pub struct OneByteWriter {
    pub taken: Vec<u8>,
    calls: u32,
    refuses_at: u32,
    refusal: FakeRefusal,
}

impl OneByteWriter {
    pub fn new(alloc: Global, refuses_at: u32, refusal: FakeRefusal) -> OneByteWriter {
        OneByteWriter {
            taken: Vec::new(alloc),
            calls: 0,
            refuses_at,
            refusal,
        }
    }
}

impl Write for OneByteWriter {
    fn write(&mut self, bytes: &[u8]) -> Result<usize> {
        self.calls = self.calls.saturating_add(1);
        if self.calls == self.refuses_at {
            return match self.refusal {
                FakeRefusal::Fails => Err(Error::from(ErrorKind::Other)),
                FakeRefusal::TakesNothing => Ok(0),
            };
        }
        match bytes.first() {
            Some(byte) => match self.taken.push(*byte) {
                Ok(()) => Ok(1),
                Err(_) => Err(Error::from(ErrorKind::OutOfMemory)),
            },
            None => Ok(0),
        }
    }

    fn flush(&mut self) -> Result<()> {
        Ok(())
    }
}

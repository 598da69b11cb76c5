//! The program over memory: what it answers to words and a source.
ghost use Rattle.std.specs.Prelude.{◌≡◌};

use crate::fakes::{EndlessReader, FakeRefusal, OneByteReader, OneByteWriter};
use cp_tool::{Options, Status, Wrapped, explore_stream};
use std::alloc::Global;
use std::io::Read;
use std::marker::Brand;
use std::sync::ledger::{Blank, Ledger};
use std::thread::Threads;

/// At which call a reader and a writer of one byte at a time refuse, counted from 1; 0 for never.
#[derive(Clone, Copy)]
pub struct Refusals {
    pub read: u32,
    pub write: u32,
    pub refusal: FakeRefusal,
}

/// No call is refused.
pub const NEVER: Refusals = Refusals {
    read: 0,
    write: 0,
    refusal: FakeRefusal::Fails,
};

/// What was written, and with which status.
#[derive(Drop)]
pub struct ToolAnswer {
    pub status: Status,
    pub text: Vec<u8>,
}

impl ToolAnswer {
    /// Whether this was written, with this status.
    pub fn is(&self, code: u8, text: &[u8]) -> bool {
        self.status.code == code && self.text.as_slice() == text
    }
}

/// What the program answers to a source with these options.
pub fn answer_by<X: Threads + Sync>(
    rt: &X,
    alloc: Global,
    options: &Options,
    source: &[u8],
    refusals: Refusals,
) -> ToolAnswer {
    let reader = OneByteReader::new(source, refusals.read);
    let writer = OneByteWriter::new(alloc, refusals.write, refusals.refusal);
    let (reads, writes) = (Blank::new(3), Blank::new(3));
    answer_of::<X, OneByteReader<'_>, Brand, Brand>(
        rt, alloc, options, reader, writer, reads, writes,
    )
}

/// What the program answers to a source that never ends.
pub fn answer_to_endless<X: Threads + Sync>(
    rt: &X,
    alloc: Global,
    options: &Options,
) -> ToolAnswer {
    let writer = OneByteWriter::new(alloc, NEVER.write, NEVER.refusal);
    let (reads, writes) = (Blank::new(3), Blank::new(3));
    answer_of::<X, EndlessReader, Brand, Brand>(
        rt,
        alloc,
        options,
        EndlessReader,
        writer,
        reads,
        writes,
    )
}

fn answer_of<X: Threads + Sync, R: Read + Drop, A: Ledger, B: Ledger>(
    rt: &X,
    alloc: Global,
    options: &Options,
    reader: R,
    writer: OneByteWriter,
    reads: Blank,
    writes: Blank,
) -> ToolAnswer
    requires read_name { reads.name ≡ A.name }
    requires read_parts { (reads.parts ≡ A.parts) × (A.parts ≡ 3) }
    requires write_name { writes.name ≡ B.name }
    requires write_parts { (writes.parts ≡ B.parts) × (B.parts ≡ 3) }
{
    let mut source: Wrapped<R, A> = Wrapped::new(reader, reads);
    let mut sink: Wrapped<OneByteWriter, B> = Wrapped::new(writer, writes);
    let status = explore_stream(rt, alloc, options, &mut source, &mut sink);
    ToolAnswer {
        status,
        text: sink.into_inner().taken,
    }
}

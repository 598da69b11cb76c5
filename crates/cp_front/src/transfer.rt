//! Reading a whole source and writing a whole text.
ghost use Rattle.std.specs.Prelude.{◌≡◌, ◌+◌, ◌≤◌, ◌<◌, ◌++◌, ℕ, List, take, length, IfOk, IfSome};
ghost use Rattle.std.specs.Io.KnownBytes.{Appends};
ghost use Rattle.cp_front.specs.Calls.{one_if_failed, one_if_refused};
ghost use Rattle.cp_front.specs.Transfer.{code_of_fault, one_if_read_failed};

use crate::stream::{Failed, Sink, Source};
use std::alloc::{AllocError, Global};

/// One byte more than a source may have, so that a longer one is seen.
pub const MOST_BYTES: usize = 65_536;

/// Why no source came.
#[derive(Drop)]
pub enum ReadFault {
    Memory,
    Failed,
}

impl From<AllocError> for ReadFault {
    ghost use Rattle.std.specs.Prelude.{◌≡◌};
    ghost use Rattle.cp_front.specs.declared.transfer.ReadFault.TheVariants.{Memory};

    ghost from_gives = { λ _ e. e ≡ Memory };

    fn from(_: AllocError) -> ReadFault {
        ReadFault::Memory
    }
}

impl From<Failed> for ReadFault {
    ghost use Rattle.std.specs.Prelude.{◌≡◌};
    ghost use Rattle.cp_front.specs.declared.transfer.ReadFault.TheVariants.{Failed as failed};

    ghost from_gives = { λ _ e. e ≡ failed };

    fn from(_: Failed) -> ReadFault {
        ReadFault::Failed
    }
}

/// Why a source has no answer, or not all of it was written.
#[derive(Clone, Copy, PartialEq, Eq)]
pub enum StreamFault {
    /// Memory was refused.
    Memory,
    /// A read failed.
    Read,
    /// A write failed or took nothing.
    Write,
}

impl StreamFault {
    /// The exit code: 3 memory refused, 4 read or write fault.
    pub fn code(self) -> u8
        ensures { result ≡ code_of_fault self }
    {
        match self {
            StreamFault::Memory => 3,
            StreamFault::Read | StreamFault::Write => 4,
        }
    }
}

/// All bytes of the source, or the first `most` of them, by at most that many reads.
pub fn read_source<R: Source>(
    alloc: Global,
    source: &mut R,
    most: usize,
) -> Result<Vec<u8>, ReadFault>
    ensures bytes { IfOk result (λ text. IfSome (R.remaining source.old) (λ bytes. text.items ≡ take most bytes)) }
    ensures reads { R.reads source.new ≤ R.reads source.old + most }
    ensures failed { R.failed_reads source.new ≡ R.failed_reads source.old + one_if_read_failed result }
{
    let mut text = zeros(alloc, most)?;
    let filled = fill(source, &mut text)?;
    text.truncate(filled);
    Ok(text)
}

/// Reads to the end of the source or of the buffer, and answers how many bytes came.
fn fill<R: Source>(source: &mut R, buffer: &mut [u8]) -> Result<usize, Failed>
    ensures within { IfOk result (λ n. n ≤ length buffer.new) }
    ensures bytes { IfOk result (λ n. IfSome (R.remaining source.old) (λ bytes. take n buffer.new ≡ take (length buffer.new) bytes)) }
    ensures reads { R.reads source.new ≤ R.reads source.old + length buffer.new }
    ensures failed { R.failed_reads source.new ≡ R.failed_reads source.old + one_if_failed result }
{
    let mut filled = 0;
    for _turn in 0..buffer.len() {
        match source.read(&mut buffer[filled..]) {
            Ok(0) => break,
            Ok(n) => filled += n,
            Err(failed) => return Err(failed),
        }
    }
    Ok(filled)
}

fn zeros(alloc: Global, count: usize) -> Result<Vec<u8>, AllocError>
    ensures { IfOk result (λ v. length v.items ≡ count) }
{
    vec![in alloc; 0u8; count]
}

/// Writes the whole text; a write that takes no byte counts as failed.
pub fn write_text<W: Sink>(sink: &mut W, text: &[u8]) -> Result<(), Failed>
    ensures whole { IfOk result (λ _. Appends (W.contents sink.old) (W.contents sink.new) text.entry.now) }
    ensures prefix { (done : List ℕ) × (rest : List ℕ) × (text.entry.now ≡ done ++ rest) × Appends (W.contents sink.old) (W.contents sink.new) done }
    ensures faults { W.failed_writes sink.new + W.empty_writes sink.new ≡ W.failed_writes sink.old + W.empty_writes sink.old + one_if_refused result }
{
    let mut rest = text;
    for _turn in 0..text.len() {
        if rest.is_empty() {
            break;
        }
        match sink.write(rest) {
            Ok(0) => return Err(Failed),
            Ok(n) => rest = &rest[n..],
            Err(_) => return Err(Failed),
        }
    }
    Ok(())
}

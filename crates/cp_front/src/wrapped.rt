//! A reader or a writer of std, with counts of its calls.
ghost use Rattle.std.specs.Prelude.{◌≡◌, ◌<◌};

use crate::stream::{Failed, Sink, Source};
use std::io::{Read, Write};
use std::sync::ledger::{Blank, Book, Ledger, Share};

/// A reader or a writer with three counts that take no bytes: calls, failed calls, and writes that took nothing.
/// Each count is the amount of a share of one ledger.
#[derive(Drop)]
pub struct Wrapped<T: Drop, L: Ledger> {
    inner: T,
    book: Book<L>,
    calls: Share<L>,
    failed: Share<L>,
    empty: Share<L>,
    ghost calls_part: { 0 < calls.parts },
    ghost failed_part: { 0 < failed.parts },
    ghost empty_part: { 0 < empty.parts },
}

impl<T: Drop, L: Ledger> Wrapped<T, L> {
    /// The reader or writer, with counts of 0.
    pub fn new(inner: T, blank: Blank) -> Wrapped<T, L>
        requires name { blank.name ≡ L.name }
        requires parts { blank.parts ≡ L.parts }
        requires three { L.parts ≡ 3 }
        ensures inner { result.inner ≡ inner }
        ensures calls { result.calls.amount ≡ 0 }
        ensures failed { result.failed.amount ≡ 0 }
        ensures empty { result.empty.amount ≡ 0 }
    {
        let (book, mut calls) = blank.open();
        let failed = calls.split_off(1, 0);
        let empty = calls.split_off(1, 0);
        Wrapped {
            inner,
            book,
            calls,
            failed,
            empty,
        }
    }

    /// The reader or writer itself.
    pub fn into_inner(self) -> T
        ensures { result ≡ self.inner }
    {
        self.inner
    }
}

impl<T: Read + Drop, L: Ledger> Source for Wrapped<T, L> {
    ghost remaining = { λ w. T.remaining w.inner };

    ghost reads = { λ w. w.calls.amount };

    ghost failed_reads = { λ w. w.failed.amount };

    fn read(&mut self, buffer: &mut [u8]) -> Result<usize, Failed> {
        self.book.add(&mut self.calls, 1);
        match self.inner.read(buffer) {
            Ok(count) => Ok(count),
            Err(_) => {
                self.book.add(&mut self.failed, 1);
                Err(Failed)
            }
        }
    }
}

impl<T: Write + Drop, L: Ledger> Sink for Wrapped<T, L> {
    ghost contents = { λ w. T.contents w.inner };

    ghost writes = { λ w. w.calls.amount };

    ghost failed_writes = { λ w. w.failed.amount };

    ghost empty_writes = { λ w. w.empty.amount };

    fn write(&mut self, bytes: &[u8]) -> Result<usize, Failed> {
        self.book.add(&mut self.calls, 1);
        match self.inner.write(bytes) {
            Ok(0) => {
                if !bytes.is_empty() {
                    self.book.add(&mut self.empty, 1);
                }
                Ok(0)
            }
            Ok(count) => Ok(count),
            Err(_) => {
                self.book.add(&mut self.failed, 1);
                Err(Failed)
            }
        }
    }
}

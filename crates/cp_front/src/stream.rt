//! Where a program's text comes from, and where the answer goes.
ghost use Rattle.std.specs.Prelude.{◌≡◌, ℕ, ◌+◌, ◌≤◌, List, length, IfOk, None};
ghost use Rattle.std.specs.declared.option.Option.{Option};
ghost use Rattle.std.specs.Io.KnownBytes.{ReadConsumes, WriteAppends};
ghost use Rattle.cp_front.specs.Calls.{one_if_failed, one_if_nothing};

/// A read or a write that failed.
#[derive(Clone, Copy, PartialEq, Eq)]
pub struct Failed;

/// A reader that counts its calls.
pub trait Source {
    // The bytes that reads will give from here on, where they are known.
    ghost remaining: { Self → Option (List ℕ) } = { λ _. None };
    // How many reads were made, and how many of them failed.
    ghost reads: { Self → ℕ };

    ghost failed_reads: { Self → ℕ };

    /// Reads some bytes into the buffer, and answers how many; 0 only at the end, or where the buffer is empty.
    fn read(&mut self, buffer: &mut [u8]) -> Result<usize, Failed>
        ensures bound { IfOk result (λ n. n ≤ length buffer.new) }
        ensures bytes { ReadConsumes (remaining self.old) (remaining self.new) result buffer.new }
        ensures reads { reads self.new ≡ reads self.old + 1 }
        ensures failed { failed_reads self.new ≡ failed_reads self.old + one_if_failed result };
}

/// A writer that counts its calls.
pub trait Sink {
    // The bytes that the writer holds, where they are known.
    ghost contents: { Self → Option (List ℕ) } = { λ _. None };
    // How many writes were made, how many of them failed, and how many of one byte or more took none.
    ghost writes: { Self → ℕ };

    ghost failed_writes: { Self → ℕ };

    ghost empty_writes: { Self → ℕ };

    /// Writes some of the bytes, from the first on, and answers how many.
    fn write(&mut self, bytes: &[u8]) -> Result<usize, Failed>
        ensures bound { IfOk result (λ n. n ≤ length bytes.now) }
        ensures bytes { WriteAppends (contents self.old) (contents self.new) result bytes.now }
        ensures writes { writes self.new ≡ writes self.old + 1 }
        ensures failed { failed_writes self.new ≡ failed_writes self.old + one_if_failed result }
        ensures nothing { empty_writes self.new ≡ empty_writes self.old + one_if_nothing bytes.now result };
}

//! Bytes that are read one after another.

ghost use Rattle.std.specs.Prelude.{◌≡◌, ◌∷◌, ℕ, List};

/// The bytes of a key that are not read yet.
#[derive(Drop)]
pub struct KeyReader<'a> {
    pub bytes: &'a [u8],
}

impl KeyReader<'_> {
    /// The next byte; 0 after the last.
    #[inline(always)]
    pub fn byte(&mut self) -> u8
        ensures { (byte : ℕ) (more : List ℕ) → self.old.bytes.now ≡ byte ∷ more → (result ≡ byte) × (self.new.bytes.now ≡ more) }
    {
        match self.bytes.split_first() {
            Some((first, rest)) => {
                self.bytes = rest;
                *first
            }
            None => 0,
        }
    }
}

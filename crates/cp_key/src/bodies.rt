//! Parts of a state, as they stand in its key.

use arrayvec::ArrayVec;

/// What is known of a state: parts of its key. A list of which nothing is known has no bytes.
#[derive(Drop)]
pub struct Parts<'a> {
    pub permanents: &'a [u8],
    pub bindings: &'a [u8],
    /// The bodies of its processes.
    pub bodies: Bodies<'a>,
}

impl<'a> Parts<'a> {
    ghost use Rattle.std.specs.Prelude.{◌≡◌, []};

    /// Nothing is known.
    pub fn none() -> Parts<'a>
        ensures permanents { result.permanents.now ≡ [] }
        ensures bindings { result.bindings.now ≡ [] }
        ensures bodies { result.bodies.rests.items ≡ [] }
    {
        Parts {
            permanents: &[],
            bindings: &[],
            bodies: Bodies::of(&[]),
        }
    }
}

/// The bodies of the processes of a state in its key, one after another.
#[derive(Drop)]
pub struct Bodies<'a> {
    // The key from the first body on.
    pub key: &'a [u8],
    // How many bytes of it are left from the body of each process on, and after the last.
    pub rests: ArrayVec<usize, 17>,
}

impl<'a> Bodies<'a> {
    ghost use Rattle.std.specs.Prelude.{◌≡◌, ◌<◌, ◌≤◌, ◌∷◌, ◌++◌, [], ℕ, List, length};
    ghost use Rattle.cp_key.specs.Known.{rest_at};

    /// None is known yet, of a key from the first body on.
    #[inline(always)]
    pub fn of(key: &'a [u8]) -> Bodies<'a>
        ensures key { result.key.now ≡ key.now }
        ensures rests { result.rests.items ≡ [] }
    {
        Bodies {
            key,
            rests: ArrayVec::new(),
        }
    }

    /// The key from one more body on.
    #[inline(always)]
    pub fn add(&mut self, rest: &[u8])
        requires { length self.old.rests.items < 17 }
        ensures key { self.new.key.now ≡ self.old.key.now }
        ensures rests { self.new.rests.items ≡ self.old.rests.items ++ length rest.now ∷ [] }
    {
        self.rests.push(rest.len());
    }

    /// The bodies of the processes from one on, up to another; nothing where they are not known.
    #[inline(always)]
    pub fn between(&self, first: usize, end: usize) -> &'a [u8]
        requires { first < end → end < length self.now.rests.items → (bytes : List ℕ) × (rest_at self.now first ≡ bytes ++ rest_at self.now end) }
        ensures some { (bytes : List ℕ) → first < end → end < length self.now.rests.items → rest_at self.now first ≡ bytes ++ rest_at self.now end → result.now ≡ bytes }
        ensures none { length self.now.rests.items ≤ end → result.now ≡ [] }
    {
        if first < end && end < self.rests.len() {
            let key = self.key;
            let from = key.len().saturating_sub(self.rests[first]);
            let to = key.len().saturating_sub(self.rests[end]);
            let (_, rest) = key.split_at(from);
            let (bytes, _) = rest.split_at(to - from);
            return bytes;
        }
        &[]
    }
}

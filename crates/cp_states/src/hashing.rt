//! Lists are hashed.

ghost use Rattle.std.specs.Prelude.{◌≡◌, ◌<◌, ◌^◌, ℕ, true};
ghost use Rattle.std.specs.Int.{cast_unsigned};
ghost use mir.Syntax.{w16};
ghost use Rattle.cp_states.specs.Hashing.{hash_of as hash_in, hash_with as hash_more, mixed as mixed_to, settled as settled_to};

/// What a list that is hashed holds.
pub trait Hashed: Copy + Drop {
    ghost code: { Self → ℕ };

    /// A number for it, perhaps the same for others.
    fn number(self) -> u64
        ensures { result ≡ code self };

    /// Whether it is another one.
    fn is(&self, other: &Self) -> bool
        ensures one { result ≡ true → self.now ≡ other.now }
        ensures same { self.now ≡ other.now → result ≡ true };
}

/// What lists that are compared hold.
pub trait Compared: Copy + Drop {
    /// Whether two lists are one.
    fn are(list: &[Self], other: &[Self]) -> bool
        ensures one { result ≡ true → list.now ≡ other.now }
        ensures same { list.now ≡ other.now → result ≡ true };
}

impl Hashed for u32 {
    ghost code = { λ n. n };

    #[inline(always)]
    fn number(self) -> u64 {
        u64::from(self)
    }

    #[inline(always)]
    fn is(&self, other: &u32) -> bool {
        *self == *other
    }
}

impl Compared for u32 {
    #[inline(always)]
    fn are(list: &[u32], other: &[u32]) -> bool {
        list == other
    }
}

impl Hashed for u8 {
    ghost code = { λ n. n };

    #[inline(always)]
    fn number(self) -> u64 {
        u64::from(self)
    }

    #[inline(always)]
    fn is(&self, other: &u8) -> bool {
        *self == *other
    }
}

impl Compared for u8 {
    #[inline(always)]
    fn are(list: &[u8], other: &[u8]) -> bool {
        are_one(list, other)
    }
}

impl Hashed for usize {
    ghost code = { λ n. n };

    #[inline(always)]
    fn number(self) -> u64 {
        self as u64
    }

    #[inline(always)]
    fn is(&self, other: &usize) -> bool {
        *self == *other
    }
}

impl Compared for usize {
    #[inline(always)]
    fn are(list: &[usize], other: &[usize]) -> bool {
        list == other
    }
}

impl Hashed for i16 {
    ghost code = { λ n. cast_unsigned w16 n };

    #[inline(always)]
    fn number(self) -> u64 {
        u64::from(self.cast_unsigned())
    }

    #[inline(always)]
    fn is(&self, other: &i16) -> bool {
        *self == *other
    }
}

impl Compared for i16 {
    #[inline(always)]
    fn are(list: &[i16], other: &[i16]) -> bool {
        list == other
    }
}

/// A hash with one number more.
#[inline(always)]
#[tactic(auto, unfolding(crate::specs::Hashing::mixed))]
pub fn mix(hash: u64, number: u64) -> u64
    ensures { result ≡ mixed_to hash number }
{
    (hash ^ number).wrapping_mul(0x9e37_79b9_7f4a_7c15)
}

/// A hash after the last number.
#[inline(always)]
#[tactic(auto, unfolding(crate::specs::Hashing::settled))]
pub fn finish_hash(hash: u64) -> u32
    ensures { result ≡ settled_to hash }
{
    let high = (hash ^ (hash >> 32)).wrapping_mul(0x9e37_79b9_7f4a_7c15);
    (high >> 32) as u32
}

/// A hash with the numbers of a list.
#[inline(always)]
pub fn hash_with<T: Hashed>(hash: u64, list: &[T]) -> u64
    ensures { result ≡ hash_more T.code hash list.now }
{
    let mut hash = hash;
    for x in list {
        hash = mix(hash, x.number());
    }
    hash
}

/// The hash of a list.
#[inline(always)]
pub fn hash_of<T: Hashed>(list: &[T]) -> u32
    ensures { result ≡ hash_in T.code list.now }
{
    finish_hash(hash_with(list.len() as u64, list))
}

/// Whether two lists are one, element by element.
#[inline(always)]
pub fn are_one<T: Hashed>(list: &[T], other: &[T]) -> bool
    ensures one { result ≡ true → list.now ≡ other.now }
    ensures same { list.now ≡ other.now → result ≡ true }
{
    if list.len() != other.len() {
        return false;
    }
    for at in 0..list.len() {
        if !list[at].is(&other[at]) {
            return false;
        }
    }
    true
}

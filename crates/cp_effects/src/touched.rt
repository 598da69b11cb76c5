//! Places that are touched.

ghost use Rattle.std.specs.Prelude.{◌≡◌, ◌<◌, [], ℕ, true};
ghost use Rattle.cp_effects.specs.Noting.{KeepNoted, among};

use arrayvec::ArrayVec;

/// Places, each once and in the order in which they were touched first.
#[derive(Drop)]
pub struct Touched {
    pub places: ArrayVec<usize, 16>,
}

impl Touched {
    /// No place.
    pub fn nothing() -> Touched
        ensures { result.places.items ≡ [] }
    {
        Touched {
            places: ArrayVec::new(),
        }
    }

    /// Whether a place is noted.
    #[inline(always)]
    pub fn has(&self, place: usize) -> bool
        ensures { result ≡ among self.now.places.items place }
    {
        for noted in self.places.as_slice() {
            if *noted == place {
                return true;
            }
        }
        false
    }

    /// Notes a place. Tells whether there was room for it.
    pub fn add(&mut self, place: usize) -> bool
        ensures noted { result ≡ true → among self.new.places.items place ≡ true }
        ensures kept { KeepNoted self.old.places.items self.new.places.items }
    {
        if self.has(place) {
            return true;
        }
        self.places.try_push(place).is_ok()
    }

    /// Whether the places are among so many.
    pub fn are_below(&self, count: usize) -> bool
        ensures { result ≡ true → (place : ℕ) → among self.now.places.items place ≡ true → place < count }
    {
        for noted in self.places.as_slice() {
            if *noted >= count {
                return false;
            }
        }
        true
    }
}

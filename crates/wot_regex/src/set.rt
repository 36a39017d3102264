//! Sets of places of a table.

ghost use Rattle.std.specs.Prelude.{◌≡◌, ◌≢◌, ◌<◌, ◌==◌, ◌+◌, ◌*◌, ◌/◌, ℕ, ◌||◌, ◌&&◌, not, true};
ghost use Rattle.std.specs.Int.{bit_at};
ghost use Rattle.wot_regex.specs.Following.{has, in_eight, two_on};

/// So many places at most.
pub const PLACES: usize = 512;

/// Its places as bits of words.
#[derive(Clone, Copy)]
pub struct Set {
    pub words: [u64; 8],
}

impl Set {
    pub const NONE: Set = Set { words: [0; 8] };

    /// Whether it is another.
    pub fn is(&self, other: &Set) -> bool
        ensures { result ≡ true → self.now.words ≡ other.now.words }
    {
        self.words.as_slice() == other.words.as_slice()
    }

    pub fn has(&self, place: usize) -> bool
        requires { place < PLACES }
        ensures { result ≡ has self.now.words place }
    {
        (self.words[place / 64] >> (place % 64)) & 1 == 1
    }

    pub fn add(&mut self, place: usize)
        requires { place < PLACES }
        ensures one { has self.new.words place ≡ true }
        ensures others { (i : ℕ) → i ≢ place → has self.new.words i ≡ has self.old.words i }
    {
        self.words[place / 64] |= 1 << (place % 64);
    }

    /// Adds a place, if so.
    pub fn put(&mut self, place: usize, on: bool)
        requires { place < PLACES }
        ensures one { has self.new.words place ≡ (on || has self.old.words place) }
        ensures others { (i : ℕ) → i ≢ place → has self.new.words i ≡ has self.old.words i }
    {
        if on {
            self.add(place);
        }
    }

    /// Which of eight places, counted from 0, are in it, as bits.
    pub fn eight(&self, at: usize) -> usize
        requires { at < PLACES / 8 }
        ensures below { result < 256 }
        ensures bits { (j : ℕ) → j < 8 → (bit_at result j == 1) ≡ has self.now.words (8 * at + j) }
    {
        ((self.words[at / 8] >> (8 * (at % 8))) % 256) as usize
    }

    /// The set that has of eight places those of these bits, and no others.
    pub fn of_eight(at: usize, bits: usize) -> Set
        requires at { at < PLACES / 8 }
        requires bits { bits < 256 }
        ensures { (i : ℕ) → i < PLACES → has result.words i ≡ in_eight at bits i }
    {
        let mut set = Set::NONE;
        set.words[at / 8] = (bits as u64) << (8 * (at % 8));
        set
    }

    /// The places that are in either.
    pub fn unite(&mut self, other: &Set)
        ensures { (i : ℕ) → i < PLACES → has self.new.words i ≡ (has self.old.words i || has other.now.words i) }
    {
        for i in 0..8 {
            self.words[i] |= other.words[i];
        }
    }

    /// The places that are in both.
    pub fn meet(&mut self, other: &Set)
        ensures { (i : ℕ) → i < PLACES → has self.new.words i ≡ (has self.old.words i && has other.now.words i) }
    {
        for i in 0..8 {
            self.words[i] &= other.words[i];
        }
    }

    /// The places of it that are not in another.
    pub fn leave(&mut self, other: &Set)
        ensures { (i : ℕ) → i < PLACES → has self.new.words i ≡ (has self.old.words i && not (has other.now.words i)) }
    {
        for i in 0..8 {
            self.words[i] ^= self.words[i] & other.words[i];
        }
    }

    /// The places two on from its own, as far as there are any.
    pub fn two_on(&self) -> Set
        ensures { (i : ℕ) → i < PLACES → has result.words i ≡ two_on (has self.now.words) i }
    {
        let mut set = Set::NONE;
        for i in 0..8 {
            set.words[i] = self.word_two_on(i);
        }
        set
    }

    /// A word of the places two on.
    fn word_two_on(&self, i: usize) -> u64
        requires { i < 8 }
        ensures { (j : ℕ) → j < 64 → (bit_at result j == 1) ≡ two_on (has self.now.words) (64 * i + j) }
    {
        if i == 0 {
            return moved_by_two(self.words[0], 0);
        }
        moved_by_two(self.words[i], self.words[i - 1])
    }
}

/// A word moved by two bits, behind the last two of the word before it.
fn moved_by_two(word: u64, before: u64) -> u64
    ensures first { (j : ℕ) → j < 2 → bit_at result j ≡ bit_at before (62 + j) }
    ensures others { (j : ℕ) → j < 62 → bit_at result (j + 2) ≡ bit_at word j }
{
    word << 2 | before >> 62
}

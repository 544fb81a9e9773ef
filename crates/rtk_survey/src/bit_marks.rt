//! Marks of places, one bit each.

ghost use Rattle.std.specs.Prelude.{◌≡◌, ◌==◌, ◌*◌, ◌<◌, ◌||◌, ℕ, false};
ghost use Rattle.rtk_survey.specs.BitMarks.{is_marked_in};

/// Which of the places below 64 times `WORDS` are marked.
///
/// A place takes a bit and no `bool`, since a station has marks for each number of its messages.
#[derive(Clone, Copy)]
pub struct BitMarks<const WORDS: usize> {
    pub words: [u64; WORDS],
}

impl<const WORDS: usize> BitMarks<WORDS> {
    /// No place is marked.
    pub fn new() -> BitMarks<WORDS>
        ensures { (n : ℕ) → is_marked_in result.words n ≡ false }
    {
        BitMarks { words: [0; WORDS] }
    }

    /// Marks a place.
    pub fn mark(&mut self, place: usize)
        requires { place < 64 * WORDS }
        ensures { (n : ℕ) → is_marked_in self.new.words n ≡ ((place == n) || is_marked_in self.old.words n) }
    {
        self.words[place / 64] |= 1 << (place % 64);
    }

    /// Is a place marked?
    pub fn is_marked(&self, place: usize) -> bool
        requires { place < 64 * WORDS }
        ensures { result ≡ is_marked_in self.now.words place }
    {
        (self.words[place / 64] >> (place % 64)) & 1 == 1
    }

    /// Marks the places that others mark, too.
    pub fn join(&mut self, more: &BitMarks<WORDS>)
        ensures { (n : ℕ) → is_marked_in self.new.words n ≡ (is_marked_in more.now.words n || is_marked_in self.old.words n) }
    {
        for k in 0..WORDS {
            self.words[k] |= more.words[k];
        }
    }
}

// One word at a time: what it is held to, and the refusal where it fails.
ghost use Rattle.std.specs.Prelude.{◌≡◌, ℕ, Bool};
ghost use Rattle.model.specs.Reading.{word, count, fixed, at_most, below};
ghost use Rattle.hir.specs.Refusals.{refusal_number};
ghost use Rattle.hir.specs.Says.{IsTest, tested, word_says};

use crate::refusal::Refusal;
use crate::{Cursor, Step};

impl Cursor {
    // Where a sheet begins.
    pub const START: Cursor = Cursor { at: 0 };

    // The word here.
    #[tactic(auto, unfolding(model::specs::Reading::word))]
    pub fn word(self, s: &[u32]) -> Step<u32>
        ensures { word_says result ≡ word s.now self.at }
    {
        let w = *s.get(self.at).ok_or(Refusal::SheetEnds)?;
        Ok((w, Cursor { at: self.at + 1 }))
    }

    // A word that passes the test, else this refusal.
    fn tested<F: Fn(u32) -> bool>(self, s: &[u32], test: F, refusal: Refusal) -> Step<u32>
        requires { F.IsAlwaysCallable test }
        ensures { (t : ℕ → Bool) → IsTest (F.post test) t → word_says result ≡ tested t (refusal_number refusal) s.now self.at }
    {
        let (w, c) = self.word(s)?;
        if test(w) { Ok((w, c)) } else { Err(refusal) }
    }

    // A count at most `most`.
    pub fn count(self, s: &[u32], most: u32) -> Step<u32>
        ensures { word_says result ≡ count most s.now self.at }
    {
        self.tested(s, |w| w <= most, Refusal::Count)
    }

    // A fixed count.
    pub fn fixed(self, s: &[u32], count: u32) -> Step<u32>
        ensures { word_says result ≡ fixed count s.now self.at }
    {
        self.tested(s, |w| w == count, Refusal::Count)
    }

    // A word in its range.
    pub fn at_most(self, s: &[u32], most: u32) -> Step<u32>
        ensures { word_says result ≡ at_most most s.now self.at }
    {
        self.tested(s, |w| w <= most, Refusal::OutOfRange)
    }

    // A word below a limit that the sheet itself gave.
    pub fn below(self, s: &[u32], limit: u32) -> Step<u32>
        ensures { word_says result ≡ below limit s.now self.at }
    {
        self.tested(s, |w| w < limit, Refusal::OutOfRange)
    }
}

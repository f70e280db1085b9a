// The words of letters that `fsck` takes.
ghost use Rattle.std.specs.Prelude.{◌≡◌, ◌⊎◌, ◌↔◌, ◌∷◌, [], ◌++◌, codes, IsTrue};
ghost use Rattle.o2_words.specs.LetterWords.{IsAnswerWord, letter_of};
ghost use Rattle.o2_words.specs.Names.{text_of};

use crate::Name;

/// What a line of `fsck` answers to each question.
#[derive(Clone, Copy)]
pub enum Answer {
    /// `n`: what fails is told, and nothing is written.
    No,
    /// `y`: what fails is mended.
    Yes,
}

impl Answer {
    /// The word of its letter alone.
    pub fn name(self) -> Name
        ensures { text_of result ≡ codes "-" ++ letter_of self ∷ [] }
    {
        match self {
            Answer::No => Name::No,
            Answer::Yes => Name::Yes,
        }
    }

    /// Whether the word's letters give this answer by themselves.
    pub fn is_given_by(self, word: &str) -> bool
        ensures { IsTrue result ↔ IsAnswerWord self word.now }
    {
        match self {
            Answer::No => is_one_of(word, "-n", "-fn", "-nf"),
            Answer::Yes => is_one_of(word, "-y", "-fy", "-yf"),
        }
    }
}

fn is_one_of(word: &str, first: &str, second: &str, third: &str) -> bool
    ensures { IsTrue result ↔ ((word.now ≡ first.now) ⊎ ((word.now ≡ second.now) ⊎ (word.now ≡ third.now))) }
{
    word == first || word == second || word == third
}

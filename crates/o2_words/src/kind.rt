// What a word of a command line may be.
ghost use Rattle.std.specs.Prelude.{◌↔◌, IsTrue};
ghost use Rattle.o2_words.specs.Kinds.{IsDevice, Fits};

use crate::query_word::{is_number, is_query_word};
use crate::{Answer, Name};

/// What a word may be.
#[derive(Clone, Copy)]
pub enum Kind {
    /// This word.
    Fixed(Name),
    /// Any word.
    Text,
    /// The name of a device.
    Device,
    /// What `debugfs -R` is asked.
    Query,
    /// A number.
    Number,
    /// Letters that give `fsck` this answer.
    Letters(Answer),
}

impl Kind {
    /// Whether the word is one of this kind.
    pub fn fits(self, word: &str) -> bool
        ensures { IsTrue result ↔ Fits self word.now }
    {
        match self {
            Kind::Fixed(name) => name.is(word),
            Kind::Text => true,
            Kind::Device => may_be_device(word),
            Kind::Query => is_query_word(word),
            Kind::Number => is_number(word),
            Kind::Letters(answer) => answer.is_given_by(word),
        }
    }
}

fn may_be_device(word: &str) -> bool
    ensures { IsTrue result ↔ IsDevice word.now }
{
    match word.as_bytes() {
        [] | [b'-', ..] => false,
        _ => true,
    }
}

// A command line of `fsck`, read.
ghost use Rattle.std.specs.Prelude.{◌≡◌, ◌⊎◌, ◌↔◌, ◌∷◌, [], codes, IsTrue, MatchOption};
ghost use Rattle.o2_words.specs.CommandLine.{texts, IsFsckOf, IsFsck, place_of_device};
ghost use Rattle.o2_words.specs.Kinds.{IsDevice};
ghost use Rattle.o2_words.specs.LetterWords.{IsAnswerWord};
ghost use Rattle.o2_words.specs.Names.{text_of};

use crate::{Answer, Kind, Name};

/// What a line of `fsck` answers to each question.
pub fn read_fsck(words: &[String]) -> Option<Answer>
    ensures { MatchOption result (IsFsck (texts words.now) → ⊥) (λ answer. IsFsckOf answer (texts words.now)) }
{
    if gives_answer(words, Answer::No) {
        return Some(Answer::No);
    }
    if gives_answer(words, Answer::Yes) {
        return Some(Answer::Yes);
    }
    None
}

/// The place of the device's name in a line of `fsck`.
pub fn last_place(words: &[String]) -> u32
    requires { IsFsck (texts words.now) }
    ensures { result ≡ place_of_device (texts words.now) }
{
    (words.len() - 1) as u32
}

// Whether the words are a line of `fsck` with this answer.
fn gives_answer(words: &[String], answer: Answer) -> bool
    ensures { IsTrue result ↔ IsFsckOf answer (texts words.now) }
{
    match words {
        [tool, letters, device] => {
            gives_in_one(tool.as_str(), letters.as_str(), device.as_str(), answer)
        }
        [tool, first, second, device] => gives_in_two(
            tool.as_str(),
            first.as_str(),
            second.as_str(),
            device.as_str(),
            answer,
        ),
        _ => false,
    }
}

// The same where there is one word of letters.
fn gives_in_one(tool: &str, letters: &str, device: &str, answer: Answer) -> bool
    ensures { IsTrue result ↔ IsFsckOf answer (tool.now ∷ letters.now ∷ device.now ∷ []) }
{
    is_in_one(tool, letters, device, answer)
}

fn is_in_one(tool: &str, letters: &str, device: &str, answer: Answer) -> bool
    ensures { IsTrue result ↔ ((tool.now ≡ codes "fsck") × (IsAnswerWord answer letters.now × IsDevice device.now)) }
{
    Name::Fsck.is(tool) && answer.is_given_by(letters) && Kind::Device.fits(device)
}

// And where there are two.
fn gives_in_two(tool: &str, first: &str, second: &str, device: &str, answer: Answer) -> bool
    ensures { IsTrue result ↔ IsFsckOf answer (tool.now ∷ first.now ∷ second.now ∷ device.now ∷ []) }
{
    is_in_two(tool, first, second, device, answer.name())
}

fn is_in_two(tool: &str, first: &str, second: &str, device: &str, name: Name) -> bool
    ensures { IsTrue result ↔ ((tool.now ≡ codes "fsck")
        × ((((first.now ≡ codes "-f") × (second.now ≡ text_of name)) ⊎ ((first.now ≡ text_of name) × (second.now ≡ codes "-f"))) × IsDevice device.now)) }
{
    Name::Fsck.is(tool) && are_these(first, second, Name::Force, name) && Kind::Device.fits(device)
}

// Whether the two words are these, in either order.
fn are_these(first: &str, second: &str, one: Name, other: Name) -> bool
    ensures { IsTrue result ↔ (((first.now ≡ text_of one) × (second.now ≡ text_of other)) ⊎ ((first.now ≡ text_of other) × (second.now ≡ text_of one))) }
{
    (one.is(first) && other.is(second)) || (other.is(first) && one.is(second))
}

// Where words leave the forms of command lines.
ghost use Rattle.std.specs.Prelude.{◌≡◌, ◌+◌, ◌<◌, ◌≤◌, ◌++◌, ◌∷◌, [], ◌↔◌, ℕ, List, length, map, take, drop, HoldsAt, IfOk, MatchOption, IsTrue, sum_by};
ghost use Rattle.o2_words.specs.Forms.{texts, Form, Follows, IsReader, Leads, StopsAt, ReachesTo, left_behind, most_words};

use crate::Part;
use std::alloc::{AllocError, Global};

/// The place up to which the words are in order by some form: the farthest one of all forms.
pub fn farthest(alloc: Global, forms: &[&[Part]], words: &[String]) -> Result<usize, AllocError>
    requires { 0 < length forms.now }
    ensures reaches { IfOk result (λ place. ReachesTo (map (λ form. form.now) forms.now) (texts words.now) place) }
    ensures few { IfOk result (λ place. place ≤ sum_by most_words (map (λ form. form.now) forms.now)) }
{
    let mut farthest = 0;
    for form in forms {
        farthest = farthest.max(place_in(alloc, form, words)?);
    }
    Ok(farthest)
}

// The place up to which the words follow the form.
fn place_in(alloc: Global, form: &[Part], words: &[String]) -> Result<usize, AllocError>
    ensures stops { IfOk result (λ place. StopsAt form.now (texts words.now) place) }
    ensures few { IfOk result (λ place. place ≤ most_words form.now) }
{
    let mut left = Vec::from_slice(alloc, form)?;
    for (place, word) in words.iter().enumerate() {
        match read_word(alloc, &left, word.as_str())? {
            None => return Ok(place),
            Some(rest) => left = rest,
        }
    }
    Ok(words.len())
}

// What is left of the form behind the word, if it reads the word.
fn read_word(alloc: Global, form: &[Part], word: &str) -> Result<Option<Vec<Part>>, AllocError>
    ensures { IfOk result (λ left. MatchOption left ((rest : Form) → Follows form.now word.now rest → ⊥) (λ rest. Follows form.now word.now rest.items)) }
{
    match reader(form, word) {
        None => Ok(None),
        Some(place) => Ok(Some(rest_behind(alloc, form, place)?)),
    }
}

// The part that reads the word.
fn reader(form: &[Part], word: &str) -> Option<usize>
    ensures { MatchOption result ((place : ℕ) → IsReader form.now word.now place → ⊥) (λ place. IsReader form.now word.now place) }
{
    for (place, part) in form.iter().enumerate() {
        if part.reads(word) {
            return Some(place);
        }
        if !part.may_be_left() {
            return None;
        }
    }
    None
}

// What is left of the form when the part at this place has read its first word.
fn rest_behind(alloc: Global, form: &[Part], place: usize) -> Result<Vec<Part>, AllocError>
    requires { place < length form.now }
    ensures { IfOk result (λ rest. HoldsAt (λ part. rest.items ≡ left_behind part (take place form.now) (drop (place + 1) form.now)) form.now place) }
{
    let (before, behind) = (&form[..place], &form[place + 1..]);
    match form[place] {
        Part::One(_) | Part::Perhaps(_) => Vec::from_slice(alloc, behind),
        Part::Optional(_, value) => joined(alloc, &[Part::One(value)], before, behind),
        Part::Flag(_) => joined(alloc, &[], before, behind),
    }
}

fn joined(
    alloc: Global,
    first: &[Part],
    before: &[Part],
    behind: &[Part],
) -> Result<Vec<Part>, AllocError>
    ensures { IfOk result (λ all. all.items ≡ first.now ++ (before.now ++ behind.now)) }
{
    let mut all = Vec::from_slice(alloc, first)?;
    all.extend_from_slice(before)?;
    all.extend_from_slice(behind)?;
    Ok(all)
}

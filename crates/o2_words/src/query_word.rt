// A word behind `debugfs -R`, read.
ghost use Rattle.std.specs.Prelude.{◌≡◌, ◌≢◌, ◌++◌, ◌↔◌, ℕ, List, IsTrue, MatchOption};
ghost use Rattle.std.specs.List.{list_all};
ghost use Rattle.std.specs.Char.{is_ascii_digit};
ghost use Rattle.o2_words.specs.QueryWords.{IsNumber, NamesPath, NamesNumber, IsForLater, IsQueryWord};
ghost use Rattle.o2_words.specs.AskedWords.{IsAsked, AsksOfNoPath};

use o2_dir::is_path;

/// What a word behind `debugfs -R` asks for, with its path.
#[derive(Clone, Copy)]
pub enum Asked<'a> {
    Stats,
    SlotMap,
    Ls(&'a str),
    Stat(&'a str),
    Cat(&'a str),
    Refcount(&'a str),
    /// What is not answered yet.
    Later,
}

// How many digits a number may have.
const MOST_DIGITS: usize = 18;

/// Reads such a word, if it asks for something.
pub fn read_query_word(word: &str) -> Option<Asked<'_>>
    ensures { MatchOption result (IsQueryWord word.now → ⊥) (λ asked. IsAsked asked word.now) }
{
    if is_just(word, "stats") {
        return Some(Asked::Stats);
    }
    if is_just(word, "slotmap") {
        return Some(Asked::SlotMap);
    }
    if let Some(asked) = read_with_path(word) {
        return Some(asked);
    }
    if is_for_later(word) {
        return Some(Asked::Later);
    }
    None
}

/// Reads such a word that names a path.
fn read_with_path(word: &str) -> Option<Asked<'_>>
    ensures { MatchOption result (AsksOfNoPath word.now) (λ asked. IsAsked asked word.now) }
{
    if let Some(path) = path_behind(word, "ls ") {
        return Some(Asked::Ls(path));
    }
    if let Some(path) = path_behind(word, "stat ") {
        return Some(Asked::Stat(path));
    }
    if let Some(path) = path_behind(word, "cat ") {
        return Some(Asked::Cat(path));
    }
    if let Some(path) = path_behind(word, "refcount ") {
        return Some(Asked::Refcount(path));
    }
    None
}

/// Whether such a word asks for something.
pub fn is_query_word(word: &str) -> bool
    ensures { IsTrue result ↔ IsQueryWord word.now }
{
    match read_query_word(word) {
        None => false,
        Some(_) => true,
    }
}

fn is_for_later(word: &str) -> bool
    ensures { IsTrue result ↔ IsForLater word.now }
{
    names_number(word, "logdump ") || names_number(word, "icheck ")
}

// Whether the word is this one.
fn is_just(word: &str, name: &str) -> bool
    ensures { IsTrue result ↔ (word.now ≡ name.now) }
{
    word == name
}

fn names_number(word: &str, name: &str) -> bool
    ensures { IsTrue result ↔ ((number : List ℕ) × NamesNumber name.now number word.now) }
{
    match behind(word, name) {
        None => false,
        Some(number) => is_number(number),
    }
}

fn path_behind<'a>(word: &'a str, name: &str) -> Option<&'a str>
    ensures { MatchOption result ((path : List ℕ) → NamesPath name.now path word.now → ⊥) (λ path. NamesPath name.now path.now word.now) }
{
    match behind(word, name) {
        None => None,
        Some(path) => {
            if is_path(path.as_bytes()) {
                Some(path)
            } else {
                None
            }
        }
    }
}

// What is behind this beginning of the word.
fn behind<'a>(word: &'a str, front: &str) -> Option<&'a str>
    ensures { MatchOption result ((rest : List ℕ) → word.now ≢ front.now ++ rest) (λ rest. word.now ≡ front.now ++ rest.now) }
{
    word.strip_prefix(front)
}

/// Whether the text is a number.
pub fn is_number(text: &str) -> bool
    ensures { IsTrue result ↔ IsNumber text.now }
{
    let digits = text.as_bytes();
    if digits.is_empty() || digits.len() > MOST_DIGITS {
        return false;
    }
    are_digits(digits)
}

fn are_digits(bytes: &[u8]) -> bool
    ensures { result ≡ list_all is_ascii_digit bytes.now }
{
    bytes.iter().all(|byte| byte.is_ascii_digit())
}

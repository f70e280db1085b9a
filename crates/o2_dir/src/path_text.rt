// Paths as they are written.
ghost use Rattle.std.specs.Prelude.{◌≡◌, ◌≢◌, ◌⊎◌, ◌↔◌, ℕ, List, [], ◌∷◌, IsTrue, MatchOption};
ghost use Rattle.o2_dir.specs.PathTexts.{AreJoinedNames, IsPath};

use std::fmt;
use std::marker::Model;

/// A path of a command, as it was written.
#[derive(Debug, Drop)]
pub struct PathText {
    text: String,
}

impl Model for PathText {
    ghost use Rattle.std.specs.Prelude.{ℕ, List, string_bytes};

    ghost Value = { List ℕ };

    ghost view = { λ path. string_bytes path.text };
}

impl PathText {
    /// The path where it stands.
    pub fn as_str(&self) -> &str
        ensures { result.now ≡ self.now }
    {
        self.text.as_str()
    }

    /// Its bytes where they stand.
    pub fn as_bytes(&self) -> &[u8]
        ensures { result.now ≡ self.now }
    {
        self.text.as_bytes()
    }
}

/// Takes the text as it is, whatever it says: `is_path` tells a path.
impl From<String> for PathText {
    ghost use Rattle.std.specs.Prelude.{◌≡◌, string_bytes};

    ghost from_gives = { λ text path. path ≡ string_bytes text };

    fn from(text: String) -> Self {
        PathText { text }
    }
}

impl fmt::Display for PathText {
    ghost use Rattle.std.specs.Prelude.{Some};

    ghost output = { λ path. Some path };

    fn fmt<W: fmt::Write>(&self, f: &mut fmt::Formatter<W>) -> fmt::Result {
        f.write_str(self.as_str())
    }
}

/// Whether the text is a path: `/` for the root or `//` for the system directory, alone or followed by names with a
/// single `/` between each two.
pub fn is_path(text: &[u8]) -> bool
    ensures { IsTrue result ↔ IsPath text.now }
{
    match behind_slash(text) {
        None => false,
        Some(rest) => match behind_slash(rest) {
            None => is_rest(rest),
            Some(names) => is_rest(names),
        },
    }
}

// What is behind a slash at the front.
fn behind_slash(text: &[u8]) -> Option<&[u8]>
    ensures { MatchOption result ((rest : List ℕ) → text.now ≢ 47 ∷ rest) (λ rest. text.now ≡ 47 ∷ rest.now) }
{
    match text {
        [b'/', rest @ ..] => Some(rest),
        _ => None,
    }
}

// Whether this may follow the beginning of a path.
fn is_rest(rest: &[u8]) -> bool
    ensures { IsTrue result ↔ ((rest.now ≡ []) ⊎ AreJoinedNames rest.now) }
{
    rest.is_empty() || are_joined_names(rest)
}

fn are_joined_names(text: &[u8]) -> bool
    ensures { IsTrue result ↔ AreJoinedNames text.now }
{
    let mut is_name_due = true;
    for byte in text {
        if *byte == b'/' {
            if is_name_due {
                return false;
            }
            is_name_due = true;
        } else {
            is_name_due = false;
        }
    }
    !is_name_due
}

// Laws of a directory's entries, each the contract of a function that does nothing.
ghost use Rattle.std.specs.Prelude.{◌≡◌, ℕ, List, Some};
ghost use Rattle.o2_model.specs.Directories.{NamedEntry, Fill, entries_in};

/// A law: the entries that are found in some bytes fill them, and no others do.
pub fn entries_fill_their_bytes()
    ensures fill { (bytes : List ℕ) (es : List NamedEntry) → entries_in bytes ≡ Some es → Fill es bytes }
    ensures found { (bytes : List ℕ) (es : List NamedEntry) → Fill es bytes → entries_in bytes ≡ Some es }
{}

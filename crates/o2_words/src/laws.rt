// Laws of the forms, each the contract of a function that does nothing.
ghost use Rattle.std.specs.Prelude.{◌≢◌, ◌⊎◌, ◌↔◌, ◌++◌, ◌∷◌, ℕ, List};
ghost use Rattle.o2_words.specs.CommandLine.{Words, IsTunefs, IsDebugfs, IsFsck, IsLine};
ghost use Rattle.o2_words.specs.Forms.{Form, IsOption, Leads, Matches};

/// A law: the lines of the forms that are served are the command lines of `tunefs`, of `debugfs` and of `fsck`, and no others.
pub fn forms_are_lines()
    ensures { (words : Words) → IsLine words ↔ (IsTunefs words ⊎ IsDebugfs words ⊎ IsFsck words) }
{}

/// A law: two options with their values, one behind the other, may change places.
pub fn options_come_in_any_order()
    ensures { (form left : Form) (before rest : Words) (a b x y : List ℕ) → Leads form before left → IsOption left a → IsOption left b → a ≢ b → Matches form (before ++ a ∷ x ∷ b ∷ y ∷ rest) → Matches form (before ++ b ∷ y ∷ a ∷ x ∷ rest) }
{}

// The fixed words of command lines.
ghost use Rattle.std.specs.Prelude.{◌≡◌, ◌↔◌, IsTrue};
ghost use Rattle.o2_words.specs.Names.{text_of};

/// A word that stands for itself: a tool, or an option.
#[derive(Clone, Copy)]
pub enum Name {
    Tunefs,
    Debugfs,
    Mkfs,
    Fsck,
    Sample,
    /// `-L`
    Label,
    /// `-R`
    Ask,
    /// `-N`
    Slots,
    /// `-J`
    Journals,
    /// `-S`
    Size,
    /// `-f`
    Force,
    /// `-n`
    No,
    /// `-y`
    Yes,
}

impl Name {
    /// The word.
    pub fn text(self) -> &'static str
        ensures { result.now ≡ text_of self }
    {
        match self {
            Name::Tunefs => "tunefs",
            Name::Debugfs => "debugfs",
            Name::Mkfs => "mkfs",
            Name::Fsck => "fsck",
            Name::Sample => "sample",
            Name::Label => "-L",
            Name::Ask => "-R",
            Name::Slots => "-N",
            Name::Journals => "-J",
            Name::Size => "-S",
            Name::Force => "-f",
            Name::No => "-n",
            Name::Yes => "-y",
        }
    }

    /// Whether this is the word.
    pub fn is(self, word: &str) -> bool
        ensures { IsTrue result ↔ (word.now ≡ text_of self) }
    {
        word == self.text()
    }
}

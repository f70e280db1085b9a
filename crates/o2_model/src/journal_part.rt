// What may be wrong with a journal that is to be replayed.
ghost use Rattle.std.specs.Prelude.{◌≡◌};

use std::fmt;

/// The part of a journal that can't be used.
#[derive(Clone, Copy, Debug, PartialEq, Eq)]
pub enum JournalPart {
    /// Its extents are not well formed, or leave a gap.
    Extents,
    /// Its superblock has another type or size, or its bounds do not fit.
    Superblock,
    /// It has a feature that a replay does not know.
    Features,
}

impl JournalPart {
    ghost use Rattle.o2_model.specs.Names.{journal_part_text};

    fn text(self) -> &'static str
        ensures { result.now ≡ journal_part_text self }
    {
        match self {
            JournalPart::Extents => "extents",
            JournalPart::Superblock => "superblock",
            JournalPart::Features => "features",
        }
    }
}

impl fmt::Display for JournalPart {
    ghost use Rattle.std.specs.Prelude.{Some};
    ghost use Rattle.o2_model.specs.Names.{journal_part_text};

    ghost output = { λ part. Some (journal_part_text part) };

    fn fmt<W: fmt::Write>(&self, f: &mut fmt::Formatter<W>) -> fmt::Result {
        f.write_str(self.text())
    }
}

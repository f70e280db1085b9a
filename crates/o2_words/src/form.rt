// The forms of command lines.
ghost use Rattle.std.specs.Prelude.{◌↔◌, IsTrue};
ghost use Rattle.o2_words.specs.Parts.{Reads, MayBeLeft};

use crate::{Answer, Kind, Name};

/// A part of a command line.
#[derive(Clone, Copy)]
pub enum Part {
    /// A word that has to stand.
    One(Kind),
    /// A word that may be left out.
    Perhaps(Kind),
    /// An option with its value, which may be left out. Options that stand side by side come in any order, each at most once.
    Optional(Name, Kind),
    /// An option without a value.
    Flag(Name),
}

/// `tunefs -L LABEL DEVICE`
pub const LABEL_FORM: [Part; 4] = [
    Part::One(Kind::Fixed(Name::Tunefs)),
    Part::One(Kind::Fixed(Name::Label)),
    Part::One(Kind::Text),
    Part::One(Kind::Device),
];

/// `debugfs -R WORD DEVICE`
pub const DEBUG_FORM: [Part; 4] = [
    Part::One(Kind::Fixed(Name::Debugfs)),
    Part::One(Kind::Fixed(Name::Ask)),
    Part::One(Kind::Query),
    Part::One(Kind::Device),
];

/// `fsck -n DEVICE`, with `-fn` or `-nf` as well.
pub const NO_FORM: [Part; 3] = [
    Part::One(Kind::Fixed(Name::Fsck)),
    Part::One(Kind::Letters(Answer::No)),
    Part::One(Kind::Device),
];

/// `fsck -f -n DEVICE`
pub const FORCE_NO_FORM: [Part; 4] = [
    Part::One(Kind::Fixed(Name::Fsck)),
    Part::One(Kind::Fixed(Name::Force)),
    Part::One(Kind::Fixed(Name::No)),
    Part::One(Kind::Device),
];

/// `fsck -n -f DEVICE`
pub const NO_FORCE_FORM: [Part; 4] = [
    Part::One(Kind::Fixed(Name::Fsck)),
    Part::One(Kind::Fixed(Name::No)),
    Part::One(Kind::Fixed(Name::Force)),
    Part::One(Kind::Device),
];

/// `fsck -y DEVICE`, with `-fy` or `-yf` as well.
pub const YES_FORM: [Part; 3] = [
    Part::One(Kind::Fixed(Name::Fsck)),
    Part::One(Kind::Letters(Answer::Yes)),
    Part::One(Kind::Device),
];

/// `fsck -f -y DEVICE`
pub const FORCE_YES_FORM: [Part; 4] = [
    Part::One(Kind::Fixed(Name::Fsck)),
    Part::One(Kind::Fixed(Name::Force)),
    Part::One(Kind::Fixed(Name::Yes)),
    Part::One(Kind::Device),
];

/// `fsck -y -f DEVICE`
pub const YES_FORCE_FORM: [Part; 4] = [
    Part::One(Kind::Fixed(Name::Fsck)),
    Part::One(Kind::Fixed(Name::Yes)),
    Part::One(Kind::Fixed(Name::Force)),
    Part::One(Kind::Device),
];

/// The forms of the command lines that are served.
pub const FORMS: [&[Part]; 8] = [
    &LABEL_FORM,
    &DEBUG_FORM,
    &NO_FORM,
    &FORCE_NO_FORM,
    &NO_FORCE_FORM,
    &YES_FORM,
    &FORCE_YES_FORM,
    &YES_FORCE_FORM,
];

impl Part {
    /// Whether the part begins with this word.
    pub fn reads(self, word: &str) -> bool
        ensures { IsTrue result ↔ Reads self word.now }
    {
        match self {
            Part::One(kind) | Part::Perhaps(kind) => kind.fits(word),
            Part::Optional(name, _) | Part::Flag(name) => name.is(word),
        }
    }

    /// Whether a command line is whole without it.
    pub fn may_be_left(self) -> bool
        ensures { IsTrue result ↔ MayBeLeft self }
    {
        match self {
            Part::One(_) => false,
            Part::Perhaps(_) | Part::Optional(..) | Part::Flag(_) => true,
        }
    }
}

// The kinds of inodes.
ghost use Rattle.std.specs.Prelude.{◌≡◌};

/// What an inode is. The numbers are those that a directory's entries have.
#[derive(Clone, Copy, Debug, PartialEq, Eq)]
pub enum Kind {
    File = 1,
    Directory = 2,
    /// A device of characters.
    Character = 3,
    /// A device of blocks.
    Block = 4,
    Fifo = 5,
    Socket = 6,
    /// A symbolic link.
    Link = 7,
}

impl Kind {
    ghost use Rattle.o2_ondisk.specs.Kinds.{kind_of_mode, kind_of_type, type_of_kind};

    /// The kind that an `i_mode` says, if its bits are one's.
    pub fn of_mode(mode: u16) -> Option<Self>
        ensures { result ≡ kind_of_mode mode }
    {
        match mode & 0o170000 {
            0o100000 => Some(Kind::File),
            0o040000 => Some(Kind::Directory),
            0o020000 => Some(Kind::Character),
            0o060000 => Some(Kind::Block),
            0o010000 => Some(Kind::Fifo),
            0o140000 => Some(Kind::Socket),
            0o120000 => Some(Kind::Link),
            _ => None,
        }
    }

    /// The kind that an entry's `file_type` says, if it is one's number.
    pub fn of_type(file_type: u8) -> Option<Self>
        ensures { result ≡ kind_of_type file_type }
    {
        match file_type {
            1 => Some(Kind::File),
            2 => Some(Kind::Directory),
            3 => Some(Kind::Character),
            4 => Some(Kind::Block),
            5 => Some(Kind::Fifo),
            6 => Some(Kind::Socket),
            7 => Some(Kind::Link),
            _ => None,
        }
    }

    /// The `file_type` of an entry that names an inode of this kind.
    pub fn file_type(self) -> u8
        ensures number { result ≡ type_of_kind self }
        // A read gives the kind back.
        ensures back { kind_of_type result ≡ Some self }
    {
        self as u8
    }
}

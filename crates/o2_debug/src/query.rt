// What is asked of a volume.
use o2_dir::PathText;

/// A question about a volume, whose answer is text.
#[derive(Debug, Drop)]
pub enum Query {
    /// The volume's numbers, its name, and how long its journals are.
    Stats,
    /// The node of each slot that has one.
    SlotMap,
    /// What stands at the end of a path.
    At(PathQuery),
}

/// A question about the inode at the end of a path.
#[derive(Debug, Drop)]
pub enum PathQuery {
    /// The entries of the directory.
    Ls { path: PathText },
    /// The numbers and the extents of the inode.
    Stat { path: PathText },
    /// The bytes of the file.
    Cat { path: PathText },
    /// The records of the refcount tree of the file, which shares clusters.
    Refcount { path: PathText },
}

impl PathQuery {
    ghost use Rattle.std.specs.Prelude.{◌≡◌};
    ghost use Rattle.o2_debug.specs.Answers.{path_of};

    /// The path, whatever is asked about the inode at its end.
    pub fn path(&self) -> &PathText
        ensures { result.now ≡ path_of self.now }
    {
        match self {
            PathQuery::Ls { path } => path,
            PathQuery::Stat { path } => path,
            PathQuery::Cat { path } => path,
            PathQuery::Refcount { path } => path,
        }
    }

    /// The path, taken out of it.
    pub fn into_path(self) -> PathText
        ensures { result ≡ path_of self }
    {
        match self {
            PathQuery::Ls { path } => path,
            PathQuery::Stat { path } => path,
            PathQuery::Cat { path } => path,
            PathQuery::Refcount { path } => path,
        }
    }
}

impl Query {
    ghost use Rattle.std.specs.Prelude.{◌≡◌, option_map};
    ghost use Rattle.o2_debug.specs.Queries.{named_path};

    /// The path that the query names, if it names one.
    pub fn path(&self) -> Option<&[u8]>
        ensures { option_map (λ path. path.now) result ≡ named_path self.now }
    {
        match self {
            Query::Stats => None,
            Query::SlotMap => None,
            Query::At(query) => Some(query.path().as_bytes()),
        }
    }

    /// The same, taken out of it.
    pub fn into_path(self) -> Option<PathText>
        ensures { result ≡ named_path self }
    {
        match self {
            Query::Stats => None,
            Query::SlotMap => None,
            Query::At(query) => Some(query.into_path()),
        }
    }
}

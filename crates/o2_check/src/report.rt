// What a check tells of a volume.
ghost use Rattle.std.specs.Prelude.{◌≡◌, ◌∷◌, [], IfOk};
ghost use Rattle.o2_check.specs.Reports.{names_in};

use o2_claims::Claims;
use o2_disk::NoMemory;
use o2_model::Check;
use o2_tally::{Counts, put};
use o2_view::{Numbers, Pairs};
use std::alloc::Global;

/// What fails on a volume; and where its skeleton holds, how many names each inode has, which inodes orphan directories name, and
/// the first owner of each cluster. Where the skeleton does not hold there are no names, no orphans and no claims.
#[derive(Drop)]
pub struct Report {
    pairs: Pairs,
    links: Counts,
    orphans: Numbers,
    claims: Claims,
}

impl Report {
    /// The report of these pairs, names, orphans and claims.
    pub fn new(pairs: Pairs, links: Counts, orphans: Numbers, claims: Claims) -> Self
        ensures pairs { result.pairs ≡ pairs }
        ensures links { result.links ≡ links }
        ensures orphans { result.orphans ≡ orphans }
        ensures claims { result.claims ≡ claims }
    {
        Report {
            pairs,
            links,
            orphans,
            claims,
        }
    }

    /// The failing checks, each with the block, by number and then by block.
    pub fn pairs(&self) -> &Pairs
        ensures { result.now ≡ self.now.pairs }
    {
        &self.pairs
    }

    /// The failing checks, taken out of it.
    pub fn into_pairs(self) -> Pairs
        ensures { result ≡ self.pairs }
    {
        self.pairs
    }

    /// How many live entries of the tree name the inode, the dots among them.
    pub fn links(&self, inode: u64) -> u64
        ensures { result ≡ names_in self.now inode }
    {
        self.links.count(inode)
    }

    /// The inodes that the entries of orphan directories but the dots name, over rising slots.
    pub fn orphans(&self) -> &Numbers
        ensures { result.now ≡ self.now.orphans }
    {
        &self.orphans
    }

    /// The first owner of each cluster.
    pub fn claims(&self) -> &Claims
        ensures { result.now ≡ self.now.claims }
    {
        &self.claims
    }
}

/// The report of one pair alone. NoMemory where there is none for it.
pub fn first_alone(alloc: Global, check: Check, block: u64) -> Result<Report, NoMemory>
    ensures { IfOk result (λ report. report.pairs ≡ (check, block) ∷ []) }
{
    let mut pairs = Vec::new(alloc);
    put(&mut pairs, (check, block))?;
    let orphans = Numbers::from(Vec::new(alloc));
    let claims = Claims::new(alloc, 0)?;
    Ok(Report::new(Pairs::from(pairs), Counts::new(alloc), orphans, claims))
}

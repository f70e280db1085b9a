// The answer to a query, for the inode at the end of its path.
ghost use Rattle.std.specs.Prelude.{◌≡◌, true, OnOk, IsErrOf};
ghost use Rattle.std.specs.Result.{IfErr};
ghost use Rattle.o2_view.specs.Views.{Shows, OnlyReads};
ghost use Rattle.o2_view.specs.Geos.{LiesIn, Reaches};
ghost use Rattle.o2_view.specs.OwnChecks.{NoneFails};
ghost use Rattle.o2_model.specs.Volume.{is_valid, dinode, Volume};
ghost use Rattle.o2_dir.specs.InodeReadings.{Fits, TellsSound};
ghost use Rattle.o2_debug.specs.Answers.{is_for as is_for_dinode, IsOfOtherKind, Answers, AnswersSome, BeginsAnswer};
ghost use Rattle.o2_debug.specs.Fails.{AnswerFails};
ghost use Rattle.o2_debug.specs.Objects.{object_checks, query_checks, is_sharing_file};

use crate::cat::put_file;
use crate::object::judge;
use crate::put::{put_ls, put_refcount, put_stat};
use crate::{DebugFault, PathQuery};
use o2_dir::{InodeReading, is_of_directory, is_of_file};
use o2_disk::{Disk, Sink};
use o2_model::Geo;
use o2_ondisk::{Dinode, DynFeatures};
use o2_view::View;
use std::alloc::Global;

/// Whether it is a file that shares clusters.
fn is_of_sharing_file(d: &Dinode) -> bool
    ensures { result ≡ is_sharing_file d.now }
{
    is_of_file(d) && d.dyn_features.has(DynFeatures::HAS_REFCOUNT)
}

/// Whether a query is for inodes with such a dinode.
fn is_for(query: &PathQuery, d: &Dinode) -> bool
    ensures { result ≡ is_for_dinode query.now d.now }
{
    match query {
        PathQuery::Ls { .. } => is_of_directory(d),
        PathQuery::Stat { .. } => true,
        PathQuery::Cat { .. } => is_of_file(d),
        PathQuery::Refcount { .. } => is_of_sharing_file(d),
    }
}

/// Puts the text of a sound inode that was read, and that the query is for. Bad where entries are asked for and DIR_BLOCK fails,
/// and where records of a tree are and REF_TREE does.
fn put_answer<D: Disk, K: Sink, const N: usize>(
    alloc: Global,
    view: &mut View<'_, D, N>,
    geo: &Geo,
    query: &PathQuery,
    reading: &InodeReading,
    out: &mut K,
) -> Result<(), DebugFault>
    requires geo { LiesIn geo.now view.old }
    requires fits { Fits geo.now reading.now }
    requires read { (v : Volume) → Shows view.old geo.now v → TellsSound v reading.now.inode reading.now }
    requires sound { (v : Volume) → Shows view.old geo.now v → NoneFails (object_checks reading.now.inode) v }
    requires asked { (v : Volume) → Shows view.old geo.now v → is_for_dinode query.now (dinode v reading.now.inode) ≡ true }
    ensures told { OnOk result ((v : Volume) → Shows view.old geo.now v → Answers query.now v reading.now.inode (K.state out.old) (K.state out.new)) }
    ensures some { (v : Volume) → Shows view.old geo.now v → BeginsAnswer query.now v reading.now.inode (K.state out.old) (K.state out.new) }
    ensures reads { OnlyReads view.old view.new }
    ensures fails { IfErr result (AnswerFails view.old view.new geo.now (query_checks query.now reading.now.inode) (K.state out.old) (K.state out.new) (out.new ≡ out.old)
        (λ v. AnswersSome query.now v reading.now.inode (K.state out.old) (K.state out.new)) ⊥) }
    ensures quiet { (IsErrOf result DebugFault.OutputFault → ⊥) → (K.state out.new).faults ≡ (K.state out.old).faults }
{
    match query {
        PathQuery::Ls { .. } => put_ls(alloc, view, geo, reading, out),
        PathQuery::Stat { .. } => put_stat(alloc, reading, out),
        PathQuery::Cat { .. } => put_file(alloc, view, geo, reading, out),
        PathQuery::Refcount { .. } => put_refcount(alloc, view, geo, reading, out),
    }
}

/// Answers a query for the inode at the end of its path. Bad where INODE_KIND, EXTENT or INODE_SIZE fails for it, DIR_BLOCK where
/// entries are asked for, or REF_TREE where records of its tree are, and then WrongKind where it is of another kind than is asked
/// for.
pub fn answer<D: Disk, K: Sink, const N: usize>(
    alloc: Global,
    view: &mut View<'_, D, N>,
    geo: &Geo,
    query: &PathQuery,
    inode: u64,
    out: &mut K,
) -> Result<(), DebugFault>
    requires inode { Reaches geo.now view.old inode }
    requires valid { (v : Volume) → Shows view.old geo.now v → is_valid v inode ≡ true }
    ensures told { OnOk result ((v : Volume) → Shows view.old geo.now v → Answers query.now v inode (K.state out.old) (K.state out.new)) }
    ensures some { (v : Volume) → Shows view.old geo.now v → BeginsAnswer query.now v inode (K.state out.old) (K.state out.new) }
    ensures reads { OnlyReads view.old view.new }
    ensures fails { IfErr result (AnswerFails view.old view.new geo.now (query_checks query.now inode) (K.state out.old) (K.state out.new) (out.new ≡ out.old)
        (λ v. AnswersSome query.now v inode (K.state out.old) (K.state out.new)) ((v : Volume) → Shows view.old geo.now v → IsOfOtherKind query.now v inode)) }
    ensures quiet { (IsErrOf result DebugFault.OutputFault → ⊥) → (K.state out.new).faults ≡ (K.state out.old).faults }
{
    let reading = judge(alloc, view, geo, inode)?;
    if !is_for(query, &reading.dinode) {
        return Err(DebugFault::WrongKind);
    }
    put_answer(alloc, view, geo, query, &reading, out)
}

// The answer to a query, for the inode that its path leads to.
ghost use Rattle.std.specs.Prelude.{◌≡◌, OnOk, IsErrOf};
ghost use Rattle.std.specs.Result.{IfErr};
ghost use Rattle.o2_view.specs.Views.{view_state, Shows, OnlyReads};
ghost use Rattle.o2_view.specs.Geos.{LiesIn};
ghost use Rattle.o2_model.specs.Volume.{Volume};
ghost use Rattle.o2_dir.specs.PathTexts.{IsPath};
ghost use Rattle.o2_debug.specs.declared.query.Query.TheVariants.{At};
ghost use Rattle.o2_debug.specs.Answers.{path_of};
ghost use Rattle.o2_debug.specs.PathAnswers.{HasStart};
ghost use Rattle.o2_debug.specs.Queries.{AnswersAt, BeginsAnswerAt};
ghost use Rattle.o2_debug.specs.Fails.{AnswerFailsAt};

use crate::last_object::answer;
use crate::{DebugFault, PathQuery};
use o2_dir::path;
use o2_disk::{Disk, Sink};
use o2_model::Geo;
use o2_view::View;
use std::alloc::Global;

/// Answers a query whose path begins at a valid dinode. The faults of the path come first, and then those of the inode that it
/// leads to.
pub fn answer_at_path<D: Disk, K: Sink, const N: usize>(
    alloc: Global,
    view: &mut View<'_, D, N>,
    geo: &Geo,
    query: &PathQuery,
    out: &mut K,
) -> Result<(), DebugFault>
    requires geo { LiesIn geo.now view.old }
    requires path { IsPath (path_of query.now) }
    requires start { (v : Volume) → Shows view.old geo.now v → HasStart query.now v }
    ensures told { OnOk result ((v : Volume) → Shows view.old geo.now v → AnswersAt (At query.now) v (K.state out.old) (K.state out.new)) }
    ensures some { (v : Volume) → Shows view.old geo.now v → BeginsAnswerAt (At query.now) v (K.state out.old) (K.state out.new) }
    ensures reads { OnlyReads view.old view.new }
    ensures fails { IfErr result (AnswerFailsAt (Shows view.old geo.now) (view_state view.old) (view_state view.new) (At query.now) (K.state out.old) (K.state out.new)
        (out.new ≡ out.old)) }
    ensures quiet { (IsErrOf result DebugFault.OutputFault → ⊥) → (K.state out.new).faults ≡ (K.state out.old).faults }
{
    let text = query.path();
    let inode = path(alloc, view, geo, text.as_bytes())?;
    answer(alloc, view, geo, query, inode, out)
}

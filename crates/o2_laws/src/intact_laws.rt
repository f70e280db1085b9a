// Laws of the paths that a repair must keep, each the contract of a function that does nothing.
ghost use Rattle.o2_model.specs.Volume.{Volume};
ghost use Rattle.o2_model.specs.Intact.{KeepsIntact};

/// A law: a volume keeps its own intact paths, and what each of two steps keeps both keep together.
pub fn intact_paths_are_kept_by_steps()
    ensures itself { (v : Volume) → KeepsIntact v v }
    ensures steps { (u v w : Volume) → KeepsIntact u v → KeepsIntact v w → KeepsIntact u w }
{}

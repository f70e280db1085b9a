// Laws of the check table, each the contract of a function that does nothing.
ghost use Rattle.std.specs.Prelude.{◌≡◌, [], ℕ};
ghost use Rattle.o2_model.specs.declared.check.Check.{Check};
ghost use Rattle.o2_model.specs.Volume.{Volume};
ghost use Rattle.o2_model.specs.Failing.{faults, failing, Holds};

/// A law: where no pair fails, each check holds at each block.
pub fn each_check_holds()
    ensures faults { (v : Volume) → failing v ≡ [] → (c : Check) → faults v c ≡ [] }
    ensures holds { (v : Volume) → failing v ≡ [] → (c : Check) (b : ℕ) → Holds v c b }
{}

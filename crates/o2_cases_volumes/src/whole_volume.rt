// That the whole volume is sound.
ghost use Rattle.std.specs.Prelude.{◌≡◌, [], None};
ghost use Rattle.o2_model.specs.Failing.{failing};
ghost use Rattle.o2_model.specs.Structures.{unsupported_structure};
ghost use Rattle.o2_cases_volumes.specs.WholeVolume.{whole};

/// A law: nothing fails on the whole volume, and it has no structure outside the profile.
pub fn whole_volume_is_sound()
    ensures none_fails { failing whole ≡ [] }
    ensures supported { unsupported_structure whole ≡ None }
{}

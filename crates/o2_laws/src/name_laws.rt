// Laws of the names of the volume's own files, each the contract of a function that does nothing.
ghost use Rattle.std.specs.Prelude.{◌≡◌, ◌<◌, ℕ, List, Some};
ghost use Rattle.o2_model.specs.declared.system_file.SlotFile.{SlotFile};
ghost use Rattle.o2_model.specs.declared.system_file.SystemFile.TheVariants.{OfSlot};
ghost use Rattle.o2_model.specs.SystemFiles.{slot_in_name, system_name};

/// A law: the name of a slot's file tells the slot, and only the name of a file of that slot does.
pub fn slot_names_tell_slots()
    ensures told { (file : SlotFile) (slot : ℕ) → slot < 10000 → slot_in_name file (system_name (OfSlot file slot)) ≡ Some slot }
    ensures small { (file : SlotFile) (name : List ℕ) (slot : ℕ) → slot_in_name file name ≡ Some slot → slot < 10000 }
    ensures only { (file : SlotFile) (name : List ℕ) (slot : ℕ) → slot_in_name file name ≡ Some slot → name ≡ system_name (OfSlot file slot) }
{}

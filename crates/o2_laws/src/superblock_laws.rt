// Laws of the superblock and its label, each the contract of a function that does nothing.
ghost use Rattle.std.specs.Prelude.{◌≡◌, ◌⊎◌, ◌+◌, ◌*◌, ◌<◌, ◌≤◌, ℕ, List, length, slice_index, Some};
ghost use Rattle.o2_disk.specs.Image.{Image, IsImage, byte};
ghost use Rattle.o2_model.specs.Superblock.{super_sector, superblock_bits};
ghost use Rattle.o2_model.specs.Geometry.{superblock_geometry};
ghost use Rattle.o2_model.specs.Volume.{opened, volume_of};
ghost use Rattle.o2_model.specs.declared.geo.Geo.{Geo};
ghost use Rattle.o2_model.specs.Label.{label_field, label_place, with_label};

/// A law: another label changes the 64 bytes of the superblock's label, and no other byte of the volume.
pub fn label_alone_changes()
    ensures field { (label : List ℕ) → length label ≤ 64 → length (label_field label) ≡ 64 }
    ensures sectors { (bits : ℕ) (field : List ℕ) (I : Image) → length (with_label bits field I) ≡ length I }
    ensures label { (bits : ℕ) (field : List ℕ) → length field ≡ 64 → (I : Image) → IsImage I → super_sector bits < length I
        → (i : ℕ) → i < 64 → byte (with_label bits field I) (512 * super_sector bits + label_place + i) ≡ slice_index field i }
    ensures others { (bits : ℕ) (field : List ℕ) → length field ≡ 64 → (I : Image) → IsImage I → super_sector bits < length I
        → (i : ℕ) → (i < 512 * super_sector bits + label_place) ⊎ (512 * super_sector bits + label_place + 64 ≤ i) → byte (with_label bits field I) i ≡ byte I i }
{}

/// A law: the numbers of the superblock that is found tell the block size under which it was found.
pub fn geometry_tells_block_bits()
    ensures bits { (I : Image) (geo : Geo) → superblock_geometry I ≡ Some geo → superblock_bits I ≡ Some geo.block_bits }
    ensures volume { (I : Image) (geo : Geo) → superblock_geometry I ≡ Some geo → opened I ≡ Some (volume_of I geo.block_bits) }
    ensures numbers { (I : Image) (geo : Geo) → superblock_geometry I ≡ Some geo → (volume_of I geo.block_bits).geo ≡ geo }
{}

// The whole volume: 16 clusters of 8 blocks of 512 bytes, on which every check holds.
ghost use Rattle.std.specs.Prelude.{◌≤◌};
ghost use Rattle.o2_disk.specs.Device.{SameDevice, IsWritable, HasCause};

use crate::groups::{group, super_block};
use crate::{own_files, user_files};
use o2_disk::{Disk, Failed};

/// Puts the superblock, the groups, and the volume's own files.
fn put_own<D: Disk>(disk: &mut D) -> Result<(), Failed>
    requires disk { 128 ≤ (D.state disk.old).sectors }
    requires writable { IsWritable (D.state disk.old).attached }
    ensures device { SameDevice (D.state disk.old) (D.state disk.new) }
    ensures cause { HasCause (D.state disk.old).faults (D.state disk.new).faults result }
{
    disk.write(2, &super_block())?;
    disk.write(8, &group(8, 19, 16, 1, [0xff, 0x7f, 0]))?;
    disk.write(16, &group(16, 20, 24, 6, [0xff, 0xff, 0x03]))?;
    disk.write(40, &group(40, 23, 8, 4, [0x0f, 0, 0]))?;
    disk.write(17, &own_files::system_directory())?;
    disk.write(19, &own_files::global_bitmap())?;
    disk.write(20, &own_files::global_inode_alloc())?;
    disk.write(21, &own_files::own_file(21, 0x11, 48))?;
    disk.write(22, &own_files::orphan_directory())?;
    disk.write(23, &own_files::extent_alloc())?;
    disk.write(24, &own_files::inode_alloc())?;
    disk.write(25, &own_files::own_file(25, 0x111, 56))?;
    disk.write(26, &own_files::window())?;
    disk.write(27, &own_files::truncate_log())?;
    disk.write(56, &own_files::journal_super())
}

/// Puts the files of users.
fn put_users<D: Disk>(disk: &mut D) -> Result<(), Failed>
    requires disk { 128 ≤ (D.state disk.old).sectors }
    requires writable { IsWritable (D.state disk.old).attached }
    ensures device { SameDevice (D.state disk.old) (D.state disk.new) }
    ensures cause { HasCause (D.state disk.old).faults (D.state disk.new).faults result }
{
    disk.write(18, &user_files::root())?;
    disk.write(28, &user_files::directory())?;
    disk.write(72, &user_files::directory_block())?;
    disk.write(43, &user_files::index_root())?;
    disk.write(29, &user_files::file_with_hole())?;
    disk.write(41, &user_files::extent_block())?;
    disk.write(30, &user_files::shared_file(30))?;
    disk.write(31, &user_files::shared_file(31))?;
    disk.write(42, &user_files::refcount_block())?;
    disk.write(32, &user_files::orphan())?;
    disk.write(33, &user_files::link())?;
    disk.write(88, &user_files::shared_data())
}

/// Puts the whole volume on a disk of 128 sectors or more, whose bytes are zeros. It has blocks of 512 bytes, the root in block 18
/// and the system directory in block 17. The root has the directory `d` (28) with the name `h` of file 29, the file `f` (29) of
/// 12288 zero bytes with a hole of one cluster, the files `a` (30) and `b` (31), which share the five bytes `hello`, and the link `l`
/// (33) to `f`. Inode 32 is an orphan.
pub fn put_whole_volume<D: Disk>(disk: &mut D) -> Result<(), Failed>
    requires disk { 128 ≤ (D.state disk.old).sectors }
    requires writable { IsWritable (D.state disk.old).attached }
    ensures device { SameDevice (D.state disk.old) (D.state disk.new) }
    ensures cause { HasCause (D.state disk.old).faults (D.state disk.new).faults result }
{
    put_own(disk)?;
    put_users(disk)
}

// Where backups stand. The volume of the tests is too small to have one.
ghost use Rattle.std.specs.Prelude.{◌≡◌};
ghost use Rattle.o2_view.specs.Geos.{HasSizes};

use crate::backup_clusters;
use o2_model::Geo;
use o2_ondisk::DxSeed;
use std::test::Fail;

// A volume of so many clusters of 1 MiB, with backups.
fn numbers(clusters: u32) -> Geo
    ensures { HasSizes result }
{
    Geo {
        block_bits: 12,
        cluster_bits: 20,
        clusters,
        slots: 1,
        root: 18,
        sysdir: 17,
        first_group: 256,
        generation: 5,
        compat: 1,
        incompat: 0,
        seed: DxSeed {
            first: 0,
            second: 0,
            third: 0,
        },
    }
}

#[test]
fn tells_the_clusters_of_backups(rt: HostRuntime) -> Result<(), Fail> {
    let alloc = rt.alloc();
    let found = backup_clusters(alloc, &numbers(5000))?;
    assert_eq!(rt; found.as_slice(), [1024, 4096].as_slice());
    assert!(rt; backup_clusters(alloc, &numbers(1024))?.is_empty());
    Ok(())
}

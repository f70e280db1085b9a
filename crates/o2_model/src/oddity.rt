// What a volume may have that is outside the profile.
ghost use Rattle.std.specs.Prelude.{◌≡◌};

use std::fmt;

/// Why a volume is not supported, in the order in which the reasons count.
#[derive(Clone, Copy, Debug, PartialEq, Eq)]
pub enum Oddity {
    /// Checksums of metadata.
    Metaecc,
    /// Quotas of users or groups.
    Quota,
    /// A device for heartbeat alone, with no files.
    HeartbeatDevice,
    /// A volume that one machine has for itself.
    LocalMount,
    /// Another tool's resize or change of slots that has not ended.
    InProgress,
    /// A feature bit with no name in the profile.
    UnknownFeatures,
    /// More than 2^30 clusters.
    Clusters,
    /// A group of blocks whose clusters do not follow one another.
    DiscontiguousGroup,
    /// An inode with extended attributes.
    Attributes,
    /// An inode that is an orphan while a write past its end goes on.
    DioOrphan,
}

impl Oddity {
    ghost use Rattle.o2_model.specs.Names.{oddity_text};

    fn text(self) -> &'static str
        ensures { result.now ≡ oddity_text self }
    {
        match self {
            Oddity::Metaecc => "metaecc",
            Oddity::Quota => "quota",
            Oddity::HeartbeatDevice => "heartbeat device",
            Oddity::LocalMount => "local mount",
            Oddity::InProgress => "in progress",
            Oddity::UnknownFeatures => "unknown features",
            Oddity::Clusters => "clusters",
            Oddity::DiscontiguousGroup => "discontiguous group",
            Oddity::Attributes => "attributes",
            Oddity::DioOrphan => "dio orphan",
        }
    }
}

impl fmt::Display for Oddity {
    ghost use Rattle.std.specs.Prelude.{Some};
    ghost use Rattle.o2_model.specs.Names.{oddity_text};

    ghost output = { λ oddity. Some (oddity_text oddity) };

    fn fmt<W: fmt::Write>(&self, f: &mut fmt::Formatter<W>) -> fmt::Result {
        f.write_str(self.text())
    }
}

#[cfg(test)]
mod tests {
    use super::*;
    use std::test::Fail;

    #[test]
    fn prints_its_text(rt: HostRuntime) -> Result<(), Fail> {
        for (oddity, text) in [
            (Oddity::Metaecc, "metaecc"),
            (Oddity::Quota, "quota"),
            (Oddity::HeartbeatDevice, "heartbeat device"),
            (Oddity::LocalMount, "local mount"),
            (Oddity::InProgress, "in progress"),
            (Oddity::UnknownFeatures, "unknown features"),
            (Oddity::Clusters, "clusters"),
            (Oddity::DiscontiguousGroup, "discontiguous group"),
            (Oddity::Attributes, "attributes"),
            (Oddity::DioOrphan, "dio orphan"),
        ] {
            assert_eq!(rt; oddity.to_string(rt.alloc())?.as_str(), text);
        }
        Ok(())
    }
}

// The end of a run.
ghost use Rattle.std.specs.Prelude.{◌≡◌};
ghost use Rattle.o2_cause.specs.Causes.{status_of};

use o2_cause::Cause;

/// The end of a run.
#[derive(Debug, Drop)]
pub struct Done {
    pub status: u8,
    pub cause: Cause,
}

impl Done {
    /// The end by this cause, with its status where the first word is this tool.
    pub fn by(tool: &str, cause: Cause) -> Self
        ensures status { result.status ≡ status_of tool.now cause }
        ensures cause { result.cause ≡ cause }
    {
        Done {
            status: cause.status(tool),
            cause,
        }
    }
}

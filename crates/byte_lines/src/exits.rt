ghost use Rattle.std.specs.Prelude.{◌≡◌};
ghost use Rattle.std.specs.Process.{exit_status};

use std::io::Eprint;
use std::process::{ExitCode, Termination};

/// How a program ends: its exit status, and what it says on standard error, if anything. A `main` returns it.
#[derive(Clone, Copy, Debug, PartialEq, Eq)]
pub struct Exit {
    pub status: u8,
    pub words: Option<&'static str>,
}

impl Termination for Exit {
    /// A device that fails there changes no status.
    fn report<R: Eprint>(self, rt: &R) -> ExitCode
        ensures { exit_status result ≡ self.status }
    {
        if let Some(words) = self.words {
            let _ = eprintln!(rt; "{words}");
        }
        ExitCode::from(self.status)
    }
}

//! The lines that the program writes on errors.
ghost use Rattle.std.specs.Prelude.{◌≡◌};
ghost use Rattle.blart.specs.Faults.{fault_text};

use line_program::RunError;

/// Returns the line that the program writes on standard error.
///
/// Cost: none.
pub fn fault_line(error: RunError) -> &'static str
    ensures { result.now ≡ fault_text error }
{
    match error {
        RunError::Read => "artmap: read failed",
        RunError::Write => "artmap: write failed",
        RunError::Memory => "artmap: out of memory",
    }
}

ghost use Rattle.std.specs.Prelude.{◌≡◌};
ghost use Rattle.run_ports.specs.declared.fault.ReadStop.TheVariants.{WriteFailed as LostOutput};

use text_input::InputFault;

/// The writer failed.
#[derive(Clone, Copy)]
pub struct WriteFailed;

/// Why nothing was read.
#[derive(Clone, Copy)]
pub enum ReadStop {
    /// The input is at fault.
    Input(InputFault),
    /// The reader failed where a byte was needed.
    ReadFailed,
    /// The writer failed before the reader was asked.
    WriteFailed,
}

impl From<WriteFailed> for ReadStop {
    ghost from_gives = { λ _ stop. stop ≡ LostOutput };

    fn from(_failed: WriteFailed) -> ReadStop {
        ReadStop::WriteFailed
    }
}

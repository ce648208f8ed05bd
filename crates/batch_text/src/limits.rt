//! How long the text of a batch may be.
ghost use Rattle.std.specs.Prelude.{◌≡◌};
ghost use Rattle.batch_text.specs.Limits.{max_batch_bytes, max_commands};

/// The most bytes that the text of a batch has.
pub const MAX_BATCH_BYTES: usize = 1_048_576;

/// The most commands that a batch has.
pub const MAX_COMMANDS: usize = 1000;

/// The constants are the limits that the definitions name.
pub fn law_of_limits()
    ensures batch_bytes { MAX_BATCH_BYTES ≡ max_batch_bytes }
    ensures commands { MAX_COMMANDS ≡ max_commands }
{}

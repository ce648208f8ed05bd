//! How long texts may be.
ghost use Rattle.std.specs.Prelude.{◌≡◌};
ghost use Rattle.script_text.specs.Limits.{max_script_bytes, max_inputs, max_steps, max_values_bytes};

/// The most bytes that the text of a script has.
pub const MAX_SCRIPT_BYTES: usize = 1_048_576;

/// The most inputs of both kinds that a script has.
pub const MAX_INPUTS: usize = 64;

/// The most steps that a script has.
pub const MAX_STEPS: usize = 4096;

/// The most bytes that the text of a list of values has.
pub const MAX_VALUES_BYTES: usize = 4_194_304;

/// The constants are the limits that the definitions name.
pub fn law_of_limits()
    ensures script_bytes { MAX_SCRIPT_BYTES ≡ max_script_bytes }
    ensures inputs { MAX_INPUTS ≡ max_inputs }
    ensures steps { MAX_STEPS ≡ max_steps }
    ensures values_bytes { MAX_VALUES_BYTES ≡ max_values_bytes }
{}

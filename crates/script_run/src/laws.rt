// When a register is live.
ghost use Rattle.std.specs.Prelude.{ℕ, ◌↔◌, IsTrue};
ghost use Rattle.script_text.specs.Scripts.{Script};
ghost use Rattle.script_run.specs.Registers.{Live, is_live};

/// A register is live before a step exactly where the test says so, by which live registers are
/// counted.
pub fn law_of_live()
    ensures { (script : Script) (i r : ℕ) → IsTrue (is_live script i r) ↔ Live script i r }
{}

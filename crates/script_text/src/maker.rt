// Scripts that are made without a text.
ghost use Rattle.std.specs.Prelude.{◌≡◌, Err, IfOk};
ghost use Rattle.script_text.specs.Scripts.{IsSound};
ghost use Rattle.script_text.specs.Making.{Gives, begun, with_input, with_operation, with_output};

use crate::draft::Draft;
use crate::limits::{MAX_INPUTS, MAX_STEPS};
use crate::script::{InputKind, Op, Script};
use line_text::is_name;
use set_table::SetName;
use std::alloc::{AllocError, Global};
use std::marker::Model;

/// Why an input, a step or an output is refused.
#[derive(Clone, Copy, Debug, PartialEq, Eq)]
pub enum Refusal {
    /// There are as many inputs or steps as a script may have.
    TooMany,
    /// An input follows a step.
    TooLate,
    /// The name isn't of the form of names.
    NoName,
    /// The name was given before.
    Taken,
    /// A register or a plain input that is read, or the output, isn't there.
    Missing,
    /// A factor isn't below the plaintext modulus, or rows are turned by 0 or by their length or
    /// more.
    OutOfRange,
    /// An operand doesn't have the parts that the operation takes.
    Shape,
}

/// Why a script isn't made.
#[derive(Clone, Copy, Debug, PartialEq, Eq)]
pub enum MakeFault {
    Refused(Refusal),
    /// There was no memory.
    Memory,
}

impl From<AllocError> for MakeFault {
    ghost use Rattle.std.specs.Prelude.{◌≡◌};
    ghost use Rattle.script_text.specs.declared.maker.MakeFault.TheVariants as make_fault;

    ghost from_gives = { λ _ e. e ≡ make_fault.Memory };

    fn from(_: AllocError) -> Self {
        MakeFault::Memory
    }
}

/// A script that is being made: first its inputs, then its steps, and in the end its output. Each
/// keeps the line that it has in the script's printed text.
#[derive(Drop)]
pub struct ScriptMaker {
    draft: Draft,
}

impl Model for ScriptMaker {
    ghost use Rattle.script_text.specs.Drafts.{draft_seen};
    ghost use Rattle.script_text.specs.Grammar as grammar;
    ghost use Rattle.std.specs.Prelude.{◌≡◌};
    ghost use Rattle.script_text.specs.Making.{IsOpen};
    ghost use Rattle.script_text.specs.Scripts.{shapes_of};

    ghost Value = { grammar.Draft };

    ghost view = { λ m. draft_seen m.draft };

    ghost invariant = { λ m. IsOpen (draft_seen m.draft) × (m.draft.shapes.items ≡ shapes_of m.draft.inputs.items m.draft.steps.items) };
}

impl ScriptMaker {
    /// Begins a script of this parameter set.
    pub fn new(alloc: Global, set: SetName) -> ScriptMaker
        ensures { result ≡ begun set }
    {
        ScriptMaker {
            draft: Draft::new(alloc, set),
        }
    }

    /// One more input.
    #[tactic(auto, unfolding(crate::specs::Making::with_input))]
    pub fn input(self, alloc: Global, kind: InputKind, name: &str) -> Result<ScriptMaker, MakeFault>
        ensures { Gives result (with_input self kind name.now) }
    {
        let (draft, name) = (self.draft, name.as_bytes());
        if draft.inputs.len() >= MAX_INPUTS {
            return refused(Refusal::TooMany);
        }
        if !draft.steps.is_empty() {
            return refused(Refusal::TooLate);
        }
        if !is_name(name) {
            return refused(Refusal::NoName);
        }
        if !draft.is_new(name) {
            return refused(Refusal::Taken);
        }
        let at = draft.inputs.len() as u32 + 2;
        let draft = draft.with_input(alloc, at, kind, name)?;
        Ok(ScriptMaker { draft })
    }

    /// One more step, which makes the next register of those before it.
    #[tactic(auto, unfolding(crate::specs::Making::with_operation))]
    pub fn step(self, alloc: Global, name: &str, op: Op) -> Result<ScriptMaker, MakeFault>
        ensures { Gives result (with_operation self name.now op) }
    {
        let (draft, name) = (self.draft, name.as_bytes());
        if draft.steps.len() >= MAX_STEPS {
            return refused(Refusal::TooMany);
        }
        if !is_name(name) {
            return refused(Refusal::NoName);
        }
        if !draft.is_new(name) {
            return refused(Refusal::Taken);
        }
        if !draft.has_operands(op) {
            return refused(Refusal::Missing);
        }
        if !draft.has_number(op) {
            return refused(Refusal::OutOfRange);
        }
        if !draft.has_shape(op) {
            return refused(Refusal::Shape);
        }
        let at = draft.inputs.len() as u32 + draft.steps.len() as u32 + 2;
        let draft = draft.with_operation(alloc, at, name, op)?;
        Ok(ScriptMaker { draft })
    }

    /// The script that puts out this register.
    #[tactic(auto, unfolding(crate::specs::Making::with_output))]
    pub fn output(self, register: u32) -> Result<Script, Refusal>
        ensures value { result ≡ with_output self register }
        ensures sound { IfOk result IsSound }
    {
        let Draft {
            set,
            inputs,
            steps,
            shapes,
            ..
        } = self.draft;
        if register as usize >= shapes.len() {
            return Err(Refusal::Missing);
        }
        Ok(Script {
            set,
            inputs,
            steps,
            shapes,
            output: register,
        })
    }
}

fn refused(refusal: Refusal) -> Result<ScriptMaker, MakeFault>
    ensures { Gives result (Err refusal) }
{
    Err(MakeFault::Refused(refusal))
}

// Scripts that were read.
ghost use Rattle.std.specs.Prelude.{◌≡◌, ◌<◌, ◌+◌, [], slice_index_or, ℕ, length, slice_get, slice_index, IfSome};
ghost use Rattle.script_text.specs.Scripts.{IsSound, shape_at, shapes_of, cipher_inputs, register_names, register_lines, registers_of};
ghost use Rattle.script_text.specs.Printed.{plain_names};

use line_text::Name;
use set_table::SetName;
use std::marker::Model;

/// Whether the values of an input are given encrypted or plain.
#[derive(Clone, Copy, Debug, PartialEq, Eq)]
pub enum InputKind {
    Cipher,
    Plain,
}

/// An operation. Its first operand is the number of a register. A second operand is the number of
/// a register, of `AddPlain`, `SubPlain` and `MulPlain` that of a plain input, of `MulConst` the
/// factor and of `Turn` how far both rows are turned to the left.
#[derive(Clone, Copy, Debug, PartialEq, Eq)]
pub enum Op {
    Add(u32, u32),
    Sub(u32, u32),
    Neg(u32),
    AddPlain(u32, u32),
    SubPlain(u32, u32),
    MulPlain(u32, u32),
    MulConst(u32, u64),
    Mul(u32, u32),
    Relin(u32),
    Turn(u32, u32),
    Swap(u32),
}

/// What is known of a cipher before it is made.
#[derive(Clone, Copy, Debug, PartialEq, Eq)]
pub struct Shape {
    /// How many parts it has: 2, or 3 after a product.
    pub parts: u8,
}

/// An input with its line in the text, counted from 1.
#[derive(Drop)]
pub struct Input {
    pub name: Name,
    pub kind: InputKind,
    pub line: u32,
}

/// A step with its line in the text, counted from 1.
#[derive(Drop)]
pub struct Step {
    pub name: Name,
    pub op: Op,
    pub line: u32,
}

/// A script that was read: a parameter set, inputs, steps and an output. The cipher inputs and
/// then the steps are the registers, numbered from 0; the plain inputs are numbered from 0 by
/// themselves.
#[derive(Drop)]
pub struct Script {
    pub(crate) set: SetName,
    pub(crate) inputs: Vec<Input>,
    pub(crate) steps: Vec<Step>,
    /// The shape of each register.
    pub(crate) shapes: Vec<Shape>,
    pub(crate) output: u32,
}

impl Model for Script {
    ghost use Rattle.std.specs.Prelude.{◌≡◌};
    ghost use Rattle.script_text.specs.Scripts as scripts;
    ghost use Rattle.script_text.specs.Scripts.{IsSound, shapes_of};

    ghost Value = { scripts.Script };

    ghost view = { λ s. record { set = s.set; inputs = s.inputs.items; steps = s.steps.items; output = s.output } };

    ghost invariant = { λ s. IsSound (record { set = s.set; inputs = s.inputs.items; steps = s.steps.items; output = s.output }) × (s.shapes.items ≡ shapes_of s.inputs.items s.steps.items) };
}

impl Script {
    /// The parameter set.
    pub fn set(&self) -> SetName
        ensures value { result ≡ self.now.set }
        ensures sound { IsSound self.now }
    {
        self.set
    }

    /// The number of inputs of both kinds.
    pub fn inputs(&self) -> usize
        ensures value { result ≡ length self.now.inputs }
        ensures sound { IsSound self.now }
    {
        self.inputs.len()
    }

    /// The name of input `i`, in order of declaration.
    pub fn input_name(&self, i: usize) -> &str
        requires { i < length self.now.inputs }
        ensures { IfSome (slice_get self.now.inputs i) (λ input. result.now ≡ input.name) }
    {
        let input = &self.inputs[i];
        input.name.as_str()
    }

    pub fn input_kind(&self, i: usize) -> InputKind
        requires { i < length self.now.inputs }
        ensures { IfSome (slice_get self.now.inputs i) (λ input. result ≡ input.kind) }
    {
        let input = &self.inputs[i];
        input.kind
    }

    /// The line of input `i` in the text, counted from 1.
    pub fn input_line(&self, i: usize) -> u32
        requires { i < length self.now.inputs }
        ensures { IfSome (slice_get self.now.inputs i) (λ input. result ≡ input.line) }
    {
        let input = &self.inputs[i];
        input.line
    }

    /// The number of steps.
    pub fn steps(&self) -> usize
        ensures value { result ≡ length self.now.steps }
        ensures sound { IsSound self.now }
    {
        self.steps.len()
    }

    pub fn step(&self, i: usize) -> Op
        requires { i < length self.now.steps }
        ensures { IfSome (slice_get self.now.steps i) (λ step. result ≡ step.op) }
    {
        let step = &self.steps[i];
        step.op
    }

    /// The line of step `i` in the text, counted from 1.
    pub fn step_line(&self, i: usize) -> u32
        requires { i < length self.now.steps }
        ensures { IfSome (slice_get self.now.steps i) (λ step. result ≡ step.line) }
    {
        let step = &self.steps[i];
        step.line
    }

    /// The name of the register that step `i` defines.
    pub fn step_name(&self, i: usize) -> &str
        requires { i < length self.now.steps }
        ensures { IfSome (slice_get self.now.steps i) (λ step. result.now ≡ step.name) }
    {
        let step = &self.steps[i];
        step.name.as_str()
    }

    /// The number of the register that is put out.
    pub fn output(&self) -> u32
        ensures value { result ≡ self.now.output }
        ensures sound { IsSound self.now }
    {
        self.output
    }

    /// The number of cipher inputs, which are the first registers.
    pub fn ciphers(&self) -> usize
        ensures { result ≡ length (cipher_inputs self.now.inputs) }
    {
        self.shapes.len() - self.steps.len()
    }

    /// The shape of the cipher in this register.
    pub fn register_shape(&self, register: usize) -> Shape
        requires { register < length (cipher_inputs self.now.inputs) + length self.now.steps }
        ensures listed { IfSome (slice_get (registers_of self.now) register) (λ listed. result ≡ listed.shape) }
        ensures value { result ≡ shape_at (shapes_of self.now.inputs self.now.steps) register }
    {
        self.shapes[register]
    }

    /// The line of the text that defines this register, counted from 1.
    pub fn register_line(&self, register: usize) -> u32
        requires { register < length (cipher_inputs self.now.inputs) + length self.now.steps }
        ensures listed { IfSome (slice_get (registers_of self.now) register) (λ listed. result ≡ listed.line) }
        ensures value { result ≡ slice_index (register_lines self.now) register }
    {
        let line = self
            .inputs
            .iter()
            .filter(|input| matches!(input.kind, InputKind::Cipher))
            .map(|input| input.line)
            .chain(self.steps.iter().map(|step| step.line))
            .nth(register);
        match line {
            Some(line) => line,
            None => 0,
        }
    }

    /// The name of this register, and an empty text where there is none.
    pub fn register_name(&self, register: usize) -> &str
        ensures listed { IfSome (slice_get (registers_of self.now) register) (λ listed. result.now ≡ listed.name) }
        ensures value { result.now ≡ slice_index_or (register_names self.now) register [] }
    {
        let name = self
            .inputs
            .iter()
            .filter(|input| matches!(input.kind, InputKind::Cipher))
            .map(|input| &input.name)
            .chain(self.steps.iter().map(|step| &step.name))
            .nth(register);
        match name {
            Some(name) => name.as_str(),
            None => "",
        }
    }

    /// The name of a plain input.
    pub(crate) fn plain_name(&self, plain: u32) -> &str
        ensures { result.now ≡ slice_index_or (plain_names self.now) plain [] }
    {
        let name = self
            .inputs
            .iter()
            .filter(|input| matches!(input.kind, InputKind::Plain))
            .map(|input| &input.name)
            .nth(plain as usize);
        match name {
            Some(name) => name.as_str(),
            None => "",
        }
    }
}

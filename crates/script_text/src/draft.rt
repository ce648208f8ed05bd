// What the lines of a script give, one after the other.
ghost use Rattle.std.specs.Prelude.{◌≡◌, ◌+◌, ◌<◌, ◌^◌, ◌==◌, ℕ, [], None, nat_lt, length, IfOk, IsTrue, slice_index_or};
ghost use Rattle.script_text.specs.Drafts.{draft_seen, Gives, IsKept};
ghost use Rattle.line_text.specs.Names.{is_name};
ghost use Rattle.script_text.specs.Scripts.{has_shape, shape_at, shape_made, shapes_of, plain_inputs};
ghost use Rattle.line_text.specs.Lines.{words_of};
ghost use Rattle.script_text.specs.Grammar.{register_named, plain_named, is_new, input_added, step_added, set_line, input_line, output_line, is_second, second_value, with_step, short_step, long_step, short_line, keyword_after, next_line};
ghost use Rattle.script_text.specs.Making.{register_count, has_operands, has_number};
ghost use Rattle.script_text.specs.declared.faults.ScriptPlace.TheVariants as place;
ghost use Rattle.script_text.specs.declared.faults.ScriptFault.TheVariants as fault;

use crate::faults::{ScriptFault, ScriptPlace};
use crate::keyword::{Keyword, Second};
use crate::script::{Input, InputKind, Op, Shape, Step};
use line_text::{Name, count_words, is_name, number_in, read_number, word};
use set_table::SetName;
use std::alloc::{AllocError, Global};

/// What lines without fault give, from the set line on.
#[derive(Drop)]
pub struct Draft {
    pub set: SetName,
    pub inputs: Vec<Input>,
    pub steps: Vec<Step>,
    /// The shape of each register.
    pub shapes: Vec<Shape>,
    pub output: Option<u32>,
}

pub fn syntax(line: u32) -> ScriptFault
    ensures { result ≡ fault.Bad (place.Syntax line) }
{
    ScriptFault::Bad(ScriptPlace::Syntax(line))
}

fn unknown_name(line: u32) -> ScriptFault
    ensures { result ≡ fault.Bad (place.Name line) }
{
    ScriptFault::Bad(ScriptPlace::Name(line))
}

/// The keyword of a step, which stands after the name and `=`.
#[tactic(auto, unfolding(crate::specs::Grammar::keyword_after))]
fn keyword_of(line: &[u8]) -> Option<Keyword>
    ensures { result ≡ keyword_after (slice_index_or (words_of line.now) 1 []) (slice_index_or (words_of line.now) 2 []) }
{
    if word(line, 1) == b"=".as_slice() {
        Keyword::named(word(line, 2))
    } else {
        None
    }
}

impl Draft {
    /// A draft of this set with nothing else.
    pub fn new(alloc: Global, set: SetName) -> Draft
        ensures value { draft_seen result ≡ record { set = set; inputs = []; steps = []; output = None } }
        ensures kept { (at : ℕ) → 0 < at → IsKept result at }
    {
        Draft {
            set,
            inputs: Vec::new(alloc),
            steps: Vec::new(alloc),
            shapes: Vec::new(alloc),
            output: None,
        }
    }

    /// The draft after the set line.
    #[tactic(auto, unfolding(crate::specs::Grammar::set_line))]
    pub fn from_set_line(alloc: Global, at: u32, line: &[u8]) -> Result<Draft, ScriptFault>
        requires { 0 < at }
        ensures value { Gives draft_seen result (set_line at (words_of line.now)) }
        ensures kept { IfOk result (λ draft. IsKept draft (at + 1)) }
    {
        if count_words(line) != 2 || word(line, 0) != b"set".as_slice() {
            return Err(syntax(at));
        }
        match SetName::from_bytes(word(line, 1)) {
            Some(set) => Ok(Draft::new(alloc, set)),
            None => Err(syntax(at)),
        }
    }

    #[tactic(auto, unfolding(crate::specs::Grammar::register_named))]
    fn register_named(&self, name: &[u8]) -> Option<u32>
        requires { length self.now.inputs.items + length self.now.steps.items < 2 ^ 32 }
        ensures { result ≡ register_named (draft_seen self.now) name.now }
    {
        let register = self
            .inputs
            .iter()
            .filter(|input| matches!(input.kind, InputKind::Cipher))
            .map(|input| &input.name)
            .chain(self.steps.iter().map(|step| &step.name))
            .position(|other| other.is(name))?;
        Some(register as u32)
    }

    #[tactic(auto, unfolding(crate::specs::Grammar::plain_named))]
    fn plain_named(&self, name: &[u8]) -> Option<u32>
        requires { length self.now.inputs.items + length self.now.steps.items < 2 ^ 32 }
        ensures { result ≡ plain_named (draft_seen self.now) name.now }
    {
        let plain = self
            .inputs
            .iter()
            .filter(|input| matches!(input.kind, InputKind::Plain))
            .map(|input| &input.name)
            .position(|other| other.is(name))?;
        Some(plain as u32)
    }

    #[tactic(auto, unfolding(crate::specs::Grammar::is_new))]
    pub fn is_new(&self, name: &[u8]) -> bool
        requires { length self.now.inputs.items + length self.now.steps.items < 2 ^ 32 }
        ensures { result ≡ is_new (draft_seen self.now) name.now }
    {
        self.register_named(name).is_none() && self.plain_named(name).is_none()
    }

    fn has_register(&self, register: u32) -> bool
        requires { self.now.shapes.items ≡ shapes_of self.now.inputs.items self.now.steps.items }
        ensures { result ≡ nat_lt register (register_count (draft_seen self.now)) }
    {
        (register as usize) < self.shapes.len()
    }

    fn has_plain(&self, plain: u32) -> bool
        ensures { result ≡ nat_lt plain (length (plain_inputs self.now.inputs.items)) }
    {
        let plains = self
            .inputs
            .iter()
            .filter(|input| matches!(input.kind, InputKind::Plain))
            .count();
        (plain as usize) < plains
    }

    /// Whether the registers and the plain input that an operation reads are there.
    #[tactic(auto, unfolding(crate::specs::Making::has_operands))]
    pub fn has_operands(&self, op: Op) -> bool
        requires { self.now.shapes.items ≡ shapes_of self.now.inputs.items self.now.steps.items }
        ensures { result ≡ has_operands (draft_seen self.now) op }
    {
        match op {
            Op::Add(a, b) | Op::Sub(a, b) | Op::Mul(a, b) => {
                self.has_register(a) && self.has_register(b)
            }
            Op::AddPlain(a, p) | Op::SubPlain(a, p) | Op::MulPlain(a, p) => {
                self.has_register(a) && self.has_plain(p)
            }
            Op::Neg(a) | Op::MulConst(a, _) | Op::Relin(a) | Op::Turn(a, _) | Op::Swap(a) => {
                self.has_register(a)
            }
        }
    }

    /// Whether a factor is below the plaintext modulus, and rows are turned by less than their
    /// length but not by 0.
    #[tactic(auto, unfolding(crate::specs::Making::has_number))]
    pub fn has_number(&self, op: Op) -> bool
        ensures { result ≡ has_number self.now.set op }
    {
        match op {
            Op::MulConst(_, k) => k < self.set.plain(),
            Op::Turn(_, k) => 0 < k && (k as usize) < self.set.degree() / 2,
            _ => true,
        }
    }

    /// The shape of a register; one that isn't there has no parts.
    fn shape_at(&self, register: u32) -> Shape
        ensures { result ≡ shape_at self.now.shapes.items register }
    {
        self.shapes
            .get(register as usize)
            .copied()
            .unwrap_or(Shape { parts: 0 })
    }

    fn has_parts(&self, register: u32, parts: u8) -> bool
        ensures { result ≡ ((shape_at self.now.shapes.items register).parts == parts) }
    {
        self.shape_at(register).parts == parts
    }

    #[tactic(auto, unfolding(crate::specs::Scripts::has_shape))]
    pub fn has_shape(&self, op: Op) -> bool
        ensures { result ≡ has_shape self.now.shapes.items op }
    {
        match op {
            Op::Mul(a, b) => self.has_parts(a, 2) && self.has_parts(b, 2),
            Op::Relin(a) => self.has_parts(a, 3),
            Op::Turn(a, _) | Op::Swap(a) => self.has_parts(a, 2),
            _ => true,
        }
    }

    fn shape_made(&self, op: Op) -> Shape
        ensures { result ≡ shape_made self.now.shapes.items op }
    {
        match op {
            Op::Add(a, b) | Op::Sub(a, b) => Shape {
                parts: self.shape_at(a).parts.max(self.shape_at(b).parts),
            },
            Op::Neg(a)
            | Op::AddPlain(a, _)
            | Op::SubPlain(a, _)
            | Op::MulPlain(a, _)
            | Op::MulConst(a, _) => self.shape_at(a),
            Op::Mul(_, _) => Shape { parts: 3 },
            Op::Relin(_) | Op::Turn(_, _) | Op::Swap(_) => Shape { parts: 2 },
        }
    }

    #[tactic(auto, unfolding(crate::specs::Grammar::is_second))]
    fn is_second(&self, second: Second, word: &[u8]) -> bool
        ensures { result ≡ is_second self.now.set second word.now }
    {
        match second {
            Second::Nothing => false,
            Second::Register | Second::Plain => is_name(word),
            Second::Factor => number_in(0, self.set.plain(), word).is_some(),
            Second::Distance => number_in(1, self.set.degree() as u64 / 2, word).is_some(),
        }
    }

    /// The value of the second operand, where `is_second` holds.
    #[tactic(auto, unfolding(crate::specs::Grammar::second_value))]
    fn second_value(&self, second: Second, word: &[u8]) -> Option<u32>
        requires few { length self.now.inputs.items + length self.now.steps.items < 2 ^ 32 }
        requires second { IsTrue (is_second self.now.set second word.now) }
        ensures { result ≡ second_value (draft_seen self.now) second word.now }
    {
        match second {
            Second::Nothing => None,
            Second::Register => self.register_named(word),
            Second::Plain => self.plain_named(word),
            Second::Factor | Second::Distance => Some(read_number(word) as u32),
        }
    }

    #[tactic(auto, unfolding(crate::specs::Grammar::input_line))]
    fn input_line(
        self,
        alloc: Global,
        at: u32,
        kind: InputKind,
        name: &[u8],
    ) -> Result<Draft, ScriptFault>
        requires { IsKept self at }
        ensures value { Gives draft_seen result (input_line (draft_seen self) at kind name.now) }
        ensures kept { IfOk result (λ draft. IsKept draft (at + 1)) }
    {
        if !is_name(name) || !self.steps.is_empty() {
            return Err(syntax(at));
        }
        if !self.is_new(name) {
            return Err(unknown_name(at));
        }
        Ok(self.with_input(alloc, at, kind, name)?)
    }

    /// The draft with one more input before all steps, whose name is known to be right.
    pub fn with_input(
        mut self,
        alloc: Global,
        at: u32,
        kind: InputKind,
        name: &[u8],
    ) -> Result<Draft, AllocError>
        requires kept { IsKept self at }
        requires first { length self.steps.items ≡ 0 }
        requires name { IsTrue (is_name name.now) }
        ensures value { IfOk result (λ draft. draft_seen draft ≡ input_added (draft_seen self) at kind name.now) }
        ensures kept { IfOk result (λ draft. IsKept draft (at + 1)) }
    {
        if matches!(kind, InputKind::Cipher) {
            self.shapes.push(Shape { parts: 2 })?;
        }
        self.inputs.push(Input {
            name: Name::new(alloc, name)?,
            kind,
            line: at,
        })?;
        Ok(self)
    }

    #[tactic(auto, unfolding(crate::specs::Grammar::output_line))]
    fn output_line(mut self, at: u32, name: &[u8]) -> Result<Draft, ScriptFault>
        requires { IsKept self at }
        ensures value { Gives draft_seen result (output_line (draft_seen self) at name.now) }
        ensures kept { IfOk result (λ draft. IsKept draft (at + 1)) }
    {
        if !is_name(name) {
            return Err(syntax(at));
        }
        match self.register_named(name) {
            Some(register) => {
                self.output = Some(register);
                Ok(self)
            }
            None => Err(unknown_name(at)),
        }
    }

    #[tactic(auto, unfolding(crate::specs::Grammar::with_step))]
    fn with_step(self, alloc: Global, at: u32, name: &[u8], op: Op) -> Result<Draft, ScriptFault>
        requires kept { IsKept self at }
        requires name { IsTrue (is_name name.now) }
        ensures value { Gives draft_seen result (with_step (draft_seen self) at name.now op) }
        ensures kept { IfOk result (λ draft. IsKept draft (at + 1)) }
    {
        if !self.has_shape(op) {
            return Err(ScriptFault::Bad(ScriptPlace::Shape(at)));
        }
        Ok(self.with_operation(alloc, at, name, op)?)
    }

    /// The draft with one more step, whose name and operation are known to be right.
    pub fn with_operation(
        mut self,
        alloc: Global,
        at: u32,
        name: &[u8],
        op: Op,
    ) -> Result<Draft, AllocError>
        requires kept { IsKept self at }
        requires name { IsTrue (is_name name.now) }
        ensures value { IfOk result (λ draft. draft_seen draft ≡ step_added (draft_seen self) at name.now op) }
        ensures kept { IfOk result (λ draft. IsKept draft (at + 1)) }
    {
        let shape = self.shape_made(op);
        self.shapes.push(shape)?;
        self.steps.push(Step {
            name: Name::new(alloc, name)?,
            op,
            line: at,
        })?;
        Ok(self)
    }

    /// The draft after the line `NAME = KEYWORD A`.
    #[tactic(auto, unfolding(crate::specs::Grammar::short_step))]
    fn short_step(
        self,
        alloc: Global,
        at: u32,
        name: &[u8],
        keyword: Keyword,
        a: &[u8],
    ) -> Result<Draft, ScriptFault>
        requires { IsKept self at }
        ensures value { Gives draft_seen result (short_step (draft_seen self) at name.now keyword a.now) }
        ensures kept { IfOk result (λ draft. IsKept draft (at + 1)) }
    {
        if !(is_name(name) && is_name(a) && keyword.second() == Second::Nothing) {
            return Err(syntax(at));
        }
        if !self.is_new(name) {
            return Err(unknown_name(at));
        }
        match self.register_named(a) {
            Some(a) => self.with_step(alloc, at, name, keyword.operation(a, 0)),
            None => Err(unknown_name(at)),
        }
    }

    /// The draft after the line `NAME = KEYWORD A B`.
    #[tactic(auto, unfolding(crate::specs::Grammar::long_step))]
    fn long_step(
        self,
        alloc: Global,
        at: u32,
        name: &[u8],
        keyword: Keyword,
        a: &[u8],
        b: &[u8],
    ) -> Result<Draft, ScriptFault>
        requires { IsKept self at }
        ensures value { Gives draft_seen result (long_step (draft_seen self) at name.now keyword a.now b.now) }
        ensures kept { IfOk result (λ draft. IsKept draft (at + 1)) }
    {
        let second = keyword.second();
        if !(is_name(name) && is_name(a) && self.is_second(second, b)) {
            return Err(syntax(at));
        }
        if !self.is_new(name) {
            return Err(unknown_name(at));
        }
        match (self.register_named(a), self.second_value(second, b)) {
            (Some(a), Some(b)) => self.with_step(alloc, at, name, keyword.operation(a, b)),
            _ => Err(unknown_name(at)),
        }
    }

    /// The draft after a line that is neither the set line nor passed over.
    #[tactic(auto, unfolding(crate::specs::Grammar::next_line))]
    pub fn next_line(self, alloc: Global, at: u32, line: &[u8]) -> Result<Draft, ScriptFault>
        requires { IsKept self at }
        ensures value { Gives draft_seen result (next_line (draft_seen self) at (words_of line.now)) }
        ensures kept { IfOk result (λ draft. IsKept draft (at + 1)) }
    {
        let count = count_words(line);
        if count == 2 {
            self.short_line(alloc, at, word(line, 0), word(line, 1))
        } else if count == 4 {
            match keyword_of(line) {
                Some(keyword) => self.short_step(alloc, at, word(line, 0), keyword, word(line, 3)),
                None => Err(syntax(at)),
            }
        } else if count == 5 {
            let (a, b) = (word(line, 3), word(line, 4));
            match keyword_of(line) {
                Some(keyword) => self.long_step(alloc, at, word(line, 0), keyword, a, b),
                None => Err(syntax(at)),
            }
        } else {
            Err(syntax(at))
        }
    }

    /// The draft after a line of two words.
    #[tactic(auto, unfolding(crate::specs::Grammar::short_line))]
    fn short_line(
        self,
        alloc: Global,
        at: u32,
        keyword: &[u8],
        name: &[u8],
    ) -> Result<Draft, ScriptFault>
        requires { IsKept self at }
        ensures value { Gives draft_seen result (short_line (draft_seen self) at keyword.now name.now) }
        ensures kept { IfOk result (λ draft. IsKept draft (at + 1)) }
    {
        if keyword == b"cipher".as_slice() {
            self.input_line(alloc, at, InputKind::Cipher, name)
        } else if keyword == b"plain".as_slice() {
            self.input_line(alloc, at, InputKind::Plain, name)
        } else if keyword == b"output".as_slice() {
            self.output_line(at, name)
        } else {
            Err(syntax(at))
        }
    }
}

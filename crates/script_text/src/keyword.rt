// The keywords of steps.
ghost use Rattle.std.specs.Prelude.{◌≡◌, ◌^◌, ◌<◌};
ghost use Rattle.script_text.specs.Keywords.{keyword_text, keyword_named, second_of, operation};

use crate::script::Op;

#[derive(Clone, Copy)]
pub enum Keyword {
    Add,
    Sub,
    Neg,
    AddPlain,
    SubPlain,
    MulPlain,
    MulConst,
    Mul,
    Relin,
    Turn,
    Swap,
}

/// What the second operand of a step is.
#[derive(Clone, Copy, Debug, PartialEq, Eq)]
pub enum Second {
    Nothing,
    Register,
    Plain,
    Factor,
    Distance,
}

const KEYWORDS: [Keyword; 11] = [
    Keyword::Add,
    Keyword::Sub,
    Keyword::Neg,
    Keyword::AddPlain,
    Keyword::SubPlain,
    Keyword::MulPlain,
    Keyword::MulConst,
    Keyword::Mul,
    Keyword::Relin,
    Keyword::Turn,
    Keyword::Swap,
];

impl Keyword {
    pub fn named(word: &[u8]) -> Option<Keyword>
        ensures { result ≡ keyword_named word.now }
    {
        KEYWORDS
            .iter()
            .find(|keyword| keyword.text().as_bytes() == word)
            .copied()
    }

    pub fn text(self) -> &'static str
        ensures { result.now ≡ keyword_text self }
    {
        match self {
            Keyword::Add => "add",
            Keyword::Sub => "sub",
            Keyword::Neg => "neg",
            Keyword::AddPlain => "addp",
            Keyword::SubPlain => "subp",
            Keyword::MulPlain => "mulp",
            Keyword::MulConst => "mulk",
            Keyword::Mul => "mul",
            Keyword::Relin => "relin",
            Keyword::Turn => "turn",
            Keyword::Swap => "swap",
        }
    }

    pub fn second(self) -> Second
        ensures { result ≡ second_of self }
    {
        match self {
            Keyword::Add | Keyword::Sub | Keyword::Mul => Second::Register,
            Keyword::Neg | Keyword::Relin | Keyword::Swap => Second::Nothing,
            Keyword::AddPlain | Keyword::SubPlain | Keyword::MulPlain => Second::Plain,
            Keyword::MulConst => Second::Factor,
            Keyword::Turn => Second::Distance,
        }
    }

    /// The operation on register `a` with the second operand `b`, if it has one.
    pub fn operation(self, a: u32, b: u32) -> Op
        ensures { result ≡ operation self a b }
    {
        match self {
            Keyword::Add => Op::Add(a, b),
            Keyword::Sub => Op::Sub(a, b),
            Keyword::Neg => Op::Neg(a),
            Keyword::AddPlain => Op::AddPlain(a, b),
            Keyword::SubPlain => Op::SubPlain(a, b),
            Keyword::MulPlain => Op::MulPlain(a, b),
            Keyword::MulConst => Op::MulConst(a, b as u64),
            Keyword::Mul => Op::Mul(a, b),
            Keyword::Relin => Op::Relin(a),
            Keyword::Turn => Op::Turn(a, b),
            Keyword::Swap => Op::Swap(a),
        }
    }
}

//! The moduli of a set at a level.

ghost use Rattle.std.specs.Prelude.{◌≡◌, ◌<◌, ◌≤◌, length, take, IfOk};
ghost use Rattle.set_table.specs.Sets.{data_of};
ghost use Rattle.ring_law.specs.Moduli.{PairwiseCoprime};
ghost use Rattle.word_mod.specs.Moduli.{IsModulus};
ghost use Rattle.bfv_params.specs.Moduli.{key_at, wide_of};
ghost use Rattle.bfv_params.specs.ContextKept.{HasModuli};

use res_base::{Base, BaseFault};
use set_table::{GAMMA, M_SK, SetName};
use std::alloc::{AllocError, Global};
use word_mod::Modulus;

/// The base of the data moduli, the moduli of keys, the auxiliary moduli, the plaintext modulus
/// and that by which decryption rounds.
#[derive(Drop)]
pub struct Moduli {
    pub base: Base,
    pub keys: Vec<Modulus>,
    pub wide: Vec<Modulus>,
    pub plain: Modulus,
    pub gamma: Modulus,
}

impl Moduli {
    pub fn new(alloc: Global, set: SetName, level: usize) -> Result<Moduli, AllocError>
        requires some { 0 < level }
        requires within { level ≤ length (data_of set) }
        ensures { IfOk result (λ m. HasModuli set level m) }
    {
        let keys = key_moduli(alloc, set, level)?;
        Ok(Moduli {
            base: coprime_base(alloc, &keys[..level])?,
            wide: wide_moduli(alloc, set)?,
            plain: listed_modulus(set.plain()),
            gamma: listed_modulus(GAMMA),
            keys,
        })
    }
}

/// The modulus that a number of the table is.
fn listed_modulus(q: u64) -> Modulus
    requires { IsModulus q }
    ensures { result ≡ q }
{
    let Ok(modulus) = Modulus::new(q) else {
        unreachable!()
    };
    modulus
}

/// The first data moduli, and then the special modulus where the set has one.
fn key_moduli(alloc: Global, set: SetName, level: usize) -> Result<Vec<Modulus>, AllocError>
    requires { level ≤ length (data_of set) }
    ensures { IfOk result (λ moduli. moduli.items ≡ key_at set level) }
{
    let mut moduli = Vec::new(alloc);
    for i in 0..level {
        moduli.push(listed_modulus(set.data_modulus(i)))?;
    }
    if let Some(special) = set.special() {
        moduli.push(listed_modulus(special))?;
    }
    Ok(moduli)
}

/// The auxiliary base, and then the modulus beside it.
fn wide_moduli(alloc: Global, set: SetName) -> Result<Vec<Modulus>, AllocError>
    ensures { IfOk result (λ moduli. moduli.items ≡ wide_of set) }
{
    let mut moduli = Vec::new(alloc);
    for i in 0..set.aux_count() {
        moduli.push(listed_modulus(set.aux_modulus(i)))?;
    }
    moduli.push(listed_modulus(M_SK))?;
    Ok(moduli)
}

/// The base of moduli that are coprime in pairs.
pub fn coprime_base(alloc: Global, moduli: &[Modulus]) -> Result<Base, AllocError>
    requires some { 0 < length moduli.now }
    requires few { length moduli.now ≤ 32 }
    requires coprime { PairwiseCoprime moduli.now }
    ensures { IfOk result (λ base. base ≡ moduli.now) }
{
    match Base::new(alloc, moduli) {
        Ok(base) => Ok(base),
        Err(BaseFault::Memory) => Err(AllocError),
        Err(BaseFault::NotCoprime(_, _)) => unreachable!(),
    }
}

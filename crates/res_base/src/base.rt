//! Lists of moduli that are coprime in pairs, and products of them modulo another.

ghost use Rattle.std.specs.Prelude.{◌≡◌, ℕ, ◌*◌, ◌%◌, ◌<◌, ◌≤◌, ◌↔◌, length, slice_index, All, Err, IsTrue, IfOk, OnOk, IfSome, IfNone};
ghost use Rattle.std.specs.Int.{IsGcd};
ghost use Rattle.word_mod.specs.Moduli.{IsModulus};
ghost use Rattle.ring_law.specs.Moduli.{PairwiseCoprime, product, product_of_others};
ghost use Rattle.res_base.specs.Bases.{IsBase, IsFirstNotCoprime, IsNextNotCoprime, CoprimeFromTo};

use std::alloc::Global;
use std::marker::Model;
use thiserror::Error;
use word_mod::Modulus;

/// Why a list of moduli is no base.
#[derive(Debug, Drop, PartialEq, Eq, Error)]
pub enum BaseFault {
    /// The moduli at these places have a common divisor above 1.
    #[error("moduli {0} and {1} not coprime")]
    NotCoprime(usize, usize),
    #[error("memory")]
    Memory,
}

/// A list of one to 32 moduli that are coprime in pairs, so that a number below their product is
/// known by its residues.
#[derive(Drop)]
pub struct Base {
    moduli: Vec<Modulus>,
}

impl Model for Base {
    ghost use Rattle.std.specs.Prelude.{ℕ, List};

    ghost Value = { List ℕ };

    ghost use Rattle.res_base.specs.Bases.{IsBase};

    ghost view = { λ b. b.moduli.items };

    ghost invariant = { λ b. IsBase b.moduli.items };
}

impl Base {
    /// The base of these moduli, in this order. The fault names the first place whose modulus is
    /// not coprime to a later one, and the first such later place.
    pub fn new(alloc: Global, moduli: &[Modulus]) -> Result<Base, BaseFault>
        requires not_empty { 0 < length moduli.now }
        requires few { length moduli.now ≤ 32 }
        ensures value { IfOk result (λ base. base ≡ moduli.now) }
        ensures coprime { OnOk result (PairwiseCoprime moduli.now) }
        ensures not_coprime { (i j : ℕ) → result ≡ Err (BaseFault.NotCoprime i j) → IsFirstNotCoprime moduli.now i j }
    {
        if let Some((i, j)) = first_not_coprime(moduli) {
            return Err(BaseFault::NotCoprime(i, j));
        }
        match moduli.to_vec(alloc) {
            Ok(moduli) => Ok(Base { moduli }),
            Err(_) => Err(BaseFault::Memory),
        }
    }

    /// The number of moduli.
    pub fn len(&self) -> usize
        ensures value { result ≡ length self.now }
        ensures base { IsBase self.now }
    {
        self.moduli.len()
    }

    pub fn modulus(&self, i: usize) -> &Modulus
        requires { i < length self.now }
        ensures { result.now ≡ slice_index self.now i }
    {
        &self.moduli[i]
    }

    /// The inverse, modulo modulus i, of the product of the other moduli.
    pub fn hat_inverse(&self, i: usize) -> u64
        requires { i < length self.now }
        ensures value { result * product_of_others self.now i % slice_index self.now i ≡ 1 }
        ensures below { result < slice_index self.now i }
    {
        let m = self.moduli[i];
        m.inverse(self.hat_mod(i, &m)).unwrap()
    }

    /// The product of the moduli but modulus i, modulo `m`.
    pub fn hat_mod(&self, i: usize, m: &Modulus) -> u64
        requires { i < length self.now }
        ensures value { result ≡ product_of_others self.now i % m.now }
        ensures below { result < m.now }
    {
        let before = product_modulo(&self.moduli[..i], m);
        let after = product_modulo(&self.moduli[i + 1..], m);
        m.mul(before, after)
    }

    /// The product of all moduli, modulo `m`.
    pub fn product_mod(&self, m: &Modulus) -> u64
        ensures value { result ≡ product self.now % m.now }
        ensures below { result < m.now }
    {
        product_modulo(&self.moduli, m)
    }
}

fn product_modulo(moduli: &[Modulus], m: &Modulus) -> u64
    ensures value { result ≡ product moduli.now % m.now }
    ensures below { result < m.now }
{
    let mut so_far = m.reduce(1);
    for q in moduli {
        so_far = m.mul(so_far, m.reduce(q.value()));
    }
    so_far
}

/// The first place whose modulus is not coprime to a later one, and the first such later place.
fn first_not_coprime(moduli: &[Modulus]) -> Option<(usize, usize)>
    ensures some { IfSome result (λ places. IsFirstNotCoprime moduli.now places.0 places.1) }
    ensures coprime { IfNone result (PairwiseCoprime moduli.now) }
    ensures each { IfNone result (All IsModulus moduli.now) }
{
    for i in 0..moduli.len() {
        if let Some(j) = first_not_coprime_to(moduli, i) {
            return Some((i, j));
        }
    }
    None
}

/// The first place after `i` whose modulus is not coprime to modulus `i`.
fn first_not_coprime_to(moduli: &[Modulus], i: usize) -> Option<usize>
    requires { i < length moduli.now }
    ensures some { IfSome result (λ j. IsNextNotCoprime moduli.now i j) }
    ensures none { IfNone result (CoprimeFromTo moduli.now i (length moduli.now)) }
    ensures modulus { IsModulus (slice_index moduli.now i) }
{
    let a = moduli[i].value();
    for j in i + 1..moduli.len() {
        if !is_coprime(a, &moduli[j]) {
            return Some(j);
        }
    }
    None
}

fn is_coprime(a: u64, m: &Modulus) -> bool
    ensures { IsTrue result ↔ IsGcd a m.now 1 }
{
    m.inverse(a).is_some()
}

#[cfg(test)]
mod tests {
    use super::*;
    use std::test::Fail;

    fn moduli(alloc: Global, numbers: &[u64]) -> Result<Vec<Modulus>, Fail> {
        let mut moduli = Vec::new(alloc);
        for q in numbers {
            moduli.push(Modulus::new(*q)?)?;
        }
        Ok(moduli)
    }

    #[test]
    fn only_coprime_moduli_make_a_base(rt: HostRuntime) -> Result<(), Fail> {
        let rows: [(&[u64], Option<BaseFault>); 6] = [
            (&[3], None),
            (&[3, 5], None),
            (&[9, 15], Some(BaseFault::NotCoprime(0, 1))),
            (&[5, 7, 49, 35], Some(BaseFault::NotCoprime(0, 3))),
            (&[7, 9, 15, 3], Some(BaseFault::NotCoprime(1, 2))),
            (&[11, 13, 17, 13], Some(BaseFault::NotCoprime(1, 3))),
        ];
        for (numbers, fault) in &rows {
            let moduli = moduli(rt.alloc(), numbers)?;
            assert!(rt; moduli.len() > 0);
            assert!(rt; moduli.len() <= 32);
            assert_eq!(rt; Base::new(rt.alloc(), &moduli).err(), *fault);
        }
        Ok(())
    }

    #[test]
    fn products_of_the_others(rt: HostRuntime) -> Result<(), Fail> {
        let moduli = moduli(rt.alloc(), &[3, 5, 7])?;
        assert_eq!(rt; moduli.len(), 3);
        let base = Base::new(rt.alloc(), &moduli)?;
        let m = Modulus::new(11)?;
        assert_eq!(rt; base.len(), 3);
        assert_eq!(rt; base.product_mod(&m), 6);
        for (i, (modulus, others, inverse)) in [(3, 2, 2), (5, 10, 1), (7, 4, 1)]
            .iter()
            .enumerate()
        {
            assert!(rt; i < base.len());
            assert_eq!(rt; base.modulus(i).value(), *modulus);
            assert_eq!(rt; base.hat_mod(i, &m), *others);
            assert_eq!(rt; base.hat_inverse(i), *inverse);
        }
        Ok(())
    }

    #[test]
    fn faults_are_told_in_words(rt: HostRuntime) -> Result<(), Fail> {
        let not_coprime = format!(in rt.alloc(); "{}", BaseFault::NotCoprime(3, 14))?;
        assert_eq!(rt; not_coprime.as_str(), "moduli 3 and 14 not coprime");
        let memory = format!(in rt.alloc(); "{}", BaseFault::Memory)?;
        assert_eq!(rt; memory.as_str(), "memory");
        Ok(())
    }
}

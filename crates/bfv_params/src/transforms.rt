//! The transforms of a set at a level.

ghost use Rattle.std.specs.Prelude.{◌≡◌, All, Contains, length, map, IfOk};
ghost use Rattle.set_table.specs.Sets.{degree_of, transform_moduli_of};
ghost use Rattle.bfv_params.specs.Transforms.{transform_of};
ghost use Rattle.bfv_params.specs.ContextKept.{HasModuli, HasTransforms};

use crate::moduli::Moduli;
use neg_ntt::{Transform, TransformFault};
use res_base::table;
use set_table::SetName;
use std::alloc::{AllocError, Global};
use word_mod::Modulus;

/// The transforms modulo the moduli of keys, the auxiliary moduli and the plaintext modulus.
#[derive(Drop)]
pub struct Transforms<const N: usize> {
    pub keys: Vec<Transform<N>>,
    pub wide: Vec<Transform<N>>,
    pub plain: Transform<N>,
}

impl<const N: usize> Transforms<N> {
    pub fn new(alloc: Global, set: SetName, moduli: &Moduli) -> Result<Transforms<N>, AllocError>
        requires degree { N ≡ degree_of set }
        requires moduli { HasModuli set (length moduli.now.base) moduli.now }
        ensures { IfOk result (λ t. HasTransforms set (length moduli.now.base) t.keys.items t.wide.items t.plain) }
    {
        Ok(Transforms {
            keys: listed_transforms(alloc, set, &moduli.keys)?,
            wide: listed_transforms(alloc, set, &moduli.wide)?,
            plain: listed_transform(alloc, set, &moduli.plain)?,
        })
    }
}

/// The transform modulo one of the set's moduli, by the root that is listed for it.
fn listed_transform<const N: usize>(
    alloc: Global,
    set: SetName,
    modulus: &Modulus,
) -> Result<Transform<N>, AllocError>
    requires degree { N ≡ degree_of set }
    requires listed { Contains (transform_moduli_of set) modulus.now }
    ensures { IfOk result (λ transform. transform ≡ transform_of set modulus.now) }
{
    let root = table(set).root(modulus.value()).unwrap();
    match Transform::new(alloc, modulus, root) {
        Ok(transform) => Ok(transform),
        Err(TransformFault::Memory) => Err(AllocError),
        Err(TransformFault::NoRoot) => unreachable!(),
    }
}

/// The transforms modulo each of the moduli.
fn listed_transforms<const N: usize>(
    alloc: Global,
    set: SetName,
    moduli: &[Modulus],
) -> Result<Vec<Transform<N>>, AllocError>
    requires degree { N ≡ degree_of set }
    requires listed { All (λ q. Contains (transform_moduli_of set) q) moduli.now }
    ensures { IfOk result (λ transforms. transforms.items ≡ map (transform_of set) moduli.now) }
{
    let mut transforms = Vec::new(alloc);
    for modulus in moduli {
        transforms.push(listed_transform(alloc, set, modulus)?)?;
    }
    Ok(transforms)
}

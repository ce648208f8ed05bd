//! The conversions between the bases of a set at a level.

ghost use Rattle.std.specs.Prelude.{◌≡◌, length, IfOk};
ghost use Rattle.set_table.specs.Sets.{aux_of, m_sk};
ghost use Rattle.bfv_params.specs.Moduli.{wide_of};
ghost use Rattle.bfv_params.specs.Converters.{special_drop_at};
ghost use Rattle.bfv_params.specs.ContextKept.{HasConverters, HasModuli};

use crate::moduli::{Moduli, coprime_base};
use fast_conv::{DropLast, FastConv, FastFloor, MontLift, SkBack};
use set_table::SetName;
use std::alloc::{AllocError, Global};
use word_mod::Modulus;

/// The conversions of a product there and back, that of decryption, and where the set has a
/// special modulus that of key switching.
#[derive(Drop)]
pub struct Converters {
    pub lift: MontLift,
    pub floor: FastFloor,
    pub back: SkBack,
    pub plain: FastConv,
    pub special: Option<DropLast>,
}

impl Converters {
    pub fn new(alloc: Global, set: SetName, moduli: &Moduli) -> Result<Converters, AllocError>
        requires { HasModuli set (length moduli.now.base) moduli.now }
        ensures { IfOk result (λ c. HasConverters set (length moduli.now.base) c) }
    {
        let base = &moduli.base;
        let wide = &moduli.wide;
        Ok(Converters {
            lift: MontLift::new(alloc, base, wide)?,
            floor: FastFloor::new(alloc, base, wide, moduli.plain.value())?,
            back: way_back(alloc, set, wide, &moduli.keys[..base.len()])?,
            plain: FastConv::new(alloc, base, &[moduli.plain, moduli.gamma])?,
            special: special_drop(alloc, set, moduli)?,
        })
    }
}

/// The way back from the auxiliary moduli into the moduli `to`.
fn way_back(
    alloc: Global,
    set: SetName,
    wide: &[Modulus],
    to: &[Modulus],
) -> Result<SkBack, AllocError>
    requires { wide.now ≡ wide_of set }
    ensures { IfOk result (λ back. back ≡ record { base = aux_of set; sk = m_sk; to = to.now }) }
{
    let count = set.aux_count();
    let base = coprime_base(alloc, &wide[..count])?;
    SkBack::new(alloc, &base, &wide[count], to)
}

/// The division by the special modulus, where the set has one.
fn special_drop(
    alloc: Global,
    set: SetName,
    moduli: &Moduli,
) -> Result<Option<DropLast>, AllocError>
    requires { HasModuli set (length moduli.now.base) moduli.now }
    ensures { IfOk result (λ drop. drop ≡ special_drop_at set (length moduli.now.base)) }
{
    if set.special().is_none() {
        return Ok(None);
    }
    let base = coprime_base(alloc, &moduli.keys)?;
    Ok(Some(DropLast::new(alloc, &base)?))
}

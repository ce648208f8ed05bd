//! Galois elements.

ghost use Rattle.std.specs.Prelude.{◌≡◌, ◌*◌, ◌/◌, ◌%◌, ◌^◌, ◌<◌};
ghost use Rattle.set_table.specs.declared.KeyKind.TheVariants.{Turn};
ghost use Rattle.neg_ntt.specs.Parameters.{IsDegree};
ghost use Rattle.bfv_params.specs.Kept.{IsElement};

/// The Galois element of a turn by `step`: `3^step` modulo 2n, n being the degree. Both halves of the slots are turned
/// left by as many places.
pub fn element_of(step: u32, n: usize) -> u32
    requires degree { IsDegree n }
    requires some { 0 < step }
    requires below { step < n / 2 }
    ensures value { result ≡ 3 ^ step % (2 * n) }
    ensures element { IsElement n Turn result }
{
    let order = 2 * n as u32;
    let mut element = 1;
    for i in 0..step {
        element = 3 * element % order;
    }
    element
}

//! Slots that were worked out by their definition, and round trips in each set.

ghost use Rattle.std.specs.Prelude.{◌≡◌, ◌<◌};
ghost use Rattle.set_table.specs.Sets.{degree_of};
ghost use Rattle.ring_law.specs.Rows.{IsReduced};

use super::*;
use bfv_params::Context;
use set_table::SetName;
use std::alloc::Global;
use std::process::Abort;
use std::test::Fail;

// The first slots of X are the powers 136^(3^i) modulo 257, and the others the inverses of these.
#[test]
fn slots_are_values_at_powers_of_the_root(rt: HostRuntime) -> Result<(), Fail> {
    let ctx = Context::<16>::new(rt.alloc(), SetName::Toy16)?;
    let mut slots = [0; 16];
    decode(
        &ctx,
        &[0, 1, 0, 0, 0, 0, 0, 0, 0, 0, 0, 0, 0, 0, 0, 0],
        &mut slots,
    );
    assert_eq!(rt;
        slots,
        [
            136, 197, 137, 68, 121, 60, 120, 189, 240, 227, 242, 223, 17, 30, 15, 34
        ]
    );
    decode(
        &ctx,
        &[1, 2, 3, 4, 5, 6, 7, 8, 9, 10, 11, 12, 13, 14, 15, 16],
        &mut slots,
    );
    assert_eq!(rt;
        slots,
        [
            28, 196, 79, 141, 210, 41, 85, 12, 12, 146, 256, 102, 254, 199, 248, 63
        ]
    );
    Ok(())
}

// Words all over the range below t, with some at its ends.
fn fill<const N: usize>(t: u64, row: &mut [u64; N])
    requires { 0 < t }
    ensures { IsReduced N t row.new }
{
    let mut word: u64 = 1;
    for i in 0..N {
        word = word
            .wrapping_mul(0x5851_f42d_4c95_7f2d)
            .wrapping_add(0x1405_7b7e_f767_814f);
        row[i] = match word % 5 {
            0 => t - 1,
            1 => 0,
            _ => word % t,
        };
    }
}

fn check_round_trips<const N: usize>(
    rt: &impl Abort,
    alloc: Global,
    set: SetName,
) -> Result<(), Fail>
    requires { N ≡ degree_of set }
{
    let ctx = Context::<N>::new(alloc, set)?;
    let (mut given, mut there, mut back) = ([0; N], [0; N], [0; N]);
    fill(set.plain(), &mut given);
    encode(&ctx, &given, &mut there);
    decode(&ctx, &there, &mut back);
    assert_eq!(rt; back, given, "values in {}", set.text());
    decode(&ctx, &given, &mut there);
    encode(&ctx, &there, &mut back);
    assert_eq!(rt; back, given, "coefficients in {}", set.text());
    Ok(())
}

#[test]
fn encoding_and_decoding_undo_each_other(rt: HostRuntime) -> Result<(), Fail> {
    check_round_trips::<16>(&rt, rt.alloc(), SetName::One16)?;
    check_round_trips::<16>(&rt, rt.alloc(), SetName::Toy16)?;
    check_round_trips::<4096>(&rt, rt.alloc(), SetName::S4096)?;
    check_round_trips::<8192>(&rt, rt.alloc(), SetName::S8192)?;
    check_round_trips::<16384>(&rt, rt.alloc(), SetName::S16384)
}

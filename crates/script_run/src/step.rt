//! One step of a run.

ghost use Rattle.std.specs.Prelude.{◌≡◌, ◌≢◌, ℕ, ◌+◌, ◌*◌, ◌-◌, ◌<◌, ◌≤◌, [], length, slice_index, slice_index_or};
ghost use Rattle.set_table.specs.Sets.{data_of, degree_of, plain_of};
ghost use Rattle.ring_law.specs.Rows.{IsReduced};
ghost use Rattle.script_text.specs.Evaluating.{IsWithin};
ghost use Rattle.bfv_params.specs.Ciphers.{IsCipherOf};
ghost use Rattle.bfv_params.specs.Contexts.{scratch_rows_in};
ghost use Rattle.script_text.specs.Scripts.{keys_needed};
ghost use Rattle.script_run.specs.Places.{cipher_at};
ghost use Rattle.script_run.specs.Premises.{no_digits};
ghost use Rattle.script_run.specs.Steps.{HaveTakenParts, IsOther, OnOperands, OnPlain, ResultCarries, ResultHasParts, StepDone, other_at};

use bfv_linear::{add, add_plain, mul_const, mul_plain, neg, sub, sub_plain};
use bfv_params::{Cipher, Context};
use bfv_tensor::{multiply, square};
use rns_poly::PolyBuf;
use script_text::Op;
use slot_batch::encode;

/// The cipher at a place of a list that is split before and after another place.
fn other<'a, const N: usize>(
    front: &'a [Cipher<N>],
    back: &'a [Cipher<N>],
    place: usize,
) -> &'a Cipher<N>
    requires { IsOther front.now back.now place }
    ensures { result.now ≡ other_at front.now back.now place }
{
    if place < front.len() {
        &front[place]
    } else {
        &back[place - front.len() - 1]
    }
}

/// Writes the result of an operation on registers, whose ciphers are in their places before and
/// after that of the result. Plain values are encoded into `row`.
fn operate<const N: usize>(
    ctx: &Context<N>,
    front: &[Cipher<N>],
    back: &[Cipher<N>],
    plan: &[usize],
    plains: &[[u64; N]],
    op: Op,
    out: &mut Cipher<N>,
    row: &mut [u64; N],
    scratch: &mut PolyBuf<N>,
)
    requires degree { N ≡ degree_of (ctx.now).set }
    requires level { (ctx.now).level ≡ length (data_of (ctx.now).set) }
    requires keyless { keys_needed N op ≡ [] }
    requires within { IsWithin (plain_of (ctx.now).set) (length plains.now) (length plan.now) op }
    requires there { OnOperands op (λ r. IsOther front.now back.now (slice_index plan.now r)) }
    requires operands { OnOperands op (λ r. IsCipherOf ctx.now (other_at front.now back.now (slice_index plan.now r))) }
    requires parts { HaveTakenParts op (λ r. other_at front.now back.now (slice_index plan.now r)) }
    requires plains { OnPlain op (λ p. IsReduced N (plain_of (ctx.now).set) (slice_index_or plains.now p [])) }
    requires out { IsCipherOf ctx.now out.old }
    requires scratch_rows { length scratch.old ≡ scratch_rows_in ctx.now }
    ensures of_context { IsCipherOf ctx.now out.new }
    ensures room { (out.new).room ≡ (out.old).room }
    ensures parts { ResultHasParts op (λ r. other_at front.now back.now (slice_index plan.now r)) out.new }
    ensures carries { ResultCarries N ctx.now no_digits op plains.now (λ r. other_at front.now back.now (slice_index plan.now r)) out.new }
    ensures scratch_rows { length scratch.new ≡ length scratch.old }
{
    match op {
        Op::Add(a, b) => add(
            ctx,
            other(front, back, plan[a as usize]),
            other(front, back, plan[b as usize]),
            out,
        ),
        Op::Sub(a, b) => sub(
            ctx,
            other(front, back, plan[a as usize]),
            other(front, back, plan[b as usize]),
            out,
        ),
        Op::Neg(a) => neg(ctx, other(front, back, plan[a as usize]), out),
        Op::AddPlain(a, p) => {
            encode(ctx, &plains[p as usize], row);
            add_plain(ctx, other(front, back, plan[a as usize]), row, out);
        }
        Op::SubPlain(a, p) => {
            encode(ctx, &plains[p as usize], row);
            sub_plain(ctx, other(front, back, plan[a as usize]), row, out);
        }
        Op::MulPlain(a, p) => {
            encode(ctx, &plains[p as usize], row);
            mul_plain(ctx, other(front, back, plan[a as usize]), row, out, scratch);
        }
        Op::MulConst(a, k) => mul_const(ctx, other(front, back, plan[a as usize]), k, out),
        Op::Mul(a, b) if a == b => {
            square(ctx, other(front, back, plan[a as usize]), out, scratch);
        }
        Op::Mul(a, b) => multiply(
            ctx,
            other(front, back, plan[a as usize]),
            other(front, back, plan[b as usize]),
            out,
            scratch,
        ),
        Op::Relin(_) | Op::Turn(..) | Op::Swap(_) => unreachable!(),
    }
}

/// Does one step: the result of the operation is written to place `out`, which is no operand's.
pub fn step<const N: usize>(
    ctx: &Context<N>,
    ciphers: &mut [Cipher<N>],
    plan: &[usize],
    plains: &[[u64; N]],
    op: Op,
    out: usize,
    row: &mut [u64; N],
    scratch: &mut PolyBuf<N>,
)
    requires degree { N ≡ degree_of (ctx.now).set }
    requires level { (ctx.now).level ≡ length (data_of (ctx.now).set) }
    requires keyless { keys_needed N op ≡ [] }
    requires within { IsWithin (plain_of (ctx.now).set) (length plains.now) (length plan.now) op }
    requires out { out < length ciphers.old }
    requires there { OnOperands op (λ r. (slice_index plan.now r < length ciphers.old) × (slice_index plan.now r ≢ out)) }
    requires ciphers { (p : ℕ) → p < length ciphers.old → IsCipherOf ctx.now (cipher_at ciphers.old p) }
    requires parts { HaveTakenParts op (λ r. cipher_at ciphers.old (slice_index plan.now r)) }
    requires plains { OnPlain op (λ p. IsReduced N (plain_of (ctx.now).set) (slice_index_or plains.now p [])) }
    requires scratch_rows { length scratch.old ≡ scratch_rows_in ctx.now }
    ensures done { StepDone N ctx.now no_digits op plan.now plains.now out ciphers.old ciphers.new }
    ensures scratch_rows { length scratch.new ≡ length scratch.old }
{
    let (front, rest) = ciphers.split_at_mut(out);
    let (one, back) = rest.split_at_mut(1);
    operate(
        ctx,
        front,
        back,
        plan,
        plains,
        op,
        &mut one[0],
        row,
        scratch,
    );
}

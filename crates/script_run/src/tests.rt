//! Runs against checksums over all words of their results, which were worked out from the definitions in whole numbers.

ghost use Rattle.std.specs.Prelude.{◌≡◌, ℕ, ◌+◌, ◌<◌, ◌≤◌, [], length, slice_index, slice_index_or};
ghost use Rattle.ring_law.specs.Rows.{IsReduced};
ghost use Rattle.bfv_params.specs.Moduli.{data_at};
ghost use Rattle.set_table.specs.Sets.{data_of, plain_of};
ghost use Rattle.script_text.specs.Scripts.{plain_inputs, needs_of};
ghost use Rattle.bfv_params.specs.Ciphers.{IsCipherOf};
ghost use Rattle.script_run.specs.Registers.{input_count};
ghost use Rattle.script_run.specs.Workspaces.{MadeFor, SameShape, input_of};

use crate::planning::make_plan;
use crate::{Workspace, first_needing_key};
use bfv_params::{Cipher, Context};
use key_switch::{KeyFault, Keys};
use rns_poly::{View, ViewMut};
use script_text::{Script, parse};
use set_table::{KeyKind, SetName};
use std::alloc::Global;
use std::process::Abort;
use std::test::Fail;

/// A provider of one key, which can't be read.
#[derive(Drop)]
struct UnreadableKey {
    set: SetName,
}

impl<const N: usize> Keys<N> for UnreadableKey {
    ghost use Rattle.std.specs.Prelude.{[], ◌∷◌, Some};
    ghost use Rattle.set_table.specs.declared.KeyKind.TheVariants.{Relin};
    ghost use Rattle.key_switch.specs.declared.provider.KeyFault.TheVariants.{Failed};

    ghost state = { λ keys. record { set = keys.set; pairs = (record { 0 = Relin; 1 = 0 }) ∷ []; faults = 18446744073709551615; last = Some Failed } };

    ghost Origin = { Unit {0} };

    ghost origin = { λ _. tt };

    ghost Tells = { λ _ _. ⊥ };

    fn has(&self, kind: KeyKind, element: u32) -> bool {
        kind == KeyKind::Relin && element == 0
    }

    fn digit(
        &mut self,
        _kind: KeyKind,
        _element: u32,
        _i: usize,
        _into: ViewMut<'_, N>,
    ) -> Result<(), KeyFault> {
        Err(KeyFault::Failed)
    }
}

/// A script of all linear steps.
const LINEAR: &[u8] =
    b"set toy16\ncipher a\nplain p\ncipher b\nc = add a b\nd = subp c p\ne = mulp d p\nf = neg e\ng = mulk f 200\nh = addp g p\ni = sub h a\noutput i\n";

/// A script of a product and a square.
const PRODUCTS: &[u8] =
    b"set toy16\ncipher a\nplain p\ncipher b\nc = mul a b\nd = mul b b\ne = addp c p\nf = sub e d\noutput f\n";

/// The number of a result's parts, and the checksum over all their words.
#[derive(Clone, Copy)]
struct Expected {
    parts: u8,
    sum: u64,
}

const FACTOR: u64 = 0x5851_f42d_4c95_7f2d;

fn multiples<const N: usize>(factor: u64, q: u64) -> [u64; N]
    requires degree { N ≤ 32768 }
    requires some { 0 < q }
    ensures { IsReduced N q result }
{
    let mut row = [0; N];
    for k in 0..N {
        row[k] = factor.wrapping_mul(k as u64 + 1) % q;
    }
    row
}

/// Writes the first row of an input, whose word k is `factor * (k + 1)`.
fn fill_input<const N: usize>(ctx: &Context<N>, space: &mut Workspace<N>, input: usize, factor: u64)
    requires degree { N ≤ 32768 }
    requires input { input < (space.old).inputs }
    requires of_context { (r : ℕ) → r < (space.old).inputs → IsCipherOf ctx.now (input_of space.old r) }
    requires parts { (r : ℕ) → r < (space.old).inputs → (input_of space.old r).parts ≡ 2 }
    ensures of_context { (r : ℕ) → r < (space.new).inputs → IsCipherOf ctx.now (input_of space.new r) }
    ensures parts { (r : ℕ) → r < (space.new).inputs → (input_of space.new r).parts ≡ 2 }
    ensures shape { SameShape space.old space.new }
    ensures plains { (space.new).plains ≡ (space.old).plains }
{
    let q = ctx.data_moduli()[0].value();
    fill(space.cipher_slot(input), &multiples(factor, q));
}

fn fill<const N: usize>(cipher: &mut Cipher<N>, row: &[u64; N])
    requires some { 0 < (cipher.old).level }
    requires parts { (cipher.old).parts ≡ 2 }
    requires reduced { IsReduced N (slice_index (data_at (cipher.old).set (cipher.old).level) 0) row.now }
    ensures set { (cipher.new).set ≡ (cipher.old).set }
    ensures level { (cipher.new).level ≡ (cipher.old).level }
    ensures parts { (cipher.new).parts ≡ 2 }
{
    cipher.set_row(0, row);
}

fn fill_plain<const N: usize>(t: u64, values: &mut [u64; N])
    requires degree { N ≤ 32768 }
    requires some { 0 < t }
    ensures { IsReduced N t values.new }
{
    for k in 0..N {
        values[k] = (k as u64 * k as u64 + 3) % t;
    }
}

fn fill_plain_input<const N: usize>(ctx: &Context<N>, space: &mut Workspace<N>)
    requires degree { N ≤ 32768 }
    requires there { 0 < length (space.old).plains }
    requires of_context { (r : ℕ) → r < (space.old).inputs → IsCipherOf ctx.now (input_of space.old r) }
    requires parts { (r : ℕ) → r < (space.old).inputs → (input_of space.old r).parts ≡ 2 }
    ensures reduced { IsReduced N (plain_of (ctx.now).set) (slice_index_or (space.new).plains 0 []) }
    ensures of_context { (r : ℕ) → r < (space.new).inputs → IsCipherOf ctx.now (input_of space.new r) }
    ensures parts { (r : ℕ) → r < (space.new).inputs → (input_of space.new r).parts ≡ 2 }
    ensures shape { SameShape space.old space.new }
{
    fill_plain(ctx.plain_modulus().value(), space.plain_slot(0));
}

fn checksum<const N: usize>(view: View<'_, N>) -> u64
    requires { N ≤ 32768 }
{
    let mut sum: u64 = 0;
    for row in view.slice() {
        for k in 0..N {
            sum = sum.wrapping_mul(FACTOR).wrapping_add(row[k]);
        }
    }
    sum
}

/// Executes a script of one plain input on the inputs that were filled in.
fn check_result<const N: usize>(
    rt: &impl Abort,
    ctx: &Context<N>,
    script: &Script,
    space: &mut Workspace<N>,
    expected: Expected,
)
    requires degree { N ≤ 32768 }
    requires same_set { script.now.set ≡ (ctx.now).set }
    requires level { (ctx.now).level ≡ length (data_of (ctx.now).set) }
    requires made { MadeFor script.now space.old }
    requires keyless { needs_of script.now ≡ [] }
    requires ciphers { (r : ℕ) → r < (space.old).inputs → IsCipherOf ctx.now (input_of space.old r) }
    requires parts { (r : ℕ) → r < input_count script.now → (input_of space.old r).parts ≡ 2 }
    requires plains { (p : ℕ) → p < length (plain_inputs script.now.inputs) → IsReduced N (plain_of (ctx.now).set) (slice_index_or (space.old).plains p []) }
{
    let mut keys = UnreadableKey { set: ctx.set() };
    match space.execute(ctx, script, &mut keys) {
        Ok(()) => {
            let output = space.result();
            assert_eq!(rt; output.parts(), expected.parts);
            assert_eq!(rt; checksum(output.view()), expected.sum);
        }
        Err(_) => panic!(rt; "no key is read"),
    }
}

fn check_keyless(rt: &impl Abort, script: &Script)
    ensures { needs_of script.now ≡ [] }
{
    if first_needing_key(script).is_some() {
        panic!(rt; "a step needs a key");
    }
}

fn check_run<const N: usize>(
    rt: &impl Abort,
    alloc: Global,
    text: &[u8],
    expected: Expected,
) -> Result<(), Fail>
    requires { N ≤ 32768 }
{
    let script = parse(alloc, text)?;
    let set = script.set();
    assert_eq!(rt; set.degree(), N);
    assert_eq!(rt; script.ciphers(), 2);
    assert_eq!(rt; script.inputs(), 3);
    check_keyless(rt, &script);
    let ctx = Context::<N>::new(alloc, set)?;
    let mut space = Workspace::<N>::new(alloc, &script, &ctx)?;
    fill_input(&ctx, &mut space, 0, 1234567891);
    fill_input(&ctx, &mut space, 1, 987654321);
    fill_plain_input(&ctx, &mut space);
    check_result(rt, &ctx, &script, &mut space, expected);
    Ok(())
}

/// A script that doubles three times.
const DOUBLINGS: &[u8] = b"set toy16\ncipher a\nb = add a a\nc = add b b\nd = add c c\noutput d\n";

/// A script of so many steps, each of which adds the last two registers.
fn sums(alloc: Global, steps: usize) -> Result<String, Fail> {
    let mut text = String::new(alloc);
    text.push_str("set toy16\ncipher r0\nr1 = add r0 r0\n")?;
    for i in 2..steps.saturating_add(1) {
        let line = format!(in alloc; "r{} = add r{} r{}\n", i, i - 1, i - 2)?;
        text.push_str(line.as_str())?;
    }
    let output = format!(in alloc; "output r{}\n", steps)?;
    text.push_str(output.as_str())?;
    Ok(text)
}

/// Runs a script of one input in so many places.
fn check_places<const N: usize>(
    rt: &impl Abort,
    alloc: Global,
    text: &[u8],
    places: usize,
    expected: Expected,
) -> Result<(), Fail>
    requires { N ≤ 32768 }
{
    let script = parse(alloc, text)?;
    let set = script.set();
    assert_eq!(rt; set.degree(), N);
    assert_eq!(rt; script.ciphers(), 1);
    assert_eq!(rt; script.inputs(), 1);
    check_keyless(rt, &script);
    assert_eq!(rt; make_plan(alloc, &script)?.count, places);
    let ctx = Context::<N>::new(alloc, set)?;
    let mut space = Workspace::<N>::new(alloc, &script, &ctx)?;
    fill_input(&ctx, &mut space, 0, 1234567891);
    check_result(rt, &ctx, &script, &mut space, expected);
    Ok(())
}

#[test]
fn a_linear_script(rt: HostRuntime) -> Result<(), Fail> {
    let expected = Expected {
        parts: 2,
        sum: 0xb83f_7d66_1d15_eddd,
    };
    check_run::<16>(&rt, rt.alloc(), LINEAR, expected)
}

#[test]
fn a_script_of_products(rt: HostRuntime) -> Result<(), Fail> {
    let expected = Expected {
        parts: 3,
        sum: 0x42df_a9fe_7004_6c48,
    };
    check_run::<16>(&rt, rt.alloc(), PRODUCTS, expected)
}

#[test]
fn three_doublings_in_two_places(rt: HostRuntime) -> Result<(), Fail> {
    let expected = Expected {
        parts: 2,
        sum: 0x9f33_c551_78ac_afc0,
    };
    check_places::<16>(&rt, rt.alloc(), DOUBLINGS, 2, expected)
}

#[test]
fn thousands_of_steps_in_three_places(rt: HostRuntime) -> Result<(), Fail> {
    let text = sums(rt.alloc(), 4096)?;
    let expected = Expected {
        parts: 2,
        sum: 0x923f_143b_637f_9f96,
    };
    check_places::<16>(&rt, rt.alloc(), text.as_bytes(), 3, expected)
}

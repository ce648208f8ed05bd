// What a script computes.
ghost use Rattle.std.specs.Prelude.{◌≡◌, ◌+◌, ◌*◌, ◌-◌, ◌%◌, ◌/◌, ◌<◌, ◌≤◌, ℕ, pos, ◌-ℤ◌, neg_ℤ, length, IfOk, OnOk, slice_index, take, drop, ◌++◌, ◌∷◌, [], if◌then◌else◌};
ghost use Rattle.ring_law.specs.Residues.{residue};
ghost use Rattle.ring_law.specs.Rows.{word_at};
ghost use Rattle.set_table.specs.Sets.{degree_of, plain_of};
ghost use Rattle.script_text.specs.Value.{value_made, value_of, lists_in, lists_of};
ghost use Rattle.script_text.specs.Evaluating.{AreLists, AreValues, IsWithin, slot_made, kind_test};

use crate::script::{Input, InputKind, Op, Script};
use std::alloc::{AllocError, Global};
use std::marker::Model;

/// The values of one register or input.
#[derive(Drop)]
struct Slots {
    values: Vec<u64>,
}

impl Model for Slots {
    ghost use Rattle.std.specs.Prelude.{ℕ, List};

    ghost Value = { List ℕ };

    ghost view = { λ s. s.values.items };
}

/// The difference modulo t.
fn difference(t: u64, a: u64, b: u64) -> u64
    requires a_below { a < t }
    requires b_below { b < t }
    requires small { t ≤ 65537 }
    ensures value { result ≡ residue t (pos a -ℤ pos b) }
    ensures below { result < t }
{
    (a + (t - b)) % t
}

/// The negative modulo t.
fn negative(t: u64, a: u64) -> u64
    requires below { a < t }
    ensures value { result ≡ residue t (neg_ℤ (pos a)) }
    ensures below { result < t }
{
    (t - a) % t
}

/// A value of a list.
fn value_at(n: usize, t: u64, lists: &[Slots], list: u32, i: usize) -> u64
    requires list { list < length lists.now }
    requires inside { i < n }
    requires lists { AreLists n t lists.now }
    ensures value { result ≡ word_at lists.now list i }
    ensures below { result < t }
{
    let list = &lists[list as usize];
    list.values[i]
}

/// Slot `i` of what an operation makes of lists of n values below t.
fn slot_made(half: usize, t: u64, plains: &[Slots], registers: &[Slots], op: Op, i: usize) -> u64
    requires half { 0 < half }
    requires degree { half ≤ 8192 }
    requires inside { i < half + half }
    requires small { t ≤ 65537 }
    requires plains { AreLists (half + half) t plains.now }
    requires registers { AreLists (half + half) t registers.now }
    requires within { IsWithin t (length plains.now) (length registers.now) op }
    ensures value { result ≡ slot_made half t plains.now registers.now op i }
    ensures below { result < t }
{
    let n = half + half;
    match op {
        Op::Add(a, b) => (value_at(n, t, registers, a, i) + value_at(n, t, registers, b, i)) % t,
        Op::Sub(a, b) => difference(
            t,
            value_at(n, t, registers, a, i),
            value_at(n, t, registers, b, i),
        ),
        Op::Neg(a) => negative(t, value_at(n, t, registers, a, i)),
        Op::AddPlain(a, p) => (value_at(n, t, registers, a, i) + value_at(n, t, plains, p, i)) % t,
        Op::SubPlain(a, p) => difference(
            t,
            value_at(n, t, registers, a, i),
            value_at(n, t, plains, p, i),
        ),
        Op::MulPlain(a, p) => product(
            t,
            value_at(n, t, registers, a, i),
            value_at(n, t, plains, p, i),
        ),
        Op::MulConst(a, k) => product(t, value_at(n, t, registers, a, i), k),
        Op::Mul(a, b) => product(
            t,
            value_at(n, t, registers, a, i),
            value_at(n, t, registers, b, i),
        ),
        Op::Relin(a) => value_at(n, t, registers, a, i),
        Op::Turn(a, k) => {
            let turned = (i % half + k as usize) % half;
            value_at(n, t, registers, a, i / half * half + turned)
        }
        Op::Swap(a) => value_at(n, t, registers, a, (i + half) % n),
    }
}

/// The product modulo t.
fn product(t: u64, a: u64, b: u64) -> u64
    requires a_below { a < t }
    requires b_below { b < t }
    requires small { t ≤ 65537 }
    ensures value { result ≡ a * b % t }
    ensures below { result < t }
{
    a * b % t
}

/// The list that an operation makes.
fn list_made(
    alloc: Global,
    half: usize,
    t: u64,
    plains: &[Slots],
    registers: &[Slots],
    op: Op,
) -> Result<Slots, AllocError>
    requires half { 0 < half }
    requires degree { half ≤ 8192 }
    requires small { t ≤ 65537 }
    requires plains { AreLists (half + half) t plains.now }
    requires registers { AreLists (half + half) t registers.now }
    requires within { IsWithin t (length plains.now) (length registers.now) op }
    ensures value { IfOk result (λ list. list ≡ value_made (half + half) t plains.now registers.now op) }
    ensures below { IfOk result (AreValues (half + half) t) }
{
    let mut values = Vec::new(alloc);
    for i in 0..half + half {
        values.push(slot_made(half, t, plains, registers, op, i))?;
    }
    Ok(Slots { values })
}

fn is_of_kind(kind: InputKind, input: &Input) -> bool
    ensures { result ≡ kind_test kind input.now }
{
    match kind {
        InputKind::Cipher => matches!(input.kind, InputKind::Cipher),
        InputKind::Plain => matches!(input.kind, InputKind::Plain),
    }
}

/// List `i` of lists of n values that stand one after the other.
fn list_at(values: &[u64], n: usize, i: usize) -> &[u64]
    requires { n * i + n ≤ length values.now }
    ensures { result.now ≡ take n (drop (n * i) values.now) }
{
    let (_, others) = values.split_at(n * i);
    let (list, _) = others.split_at(n);
    list
}

/// Puts a list at the end, if it is kept.
fn push_list(
    alloc: Global,
    lists: &mut Vec<Slots>,
    keeps: bool,
    list: &[u64],
) -> Result<(), AllocError>
    ensures { OnOk result (lists.new.items ≡ (if keeps then lists.old.items ++ list.now ∷ [] else lists.old.items)) }
{
    if keeps {
        let values = list.to_vec(alloc)?;
        lists.push(Slots { values })?;
    }
    Ok(())
}

/// The lists of the inputs of one kind, of n values for each input one after the other.
fn lists_of(
    alloc: Global,
    script: &Script,
    values: &[u64],
    kind: InputKind,
) -> Result<Vec<Slots>, AllocError>
    requires size { length values.now ≡ degree_of script.now.set * length script.now.inputs }
    requires below { (i : ℕ) → i < length values.now → slice_index values.now i < plain_of script.now.set }
    ensures value { IfOk result (λ lists. lists.items ≡ lists_of (kind_test kind) script.now.inputs (lists_in (degree_of script.now.set) (length script.now.inputs) values.now)) }
    ensures below { IfOk result (λ lists. AreLists (degree_of script.now.set) (plain_of script.now.set) lists.items) }
{
    let n = script.set.degree();
    let mut lists = Vec::new(alloc);
    for i in 0..script.inputs.len() {
        let input = &script.inputs[i];
        let list = list_at(values, n, i);
        push_list(alloc, &mut lists, is_of_kind(kind, input), list)?;
    }
    Ok(lists)
}

/// What a script puts out: n values below t. `values` has those of all inputs, one after the other
/// in order of declaration, n for each.
pub fn evaluate(alloc: Global, script: &Script, values: &[u64]) -> Result<Vec<u64>, AllocError>
    requires size { length values.now ≡ degree_of script.now.set * length script.now.inputs }
    requires below { (i : ℕ) → i < length values.now → slice_index values.now i < plain_of script.now.set }
    ensures { IfOk result (λ output. output.items ≡ value_of script.now (lists_in (degree_of script.now.set) (length script.now.inputs) values.now)) }
{
    let set = script.set();
    let half = set.degree() / 2;
    let t = set.plain();
    let plains = lists_of(alloc, script, values, InputKind::Plain)?;
    let mut registers = lists_of(alloc, script, values, InputKind::Cipher)?;
    for i in 0..script.steps() {
        let op = script.step(i);
        let list = list_made(alloc, half, t, &plains, &registers, op)?;
        registers.push(list)?;
    }
    let Slots { values } = registers.swap_remove(script.output() as usize);
    Ok(values)
}

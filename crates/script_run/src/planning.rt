//! Plans that give each register a place.

ghost use Rattle.std.specs.Prelude.{◌≡◌, ℕ, ◌+◌, ◌<◌, ◌≤◌, ◌⊎◌, ◌∷◌, length, slice_index, slice_index_or, Contains, IfOk, OnOk};
ghost use Rattle.std.specs.Option.{option_to_list};
ghost use Rattle.script_text.specs.Scripts.{operands_of};
ghost use Rattle.script_run.specs.Ends.{AreEnds, IsTaken, taken_count};
ghost use Rattle.script_run.specs.Registers.{IsPlan, input_count, most_live};
ghost use Rattle.script_run.specs.Steps.{OnOperands};

use script_text::{Op, Script};
use std::alloc::{AllocError, Global};

/// The place of each register, and how many places there are.
#[derive(Drop)]
pub struct Plan {
    pub places: Vec<usize>,
    pub count: usize,
}

/// The registers that an operation reads.
fn operands(op: Op) -> (u32, Option<u32>)
    ensures { operands_of op ≡ result.0 ∷ option_to_list result.1 }
{
    match op {
        Op::Add(a, b) => (a, Some(b)),
        Op::Sub(a, b) => (a, Some(b)),
        Op::Mul(a, b) => (a, Some(b)),
        Op::Neg(a) => (a, None),
        Op::AddPlain(a, _) => (a, None),
        Op::SubPlain(a, _) => (a, None),
        Op::MulPlain(a, _) => (a, None),
        Op::MulConst(a, _) => (a, None),
        Op::Relin(a) => (a, None),
        Op::Turn(a, _) => (a, None),
        Op::Swap(a) => (a, None),
    }
}

/// Puts off the end of each register that the operation reads.
fn put_off(ends: &mut [usize], op: Op, end: usize)
    requires { OnOperands op (λ r. r < length ends.old) }
    ensures size { length ends.new ≡ length ends.old }
    ensures read { (r : ℕ) → Contains (operands_of op) r → slice_index ends.new r ≡ end }
    ensures others { (r : ℕ) → (slice_index ends.new r ≡ slice_index ends.old r) ⊎ Contains (operands_of op) r }
{
    let (first, second) = operands(op);
    ends[first as usize] = end;
    match second {
        Some(second) => ends[second as usize] = end,
        None => {}
    }
}

/// The end of each register: the number of the first step before which it is no longer live. Each
/// is live before step 0, if it is an input, and until the last step that reads it. The output is
/// live in the end.
fn live_ends(alloc: Global, script: &Script) -> Result<Vec<usize>, AllocError>
    ensures { IfOk result (λ ends. AreEnds script.now ends.items) }
{
    let output = script.output();
    let steps = script.steps();
    let mut ends = vec![in alloc; 1; script.ciphers() + steps]?;
    for i in 0..steps {
        put_off(&mut ends, script.step(i), i + 1);
    }
    ends[output as usize] = steps + 1;
    Ok(ends)
}

/// How many places are taken before step `i`.
fn count_taken(taken: &[usize], i: usize) -> usize
    ensures { result ≡ taken_count i taken.now }
{
    taken.iter().filter(|end| i < **end).count()
}

/// The first place that is free before step `i`, or the number of places.
fn free_place(taken: &[usize], i: usize) -> usize
    ensures inside { result ≤ length taken.now }
    ensures before { (p : ℕ) → p < result → i < slice_index taken.now p }
    ensures free { slice_index taken.now result ≤ i }
{
    for place in 0..taken.len() {
        if taken[place] <= i {
            return place;
        }
    }
    taken.len()
}

/// Takes a place that is free before step `i`.
fn take_place(taken: &mut Vec<usize>, i: usize, end: usize) -> Result<usize, AllocError>
    ensures { IfOk result (λ place. IsTaken taken.old.items taken.new.items i end place) }
{
    let place = free_place(taken, i);
    if place < taken.len() {
        taken[place] = end;
    } else {
        taken.push(end)?;
    }
    Ok(place)
}

/// A place of its own for each input.
fn own_places(alloc: Global, inputs: usize) -> Result<Vec<usize>, AllocError>
    ensures count { IfOk result (λ places. length places.items ≡ inputs) }
    ensures each { IfOk result (λ places. (r : ℕ) → r < inputs → slice_index places.items r ≡ r) }
{
    let mut places = Vec::new(alloc);
    for register in 0..inputs {
        places.push(register)?;
    }
    Ok(places)
}

/// The plan of a script, in one pass: each step's result takes the first place that no register has
/// which is live before the step.
pub fn make_plan(alloc: Global, script: &Script) -> Result<Plan, AllocError>
    ensures plan { IfOk result (λ plan. IsPlan script.now plan.places.items plan.count) }
    ensures count { IfOk result (λ plan. plan.count ≡ most_live script.now + 1) }
{
    let ends = live_ends(alloc, script)?;
    let inputs = script.ciphers();
    let mut places = own_places(alloc, inputs)?;
    let mut taken = ends[..inputs].to_vec(alloc)?;
    let mut most = 0;
    for i in 0..script.steps() {
        most = most.max(count_taken(&taken, i));
        let place = take_place(&mut taken, i, ends[inputs + i])?;
        places.push(place)?;
    }
    let count = most.max(count_taken(&taken, script.steps())) + 1;
    Ok(Plan { places, count })
}

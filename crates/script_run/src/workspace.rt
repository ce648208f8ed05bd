//! Workspaces.

ghost use Rattle.std.specs.Prelude.{◌≡◌, ℕ, ◌+◌, ◌<◌, ◌≤◌, ℤ, List, [], length, slice_index, slice_index_or, slice_get, slice_set, Some, true, false, IfOk, OnOk, OnErr};
ghost use Rattle.std.specs.Borrow.{sem, Lends, Array, u64};
ghost use Rattle.set_table.specs.Sets.{data_of, plain_of};
ghost use Rattle.ring_law.specs.Rows.{IsReduced};
ghost use Rattle.script_text.specs.Scripts.{shape_at, shapes_of, plain_inputs, needs_of};
ghost use Rattle.script_text.specs.Value.{value_of};
ghost use Rattle.noise_check.specs.ExactBounds.{exact_bounds};
ghost use Rattle.bfv_params.specs.Values.{zero_cipher};
ghost use Rattle.bfv_params.specs.contracts.cipher.Cipher.{the_row as cipher_row};
ghost use Rattle.bfv_params.specs.Ciphers.{IsCipherOf};
ghost use Rattle.key_switch.specs.Providers.{Digits, FaultCause, IsThere, Keeps};
ghost use Rattle.script_run.specs.Registers.{input_count, most_live};
ghost use Rattle.script_run.specs.Places.{cipher_at};
ghost use Rattle.script_run.specs.Workspaces.{MadeFor, SameShape, input_of, output_of};
ghost use Rattle.script_run.specs.Runs.{Carries, InputsCarry};
ghost use Rattle.script_run.specs.Premises.{RunPremise};
ghost use Rattle.script_run.specs.contracts.workspace.Workspace.{the_row};

use crate::planning::make_plan;
use crate::run::run;
use bfv_params::{Cipher, Context};
use key_switch::{KeyFault, Keys};
use rns_poly::PolyBuf;
use script_text::Script;
use set_table::SetName;
use std::alloc::{AllocError, Global};
use std::marker::Model;

/// Ciphers for the registers of a script, its plain inputs, and room to compute.
#[derive(Drop)]
pub struct Workspace<const N: usize> {
    set: SetName,
    inputs: usize,
    plan: Vec<usize>,
    ciphers: Vec<Cipher<N>>,
    plains: Vec<[u64; N]>,
    row: Box<[u64; N]>,
    scratch: PolyBuf<N>,
    done: bool,
    place: usize,
}

impl<const N: usize> Model for Workspace<N> {
    ghost use Rattle.std.specs.Prelude.{length};
    ghost use Rattle.script_run.specs.Workspaces.{IsWorkspace, WorkspaceValue};

    ghost Value = { WorkspaceValue };

    ghost view = { λ w. record { set = w.set; inputs = w.inputs; plan = w.plan.items; places = w.ciphers.items; plains = w.plains.items; done = w.done; place = w.place } };

    ghost invariant = { λ w. IsWorkspace N (record { set = w.set; inputs = w.inputs; plan = w.plan.items; places = w.ciphers.items; plains = w.plains.items; done = w.done; place = w.place }) (length w.scratch) };
}

impl<const N: usize> Workspace<N> {
    /// A workspace for a script, with all the memory that a run takes: a zero cipher for each
    /// register that is live at one moment, at the most, and one more, and places for the plain
    /// inputs. The error is want of memory.
    pub fn new(alloc: Global, script: &Script, ctx: &Context<N>) -> Result<Workspace<N>, AllocError>
        requires same_set { script.now.set ≡ (ctx.now).set }
        requires level { (ctx.now).level ≡ length (data_of (ctx.now).set) }
        ensures made { IfOk result (MadeFor script.now) }
        ensures count { IfOk result (λ w. length w.places ≡ most_live script.now + 1) }
        ensures input_count { IfOk result (λ w. w.inputs ≡ input_count script.now) }
        ensures inputs { IfOk result (λ w. (r : ℕ) → r < w.inputs → input_of w r ≡ zero_cipher N (ctx.now).set (ctx.now).level) }
        ensures not_done { IfOk result (λ w. w.done ≡ false) }
    {
        let inputs = script.ciphers();
        let plan = make_plan(alloc, script)?;
        Ok(Workspace {
            set: ctx.set(),
            inputs,
            plan: plan.places,
            ciphers: zero_ciphers(alloc, ctx, plan.count)?,
            plains: vec![in alloc; [0; N]; script.inputs() - inputs]?,
            row: Box::new(alloc, [0; N])?,
            scratch: PolyBuf::new(alloc, ctx.scratch_rows())?,
            done: false,
            place: 0,
        })
    }

    /// The place of a cipher input, which is given by its register, for filling.
    pub fn cipher_slot(&mut self, input: usize) -> &mut Cipher<N>
        requires { input < (self.old).inputs }
        ensures* writes_back { sem 𝓛 (Lends (the_row N.row) (cipher_row N.row) self.entry result (λ w. record (self.old) { places = slice_set (self.old).places (slice_index (self.old).plan input) w; done = false })) }
        ensures value { result.now ≡ input_of self.old input }
        ensures inside { slice_index (self.old).plan input < length (self.old).places }
    {
        self.done = false;
        let place = self.plan[input];
        &mut self.ciphers[place]
    }

    /// The place of a plain input, which is given by its number among the plain inputs, for N values
    /// below the plaintext modulus.
    pub fn plain_slot(&mut self, input: usize) -> &mut [u64; N]
        requires { input < length (self.old).plains }
        ensures* writes_back { sem 𝓛 (Lends (the_row N.row) (Array u64 N) self.entry result (λ w. record (self.old) { plains = slice_set (self.old).plains input w })) }
        ensures value { slice_get (self.old).plains input ≡ Some result.now }
    {
        &mut self.plains[input]
    }

    /// Executes the script on the inputs that were filled in. The script's steps need no key: sums,
    /// differences, negatives and products. Where the inputs' noise leaves that of each register
    /// within a quarter of the ciphertext modulus, the result carries the script's value under each
    /// ternary secret. Afterwards the inputs are to be filled in anew.
    pub fn execute<K: Keys<N>>(
        &mut self,
        ctx: &Context<N>,
        script: &Script,
        keys: &mut K,
    ) -> Result<(), KeyFault>
        requires same_set { script.now.set ≡ (ctx.now).set }
        requires level { (ctx.now).level ≡ length (data_of (ctx.now).set) }
        requires made { MadeFor script.now self.old }
        requires keyless { needs_of script.now ≡ [] }
        requires ciphers { (r : ℕ) → r < (self.old).inputs → IsCipherOf ctx.now (input_of self.old r) }
        requires parts { (r : ℕ) → r < input_count script.now → (input_of self.old r).parts ≡ 2 }
        requires plains { (p : ℕ) → p < length (plain_inputs script.now.inputs) → IsReduced N (plain_of (ctx.now).set) (slice_index_or (self.old).plains p []) }
        requires keys_set { (K.state keys.old).set ≡ (ctx.now).set }
        ensures keeps { Keeps (K.state keys.old) (K.state keys.new) }
        ensures origin { K.origin keys.new ≡ K.origin keys.old }
        ensures cause { FaultCause (K.state keys.old) (K.state keys.new) result }
        ensures tells { (digits : Digits) → K.Tells keys.old digits → K.Tells keys.new digits }
        ensures there { (digits : Digits) → K.Tells keys.old digits → IsThere result }
        ensures shape { SameShape self.old self.new }
        ensures rooms { (p : ℕ) → (cipher_at (self.new).places p).room ≡ (cipher_at (self.old).places p).room }
        ensures ciphers { (r : ℕ) → r < (self.new).inputs → IsCipherOf ctx.now (input_of self.new r) }
        ensures done { OnOk result ((self.new).done ≡ true) }
        ensures not_done { OnErr result ((self.new).done ≡ false) }
        ensures of_context { OnOk result (IsCipherOf ctx.now (output_of self.new)) }
        ensures parts { OnOk result ((output_of self.new).parts ≡ (shape_at (shapes_of script.now.inputs script.now.steps) script.now.output).parts) }
        ensures value { (s : ℕ → ℤ) (lists : List (List ℕ)) (bounds : List ℕ)
            → InputsCarry N ctx.now s script.now (self.old).plan (self.old).places (self.old).plains lists bounds
            → RunPremise N ctx.now (K.Tells keys.old) s script.now bounds
            → OnOk result (Carries N ctx.now s (output_of self.new) (value_of script.now lists) (slice_index (exact_bounds script.now bounds) script.now.output)) }
    {
        self.done = false;
        self.place = run(
            ctx,
            &mut self.ciphers,
            &self.plan,
            &self.plains,
            script,
            &mut self.row,
            &mut self.scratch,
        );
        self.done = true;
        Ok(())
    }

    /// The output of the last run.
    pub fn result(&self) -> &Cipher<N>
        requires { (self.now).done ≡ true }
        ensures { result.now ≡ output_of self.now }
    {
        &self.ciphers[self.place]
    }
}

/// This many zero ciphers.
fn zero_ciphers<const N: usize>(
    alloc: Global,
    ctx: &Context<N>,
    count: usize,
) -> Result<Vec<Cipher<N>>, AllocError>
    ensures count { IfOk result (λ ciphers. length ciphers.items ≡ count) }
    ensures each { IfOk result (λ ciphers. (p : ℕ) → p < count → cipher_at ciphers.items p ≡ zero_cipher N (ctx.now).set (ctx.now).level) }
{
    let mut ciphers = Vec::new(alloc);
    for _ in 0..count {
        ciphers.push(Cipher::new(alloc, ctx)?)?;
    }
    Ok(ciphers)
}

// Commands on stores with keys and ciphers.
ghost use Rattle.std.specs.Prelude.{◌≡◌, None, IfOk};
ghost use Rattle.outer_io.specs.Memory.{pending_name};

use crate::words::words_of;
use bfv_commands::command;
use command_words::Status;
use outer_io::{MemSink, MemStore};
use std::alloc::{AllocError, Global};

/// The values from 1 to 16, as they are printed.
pub const SIXTEEN: &str = "1 2 3 4 5 6 7 8\n9 10 11 12 13 14 15 16\n";

/// The seed of 32 bytes that begins with 1 and has a number in its ninth byte.
pub fn seed(number: u8) -> [u8; 32] {
    let mut seed = [0; 32];
    seed[0] = 1;
    seed[8] = number;
    seed
}

/// Runs a command, and answers its status and what it printed.
pub fn run(
    alloc: Global,
    store: &mut MemStore,
    texts: &[&str],
) -> Result<(Status, Vec<u8>), AllocError>
    requires { pending_name (store.old).pending ≡ None }
    ensures { pending_name (store.new).pending ≡ None }
{
    let words = words_of(alloc, texts)?;
    let mut out = MemSink::new(alloc);
    let status = command(alloc, &words, store, &mut out);
    Ok((status, out.text().to_vec(alloc)?))
}

/// A store with seeds, a text of values, the secret, public key and cipher of a set that they make,
/// and the values that come back.
pub fn made(alloc: Global, set: &str, values: &str) -> Result<MemStore, AllocError>
    ensures { IfOk result (λ s. pending_name s.pending ≡ None) }
{
    let mut store = MemStore::new(alloc);
    store.put_file("s0", &seed(0))?;
    store.put_file("s1", &seed(1))?;
    store.put_file("s4", &seed(4))?;
    store.put_file("v", values.as_bytes())?;
    run(alloc, &mut store, &["secret", set, "s0", "sec"])?;
    run(alloc, &mut store, &["public", "sec", "s1", "pub"])?;
    run(alloc, &mut store, &["encrypt", "pub", "s4", "v", "c"])?;
    run(alloc, &mut store, &["decrypt", "sec", "c", "back"])?;
    Ok(store)
}

// Seeds: the front of a file, and the generator of random words that it seeds.
ghost use Rattle.std.specs.Prelude.{◌≡◌, ◌<◌, ◌≤◌, min, length, take, map, IfOk, IfErr};
ghost use Rattle.std.specs.Option.{ForSome};
ghost use Rattle.std.specs.String.{string_bytes};
ghost use Rattle.outer_io.specs.Store.{OnlyReads, ReadCause, ReadTold};
ghost use Rattle.command_words.specs.Line.{word_at};
ghost use Rattle.command_model.specs.Reading.{seed_file};
ghost use Rattle.command_stages.specs.Stages.{Took};

use crate::operand::{name_of, unread};
use command_words::Status;
use outer_io::{Store, StoreFault, read_piece};

/// How many bytes a seed has.
pub const SEED_BYTES: usize = 32;

/// The seed in the file that a word names: its first bytes. The size of the file isn't asked for,
/// so a device serves as well.
pub fn read_seed<S: Store>(
    store: &mut S,
    words: &[String],
    word: u32,
) -> Result<[u8; SEED_BYTES], Status>
    requires { word < length words.now }
    ensures { Took (word_at (map string_bytes words.now) word) word seed_file (λ said seed. seed ≡ said) (S.state store.old) (S.state store.new) result }
{
    let mut seed = [0; SEED_BYTES];
    match fill_front(store, name_of(words, word), &mut seed) {
        Ok(have) => whole_seed(seed, have, word),
        Err(fault) => Err(unread(word, fault)),
    }
}

/// The seed, where the file had enough bytes.
fn whole_seed(seed: [u8; SEED_BYTES], have: usize, word: u32) -> Result<[u8; SEED_BYTES], Status>
    requires { have ≤ 32 }
    ensures ok { IfOk result (λ s. (s ≡ seed) × (have ≡ 32)) }
    ensures err { IfErr result (λ s. (s ≡ Status.ShortSeed word have) × (have < 32)) }
{
    if have < SEED_BYTES {
        Err(Status::ShortSeed {
            word,
            have: have as u32,
        })
    } else {
        Ok(seed)
    }
}

/// Fills a buffer from the front of a file, as far as the file goes, and answers how many bytes it
/// got.
fn fill_front<S: Store>(store: &mut S, name: &str, buffer: &mut [u8]) -> Result<usize, StoreFault>
    requires { 0 < length buffer.old }
    ensures keeps { OnlyReads (S.state store.old) (S.state store.new) }
    ensures cause { ReadCause (S.state store.old) (S.state store.new) result }
    ensures count { IfOk result (λ n. n ≤ length buffer.old) }
    ensures told { ForSome (S.state store.old).files (λ files. ReadTold files name.now result
        (λ bytes n. (n ≡ min (length buffer.old) (length bytes)) × (take n buffer.new ≡ take n bytes))) }
{
    let mut filled = 0;
    'pieces: while filled < buffer.len() {
        let n = read_piece(store, name, filled as u64, &mut buffer[filled..])?;
        if n == 0 {
            break;
        }
        filled += n;
    }
    Ok(filled)
}

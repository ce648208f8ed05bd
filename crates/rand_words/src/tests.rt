// Samples that were worked out by hand, over a generator whose words are known.
ghost use Rattle.std.specs.Prelude.{◌≡◌, ℕ, ◌+◌, ◌%◌, ◌^◌};
ghost use Rattle.rand_core.specs.Steps.{stream_of, steps_u64_low};

use super::*;
use rand_core::utils;
use rand_core::utils::NextWord;
use std::marker::Model;
use std::test::Fail;

// A generator whose next word is `next`, and each further word greater by `step` modulo 2^64.
#[derive(Drop)]
struct EvenSteps {
    next: u64,
    step: u64,
}

impl Model for EvenSteps {
    ghost Value = { ℕ × ℕ };

    ghost view = { λ a. (a.next, a.step) };
}

impl NextWord<u64> for EvenSteps {
    ghost step = { λ s. (s.0, ((s.0 + s.1) % 2 ^ 64, s.1)) };

    fn next_word(&mut self) -> u64 {
        let word = self.next;
        self.next = word.wrapping_add(self.step);
        word
    }
}

impl Rng for EvenSteps {
    ghost stream = { stream_of (steps_u64_low (λ s. (s.0, ((s.0 + s.1) % 2 ^ 64, s.1)))) };

    fn next_u32(&mut self) -> u32 {
        (self.next_word() % (1 << 32)) as u32
    }

    fn next_u64(&mut self) -> u64 {
        self.next_word()
    }

    fn fill_bytes(&mut self, dst: &mut [u8]) {
        utils::fill_bytes_via_u64(self, dst)
    }
}

// A generator of the words `first`, `second` and so on, in even steps.
fn words_from(first: u64, second: u64) -> EvenSteps {
    EvenSteps {
        next: first,
        step: second.wrapping_sub(first),
    }
}

#[test]
fn samples_of_single_words(rt: HostRuntime) {
    for (word, sample) in [(5, -1), (6, 0), (7, 1), (u64::MAX, 0)] {
        assert_eq!(rt; ternary(word), sample, "at {word}");
    }
    for (word, sample) in [
        (0x1f_ffff, 21),
        (0x3ff_ffe0_0000, -21),
        (u64::MAX, 0),
        (1 << 42, 0),
    ] {
        assert_eq!(rt; error(word), sample, "at {word}");
    }
}

// 2^64 is 1 modulo 257 and 17 modulo 19.
#[test]
fn samples_of_pairs(rt: HostRuntime) -> Result<(), Fail> {
    for (q, high, low, sample) in [
        (257, 1, 0, 1),
        (257, 0, 300, 43),
        (19, 1, 0, 17),
        (19, 0, 1, 1),
    ] {
        let m = Modulus::new(q)?;
        assert_eq!(rt;
            uniform(&m, high, low),
            sample,
            "at {high} and {low} modulo {q}"
        );
    }
    Ok(())
}

#[test]
fn ids_and_rows(rt: HostRuntime) -> Result<(), Fail> {
    let mut rng = words_from(0x0807_0605_0403_0201, 0x100f_0e0d_0c0b_0a09);
    assert_eq!(rt;
        key_id(&mut rng),
        [1, 2, 3, 4, 5, 6, 7, 8, 9, 10, 11, 12, 13, 14, 15, 16]
    );

    let mut rng = words_from(5, 6);
    let mut ternaries = [0; 3];
    ternary_row(&mut rng, &mut ternaries);
    assert_eq!(rt; ternaries, [-1, 0, 1]);
    assert_eq!(rt; rng.next_u64(), 8);

    let mut rng = words_from(0x1f_ffff, 0x3ff_ffe0_0000);
    let mut errors = [0; 2];
    error_row(&mut rng, &mut errors);
    assert_eq!(rt; errors, [21, -21]);

    // The words 1, 0, -1 and -2 modulo 2^64.
    let mut rng = words_from(1, 0);
    let mut residues = [0; 2];
    uniform_row(&mut rng, &Modulus::new(257)?, &mut residues);
    assert_eq!(rt; residues, [1, 256]);
    Ok(())
}

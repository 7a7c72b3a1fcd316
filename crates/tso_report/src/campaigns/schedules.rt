//! The schedule that a seed draws, by which its program is replayed.
ghost use Rattle.std.specs.Prelude.{◌≡◌, ◌≤◌, IfOk, map};
ghost use Rattle.drawn_programs.specs.Making.{after_words, words_of};
ghost use Rattle.tso_report.specs.Campaigns.{schedule_of_seed};
ghost use Rattle.tso_report.specs.DrawnSchedules.{act_of_word, drain_weight};

use drawn_programs::Shape;
use rand_core::{Rng, SeedableRng};
use rand_pcg::Pcg64;
use std::alloc::Global;
use tso_ops::{Act, OutOfMemory};

/// How many acts are drawn for each operation of the program.
const ACTS_OF_OPERATION: u64 = 3;

/// How many of 16 acts are drains, on average. A seed has one of these, so that stores wait for long with some seeds.
static DRAIN_WEIGHTS: [u64; 4] = [0, 1, 3, 8];

/// The schedule that a seed draws for its program of this shape, of either memory model, or OutOfMemory where an allocation
/// was refused. It has three acts for each operation of the program; a replay issues what it leaves out.
///
/// PCG64 from the seed gives its words after those of `seeded_program`. The first draws the weight, which is 0, 1, 3 or 8 by
/// the word modulo 4. Each further word is an act on processor `word / 16` modulo the number of processors: a drain where the
/// word modulo 16 is below the weight, else an issue.
pub fn seeded_schedule(alloc: Global, seed: u64, shape: Shape) -> Result<Vec<Act>, OutOfMemory>
    ensures { IfOk result (λ acts. acts.items ≡ schedule_of_seed shape seed) }
{
    let processors = shape.processors();
    let operations = processors * shape.operations();
    let mut words = Pcg64::seed_from_u64(seed);
    skip_words(&mut words, operations);
    let weight = drain_weight(words.next_u64());
    draw_acts(
        alloc,
        &mut words,
        processors,
        weight,
        ACTS_OF_OPERATION * operations,
    )
}

/// Takes so many words of the generator.
fn skip_words<R: Rng>(words: &mut R, count: u64)
    ensures { R.stream words.new ≡ after_words count (R.stream words.old) }
{
    for _ in 0..count {
        let _ = words.next_u64();
    }
}

/// The weight of drains that a word draws.
fn drain_weight(word: u64) -> u64
    ensures { result ≡ drain_weight word }
{
    DRAIN_WEIGHTS[(word % 4) as usize]
}

/// The acts that so many words draw, where drains have this weight.
fn draw_acts<R: Rng>(
    alloc: Global,
    words: &mut R,
    processors: u64,
    weight: u64,
    count: u64,
) -> Result<Vec<Act>, OutOfMemory>
    requires { 1 ≤ processors }
    ensures { IfOk result (λ acts. acts.items ≡ map (act_of_word processors weight) (words_of count (R.stream words.old))) }
{
    let mut acts = Vec::new(alloc);
    for _ in 0..count {
        acts.push(act_of_word(words.next_u64(), processors, weight))?;
    }
    Ok(acts)
}

/// The act that a word draws.
fn act_of_word(word: u64, processors: u64, weight: u64) -> Act
    requires { 1 ≤ processors }
    ensures { result ≡ act_of_word processors weight word }
{
    let p = (word / 16 % processors) as usize;
    if word % 16 < weight {
        Act::Drain(p)
    } else {
        Act::Issue(p)
    }
}

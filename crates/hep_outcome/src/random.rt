//! Lots, and the processes that they draw.
ghost use Rattle.std.specs.Prelude.{◌≡◌, ◌≤◌, length};
ghost use Rattle.hep_core.specs.CoreValues.{free_of, state_of};
ghost use Rattle.hep_outcome.specs.KeptLots.{lots_after, lots_next, next_in};
ghost use Rattle.hep_outcome.specs.LotDraws as spec;

use hep_core::Core;
use rand_core::utils::NextWord;
use rand_pcg::Pcg32;
use std::marker::Model;

// The stream of the generator, which is the same for all seeds.
const STREAM: u64 = 54;

/// The lots of a seed. Each draw takes one word of a generator, PCG32, so that a seed draws the same on every
/// machine. Contracts see `stay`, where one word out of `stay` draws another process, and the generator.
#[derive(Drop)]
pub struct Lots {
    stay: u32,
    generator: Pcg32,
}

impl Model for Lots {
    ghost use Rattle.std.specs.Prelude.{◌≤◌};
    ghost use Rattle.hep_outcome.specs.KeptLots.{LotsValue};

    ghost Value = { LotsValue };

    ghost view = { λ lots. record { stay = lots.stay; generator = lots.generator } };

    ghost invariant = { λ lots. 1 ≤ lots.stay };
}

// 2 to the power of the seed modulo 8.
fn stay_of(seed: u64) -> u32
    ensures stay { result ≡ spec.stay_of seed }
    ensures some { 1 ≤ result }
{
    1 << (seed % 8)
}

// Whether process p is ready and isn't out.
fn is_ready(core: &Core, p: u64) -> bool
    ensures { result ≡ spec.is_ready p (free_of core.now.core) }
{
    match core.ready_after(p.saturating_sub(1)) {
        Some(next) => p == next,
        None => false,
    }
}

// The process that is `count` places after p among the ready ones that aren't out, in a circle.
fn further(core: &Core, count: u32, p: u64) -> Option<u64>
    ensures { result ≡ spec.further count p (free_of core.now.core) }
{
    let mut at = p;
    for _ in 0..count {
        at = core.ready_after(at)?;
    }
    Some(at)
}

// Any of the ready processes that aren't out, by a word.
fn drawn_anew(core: &Core, word: u32) -> Option<u64>
    ensures { result ≡ spec.drawn_anew word (length (state_of core.now.core).processes) (free_of core.now.core) }
{
    let start = u64::from(word / 4) % core.made();
    further(core, word % 4 + 1, start)
}

impl Lots {
    /// The lots of a seed, before the first draw.
    pub fn new(seed: u64) -> Lots
        ensures { result ≡ lots_after seed 0 }
    {
        Lots {
            stay: stay_of(seed),
            generator: Pcg32::new(seed, STREAM),
        }
    }

    /// The process of the next draw: one that is ready and isn't out. `None` where there is none.
    ///
    /// This costs five times as much as `ready_after` of the core at most.
    pub fn next(&mut self, core: &Core) -> Option<u64>
        ensures process { result ≡ next_in self.old core.now.core }
        ensures lots { self.new ≡ lots_next self.old }
    {
        let word = self.generator.next_word();
        let last = core.last_process();
        if word % self.stay != 0 && is_ready(core, last) {
            return Some(last);
        }
        drawn_anew(core, word / self.stay)
    }
}

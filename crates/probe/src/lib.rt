// The bound test alone, for the benchmark, which times it beside a plain read of the same words.
#![tactic(auto)]

ghost use Rattle.std.specs.Prelude.{◌≡◌, cond};
ghost use Rattle.words.specs.Words.{words};
ghost use Rattle.loops.specs.Search.{all_between};

use loops::all_between;

// 1 if each word lent is from low to high, else 0.
#[tactic(auto, using(std::proofs::lemmas::List::take_all, words::proofs::Words::length_words))]
#[unsafe(no_mangle)]
pub extern "C" fn deskrook_all_between(mem: &[u8], low: u32, high: u32) -> u32
    ensures { result ≡ cond (all_between low high (words mem.now)) 1 0 }
{
    let n = mem.len() / 4;
    if all_between(mem, 0, n, low, high) {
        1
    } else {
        0
    }
}

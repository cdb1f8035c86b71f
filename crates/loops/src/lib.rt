// The loops over words that the store is made of. What each writes is one change of a stretch, word by word; what each reads is a
// function of the list of the words that it looks at.
#![tactic(auto)]

ghost use Rattle.std.specs.Prelude.{◌≡◌, ◌+◌, ◌*◌, ◌<◌, ◌≤◌, ◌&&◌, ◌||◌, ◌⊎◌, length, if◌then◌else◌, nat_lt};
ghost use Rattle.terms.specs.Measures.{between};
ghost use Rattle.words.specs.Words.{words};
ghost use Rattle.loops.specs.Change.{filled, numbered, copied, marked};
ghost use Rattle.loops.specs.Search.{region, turned, all_between, first_at};

use words::{get, of_word, put};

// The n words from `at` become v.
#[tactic(auto, using(crate::proofs::Change::changed_none, crate::proofs::Change::changed_next))]
pub fn fill(mem: &mut [u8], at: usize, n: usize, v: u32)
    requires { (at + n) * 4 ≤ length mem.old }
    ensures { words mem.new ≡ filled at n v (words mem.old) }
{
    for i in 0..n {
        put(mem, at + i, v);
    }
}

// The n words from `at` become 0, 1, 2 and so on.
#[tactic(auto, using(crate::proofs::Change::changed_none, crate::proofs::Change::changed_next))]
pub fn count_up(mem: &mut [u8], at: usize, n: usize)
    requires { ((at + n) * 4 ≤ length mem.old) × (n ≤ 4294967296) }
    ensures { words mem.new ≡ numbered at n (words mem.old) }
{
    for i in 0..n {
        put(mem, at + i, i as u32);
    }
}

// The n words from `from` go to those from `to`. The two do not overlap, so that no word is read that was written.
#[tactic(auto, using(crate::proofs::Change::changed_none, crate::proofs::Change::copied_next))]
pub fn copy(mem: &mut [u8], from: usize, n: usize, to: usize)
    requires n_in_bounds { ((from + n) * 4 ≤ length mem.old) × ((to + n) * 4 ≤ length mem.old) }
    requires fact { (from + n ≤ to) ⊎ (to + n ≤ from) }
    ensures { words mem.new ≡ copied (words mem.old) from n to (words mem.old) }
{
    for i in 0..n {
        let v = get(mem, from + i);
        put(mem, to + i, v);
    }
}

// The first n words of another slice.
#[tactic(auto, using(crate::proofs::Change::changed_none, crate::proofs::Change::changed_next))]
pub fn copy_from(from: &[u8], n: usize, to: &mut [u8])
    requires { (n * 4 ≤ length from.now) × (n * 4 ≤ length to.old) }
    ensures { words to.new ≡ copied (words from.now) 0 n 0 (words to.old) }
{
    for i in 0..n {
        put(to, i, get(from, i));
    }
}

// Both of two flags. Both are computed before, with no way out early, so that a loop over it vectorises; `either` and `select` likewise.
pub fn both(a: bool, b: bool) -> bool
    ensures { result ≡ (a && b) }
{
    a & b
}

// One of two flags at least.
pub fn either(a: bool, b: bool) -> bool
    ensures { result ≡ (a || b) }
{
    a | b
}

// v where the flag is up, old elsewhere.
pub fn select(flag: bool, v: u32, old: u32) -> u32
    ensures { result ≡ (if flag then v else old) }
{
    if flag { v } else { old }
}

// v at word to + i for each i below n whose word keys + i is key. Each turn stores, so that there is no branch and the loop vectorises.
#[tactic(auto, using(crate::proofs::Change::changed_none, crate::proofs::Change::marked_next))]
pub fn mark(mem: &mut [u8], keys: usize, n: usize, key: u32, to: usize, v: u32)
    requires n_in_bounds { ((keys + n) * 4 ≤ length mem.old) × ((to + n) * 4 ≤ length mem.old) }
    requires fact { (keys + n ≤ to) ⊎ (to + n ≤ keys) }
    ensures { words mem.new ≡ marked (words mem.old) keys n key to v (words mem.old) }
{
    for i in 0..n {
        let w = select(get(mem, keys + i) == key, v, get(mem, to + i));
        put(mem, to + i, w);
    }
}

// A flag that stays up only if w is from low to high.
pub fn and_between(ok: bool, low: u32, high: u32, w: u32) -> bool
    ensures { result ≡ (ok && between low high w) }
{
    ok & (low <= w) & (w <= high)
}

// Whether a is above b, each with its highest bit turned: as signed numbers, which SSE2 compares in one step where unsigned ones take two.
fn above(a: u32, b: u32) -> bool
    ensures { result ≡ nat_lt (turned b) (turned a) }
{
    of_word(b) < of_word(a)
}

// A word with its highest bit turned.
fn flip_sign(w: u32) -> u32
    ensures { result ≡ turned w }
{
    w.wrapping_add(0x8000_0000)
}

// A flag that stays up only if w is from low to low + span, where these are turned. What is left of a word below low wraps to more than the span, so that one
// comparison tells both bounds.
fn and_within(ok: bool, low: u32, span: u32, w: u32) -> bool
    ensures { turned low + turned span < 4294967296 → result ≡ (ok && between (turned low) (turned low + turned span) w) }
{
    ok & !above(w.wrapping_sub(low), span)
}

// Whether each of the n words from `at` is from low to high. One flag is carried to the end: a loop with an early exit does not vectorise.
pub fn all_between(mem: &[u8], at: usize, n: usize, low: u32, high: u32) -> bool
    requires { (at + n) * 4 ≤ length mem.now }
    ensures { result ≡ all_between low high (region (words mem.now) at n) }
{
    if high < low {
        return n == 0;
    }
    let first = flip_sign(low);
    let span = flip_sign(high - low);
    let mut ok = true;
    for i in 0..n {
        ok = and_within(ok, first, span, get(mem, at + i));
    }
    ok
}

// The first index of key among the n words from `at`, counted from `at`.
#[tactic(auto, using(crate::proofs::Search::find_stop))]
pub fn find(mem: &[u8], at: usize, n: usize, key: u32) -> Option<usize>
    requires { (at + n) * 4 ≤ length mem.now }
    ensures { result ≡ first_at key 0 (region (words mem.now) at n) }
{
    for i in 0..n {
        if get(mem, at + i) == key {
            return Some(i);
        }
    }
    None
}

// Access to the memory by region: a word, or a stretch, n words from an index on. Each function is proved once, for every region.
// A stretch and not the whole region, since the rows given and the records used bound what a call has to look at.
#![tactic(auto, using(layout::proofs::View::base_in, layout::proofs::View::view_at, layout::proofs::View::view_region, layout::proofs::View::view_put, layout::proofs::View::view_fill, layout::proofs::View::view_number, layout::proofs::View::view_copy, layout::proofs::View::view_mark, layout::proofs::Renewed::past_zero, layout::proofs::Renewed::past_same))]

ghost use Rattle.std.specs.Prelude.{◌≡◌, ◌⊎◌, ◌+◌, ◌≤◌, ◌<◌, get_or};
ghost use Rattle.loops.specs.Search.{region, all_between, first_at};
ghost use Rattle.layout.specs.Regions.{index, len};
ghost use Rattle.layout.specs.View.{put, fill, number, copy, mark, view_of, Suffices};

use layout::{Region, Sizes, base};
use loops::{all_between, copy, count_up, fill, find, mark};
use words::{get, put};

// Word i of region k.
pub fn read(mem: &[u8], s: Sizes, k: Region, i: usize) -> u32
    requires suffices { Suffices s mem.now }
    requires i_bound { i < len s k }
    ensures { result ≡ get_or (view_of s mem.now k) i 0 }
{
    get(mem, base(s, k) + i)
}

// Word i of region k becomes v.
pub fn write(mem: &mut [u8], s: Sizes, k: Region, i: usize, v: u32)
    requires suffices { Suffices s mem.old }
    requires i_bound { i < len s k }
    ensures { view_of s mem.new ≡ put k i v (view_of s mem.old) }
{
    put(mem, base(s, k) + i, v);
}

// Word i of region k, of n words, or 0 past its end: for the regions that the first form does not have, which are empty there. One path serves both forms.
pub fn read_later(mem: &[u8], s: Sizes, k: Region, n: usize, i: usize) -> u32
    requires suffices { Suffices s mem.now }
    requires n_value { n ≡ len s k }
    ensures { result ≡ get_or (view_of s mem.now k) i 0 }
{
    if i < n { read(mem, s, k, i) } else { 0 }
}

// Word i of region k, of n words, becomes v, and nothing changes past its end.
pub fn write_later(mem: &mut [u8], s: Sizes, k: Region, n: usize, i: usize, v: u32)
    requires suffices { Suffices s mem.old }
    requires n_value { n ≡ len s k }
    ensures { view_of s mem.new ≡ put k i v (view_of s mem.old) }
{
    if i < n {
        write(mem, s, k, i, v);
    }
}

// Whether each of n words of region k, from `at` on, is from low to high.
pub fn between_in(mem: &[u8], s: Sizes, k: Region, at: usize, n: usize, low: u32, high: u32) -> bool
    requires suffices { Suffices s mem.now }
    requires n_bound { at + n ≤ len s k }
    ensures { result ≡ all_between low high (region (view_of s mem.now k) at n) }
{
    all_between(mem, base(s, k) + at, n, low, high)
}

// The first index of key among n words of region k from `at` on, counted from `at`.
pub fn find_in(mem: &[u8], s: Sizes, k: Region, at: usize, n: usize, key: u32) -> Option<usize>
    requires suffices { Suffices s mem.now }
    requires n_bound { at + n ≤ len s k }
    ensures { result ≡ first_at key 0 (region (view_of s mem.now k) at n) }
{
    find(mem, base(s, k) + at, n, key)
}

// n words of region k, from `at` on, become v.
pub fn fill_in(mem: &mut [u8], s: Sizes, k: Region, at: usize, n: usize, v: u32)
    requires suffices { Suffices s mem.old }
    requires n_bound { at + n ≤ len s k }
    ensures { view_of s mem.new ≡ fill k at n v (view_of s mem.old) }
{
    fill(mem, base(s, k) + at, n, v);
}

// n words of region k, from `at` on, become 0, 1, 2 and so on.
pub fn count_in(mem: &mut [u8], s: Sizes, k: Region, at: usize, n: usize)
    requires suffices { Suffices s mem.old }
    requires n_bound { (at + n ≤ len s k) × (n ≤ 4294967296) }
    ensures { view_of s mem.new ≡ number k at n (view_of s mem.old) }
{
    count_up(mem, base(s, k) + at, n);
}

// n words of region k, from `from` on, go to those from `to` on, which they do not overlap.
pub fn copy_in(mem: &mut [u8], s: Sizes, k: Region, from: usize, n: usize, to: usize)
    requires suffices { Suffices s mem.old }
    requires n_bound { (from + n ≤ len s k) × (to + n ≤ len s k) }
    requires fact { (from + n ≤ to) ⊎ (to + n ≤ from) }
    ensures { view_of s mem.new ≡ copy k from n to (view_of s mem.old) }
{
    let b = base(s, k);
    copy(mem, b + from, n, b + to);
}

// v in region k, for n words from `at` on, wherever region keys has key.
pub fn mark_in(
    mem: &mut [u8],
    s: Sizes,
    keys: Region,
    key: u32,
    k: Region,
    at: usize,
    n: usize,
    v: u32,
)
    requires suffices { Suffices s mem.old }
    requires n_bound { (at + n ≤ len s keys) × (at + n ≤ len s k) × (index keys ≡ index k → ⊥) }
    ensures { view_of s mem.new ≡ mark keys key k at n v (view_of s mem.old) }
{
    mark(mem, base(s, keys) + at, n, key, base(s, k) + at, v);
}

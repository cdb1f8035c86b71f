// The test of the stored facts of the current and the waiting pages, and with it that of all stored facts (check.rt).
#![tactic(auto, unfolding(facts::specs::Facts::current_at_most, facts::specs::Facts::waiting_at_most, facts::specs::Facts::chunk_current, facts::specs::Facts::current_lineage, facts::specs::Facts::waiting_lineage, facts::specs::Tests::current_holds, facts::specs::Tests::pages_hold))]

pub mod check;

ghost use Rattle.std.specs.Prelude.{◌≡◌, ℕ, ◌+◌, ◌/◌, ◌%◌, ◌≤◌, ◌<◌};
ghost use Rattle.terms.specs.Measures.{most_columns, most_chunks};
ghost use Rattle.layout.specs.Regions.{len};
ghost use Rattle.layout.specs.View.{last_stamp, view_of};
ghost use Rattle.facts.specs.Facts.{each, waiting_at_most, waiting_lineage};
ghost use Rattle.facts.specs.Tests.{Ready, current_holds, waiting_hold, pages_hold};
ghost use Rattle.pages.specs.Inverse.{inverse_of, most_inverse};

use facts::flags::each;
use layout::codes::{PAGE_CURRENT, PAGE_WAITING};
use layout::{HEADER_MERGES, HEADER_STAMP, Region, Sizes};
use loops::{both, either};
use regions::{between_in, read};

// A chunk is multiplied by an inverse of the columns and divided by this, which is a shift, in the place of a division by the columns.
const INVERSE_SCALE: u32 = 65536;

// The inverse of the columns.
fn inverse_of(columns: usize) -> u32
    requires { (1 ≤ columns) × (columns ≤ most_columns) }
    ensures { (result ≡ inverse_of columns) × (result ≤ most_inverse) }
{
    INVERSE_SCALE / columns as u32 + 1
}

// The range of a chunk, by the inverse of the columns.
fn range_of_chunk(chunk: u32, inverse: u32) -> usize
    requires { (chunk < most_chunks) × (inverse ≤ most_inverse) }
    ensures { (c : ℕ) → 1 ≤ c → c ≤ most_columns → inverse ≡ inverse_of c → result ≡ chunk / c }
{
    (chunk * inverse / INVERSE_SCALE) as usize
}

// Whether chunk i names a page of the pool that is current and says so of that chunk, whose newest stamp and lineage are within theirs.
fn current_holds(mem: &[u8], s: Sizes, inverse: u32, last: u32, i: usize) -> bool
    requires ready { Ready s mem.now }
    requires i_lt_chunks { (i < s.chunks) × (inverse ≡ inverse_of s.columns) × (inverse ≤ most_inverse) × (last ≡ last_stamp (view_of s mem.now)) }
    ensures { result ≡ current_holds s (view_of s mem.now) i }
{
    let p = read(mem, s, Region::Current, i) as usize;
    if p >= s.pages {
        return false;
    }
    let state = read(mem, s, Region::PageState, p);
    let chunk = read(mem, s, Region::PageChunk, p);
    let newest = read(mem, s, Region::PageNewest, p);
    let lineage = read(mem, s, Region::PageLineage, p);
    let most = read(mem, s, Region::Used, range_of_chunk(i as u32, inverse));
    let named = both(state == PAGE_CURRENT, chunk as usize == i);
    both(named, both(newest <= last, lineage <= most))
}

fn currents_hold(mem: &[u8], s: Sizes) -> bool
    requires { Ready s mem.now }
    ensures { result ≡ each s.chunks (current_holds s (view_of s mem.now)) }
{
    let inverse = inverse_of(s.columns);
    let last = read(mem, s, Region::Header, HEADER_STAMP);
    each(s.chunks, |i| current_holds(mem, s, inverse, last, i))
}

// Whether word k of a page is at most a number, if the page waits. Both words are read, so that the loop vectorises.
fn waiting_at_most(mem: &[u8], s: Sizes, k: Region, most: u32, p: usize) -> bool
    requires ready { Ready s mem.now }
    requires p_lt_pages { (p < s.pages) × (len s k ≡ s.pages) }
    ensures { result ≡ waiting_at_most (view_of s mem.now) k most p }
{
    let state = read(mem, s, Region::PageState, p);
    let word = read(mem, s, k, p);
    either(state < PAGE_WAITING, word <= most)
}

fn all_waiting_at_most(mem: &[u8], s: Sizes, k: Region, most: u32) -> bool
    requires ready { Ready s mem.now }
    requires k_value { len s k ≡ s.pages }
    ensures { result ≡ each s.pages (waiting_at_most (view_of s mem.now) k most) }
{
    each(s.pages, |p| waiting_at_most(mem, s, k, most, p))
}

// A word modulo the chunks. A division only where it is needed: a chunk that the store has written is below them.
fn modulo_chunks(word: u32, chunks: u32) -> u32
    requires { 1 ≤ chunks }
    ensures { (result ≡ word % chunks) × (result < chunks) }
{
    if word < chunks { word } else { word % chunks }
}

fn waiting_lineage(mem: &[u8], s: Sizes, inverse: u32, p: usize) -> bool
    requires ready { Ready s mem.now }
    requires p_lt_pages { (p < s.pages) × (inverse ≡ inverse_of s.columns) × (inverse ≤ most_inverse) }
    ensures { result ≡ waiting_lineage s (view_of s mem.now) p }
{
    if read(mem, s, Region::PageState, p) < PAGE_WAITING {
        return true;
    }
    let chunk = modulo_chunks(read(mem, s, Region::PageChunk, p), s.chunks as u32);
    let most = read(mem, s, Region::Used, range_of_chunk(chunk, inverse));
    read(mem, s, Region::PageLineage, p) <= most
}

fn waiting_lineages(mem: &[u8], s: Sizes) -> bool
    requires { Ready s mem.now }
    ensures { result ≡ each s.pages (waiting_lineage s (view_of s mem.now)) }
{
    let inverse = inverse_of(s.columns);
    each(s.pages, |p| waiting_lineage(mem, s, inverse, p))
}

// The facts of the waiting pages. Often none waits, which one look at the states tells.
fn waiting_hold(mem: &[u8], s: Sizes) -> bool
    requires { Ready s mem.now }
    ensures { result ≡ waiting_hold s (view_of s mem.now) }
{
    if between_in(mem, s, Region::PageState, 0, s.pages, 0, PAGE_CURRENT) {
        return true;
    }
    let last = read(mem, s, Region::Header, HEADER_STAMP);
    let made = read(mem, s, Region::Header, HEADER_MERGES);
    let stamps = all_waiting_at_most(mem, s, Region::PageNewest, last);
    let merges = all_waiting_at_most(mem, s, Region::PageReplaced, made);
    let lineages = waiting_lineages(mem, s);
    both(stamps, both(merges, lineages))
}

// The facts of the pages.
pub fn pages_hold(mem: &[u8], s: Sizes) -> bool
    requires { Ready s mem.now }
    ensures { result ≡ pages_hold s (view_of s mem.now) }
{
    let currents = currents_hold(mem, s);
    let waiting = waiting_hold(mem, s);
    both(currents, waiting)
}

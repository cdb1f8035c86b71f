// What merge and release write, over the lent bytes. Nothing here tests whether a call may be carried out: a call has done that before, and hands on what
// its tests have shown. Each contract cites the model's definition of the memory that is left.
#![tactic(auto)]

ghost use Rattle.std.specs.Prelude.{◌≡◌, cond, List, ◌+◌, ◌*◌, ◌≤◌, ◌<◌, ltb, get_or};
ghost use Rattle.layout.specs.Codes.{as_free};
ghost use Rattle.terms.specs.Measures.{most_scans};
ghost use Rattle.layout.specs.declared.Region.{Region};
ghost use Rattle.terms.specs.declared.ScanEntry.{ScanEntry};
ghost use Rattle.layout.specs.View.{put, view_of, Suffices};
ghost use Rattle.model.specs.Stored.{record_in, pages_of, count_below, first_from};
ghost use Rattle.model.specs.Writing.{applies, newest_of, stray_in, free_in, merged_in, releasable, released_in};
ghost use Rattle.scans.specs.Entries.{open_count};
ghost use Rattle.scans.specs.Table.{table_of};
ghost use Rattle.layout.specs.Sizes.{Proper};
ghost use Rattle.model.specs.Preconditions.{shape_in, Pooled};
ghost use Rattle.loops.specs.Search.{found_at};
ghost use Rattle.merging.specs.Steps.{applied_one, later_one, applied_all, page_put, page_replaced, MergeReady, least_of, freeable, freeables_freed};

use layout::codes::{COMMITTED, PAGE_CURRENT, PAGE_FREE, PAGE_WAITING, SETTING};
use layout::{HEADER_MERGES, Region, Sizes};
use loops::{both, select};
use regions::{copy_in, find_in, read, write};
use rows::has_bit;
use scans::Scans;
use terms::limits::{MOST_SCANS, RANGE_ROWS};
use terms::{Row, ScanEntry, Stamp, Tail};
use transactions::pending::next_word;
use words::HIGHEST_WORD;

// ---- merge

// Whether a page says that it is current and its chunk does not name it.
fn is_stray(mem: &[u8], s: Sizes, p: usize) -> bool
    requires suffices { Suffices s mem.now }
    requires proper { Proper s × (p < s.pages) }
    ensures { result ≡ stray_in (shape_in s) (view_of s mem.now) p }
{
    if read(mem, s, Region::PageState, p) != PAGE_CURRENT {
        return false;
    }
    let chunk = read(mem, s, Region::PageChunk, p) as usize;
    chunk >= s.chunks || read(mem, s, Region::Current, chunk) as usize != p
}

// The first stray page. No call leaves one, so that only a memory from elsewhere has any.
fn stray_page(mem: &[u8], s: Sizes) -> Option<usize>
    requires suffices { Suffices s mem.now }
    requires proper { Proper s }
    ensures { result ≡ found_at s.pages (first_from (stray_in (shape_in s) (view_of s mem.now)) s.pages 0) }
{
    (0..s.pages).find(|&p| is_stray(mem, s, p))
}

// The first page that says it is free, else the first stray one.
pub fn free_page(mem: &[u8], s: Sizes) -> Option<usize>
    requires suffices { Suffices s mem.now }
    requires proper { Proper s }
    ensures { result ≡ found_at s.pages (free_in (shape_in s) (view_of s mem.now)) }
{
    find_in(mem, s, Region::PageState, 0, s.pages, PAGE_FREE).or_else(|| stray_page(mem, s))
}

// Whether the record at a slot is a committed setting of column c.
fn is_applied(mem: &[u8], s: Sizes, slot: usize, c: u32) -> bool
    requires suffices { Suffices s mem.now }
    requires slot_lt_slots { (slot < s.slots) × (c < 32) }
    ensures { result ≡ applies c (record_in (view_of s mem.now) slot) }
{
    if !has_bit(read(mem, s, Region::TailMask, slot), c)
        || read(mem, s, Region::TailKind, slot) != SETTING
    {
        return false;
    }
    read(mem, s, Region::TailState, slot) == COMMITTED
}

// The later of two stamps.
fn later_stamp(a: Stamp, b: Stamp) -> Stamp
    ensures { result.0 ≡ cond (ltb a.0 b.0) b.0 a.0 }
{
    Stamp(a.0.max(b.0))
}

// The record at a slot goes into a page, if it is a committed setting of column c; the answer is the latest stamp with it.
fn apply_one(mem: &mut [u8], s: Sizes, slot: usize, c: usize, page: usize, newest: Stamp) -> Stamp
    requires suffices { Suffices s mem.old }
    requires proper { Proper s }
    requires slot_lt_slots { (slot < s.slots) × (c < s.columns) × (page < s.pages) }
    ensures { (result.0 ≡ later_one slot c (view_of s mem.old) newest.0) × (view_of s mem.new ≡ applied_one (shape_in s) slot c page (view_of s mem.old)) }
{
    if is_applied(mem, s, slot, c as u32) {
        let stamp = Stamp(read(mem, s, Region::TailStamp, slot));
        let row = Row(read(mem, s, Region::TailRow, slot));
        let w = read(mem, s, Region::TailValues, slot * s.columns + c);
        write(
            mem,
            s,
            Region::Cells,
            page * RANGE_ROWS + row.0 as usize % RANGE_ROWS,
            w,
        );
        return later_stamp(newest, stamp);
    }
    newest
}

// One forward pass over n records after `low` of range g.
fn apply(
    mem: &mut [u8],
    s: Sizes,
    g: usize,
    c: usize,
    page: usize,
    low: Tail,
    n: usize,
    newest: Stamp,
) -> Stamp
    requires suffices { Suffices s mem.old }
    requires proper { Proper s }
    requires g_lt_ranges { (g < s.ranges) × (c < s.columns) × (page < s.pages) × (low.0 + n ≤ s.capacity) }
    ensures { (result.0 ≡ newest_of (shape_in s) (view_of s mem.old) g c low.0 n newest.0) × (view_of s mem.new ≡ applied_all (shape_in s) g c page low.0 n (view_of s mem.old)) }
{
    let first = g * s.capacity + low.0 as usize;
    let mut latest = newest;
    for i in 0..n {
        latest = apply_one(mem, s, first + i, c, page, latest);
    }
    latest
}

// The words of a page that merge m makes current.
fn put_page(mem: &mut [u8], s: Sizes, page: usize, chunk: u32, m: u32, lineage: Tail, newest: Stamp)
    requires suffices { Suffices s mem.old }
    requires page_lt_pages { page < s.pages }
    ensures { view_of s mem.new ≡ page_put page chunk m lineage.0 newest.0 (view_of s mem.old) }
{
    write(mem, s, Region::PageState, page, PAGE_CURRENT);
    write(mem, s, Region::PageChunk, page, chunk);
    write(mem, s, Region::PageMade, page, m);
    write(mem, s, Region::PageLineage, page, lineage.0);
    write(mem, s, Region::PageNewest, page, newest.0);
}

// A page takes the place of page `old`, which waits from merge m on.
fn replace_page(mem: &mut [u8], s: Sizes, old: usize, page: u32, chunk: usize, m: u32)
    requires suffices { Suffices s mem.old }
    requires lt_pages { (old < s.pages) × (chunk < s.chunks) }
    ensures { view_of s mem.new ≡ page_replaced old page chunk m (view_of s mem.old) }
{
    write(mem, s, Region::PageState, old, PAGE_WAITING);
    write(mem, s, Region::PageReplaced, old, m);
    write(mem, s, Region::Current, chunk, page);
    write(mem, s, Region::Header, HEADER_MERGES, m);
}

// Column c of range g is merged through tail record n: a copy of its page, in a free page, takes the records after the page's lineage.
pub fn merge(mem: &mut [u8], s: Sizes, g: usize, c: usize, n: Tail, page: usize)
    requires suffices { Suffices s mem.old }
    requires proper { Proper s × Pooled s (view_of s mem.old) }
    requires merge_ready { MergeReady s (view_of s mem.old) g c n.0 page }
    ensures { view_of s mem.new ≡ merged_in (shape_in s) g c n.0 (view_of s mem.old) }
{
    let chunk = g * s.columns + c;
    let seen: &[u8] = mem;
    let old = read(seen, s, Region::Current, chunk) as usize;
    let low = Tail(read(seen, s, Region::PageLineage, old));
    let newest = Stamp(read(seen, s, Region::PageNewest, old));
    let m = next_word(read(seen, s, Region::Header, HEADER_MERGES));
    let cells = page * RANGE_ROWS;
    copy_in(mem, s, Region::Cells, old * RANGE_ROWS, RANGE_ROWS, cells);
    let latest = apply(mem, s, g, c, page, low, (n.0 - low.0) as usize, newest);
    put_page(mem, s, page, chunk as u32, m, n, latest);
    replace_page(mem, s, old, page as u32, chunk, m);
}

// ---- release

// The least of the first n counts of merges, or the highest word where there is none.
fn least(counts: [u32; MOST_SCANS], n: usize) -> u32
    requires { n ≤ most_scans }
    ensures { result ≡ least_of counts n }
{
    let mut least = HIGHEST_WORD;
    for count in &counts[..n] {
        least = least.min(*count);
    }
    least
}

// A page is freed if it waits and no scan needs it; the answer is the count with it. Each turn stores, so that there is no branch.
fn free_one(mem: &mut [u8], s: Sizes, least: u32, p: usize, n: u32) -> u32
    requires suffices { Suffices s mem.old }
    requires p_lt_pages { (p < s.pages) × (n < 4294967295) }
    ensures { (result ≡ cond (freeable least (view_of s mem.old) p) (n + 1) n) × (view_of s mem.new ≡ put Region.PageState p (cond (freeable least (view_of s mem.old) p) as_free (get_or (view_of s mem.old Region.PageState) p 0)) (view_of s mem.old)) }
{
    let state = read(mem, s, Region::PageState, p);
    let replaced = read(mem, s, Region::PageReplaced, p);
    let freed = both(state > PAGE_CURRENT, !(least < replaced));
    write(
        mem,
        s,
        Region::PageState,
        p,
        select(freed, PAGE_FREE, state),
    );
    select(freed, n + 1, n)
}

// Every waiting page that no scan needs is freed; the answer is how many.
fn free_pages(mem: &mut [u8], s: Sizes, least: u32) -> u32
    requires suffices { Suffices s mem.old }
    requires proper { Proper s }
    ensures { (result ≡ count_below (freeable least (view_of s mem.old)) s.pages) × (view_of s mem.new ≡ freeables_freed least s.pages (view_of s mem.old)) }
{
    let mut n = 0;
    for p in 0..s.pages {
        n = free_one(mem, s, least, p, n);
    }
    n
}

// Every waiting page is freed, unless a scan that is open was opened before the merge that replaced it; the answer is how many. `scans` is the table of the
// scan list.
pub fn release(mem: &mut [u8], s: Sizes, scans: Scans) -> u32
    requires suffices { Suffices s mem.old }
    requires proper { Proper s × (scans.count ≤ most_scans) }
    ensures { (ps : List ScanEntry) → scans ≡ table_of ps → open_count ps ≤ most_scans → (result ≡ count_below (releasable ps (view_of s mem.old)) (pages_of (shape_in s))) × (view_of s mem.new ≡ released_in (shape_in s) ps (view_of s mem.old)) }
{
    let fewest = least(scans.merges, scans.count);
    free_pages(mem, s, fewest)
}

// The test of the stored facts of the given rows and the used tail records: what a record names, the numbers, the stamps, the links. It carries its
// flags to the end, so that the loops over words vectorise.
#![tactic(auto, unfolding(facts::specs::Facts::rows_between, facts::specs::Facts::range_between, facts::specs::Facts::link_holds, facts::specs::Facts::row_linked, facts::specs::Facts::record_linked, facts::specs::Facts::range_linked, facts::specs::Tests::range_holds, facts::specs::Tests::rows_hold))]

ghost use Rattle.std.specs.Prelude.{◌≡◌, ◌+◌, ◌≤◌, ◌<◌, min};
ghost use Rattle.terms.specs.Measures.{most_rows, range_rows};
ghost use Rattle.layout.specs.Regions.{len, first_slot};
ghost use Rattle.layout.specs.Sizes.{Proper};
ghost use Rattle.layout.specs.View.{rows_given, used_in, view_of};
ghost use Rattle.facts.specs.Facts.{each, rows_between, range_between, range_names_rows, link_holds, row_linked, record_linked, range_linked};
ghost use Rattle.facts.specs.Tests.{Ready, range_holds, rows_hold};

use facts::flags::each;
use layout::{HEADER_ROWS, HEADER_STAMP, HEADER_TRANSACTIONS, Region, Sizes};
use loops::both;
use regions::{between_in, read};
use terms::limits::RANGE_ROWS;
use terms::{Row, Tail};

// ---- the records of a range

// Where the first tail record of a range lies.
fn first_slot(s: Sizes, g: usize) -> usize
    requires { Proper s × (g < s.ranges) }
    ensures { (result ≡ first_slot s.capacity g) × (result + s.capacity ≤ s.slots) }
{
    g * s.capacity
}

// Whether a word of each used record of range g is from low to high.
fn records_between(mem: &[u8], s: Sizes, k: Region, low: u32, high: u32, g: usize) -> bool
    requires ready { Ready s mem.now }
    requires g_lt_ranges { (g < s.ranges) × (len s k ≡ s.slots) }
    ensures { result ≡ range_between s (view_of s mem.now) k low high g }
{
    let n = read(mem, s, Region::Used, g) as usize;
    between_in(mem, s, k, first_slot(s, g), n, low, high)
}

// The last given row of a range whose first row is `first`, and is given.
fn last_row(first: u32, given: u32) -> u32
    requires { (first < given) × (first < most_rows) }
    ensures { result + 1 ≡ min given (first + range_rows) }
{
    given.min(first + RANGE_ROWS as u32) - 1
}

// Whether each used record of range g names a given row of the range: these rows are neighbours, so two bounds tell it.
fn records_named(mem: &[u8], s: Sizes, g: usize) -> bool
    requires ready { Ready s mem.now }
    requires g_lt_ranges { g < s.ranges }
    ensures { result ≡ range_names_rows s (view_of s mem.now) g }
{
    let given = read(mem, s, Region::Header, HEADER_ROWS);
    let first = (g * RANGE_ROWS) as u32;
    if given <= first {
        read(mem, s, Region::Used, g) == 0
    } else {
        records_between(mem, s, Region::TailRow, first, last_row(first, given), g)
    }
}

// Whether a link of a row, in range g, is 0 or a record of that row up to number `most`. A record is looked up only where its number is not above that.
fn link_holds(mem: &[u8], s: Sizes, g: usize, most: Tail, row: Row, link: Tail) -> bool
    requires ready { Ready s mem.now }
    requires g_lt_ranges { (g < s.ranges) × (most.0 ≤ s.capacity) }
    ensures { result ≡ link_holds s (view_of s mem.now) g most.0 row.0 link.0 }
{
    let number = link.0;
    let first = first_slot(s, g);
    number == 0
        || number <= most.0 && read(mem, s, Region::TailRow, first + (number as usize - 1)) == row.0
}

fn record_linked(mem: &[u8], s: Sizes, g: usize, i: usize) -> bool
    requires ready { Ready s mem.now }
    requires g_lt_ranges { (g < s.ranges) × (i < used_in (view_of s mem.now) g) }
    ensures { result ≡ record_linked s (view_of s mem.now) g i }
{
    let slot = first_slot(s, g) + i;
    let row = Row(read(mem, s, Region::TailRow, slot));
    let link = Tail(read(mem, s, Region::TailLink, slot));
    link_holds(mem, s, g, Tail(i as u32), row, link)
}

// Whether the link of each used record of range g holds.
fn records_linked(mem: &[u8], s: Sizes, g: usize) -> bool
    requires ready { Ready s mem.now }
    requires g_lt_ranges { g < s.ranges }
    ensures { result ≡ range_linked s (view_of s mem.now) g }
{
    let n = read(mem, s, Region::Used, g) as usize;
    each(n, |i| record_linked(mem, s, g, i))
}

// The facts of the used records of range g.
fn range_holds(mem: &[u8], s: Sizes, g: usize) -> bool
    requires ready { Ready s mem.now }
    requires g_lt_ranges { g < s.ranges }
    ensures { result ≡ range_holds s (view_of s mem.now) g }
{
    let given = read(mem, s, Region::Header, HEADER_TRANSACTIONS);
    let last = read(mem, s, Region::Header, HEADER_STAMP);
    let named = records_named(mem, s, g);
    let numbers = records_between(mem, s, Region::TailTransaction, 1, given, g);
    let links = records_linked(mem, s, g);
    let stamps = records_between(mem, s, Region::TailStamp, 0, last, g);
    both(named, both(numbers, both(links, stamps)))
}

// The facts of the used records, range by range.
pub fn ranges_hold(mem: &[u8], s: Sizes) -> bool
    requires { Ready s mem.now }
    ensures { result ≡ each s.ranges (range_holds s (view_of s mem.now)) }
{
    each(s.ranges, |g| range_holds(mem, s, g))
}

// ---- the rows

// Whether a word of each given row is from low to high.
fn rows_between(mem: &[u8], s: Sizes, k: Region, low: u32, high: u32) -> bool
    requires ready { Ready s mem.now }
    requires k_value { len s k ≡ s.rows }
    ensures { result ≡ rows_between (view_of s mem.now) k low high }
{
    let given = read(mem, s, Region::Header, HEADER_ROWS) as usize;
    between_in(mem, s, k, 0, given, low, high)
}

fn row_linked(mem: &[u8], s: Sizes, r: usize) -> bool
    requires ready { Ready s mem.now }
    requires r_bound { r < rows_given (view_of s mem.now) }
    ensures { result ≡ row_linked s (view_of s mem.now) r }
{
    let g = r / RANGE_ROWS;
    let most = Tail(read(mem, s, Region::Used, g));
    let link = Tail(read(mem, s, Region::RowLink, r));
    link_holds(mem, s, g, most, Row(r as u32), link)
}

// Whether the link of each given row holds.
fn rows_linked(mem: &[u8], s: Sizes) -> bool
    requires { Ready s mem.now }
    ensures { result ≡ each (rows_given (view_of s mem.now)) (row_linked s (view_of s mem.now)) }
{
    let n = read(mem, s, Region::Header, HEADER_ROWS) as usize;
    each(n, |r| row_linked(mem, s, r))
}

// The facts of the given rows.
pub fn rows_hold(mem: &[u8], s: Sizes) -> bool
    requires { Ready s mem.now }
    ensures { result ≡ rows_hold s (view_of s mem.now) }
{
    let given = read(mem, s, Region::Header, HEADER_TRANSACTIONS);
    let last = read(mem, s, Region::Header, HEADER_STAMP);
    let numbers = rows_between(mem, s, Region::RowTransaction, 1, given);
    let links = rows_linked(mem, s);
    let stamps = rows_between(mem, s, Region::RowStamp, 0, last);
    both(numbers, both(links, stamps))
}

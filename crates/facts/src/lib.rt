// The code that tests the stored facts, part by part: here the counts, and the open transactions and scans; the rows and tail records in crate records, the
// pages in crate pages. The facts themselves are specs/Facts.antt. The tests over words carry their flags to the end, so that they vectorise.
#![tactic(auto)]

pub mod flags;

ghost use Rattle.std.specs.Prelude.{◌≡◌, ◌&&◌, not, List, ◌≤◌, length};
ghost use Rattle.terms.specs.declared.ScanEntry.{ScanEntry};
ghost use Rattle.terms.specs.Measures.{most_scans};
ghost use Rattle.layout.specs.Sizes.{Proper};
ghost use Rattle.layout.specs.declared.Region.TheVariants.{Opens};
ghost use Rattle.layout.specs.View.{view_of, Suffices};
ghost use Rattle.scans.specs.Entries.{open_count};
ghost use Rattle.scans.specs.Table.{table_of};
ghost use Rattle.facts.specs.Facts.{stored_within};
ghost use Rattle.facts.specs.Tests.{opens_hold, scan_counts_hold, scans_hold};

use layout::{
    HEADER_COMMITS, HEADER_MERGES, HEADER_ROWS, HEADER_SCANS, HEADER_STAMP, HEADER_TRANSACTIONS,
    Region, Sizes,
};
use loops::both;
use regions::{between_in, read};
use scans::{Scans, all_differ, at_most};
use terms::limits::{MOST_NUMBERS, MOST_SCANS, MOST_TRANSACTIONS};

// ---- the counts

// Whether the counts of the memory are within the measures, and no more scans are open than may be.
pub fn counts_within(mem: &[u8], s: Sizes, t: Scans) -> bool
    requires { (Suffices s mem.now) × Proper s }
    ensures { result ≡ (stored_within s (view_of s mem.now) && not t.more) }
{
    let rows = read(mem, s, Region::Header, HEADER_ROWS) as usize <= s.rows;
    let used = between_in(mem, s, Region::Used, 0, s.ranges, 0, s.capacity as u32);
    let transactions = read(mem, s, Region::Header, HEADER_TRANSACTIONS) <= MOST_NUMBERS;
    let scans = read(mem, s, Region::Header, HEADER_SCANS) <= MOST_NUMBERS;
    both(both(rows, both(used, both(transactions, scans))), !t.more)
}

// ---- the open transactions and scans

// The numbers of the open transactions.
fn opens_of(mem: &[u8], s: Sizes) -> [u32; MOST_TRANSACTIONS]
    requires { Suffices s mem.now }
    ensures { result ≡ view_of s mem.now Opens }
{
    let mut opens = [0; MOST_TRANSACTIONS];
    for i in 0..MOST_TRANSACTIONS {
        opens[i] = read(mem, s, Region::Opens, i);
    }
    opens
}

// The facts of the open transactions.
pub fn opens_hold(mem: &[u8], s: Sizes) -> bool
    requires { Suffices s mem.now }
    ensures { result ≡ opens_hold (view_of s mem.now) }
{
    let given = read(mem, s, Region::Header, HEADER_TRANSACTIONS);
    let numbers = between_in(mem, s, Region::Opens, 0, MOST_TRANSACTIONS, 0, given);
    let opens = opens_of(mem, s);
    both(numbers, all_differ(&opens, MOST_TRANSACTIONS))
}

// How many entries of a table may be looked at.
fn entries_used(t: Scans) -> usize
    ensures { (result ≤ length t.numbers) × (t.count ≤ most_scans → result ≡ t.count) }
{
    t.count.min(MOST_SCANS)
}

// The counts of the open scans: the merges and the commits made before each.
fn scan_counts_hold(mem: &[u8], s: Sizes, t: Scans) -> bool
    requires { Suffices s mem.now }
    ensures { (ps : List ScanEntry) → t ≡ table_of ps → open_count ps ≤ most_scans → result ≡ scan_counts_hold (view_of s mem.now) ps }
{
    let merge = at_most(t.merges, read(mem, s, Region::Header, HEADER_MERGES));
    let commit = at_most(t.commits, read(mem, s, Region::Header, HEADER_COMMITS));
    both(merge, commit)
}

// The facts of the open scans.
pub fn scans_hold(mem: &[u8], s: Sizes, t: Scans) -> bool
    requires { Suffices s mem.now }
    ensures { (ps : List ScanEntry) → t ≡ table_of ps → open_count ps ≤ most_scans → result ≡ scans_hold (view_of s mem.now) ps }
{
    let given = read(mem, s, Region::Header, HEADER_SCANS);
    let last = read(mem, s, Region::Header, HEADER_STAMP);
    let number = at_most(t.numbers, given);
    let stamp = at_most(t.stamps, last);
    let counts = scan_counts_hold(mem, s, t);
    let differ = all_differ(&t.numbers, entries_used(t));
    both(number, both(stamp, both(counts, differ)))
}

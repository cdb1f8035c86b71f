// The lent list of open scans as a table: how long it is, its open scans with their indices in it, and its first free entry. At most MOST_SCANS are open
// in a usable store, so a table of so many holds all that a call asks of a list of any length. Definitions and laws speak of the list of entries. A table is made
// entry by entry, by `add_open`, for a list lent as records (crates/lent) and for one in bytes (crates/requests/src/packed.rt).
#![tactic(auto)]

ghost use Rattle.std.specs.Prelude.{◌≡◌, ◌||◌, not, cond, true, ℕ, List, [], ◌+◌, ◌<◌, ◌≤◌, eqb, length, get_or, take, drop};
ghost use Rattle.terms.specs.Entries.{free_entry};
ghost use Rattle.terms.specs.declared.ScanEntry.{ScanEntry};
ghost use Rattle.loops.specs.Search.{all_between};
ghost use Rattle.scans.specs.Entries.{is_open, among, differ};
ghost use Rattle.scans.specs.Table.{table_of, with_entry, of_length, find_in};

use terms::ScanEntry;
use terms::limits::MOST_SCANS;

// What a call wants to know of the list. Entries at and past `count` are 0.
#[derive(Clone, Copy)]
pub struct Scans {
    // how many entries were lent
    pub length: usize,
    // the open scans among them, at most MOST_SCANS: how many, and of each its number, stamp, merges and commits and its index in the list
    pub count: usize,
    pub numbers: [u32; MOST_SCANS],
    pub stamps: [u32; MOST_SCANS],
    pub merges: [u32; MOST_SCANS],
    pub commits: [u32; MOST_SCANS],
    pub indices: [usize; MOST_SCANS],
    // the first free entry, or the length where there is none
    pub free: usize,
    // whether more than MOST_SCANS are open
    pub more: bool,
}

// The first free entry of a list that has grown by an open one.
fn free_after(free: usize, length: usize) -> usize
    requires { length < 4611686018427387904 }
    ensures { result ≡ cond (eqb free length) (length + 1) free }
{
    if free == length { length + 1 } else { free }
}

// The table of no entry.
#[tactic(auto, unfolding(crate::specs::Table::table_of))]
pub fn blank() -> Scans
    ensures { result ≡ table_of [] }
{
    Scans {
        length: 0,
        count: 0,
        numbers: [0; MOST_SCANS],
        stamps: [0; MOST_SCANS],
        merges: [0; MOST_SCANS],
        commits: [0; MOST_SCANS],
        indices: [0; MOST_SCANS],
        free: 0,
        more: false,
    }
}

pub fn is_open(p: ScanEntry) -> bool
    ensures { result ≡ is_open p }
{
    p.number != 0
}

// The table of the first i entries, with entry i, an open one. What t has as its length is not looked at: free entries are passed over without it.
// The loop looks for the one index to write, n, so that each store has an index that the compiler knows: the compiled code then jumps by n to the five stores of an open scan. A store at n
// itself makes it copy the whole table for each.
#[tactic(auto, unfolding(crate::specs::Table::with_entry))]
pub fn add_open(t: Scans, i: usize, p: ScanEntry) -> Scans
    requires { (i < 4611686018427387904) × (is_open p ≡ true) }
    ensures { result ≡ with_entry (of_length i t) p }
{
    let n = t.count;
    let free = free_after(t.free, i);
    if n >= MOST_SCANS {
        return Scans {
            length: i + 1,
            free,
            more: true,
            ..t
        };
    }
    let mut u = Scans {
        length: i + 1,
        count: n + 1,
        free,
        ..t
    };
    for k in 0..MOST_SCANS {
        if k == n {
            u.numbers[k] = p.number;
            u.stamps[k] = p.stamp;
            u.merges[k] = p.merges;
            u.commits[k] = p.commits;
            u.indices[k] = i;
        }
    }
    u
}

pub fn set_length(t: Scans, n: usize) -> Scans
    ensures { result ≡ of_length n t }
{
    Scans { length: n, ..t }
}

// The table of each list of n entries that answers as the closure does.
pub fn table_from<F: Fn(usize) -> ScanEntry>(n: usize, entry_at: F) -> Scans
    requires few { n ≤ 4611686018427387904 }
    requires callable { (i : ℕ) → i < n → F.pre entry_at i }
    ensures { (l : List ScanEntry) → length l ≡ n → ((i : ℕ) (p : ScanEntry) → i < n → F.post entry_at i p → p ≡ get_or l i free_entry) → result ≡ table_of l }
{
    let mut t = blank();
    for i in 0..n {
        let p = entry_at(i);
        if is_open(p) {
            t = add_open(t, i, p);
        }
    }
    set_length(t, n)
}

// The index in the table, not in the list, of the open scan that bears a number.
#[tactic(auto, using(crate::proofs::Entries::left_next), unfolding(crate::specs::Table::find_in))]
pub fn find_scan(t: Scans, number: u32) -> Option<usize>
    ensures { result ≡ find_in t number }
{
    if number == 0 {
        return None;
    }
    for i in 0..MOST_SCANS {
        if t.numbers[i] == number {
            return Some(i);
        }
    }
    None
}

// Whether each number of a column of the table is at most a bound. Unused ones are 0, so all are looked at, and one flag is carried to the end: so no branch stands between two tests.
#[tactic(auto, using(crate::proofs::Entries::left_next))]
pub fn at_most(numbers: [u32; MOST_SCANS], bound: u32) -> bool
    ensures { result ≡ all_between 0 bound numbers }
{
    let mut ok = true;
    for n in &numbers {
        ok &= *n <= bound;
    }
    ok
}

// Whether number i is 0 or is none of those after it among the first n.
#[tactic(auto, using(crate::proofs::Entries::apart_not, crate::proofs::Entries::first_next))]
fn differs(numbers: &[u32], n: usize, i: usize) -> bool
    requires { (i < n) × (n ≤ length numbers.now) }
    ensures { result ≡ (eqb (get_or (take n numbers.now) i 0) 0 || not (among (get_or (take n numbers.now) i 0) (drop (i + 1) (take n numbers.now)))) }
{
    let x = numbers[i];
    if x == 0 {
        return true;
    }
    for j in i + 1..n {
        if numbers[j] == x {
            return false;
        }
    }
    true
}

// Whether those of the first n numbers that are not 0 differ from each other.
#[tactic(auto, using(crate::proofs::Entries::left_next))]
pub fn all_differ(numbers: &[u32], n: usize) -> bool
    requires { n ≤ length numbers.now }
    ensures { result ≡ differ (take n numbers.now) }
{
    for i in 0..n {
        if !differs(numbers, n, i) {
            return false;
        }
    }
    true
}

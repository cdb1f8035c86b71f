// Open transactions: what begin, commit and abort write over the lent bytes, and the note of a change; pending.rt has the record of an open transaction.
// Nothing here tests whether a call may be carried out: a call has done that before, and hands on what its tests have shown. Each contract cites the
// model's definition of the memory that is left.
#![tactic(auto)]

pub mod pending;

ghost use Rattle.std.specs.Prelude.{◌≡◌, ℕ, ◌+◌, ◌*◌, ◌≤◌, ◌<◌, T, eqb};
ghost use Rattle.terms.specs.Measures.{most_transactions, most_numbers};
ghost use Rattle.loops.specs.Search.{found_at};
ghost use Rattle.layout.specs.declared.Region.{Region};
ghost use Rattle.layout.specs.Regions.{index, len};
ghost use Rattle.layout.specs.View.{transactions_given, used_in, view_of, Suffices};
ghost use Rattle.terms.specs.Entries.{first_index};
ghost use Rattle.model.specs.Writing.{begun, mark_all, settled, committed_in, aborted_in, freed};
ghost use Rattle.layout.specs.Sizes.{Proper};
ghost use Rattle.model.specs.Preconditions.{shape_in, Counted, FreeAt, OpenAt};
ghost use Rattle.transactions.specs.Steps.{noted_at, markable, tail_marked, tails_marked, commit_at};

use layout::codes::{ABORTED, COMMITTED};
use layout::{HEADER_COMMITS, HEADER_ROWS, HEADER_STAMP, HEADER_TRANSACTIONS, Region, Sizes};
use pending::{Pending, free_record, next_word, pending_at, put_pending};
use regions::{find_in, mark_in, read, write};
use terms::limits::MOST_TRANSACTIONS;
use terms::{Stamp, Transaction};

// The first free entry for an open transaction.
pub fn free_index(mem: &[u8], s: Sizes) -> Option<usize>
    requires { Suffices s mem.now }
    ensures { result ≡ found_at most_transactions (first_index (λ k. eqb k 0) (view_of s mem.now Region.Opens)) }
{
    find_in(mem, s, Region::Opens, 0, MOST_TRANSACTIONS, 0)
}

// A new transaction of a keeper takes a free entry, and gets the next number.
pub fn begin(mem: &mut [u8], s: Sizes, free: usize, keeper: u32) -> Transaction
    requires suffices { Suffices s mem.old }
    requires free_at { FreeAt (view_of s mem.old) free }
    requires mem_bound { transactions_given (view_of s mem.old) < most_numbers }
    ensures { (result.0 ≡ transactions_given (view_of s mem.old) + 1) × (view_of s mem.new ≡ begun keeper (view_of s mem.old)) }
{
    let t = Transaction(read(mem, s, Region::Header, HEADER_TRANSACTIONS) + 1);
    put_pending(mem, s, free, Pending::begin(t, keeper));
    write(mem, s, Region::Header, HEADER_TRANSACTIONS, t.0);
    t
}

// The open transaction at an index notes a change.
pub fn note(mem: &mut [u8], s: Sizes, at: usize)
    requires suffices { Suffices s mem.old }
    requires at_lt_most_transactions { at < most_transactions }
    ensures { view_of s mem.new ≡ noted_at at (view_of s mem.old) }
{
    let p = pending_at(mem, s, at).note();
    write(mem, s, Region::Changes, at, p.changes);
}

// w in region k for the used records of range g that bear transaction t. A range that has none is passed over.
fn mark_tail(mem: &mut [u8], s: Sizes, t: Transaction, k: Region, w: u32, g: usize)
    requires suffices { Suffices s mem.old }
    requires proper { Proper s }
    requires g_lt_ranges { (g < s.ranges) × (used_in (view_of s mem.old) g ≤ s.capacity) }
    requires k_value { (len s k ≡ s.slots) × (index Region.TailTransaction ≡ index k → ⊥) }
    ensures { view_of s mem.new ≡ tail_marked (shape_in s) t.0 k w g (view_of s mem.old) }
{
    let used = read(mem, s, Region::Used, g) as usize;
    if used == 0 {
        return;
    }
    let first = g * s.capacity;
    mark_in(mem, s, Region::TailTransaction, t.0, k, first, used, w);
}

// The same for every range.
fn mark_tails(mem: &mut [u8], s: Sizes, t: Transaction, k: Region, w: u32)
    requires suffices { Suffices s mem.old }
    requires proper { Proper s }
    requires counted { Counted s (view_of s mem.old) }
    requires k_value { (len s k ≡ s.slots) × (index Region.TailTransaction ≡ index k → ⊥) × (index k ≡ index Region.Used → ⊥) }
    ensures { view_of s mem.new ≡ tails_marked (shape_in s) t.0 k w (view_of s mem.old) }
{
    for g in 0..s.ranges {
        mark_tail(mem, s, t, k, w, g);
    }
}

// w for every given row and used record that bears transaction t: in one region for the rows, in another for the records.
fn mark_all(mem: &mut [u8], s: Sizes, t: Transaction, rows: Region, tails: Region, w: u32)
    requires suffices { Suffices s mem.old }
    requires proper { Proper s }
    requires counted { Counted s (view_of s mem.old) }
    requires rows_value { (len s rows ≡ s.rows) × (len s tails ≡ s.slots) × T (markable rows) × T (markable tails) × (index rows ≡ index tails → ⊥) }
    ensures { view_of s mem.new ≡ mark_all (shape_in s) t.0 rows tails w (view_of s mem.old) }
{
    let given = read(mem, s, Region::Header, HEADER_ROWS) as usize;
    mark_in(mem, s, Region::RowTransaction, t.0, rows, 0, given, w);
    mark_tails(mem, s, t, tails, w);
}

// Every given row and used record of a transaction gets a state, and the stamp and the ordinal of its commit.
fn settle(mem: &mut [u8], s: Sizes, t: Transaction, state: u32, stamp: Stamp, ordinal: u32)
    requires suffices { Suffices s mem.old }
    requires proper { Proper s }
    requires counted { Counted s (view_of s mem.old) }
    ensures { view_of s mem.new ≡ settled (shape_in s) t.0 state (commit_at stamp.0 ordinal) (view_of s mem.old) }
{
    mark_all(mem, s, t, Region::RowState, Region::TailState, state);
    mark_all(mem, s, t, Region::RowStamp, Region::TailStamp, stamp.0);
    mark_all(mem, s, t, Region::RowOrdinal, Region::TailOrdinal, ordinal);
}

// The open transaction at an index is handed back: what it has written gets a state, a stamp and an ordinal, and its entry is free.
fn end_open(mem: &mut [u8], s: Sizes, at: usize, state: u32, stamp: Stamp, ordinal: u32)
    requires suffices { Suffices s mem.old }
    requires proper { Proper s }
    requires counted { Counted s (view_of s mem.old) × (at < most_transactions) }
    ensures { (t : ℕ) → OpenAt (view_of s mem.old) t at → view_of s mem.new ≡ freed t (settled (shape_in s) t state (commit_at stamp.0 ordinal) (view_of s mem.old)) }
{
    let t = pending_at(mem, s, at).hand_back();
    settle(mem, s, t, state, stamp, ordinal);
    put_pending(mem, s, at, free_record());
}

// The open transaction at an index ends, and what it has written is committed at a stamp.
pub fn commit(mem: &mut [u8], s: Sizes, at: usize, stamp: Stamp)
    requires suffices { Suffices s mem.old }
    requires proper { Proper s }
    requires counted { Counted s (view_of s mem.old) × (at < most_transactions) }
    ensures { (t : ℕ) → OpenAt (view_of s mem.old) t at → view_of s mem.new ≡ committed_in (shape_in s) t stamp.0 (view_of s mem.old) }
{
    let ordinal = next_word(read(mem, s, Region::Header, HEADER_COMMITS));
    end_open(mem, s, at, COMMITTED, stamp, ordinal);
    write(mem, s, Region::Header, HEADER_STAMP, stamp.0);
    write(mem, s, Region::Header, HEADER_COMMITS, ordinal);
}

// The open transaction at an index ends, and what it has written is aborted.
pub fn abort(mem: &mut [u8], s: Sizes, at: usize)
    requires suffices { Suffices s mem.old }
    requires proper { Proper s }
    requires counted { Counted s (view_of s mem.old) × (at < most_transactions) }
    ensures { (t : ℕ) → OpenAt (view_of s mem.old) t at → view_of s mem.new ≡ aborted_in (shape_in s) t (view_of s mem.old) }
{
    end_open(mem, s, at, ABORTED, Stamp(0), 0);
}

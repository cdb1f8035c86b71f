// The conditions of section 3 of docs/SPECIFICATION.md of the mask, and those that look into open transactions, rows and tail records (3, 8, 9, 10, 12, 17); and whose own changes a read
// adds. Each answers by the model's definition of the same meaning.
#![tactic(auto)]

ghost use Rattle.std.specs.Prelude.{◌≡◌, ◌&&◌, ◌||◌, ℕ, Bool, ◌+◌, ◌*◌, ◌^◌, ◌≤◌, ◌<◌, eqb, leb, ltb, get_or};
ghost use Rattle.terms.specs.Measures.{most_columns, most_slots, most_transactions};
ghost use Rattle.layout.specs.declared.Region.{Region};
ghost use Rattle.layout.specs.View.{rows_given, used_in, view_of, Suffices};
ghost use Rattle.model.specs.Stored.{delete_kind, open_index, any_below};
ghost use Rattle.model.specs.Reading.{own_changes};
ghost use Rattle.model.specs.Calls.{open_in, open_other, stands_for, held_in, gone_in, open_among_in};
ghost use Rattle.layout.specs.Sizes.{Proper};
ghost use Rattle.model.specs.Preconditions.{shape_in, Linked};
ghost use Rattle.rows.specs.Finders.{Inside};
ghost use Rattle.conditions.specs.Opens.{open_at};
ghost use Rattle.conditions.specs.Records.{is_other, holds_at, deletes_at, ends_at};

use layout::codes::{COMMITTED, SETTING};
use layout::{Region, Sizes};
use loops::{both, either};
use regions::{find_in, read};
use rows::range_of;
use terms::limits::MOST_TRANSACTIONS;
use terms::{Row, Tail, Transaction};
use transactions::pending::pending_at;

// From so many records on a loop that vectorises is quicker than one with an early exit.
const MANY: usize = 8;

// Whether one of the numbers below n passes, by each test p that tells what the closure answers. One flag is carried to the end: a loop with an early exit does
// not vectorise.
#[tactic(auto, unfolding(model::specs::Stored::any_below))]
pub fn any_below<F: Fn(usize) -> bool>(n: usize, passes: F) -> bool
    requires { (i : ℕ) → i < n → F.pre passes i }
    ensures { (p : ℕ → Bool) → ((i : ℕ) (b : Bool) → i < n → F.post passes i b → b ≡ p i) → result ≡ any_below p n }
{
    let mut flag = false;
    for i in 0..n {
        flag = either(flag, passes(i));
    }
    flag
}

// The same, ended by the first that passes: for a test that costs more than a turn.
#[tactic(auto, unfolding(model::specs::Stored::any_below))]
fn found_below<F: Fn(usize) -> bool>(n: usize, passes: F) -> bool
    requires { (i : ℕ) → i < n → F.pre passes i }
    ensures { (p : ℕ → Bool) → ((i : ℕ) (b : Bool) → i < n → F.post passes i b → b ≡ p i) → result ≡ any_below p n }
{
    for i in 0..n {
        if passes(i) {
            return true;
        }
    }
    false
}

// The index of an open transaction. Number 0 marks a free entry, so that it is never found.
#[tactic(auto, using(crate::proofs::Opens::open_none, crate::proofs::Opens::open_found))]
pub fn open_index(mem: &[u8], s: Sizes, t: Transaction) -> Option<usize>
    requires { Suffices s mem.now }
    ensures value { result ≡ open_at (view_of s mem.now) t.0 }
    ensures inside { Inside result most_transactions }
{
    let number = t.0;
    if number == 0 {
        return None;
    }
    find_in(mem, s, Region::Opens, 0, MOST_TRANSACTIONS, number)
}

// Whose own changes an own read of the transaction open at `index` adds: its record tells. With nothing noted there are none, and it is the latest read.
#[tactic(auto, using(transactions::proofs::Number::number_there), unfolding(model::specs::Reading::own_changes))]
pub fn own_changes(mem: &[u8], s: Sizes, index: usize) -> Transaction
    requires suffices { Suffices s mem.now }
    requires index_lt_most_transactions { index < most_transactions }
    ensures { (t : ℕ) → index ≡ open_index (view_of s mem.now) t → result.0 ≡ own_changes (view_of s mem.now) t }
{
    pending_at(mem, s, index).owner()
}

// Whether transaction k is open and not t.
#[tactic(auto, unfolding(crate::specs::Opens::open_at, model::specs::Calls::not_open_in, model::specs::Calls::open_other))]
fn open_other(mem: &[u8], s: Sizes, t: Transaction, k: Transaction) -> bool
    requires { Suffices s mem.now }
    ensures { result ≡ open_other (view_of s mem.now) t.0 k.0 }
{
    k.0 != t.0 && open_index(mem, s, k).is_some()
}

// Whether a word of the list of open numbers is another's than t's. Number 0 marks a free entry.
fn is_other(t: Transaction, k: Transaction) -> bool
    ensures { result ≡ is_other t.0 k.0 }
{
    k.0 != 0 && k.0 != t.0
}

// Whether a transaction other than t is open.
fn others_open(mem: &[u8], s: Sizes, t: Transaction) -> bool
    requires { Suffices s mem.now }
    ensures { result ≡ any_below (λ j. is_other t.0 (get_or (view_of s mem.now Region.Opens) j 0)) most_transactions }
{
    found_below(MOST_TRANSACTIONS, |j| {
        is_other(t, Transaction(read(mem, s, Region::Opens, j)))
    })
}

// Whether the record at a slot is of the row and of an open transaction other than t.
fn holds(mem: &[u8], s: Sizes, t: Transaction, row: Row, slot: usize) -> bool
    requires suffices { Suffices s mem.now }
    requires slot_lt_slots { slot < s.slots }
    ensures { result ≡ holds_at (view_of s mem.now) t.0 row.0 slot }
{
    if read(mem, s, Region::TailRow, slot) != row.0 {
        return false;
    }
    let setter = Transaction(read(mem, s, Region::TailTransaction, slot));
    open_other(mem, s, t, setter)
}

// Whether another open transaction than t made one of n records from slot `at` on that name the row. Most often no other is open; else each record is asked
// for its row first, and few are the row's.
fn records_held(mem: &[u8], s: Sizes, t: Transaction, row: Row, at: usize, n: usize) -> bool
    requires suffices { Suffices s mem.now }
    requires n_bound { (at + n ≤ s.slots) × (s.slots ≤ most_slots) }
    ensures { result ≡ any_below (λ i. holds_at (view_of s mem.now) t.0 row.0 (at + i)) n }
{
    others_open(mem, s, t) && found_below(n, |i| holds(mem, s, t, row, at + i))
}

// Whether another open transaction than t inserted, updated or deleted the row.
#[tactic(auto, using(rows::proofs::Indices::row_range, crate::proofs::Records::stretch_used), unfolding(model::specs::Calls::held_in, model::specs::Stored::row_in, model::specs::Stored::record_in))]
pub fn held(mem: &[u8], s: Sizes, t: Transaction, row: Row) -> bool
    requires suffices { Suffices s mem.now }
    requires proper { Proper s }
    requires linked { Linked s (view_of s mem.now) }
    requires row_bound { row.0 < rows_given (view_of s mem.now) }
    ensures { result ≡ held_in (shape_in s) (view_of s mem.now) t.0 row.0 }
{
    let inserter = Transaction(read(mem, s, Region::RowTransaction, row.0 as usize));
    if open_other(mem, s, t, inserter) {
        return true;
    }
    let g = range_of(row);
    let n = read(mem, s, Region::Used, g) as usize;
    records_held(mem, s, t, row, g * s.capacity, n)
}

// Whether what a transaction made, with this state, stands for t: it is t's own or committed.
fn stands_for(t: Transaction, maker: Transaction, state: u32) -> bool
    ensures { result ≡ stands_for t.0 maker.0 state }
{
    either(maker.0 == t.0, state == COMMITTED)
}

// Whether a record of row `named` and this kind is a delete of row `row`.
fn is_delete(named: Row, row: Row, kind: u32) -> bool
    ensures { result ≡ (eqb named.0 row.0 && delete_kind kind) }
{
    both(named.0 == row.0, kind > SETTING)
}

// Whether one of n records from slot `at` on is a delete of the row, whoever made it.
fn any_delete(mem: &[u8], s: Sizes, row: Row, at: usize, n: usize) -> bool
    requires suffices { Suffices s mem.now }
    requires n_bound { (at + n ≤ s.slots) × (s.slots ≤ most_slots) }
    ensures { result ≡ any_below (λ i. deletes_at (view_of s mem.now) row.0 (at + i)) n }
{
    any_below(n, |i| {
        let named = Row(read(mem, s, Region::TailRow, at + i));
        let kind = read(mem, s, Region::TailKind, at + i);
        is_delete(named, row, kind)
    })
}

// Whether the record at a slot ends the row in t's view.
fn ends(mem: &[u8], s: Sizes, t: Transaction, row: Row, slot: usize) -> bool
    requires suffices { Suffices s mem.now }
    requires slot_lt_slots { slot < s.slots }
    ensures { result ≡ ends_at (view_of s mem.now) t.0 row.0 slot }
{
    let named = Row(read(mem, s, Region::TailRow, slot));
    let kind = read(mem, s, Region::TailKind, slot);
    if !is_delete(named, row, kind) {
        return false;
    }
    let maker = Transaction(read(mem, s, Region::TailTransaction, slot));
    let state = read(mem, s, Region::TailState, slot);
    stands_for(t, maker, state)
}

// Whether one of n records from slot `at` on ends the row in t's view. Most often none is a delete of the row at all, which a look through many records tells
// sooner than asking them one by one.
fn ended(mem: &[u8], s: Sizes, t: Transaction, row: Row, at: usize, n: usize) -> bool
    requires suffices { Suffices s mem.now }
    requires n_bound { (at + n ≤ s.slots) × (s.slots ≤ most_slots) }
    ensures { result ≡ any_below (λ i. ends_at (view_of s mem.now) t.0 row.0 (at + i)) n }
{
    if n >= MANY && !any_delete(mem, s, row, at, n) {
        return false;
    }
    found_below(n, |i| ends(mem, s, t, row, at + i))
}

// Whether the row is deleted or its insert aborted, in t's own view, for a row that is not held.
#[tactic(auto, using(rows::proofs::Indices::row_range, crate::proofs::Records::stretch_used), unfolding(model::specs::Calls::gone_in, model::specs::Stored::row_in, model::specs::Stored::record_in))]
pub fn gone(mem: &[u8], s: Sizes, t: Transaction, row: Row) -> bool
    requires suffices { Suffices s mem.now }
    requires proper { Proper s }
    requires linked { Linked s (view_of s mem.now) }
    requires row_bound { row.0 < rows_given (view_of s mem.now) }
    ensures { result ≡ gone_in (shape_in s) (view_of s mem.now) t.0 row.0 }
{
    let i = row.0 as usize;
    let inserter = Transaction(read(mem, s, Region::RowTransaction, i));
    let state = read(mem, s, Region::RowState, i);
    if !stands_for(t, inserter, state) {
        return true;
    }
    let g = range_of(row);
    let n = read(mem, s, Region::Used, g) as usize;
    ended(mem, s, t, row, g * s.capacity, n)
}

// Whether a mask has no bit, or one at or above the column count.
#[tactic(auto, using(crate::proofs::Masks::high_bits))]
pub fn bad_mask(columns: usize, mask: u32) -> bool
    requires { columns ≤ most_columns }
    ensures { result ≡ (eqb mask 0 || leb (2 ^ columns) mask) }
{
    mask == 0 || mask >> columns != 0
}

// Whether the range g lacks n more tail records.
pub fn lacks_records(mem: &[u8], s: Sizes, g: usize, n: u32) -> bool
    requires suffices { Suffices s mem.now }
    requires g_lt_ranges { g < s.ranges }
    ensures { result ≡ ltb s.capacity (used_in (view_of s mem.now) g + n) }
{
    let used = read(mem, s, Region::Used, g) as usize;
    used + n as usize > s.capacity
}

// Whether transaction k is open, as `open_index` finds it. Every entry is looked at, with no early exit, so that a loop over records that asks it vectorises.
fn is_open(mem: &[u8], s: Sizes, k: Transaction) -> bool
    requires { Suffices s mem.now }
    ensures { result ≡ open_in (view_of s mem.now) k.0 }
{
    let found = any_below(MOST_TRANSACTIONS, |j| read(mem, s, Region::Opens, j) == k.0);
    both(k.0 != 0, found)
}

// Whether one of the tail records 1 to `through` of range g belongs to an open transaction. As in `is_open` there is no early exit.
#[tactic(auto, unfolding(model::specs::Calls::open_among_in, model::specs::Stored::record_in))]
pub fn any_open(mem: &[u8], s: Sizes, g: usize, through: Tail) -> bool
    requires suffices { Suffices s mem.now }
    requires proper { Proper s }
    requires g_lt_ranges { (g < s.ranges) × (through.0 ≤ s.capacity) }
    ensures { result ≡ open_among_in (shape_in s) (view_of s mem.now) g through.0 }
{
    let at = g * s.capacity;
    any_below(through.0 as usize, |i| {
        let maker = Transaction(read(mem, s, Region::TailTransaction, at + i));
        is_open(mem, s, maker)
    })
}

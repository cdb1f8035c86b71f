// A row and its newest tail record in the lent memory: who sees them, where they lie, and whether the row is there for a reader.
// Each function answers by the model's definition of the same meaning.
#![tactic(auto)]

ghost use Rattle.std.specs.Prelude.{◌≡◌, ◌*◌, ◌≤◌, ◌<◌};
ghost use Rattle.layout.specs.Regions.{slot};
ghost use Rattle.layout.specs.View.{rows_given, view_of, Suffices};
ghost use Rattle.history.specs.History.{bit, range_of};
ghost use Rattle.model.specs.Stored.{row_in, record_in};
ghost use Rattle.model.specs.Reading.{sees, sees_row, sees_record, visible_in};
ghost use Rattle.layout.specs.Sizes.{Proper};
ghost use Rattle.model.specs.Preconditions.{shape_in, Linked};
ghost use Rattle.rows.specs.Finders.{head_at, Inside};

use layout::codes::{COMMITTED, DELETE, OPEN};
use layout::{Region, Sizes};
use loops::both;
use model::Reader;
use regions::read;
use terms::limits::RANGE_ROWS;
use terms::{Row, Stamp, Tail, Transaction};

// Whether a mask has column c.
pub fn has_bit(mask: u32, c: u32) -> bool
    requires { c < 32 }
    ensures { result ≡ bit mask c }
{
    (mask >> c) & 1 == 1
}

// Whether the reader sees a row or record of this state, stamp, ordinal and transaction.
pub fn sees(who: Reader, state: u32, stamp: Stamp, ordinal: u32, transaction: Transaction) -> bool
    ensures { result ≡ sees who state stamp.0 ordinal transaction.0 }
{
    if state == COMMITTED {
        return both(stamp.0 <= who.stamp.0, ordinal <= who.commits);
    }
    if state != OPEN || transaction.0 != who.me.0 {
        return false;
    }
    // The reader's own number is the same, so this asks whether it has one. Asked before, it would be one test for all turns of a loop over records, of which
    // the compiler would then make two, too large to be inlined into a sum.
    transaction.0 != 0
}

// Whether the reader sees the insert of a row.
pub fn sees_row(mem: &[u8], s: Sizes, who: Reader, row: Row) -> bool
    requires suffices { Suffices s mem.now }
    requires row_lt_rows { row.0 < s.rows }
    ensures { result ≡ sees_row who (row_in (view_of s mem.now) row.0) }
{
    let i = row.0 as usize;
    let state = read(mem, s, Region::RowState, i);
    let stamp = Stamp(read(mem, s, Region::RowStamp, i));
    let ordinal = read(mem, s, Region::RowOrdinal, i);
    let transaction = Transaction(read(mem, s, Region::RowTransaction, i));
    sees(who, state, stamp, ordinal, transaction)
}

// Whether the reader sees the tail record at a slot.
pub fn sees_record(mem: &[u8], s: Sizes, who: Reader, slot: usize) -> bool
    requires suffices { Suffices s mem.now }
    requires slot_lt_slots { slot < s.slots }
    ensures { result ≡ sees_record who (record_in (view_of s mem.now) slot) }
{
    let state = read(mem, s, Region::TailState, slot);
    let stamp = Stamp(read(mem, s, Region::TailStamp, slot));
    let ordinal = read(mem, s, Region::TailOrdinal, slot);
    let transaction = Transaction(read(mem, s, Region::TailTransaction, slot));
    sees(who, state, stamp, ordinal, transaction)
}

// The range of a row.
pub fn range_of(row: Row) -> usize
    ensures { result ≡ range_of row.0 }
{
    row.0 as usize / RANGE_ROWS
}

// Where tail record k of range g lies.
pub fn slot_of(s: Sizes, g: usize, k: Tail) -> usize
    requires proper { Proper s }
    requires g_lt_ranges { (g < s.ranges) × (1 ≤ k.0) × (k.0 ≤ s.capacity) }
    ensures { (result ≡ slot (shape_in s) g k.0) × (result < s.slots) }
{
    g * s.capacity + (k.0 as usize - 1)
}

// Where the newest tail record of a row lies.
pub fn head(mem: &[u8], s: Sizes, row: Row) -> Option<usize>
    requires suffices { Suffices s mem.now }
    requires proper { Proper s }
    requires linked { Linked s (view_of s mem.now) }
    requires row_bound { row.0 < rows_given (view_of s mem.now) }
    ensures value { result ≡ head_at (shape_in s) (view_of s mem.now) row.0 }
    ensures inside { Inside result s.slots }
{
    let link = read(mem, s, Region::RowLink, row.0 as usize);
    if link == 0 {
        return None;
    }
    Some(slot_of(s, range_of(row), Tail(link)))
}

// Whether the row is there for the reader: its insert is seen, and no delete of it. The newest record tells of a delete, which is the last of its row.
pub fn visible(mem: &[u8], s: Sizes, who: Reader, row: Row) -> bool
    requires suffices { Suffices s mem.now }
    requires proper { Proper s }
    requires linked { Linked s (view_of s mem.now) }
    requires row_bound { row.0 < rows_given (view_of s mem.now) }
    ensures { result ≡ visible_in (shape_in s) (view_of s mem.now) who row.0 }
{
    if !sees_row(mem, s, who, row) {
        return false;
    }
    let Some(at) = head(mem, s, row) else {
        return true;
    };
    read(mem, s, Region::TailKind, at) < DELETE || !sees_record(mem, s, who, at)
}

// What insert, update and delete write, over the lent bytes. Nothing here tests whether a call may be carried out: a call has done that before, and hands on
// what its tests have shown. Each contract cites the model's definition of the memory that is left.
#![tactic(auto)]

ghost use Rattle.std.specs.Prelude.{◌≡◌, ◌+◌, ◌*◌, ◌≤◌, ◌<◌, get_or};
ghost use Rattle.terms.specs.Measures.{range_rows};
ghost use Rattle.history.specs.History.{range_of};
ghost use Rattle.layout.specs.Regions.{len, slot};
ghost use Rattle.layout.specs.declared.Region.{Region};
ghost use Rattle.layout.specs.View.{rows_given, used_in, view_of, Suffices};
ghost use Rattle.model.specs.Writing.{inserted_in, appended, new_bits, records_wanted, setting_appended, updated_in, deleted_in};
ghost use Rattle.layout.specs.Sizes.{Proper};
ghost use Rattle.model.specs.Preconditions.{shape_in, Pooled, OpenAt};
ghost use Rattle.writing.specs.Steps.{open_put, row_put, cells_put, record_put, cell_words, value_words, newest_filled, original_put, records_put, Room, Newest};

use layout::codes::{DELETE, OPEN, ORIGINAL, SETTING};
use layout::{HEADER_ROWS, Region, Sizes};
use regions::{read, read_later, write, write_later};
use terms::limits::{MOST_COLUMNS, RANGE_ROWS};
use terms::{Row, Tail, Transaction};
use transactions::note;
use transactions::pending::pending_at;
use words::to_word;

// The words of what an open transaction has made, at an index of four regions: open, with no commit yet, and a keeper where the form has the n words of keepers.
fn put_open(
    mem: &mut [u8],
    s: Sizes,
    state: Region,
    stamp: Region,
    ordinal: Region,
    keepers: Region,
    n: usize,
    i: usize,
    keeper: u32,
)
    requires suffices { Suffices s mem.old }
    requires i_bound { (i < len s state) × (i < len s stamp) × (i < len s ordinal) × (n ≡ len s keepers) }
    ensures { view_of s mem.new ≡ open_put state stamp ordinal keepers i keeper (view_of s mem.old) }
{
    write(mem, s, state, i, OPEN);
    write(mem, s, stamp, i, 0);
    write(mem, s, ordinal, i, 0);
    write_later(mem, s, keepers, n, i, keeper);
}

// ---- insert

// The words of a row that transaction t of a keeper inserts.
fn put_row(mem: &mut [u8], s: Sizes, t: Transaction, keeper: u32, row: Row)
    requires suffices { Suffices s mem.old }
    requires row_lt_rows { row.0 < s.rows }
    ensures { view_of s mem.new ≡ row_put t.0 keeper row.0 (view_of s mem.old) }
{
    let i = row.0 as usize;
    write(mem, s, Region::RowTransaction, i, t.0);
    put_open(
        mem,
        s,
        Region::RowState,
        Region::RowStamp,
        Region::RowOrdinal,
        Region::RowKeeper,
        s.later.rows,
        i,
        keeper,
    );
    write(mem, s, Region::RowLink, i, 0);
    write(mem, s, Region::RowMask, i, 0);
}

// Where cell i of a range and column's current page lies.
fn cell_at(mem: &[u8], s: Sizes, chunk: usize, i: usize) -> usize
    requires suffices { Suffices s mem.now }
    requires chunk_lt_chunks { (chunk < s.chunks) × (i < range_rows) × (get_or (view_of s mem.now Region.Current) chunk 0 < s.pages) }
    ensures { (result ≡ get_or (view_of s mem.now Region.Current) chunk 0 * range_rows + i) × (result < len s Region.Cells) }
{
    read(mem, s, Region::Current, chunk) as usize * RANGE_ROWS + i
}

// The values of a row into cell i of the current pages of range g.
fn put_cells(mem: &mut [u8], s: Sizes, g: usize, i: usize, vs: [i32; MOST_COLUMNS])
    requires suffices { Suffices s mem.old }
    requires proper { Proper s × Pooled s (view_of s mem.old) }
    requires g_lt_ranges { (g < s.ranges) × (i < range_rows) }
    ensures { view_of s mem.new ≡ cells_put (shape_in s) g i vs (view_of s mem.old) }
{
    let first = g * s.columns;
    for c in 0..s.columns {
        let at = cell_at(mem, s, first + c, i);
        write(mem, s, Region::Cells, at, to_word(vs[c]));
    }
}

// A new row of open transaction t, whose index is `at`: the next number, and a value for each column.
pub fn insert(mem: &mut [u8], s: Sizes, at: usize, t: Transaction, vs: [i32; MOST_COLUMNS]) -> Row
    requires suffices { Suffices s mem.old }
    requires proper { Proper s × Pooled s (view_of s mem.old) }
    requires open_at { OpenAt (view_of s mem.old) t.0 at × (rows_given (view_of s mem.old) < s.rows) }
    ensures { (result.0 ≡ rows_given (view_of s mem.old)) × (view_of s mem.new ≡ inserted_in (shape_in s) t.0 vs (view_of s mem.old)) }
{
    let row = Row(read(mem, s, Region::Header, HEADER_ROWS));
    put_row(mem, s, t, pending_at(mem, s, at).keeper, row);
    let r = row.0 as usize;
    put_cells(mem, s, r / RANGE_ROWS, r % RANGE_ROWS, vs);
    write(mem, s, Region::Header, HEADER_ROWS, row.0 + 1);
    note(mem, s, at);
    row
}

// ---- update and delete

// The words of a tail record of transaction t for a row, with a keeper.
fn put_record(
    mem: &mut [u8],
    s: Sizes,
    slot: usize,
    t: Transaction,
    keeper: u32,
    row: Row,
    kind: u32,
    mask: u32,
    link: Tail,
)
    requires suffices { Suffices s mem.old }
    requires slot_lt_slots { slot < s.slots }
    ensures { view_of s mem.new ≡ record_put slot t.0 keeper row.0 kind mask link.0 (view_of s mem.old) }
{
    write(mem, s, Region::TailTransaction, slot, t.0);
    write(mem, s, Region::TailRow, slot, row.0);
    write(mem, s, Region::TailKind, slot, kind);
    write(mem, s, Region::TailMask, slot, mask);
    write(mem, s, Region::TailLink, slot, link.0);
    put_open(
        mem,
        s,
        Region::TailState,
        Region::TailStamp,
        Region::TailOrdinal,
        Region::TailKeeper,
        s.later.slots,
        slot,
        keeper,
    );
}

// One tail record more for a row, of open transaction t, with a keeper: it links to the row's newest one and is the row's newest now.
fn append(mem: &mut [u8], s: Sizes, t: Transaction, keeper: u32, row: Row, kind: u32, mask: u32)
    requires suffices { Suffices s mem.old }
    requires proper { Proper s }
    requires room { Room s (view_of s mem.old) row.0 1 }
    ensures { view_of s mem.new ≡ appended (shape_in s) t.0 keeper row.0 kind mask (view_of s mem.old) }
{
    let r = row.0 as usize;
    let g = r / RANGE_ROWS;
    let used = read(mem, s, Region::Used, g);
    let link = Tail(read(mem, s, Region::RowLink, r));
    let slot = g * s.capacity + used as usize;
    put_record(mem, s, slot, t, keeper, row, kind, mask, link);
    write(mem, s, Region::Used, g, used + 1);
    write(mem, s, Region::RowLink, r, used + 1);
}

// Where the values of the newest record of range g start.
fn newest_values(mem: &[u8], s: Sizes, g: usize) -> usize
    requires suffices { Suffices s mem.now }
    requires proper { Proper s }
    requires newest { Newest s (view_of s mem.now) g }
    ensures { (result ≡ slot (shape_in s) g (used_in (view_of s mem.now) g) * s.columns) × (result + s.columns ≤ s.values) }
{
    let used = read(mem, s, Region::Used, g) as usize;
    (g * s.capacity + (used - 1)) * s.columns
}

// The newest record of range g holds the words of cell i of the range's current pages.
fn fill_cells(mem: &mut [u8], s: Sizes, g: usize, i: usize)
    requires suffices { Suffices s mem.old }
    requires proper { Proper s × Pooled s (view_of s mem.old) }
    requires newest { Newest s (view_of s mem.old) g × (i < range_rows) }
    ensures { view_of s mem.new ≡ newest_filled (shape_in s) g (cell_words (shape_in s) (view_of s mem.old) g i) (view_of s mem.old) }
{
    let to = newest_values(mem, s, g);
    let first = g * s.columns;
    for c in 0..s.columns {
        let w = read(mem, s, Region::Cells, cell_at(mem, s, first + c, i));
        write(mem, s, Region::TailValues, to + c, w);
    }
}

// The newest record of range g holds a call's values.
fn fill_values(mem: &mut [u8], s: Sizes, g: usize, vs: [i32; MOST_COLUMNS])
    requires suffices { Suffices s mem.old }
    requires proper { Proper s }
    requires newest { Newest s (view_of s mem.old) g }
    ensures { view_of s mem.new ≡ newest_filled (shape_in s) g (value_words vs) (view_of s mem.old) }
{
    let to = newest_values(mem, s, g);
    for c in 0..s.columns {
        write(mem, s, Region::TailValues, to + c, to_word(vs[c]));
    }
}

// The record of a row's original values, for the columns of the mask `fresh`. It bears the keeper of the row's inserter.
fn append_original(mem: &mut [u8], s: Sizes, t: Transaction, row: Row, fresh: u32)
    requires suffices { Suffices s mem.old }
    requires proper { Proper s × Pooled s (view_of s mem.old) }
    requires room { Room s (view_of s mem.old) row.0 1 }
    ensures { view_of s mem.new ≡ original_put (shape_in s) t.0 row.0 fresh (view_of s mem.old) }
{
    let r = row.0 as usize;
    let keeper = read_later(mem, s, Region::RowKeeper, s.later.rows, r);
    append(mem, s, t, keeper, row, ORIGINAL, fresh);
    fill_cells(mem, s, r / RANGE_ROWS, r % RANGE_ROWS);
}

// The record of a call's values, for the columns of its mask.
fn append_setting(
    mem: &mut [u8],
    s: Sizes,
    t: Transaction,
    keeper: u32,
    row: Row,
    mask: u32,
    vs: [i32; MOST_COLUMNS],
)
    requires suffices { Suffices s mem.old }
    requires proper { Proper s }
    requires room { Room s (view_of s mem.old) row.0 1 }
    ensures { view_of s mem.new ≡ setting_appended (shape_in s) t.0 keeper row.0 mask vs (view_of s mem.old) }
{
    append(mem, s, t, keeper, row, SETTING, mask);
    fill_values(mem, s, row.0 as usize / RANGE_ROWS, vs);
}

// The columns of a mask that no update has set.
pub fn new_bits(mask: u32, old: u32) -> u32
    ensures { result ≡ new_bits mask old }
{
    (mask | old) ^ old
}

// The tail records that an update of a row takes.
pub fn records_wanted(mem: &[u8], s: Sizes, row: Row, mask: u32) -> u32
    requires suffices { Suffices s mem.now }
    requires row_lt_rows { row.0 < s.rows }
    ensures { result ≡ records_wanted (view_of s mem.now) row.0 mask }
{
    let old = read(mem, s, Region::RowMask, row.0 as usize);
    if new_bits(mask, old) == 0 { 1 } else { 2 }
}

// The records of an update, two where it sets a column for the first time.
fn append_records(
    mem: &mut [u8],
    s: Sizes,
    t: Transaction,
    keeper: u32,
    row: Row,
    mask: u32,
    vs: [i32; MOST_COLUMNS],
)
    requires suffices { Suffices s mem.old }
    requires proper { Proper s × Pooled s (view_of s mem.old) }
    requires room { Room s (view_of s mem.old) row.0 (records_wanted (view_of s mem.old) row.0 mask) }
    ensures { view_of s mem.new ≡ records_put (shape_in s) t.0 keeper row.0 mask vs (view_of s mem.old) }
{
    let fresh = new_bits(mask, read(mem, s, Region::RowMask, row.0 as usize));
    if fresh != 0 {
        append_original(mem, s, t, row, fresh);
    }
    append_setting(mem, s, t, keeper, row, mask, vs);
}

// Open transaction t, whose index is `at`, sets the columns of a mask in a row.
pub fn update(
    mem: &mut [u8],
    s: Sizes,
    at: usize,
    t: Transaction,
    row: Row,
    mask: u32,
    vs: [i32; MOST_COLUMNS],
) -> Tail
    requires suffices { Suffices s mem.old }
    requires proper { Proper s × Pooled s (view_of s mem.old) }
    requires open_at { OpenAt (view_of s mem.old) t.0 at × Room s (view_of s mem.old) row.0 (records_wanted (view_of s mem.old) row.0 mask) }
    ensures { (result.0 ≡ used_in (view_of s mem.old) (range_of row.0) + records_wanted (view_of s mem.old) row.0 mask) × (view_of s mem.new ≡ updated_in (shape_in s) t.0 row.0 mask vs (view_of s mem.old)) }
{
    let r = row.0 as usize;
    let used = read(mem, s, Region::Used, r / RANGE_ROWS);
    let newest = used + records_wanted(mem, s, row, mask);
    let old = read(mem, s, Region::RowMask, r);
    append_records(mem, s, t, pending_at(mem, s, at).keeper, row, mask, vs);
    write(mem, s, Region::RowMask, r, mask | old);
    note(mem, s, at);
    Tail(newest)
}

// Open transaction t, whose index is `at`, deletes a row.
pub fn delete(mem: &mut [u8], s: Sizes, at: usize, t: Transaction, row: Row) -> Tail
    requires suffices { Suffices s mem.old }
    requires proper { Proper s }
    requires open_at { OpenAt (view_of s mem.old) t.0 at × Room s (view_of s mem.old) row.0 1 }
    ensures { (result.0 ≡ used_in (view_of s mem.old) (range_of row.0) + 1) × (view_of s mem.new ≡ deleted_in (shape_in s) t.0 row.0 (view_of s mem.old)) }
{
    let used = read(mem, s, Region::Used, row.0 as usize / RANGE_ROWS);
    append(mem, s, t, pending_at(mem, s, at).keeper, row, DELETE, 0);
    note(mem, s, at);
    Tail(used + 1)
}

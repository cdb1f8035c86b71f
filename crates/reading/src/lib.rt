// The word of a row and column for a reader: in a page, in the tail records above the page's lineage, and further down only where the page is newer
// than the reader's stamp; and who set it. Each function answers by the model's definition of the same meaning.
#![tactic(auto)]

pub mod base_pages;

ghost use Rattle.std.specs.Prelude.{◌≡◌, ◌+◌, ◌≤◌, ◌<◌, leb, Ok};
ghost use Rattle.layout.specs.Regions.{first_slot};
ghost use Rattle.layout.specs.View.{rows_given, used_in, view_of, Suffices};
ghost use Rattle.model.specs.Stored.{record_in, page_in, value_in};
ghost use Rattle.model.specs.Reading.{reader, snapshot_of, answers_for, walk, floor, down_to, found_in, word_in, setter_at, commit_stamp, setter_stamp, lookup_in, shown_in, read_in, keeper_word, keeper_in, read_current};
ghost use Rattle.layout.specs.Sizes.{Proper};
ghost use Rattle.model.specs.Preconditions.{shape_in, Linked, Pooled};
ghost use Rattle.rows.specs.Finders.{Inside};
ghost use Rattle.reading.specs.Setters.{RecordInside};

use base_pages::{cell, current_page};
use layout::codes::{COMMITTED, KEEPER_LIMIT, ORIGINAL, SETTING};
use layout::{Region, Sizes};
use model::{Reader, Setter, Version};
use regions::{read, read_later};
use rows::{has_bit, range_of, sees_record, slot_of, visible};
use terms::{Fields, Row, ScanEntry, Stamp, Tail, Transaction};
use words::of_word;

// The number below the first record of a range.
const FLOOR: u32 = 0;

// The word of column c in the tail record at a slot.
pub fn value(mem: &[u8], s: Sizes, at: usize, c: u32) -> u32
    requires suffices { Suffices s mem.now }
    requires proper { Proper s }
    requires at_lt_slots { (at < s.slots) × (c < s.columns) }
    ensures { result ≡ value_in (shape_in s) (view_of s mem.now) at c }
{
    read(mem, s, Region::TailValues, at * s.columns + c as usize)
}

// The reader of an open scan: of the commits made before its opening.
pub fn scan_reader(scan: ScanEntry) -> Reader
    ensures { result ≡ reader (snapshot_of scan) 0 }
{
    Reader {
        stamp: Stamp(scan.stamp),
        commits: scan.commits,
        me: Transaction(0),
    }
}

// Whether the tail record at a slot answers for column c: it holds the original value, or is a setting that the reader sees.
pub fn answers_for(mem: &[u8], s: Sizes, who: Reader, at: usize, c: u32) -> bool
    requires suffices { Suffices s mem.now }
    requires at_lt_slots { (at < s.slots) × (c < 32) }
    ensures { result ≡ answers_for who c (record_in (view_of s mem.now) at) }
{
    if !has_bit(read(mem, s, Region::TailMask, at), c) {
        return false;
    }
    let kind = read(mem, s, Region::TailKind, at);
    if kind == ORIGINAL {
        return true;
    }
    kind == SETTING && sees_record(mem, s, who, at)
}

// From record `from` of range g back along the links, while the record's number is above `low`, to the first that answers for column c.
pub fn walk(
    mem: &[u8],
    s: Sizes,
    who: Reader,
    g: usize,
    c: u32,
    low: Tail,
    from: Tail,
) -> Option<usize>
    requires suffices { Suffices s mem.now }
    requires proper { Proper s }
    requires linked { Linked s (view_of s mem.now) }
    requires g_lt_ranges { (g < s.ranges) × (c < s.columns) × (from.0 ≤ used_in (view_of s mem.now) g) }
    ensures value { result ≡ walk (shape_in s) (view_of s mem.now) who g c low.0 from.0 from.0 }
    ensures inside { Inside result s.slots }
{
    let mut k = from.0;
    while k > low.0 {
        let at = slot_of(s, g, Tail(k));
        if answers_for(mem, s, who, at, c) {
            return Some(at);
        }
        k = read(mem, s, Region::TailLink, at);
    }
    None
}

// The record number down to which the reader looks: the page's lineage, or 0 where the page holds a setting later than the reader's stamp.
fn down_to(mem: &[u8], s: Sizes, who: Reader, page: usize) -> Tail
    requires suffices { Suffices s mem.now }
    requires page_lt_pages { page < s.pages }
    ensures { result.0 ≡ down_to who (page_in (view_of s mem.now) page) }
{
    if read(mem, s, Region::PageNewest, page) <= who.stamp.0 {
        Tail(read(mem, s, Region::PageLineage, page))
    } else {
        Tail(FLOOR)
    }
}

// The word of a row and column on a page, for a sum. A column that no update has set is in the page alone.
pub fn word_of(mem: &[u8], s: Sizes, who: Reader, page: usize, row: Row, c: u32) -> u32
    requires suffices { Suffices s mem.now }
    requires proper { Proper s }
    requires linked { Linked s (view_of s mem.now) }
    requires page_lt_pages { (page < s.pages) × (c < s.columns) × (row.0 < rows_given (view_of s mem.now)) }
    ensures { result ≡ word_in (shape_in s) (view_of s mem.now) who page row.0 c }
{
    let held = cell(mem, s, page, row);
    let i = row.0 as usize;
    if !has_bit(read(mem, s, Region::RowMask, i), c) {
        return held;
    }
    let low = down_to(mem, s, who, page);
    let link = Tail(read(mem, s, Region::RowLink, i));
    let Some(at) = walk(mem, s, who, range_of(row), c, low, link) else {
        return held;
    };
    value(mem, s, at, c)
}

// The tail record that answers for a row and column, of all that the row has. `word_of` has such a walk of its own, for speed (docs/DECISIONS.md, section 8).
fn find(mem: &[u8], s: Sizes, who: Reader, row: Row, c: u32) -> Option<usize>
    requires suffices { Suffices s mem.now }
    requires proper { Proper s }
    requires linked { Linked s (view_of s mem.now) }
    requires c_lt_columns { (c < s.columns) × (row.0 < rows_given (view_of s mem.now)) }
    ensures value { result ≡ found_in (shape_in s) (view_of s mem.now) who floor row.0 c }
    ensures inside { Inside result s.slots }
{
    let i = row.0 as usize;
    if !has_bit(read(mem, s, Region::RowMask, i), c) {
        return None;
    }
    let link = Tail(read(mem, s, Region::RowLink, i));
    walk(mem, s, who, range_of(row), c, Tail(FLOOR), link)
}

// Who set what the tail record at a slot answers with: an original holds what was inserted.
pub fn setter_at(mem: &[u8], s: Sizes, at: usize) -> Setter
    requires suffices { Suffices s mem.now }
    requires at_lt_slots { at < s.slots }
    ensures value { result ≡ setter_at (view_of s mem.now) at }
    ensures record_inside { RecordInside result s.slots }
{
    if read(mem, s, Region::TailKind, at) == ORIGINAL {
        Setter::Insert
    } else {
        Setter::Update(at)
    }
}

// The stamp of a setter's commit; 0 while it has none.
pub fn setter_stamp(mem: &[u8], s: Sizes, row: Row, setter: Setter) -> u32
    requires suffices { Suffices s mem.now }
    requires row_lt_rows { (row.0 < s.rows) × RecordInside setter s.slots }
    ensures { result ≡ setter_stamp (view_of s mem.now) row.0 setter }
{
    match setter {
        Setter::Insert => {
            let i = row.0 as usize;
            commit_stamp(
                read(mem, s, Region::RowState, i),
                read(mem, s, Region::RowStamp, i),
            )
        }
        Setter::Update(at) => commit_stamp(
            read(mem, s, Region::TailState, at),
            read(mem, s, Region::TailStamp, at),
        ),
    }
}

fn commit_stamp(state: u32, stamp: u32) -> u32
    ensures { result ≡ commit_stamp state stamp }
{
    if state == COMMITTED { stamp } else { 0 }
}

// Whether the tail record at a slot of range g has a number above `low`.
fn is_above(s: Sizes, g: usize, at: usize, low: Tail) -> bool
    requires proper { Proper s }
    requires g_lt_ranges { g < s.ranges }
    ensures { result ≡ leb (first_slot s.capacity g + low.0) at }
{
    at >= g * s.capacity + low.0 as usize
}

// The version of a row and column that the reader sees on a page. One walk over the row's records finds who set it; where the record found is not above `down_to`, its value
// is in the page.
fn lookup(mem: &[u8], s: Sizes, who: Reader, page: usize, row: Row, c: u32) -> Version
    requires suffices { Suffices s mem.now }
    requires proper { Proper s }
    requires linked { Linked s (view_of s mem.now) }
    requires page_lt_pages { (page < s.pages) × (c < s.columns) × (row.0 < rows_given (view_of s mem.now)) }
    ensures value { result ≡ lookup_in (shape_in s) (view_of s mem.now) who page row.0 c }
    ensures record_inside { RecordInside result.setter s.slots }
{
    let held = cell(mem, s, page, row);
    let low = down_to(mem, s, who, page);
    let Some(at) = find(mem, s, who, row, c) else {
        return Version {
            word: held,
            setter: Setter::Insert,
        };
    };
    let setter = setter_at(mem, s, at);
    let word = if is_above(s, range_of(row), at, low) {
        value(mem, s, at, c)
    } else {
        held
    };
    Version { word, setter }
}

// What a read shows of a version.
fn shown(mem: &[u8], s: Sizes, row: Row, version: Version) -> Fields
    requires suffices { Suffices s mem.now }
    requires row_lt_rows { (row.0 < s.rows) × RecordInside version.setter s.slots }
    ensures { Ok result ≡ shown_in (view_of s mem.now) row.0 version }
{
    let setter = version.setter;
    Fields::Version(of_word(version.word), setter_stamp(mem, s, row, setter))
}

// What the reader reads of a row and column on a page.
pub fn read_cell(mem: &[u8], s: Sizes, who: Reader, page: usize, row: Row, c: u32) -> Fields
    requires suffices { Suffices s mem.now }
    requires proper { Proper s }
    requires linked { Linked s (view_of s mem.now) }
    requires page_lt_pages { (page < s.pages) × (c < s.columns) × (row.0 < rows_given (view_of s mem.now)) }
    ensures { Ok result ≡ read_in (shape_in s) (view_of s mem.now) who page row.0 c }
{
    if visible(mem, s, who, row) {
        shown(mem, s, row, lookup(mem, s, who, page, row, c))
    } else {
        Fields::None
    }
}

// The keeper that the tail record bears that answers for a row and column, the row's where none does.
fn keeper_word(mem: &[u8], s: Sizes, who: Reader, row: Row, c: u32) -> u32
    requires suffices { Suffices s mem.now }
    requires proper { Proper s }
    requires linked { Linked s (view_of s mem.now) }
    requires c_lt_columns { (c < s.columns) × (row.0 < rows_given (view_of s mem.now)) }
    ensures { result ≡ keeper_word (shape_in s) (view_of s mem.now) who row.0 c }
{
    let Some(at) = find(mem, s, who, row, c) else {
        return read_later(mem, s, Region::RowKeeper, s.later.rows, row.0 as usize);
    };
    read_later(mem, s, Region::TailKeeper, s.later.slots, at)
}

// The keeper of what the reader reads of a row and column.
pub fn read_keeper(mem: &[u8], s: Sizes, who: Reader, row: Row, c: u32) -> Fields
    requires suffices { Suffices s mem.now }
    requires proper { Proper s }
    requires linked { Linked s (view_of s mem.now) }
    requires c_lt_columns { (c < s.columns) × (row.0 < rows_given (view_of s mem.now)) }
    ensures { Ok result ≡ keeper_in (shape_in s) (view_of s mem.now) who row.0 c }
{
    if visible(mem, s, who, row) {
        Fields::Number(keeper_word(mem, s, who, row, c) % KEEPER_LIMIT)
    } else {
        Fields::None
    }
}

// What the reader reads of a row and column on the current page.
pub fn read_current(mem: &[u8], s: Sizes, who: Reader, row: Row, c: u32) -> Fields
    requires suffices { Suffices s mem.now }
    requires proper { Proper s }
    requires linked { Linked s (view_of s mem.now) × Pooled s (view_of s mem.now) }
    requires c_lt_columns { (c < s.columns) × (row.0 < rows_given (view_of s mem.now)) }
    ensures { Ok result ≡ read_current (shape_in s) (view_of s mem.now) who row.0 c }
{
    let page = current_page(mem, s, range_of(row), c);
    read_cell(mem, s, who, page, row, c)
}

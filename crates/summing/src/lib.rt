// A scan's sum. It finds the page of each range once and goes over the range's rows on it; the definition goes row by row.
#![tactic(auto)]

ghost use Rattle.std.specs.Prelude.{◌≡◌, ◌+◌, ◌<◌};
ghost use Rattle.layout.specs.View.{rows_given, view_of, Suffices};
ghost use Rattle.history.specs.History.{range_of};
ghost use Rattle.model.specs.Reading.{scan_page, sum_in};
ghost use Rattle.layout.specs.Sizes.{Proper};
ghost use Rattle.model.specs.Preconditions.{shape_in, Linked, Pooled};
ghost use Rattle.summing.specs.Sums.{Tallied};

use layout::{HEADER_ROWS, Region, Sizes};
use reading::base_pages::scan_page;
use reading::{scan_reader, word_of};
use regions::read;
use rows::visible;
use terms::limits::RANGE_ROWS;
use terms::{Answer, Fields, Row, ScanEntry};
use words::of_word;

// The rows seen so far, and the sum of their values.
#[derive(Clone, Copy)]
pub struct Tally {
    pub count: u32,
    pub total: i64,
}

// The tally with one row more, on the page of its range.
fn add_row(mem: &[u8], s: Sizes, scan: ScanEntry, page: usize, row: Row, c: u32, t: Tally) -> Tally
    requires suffices { Suffices s mem.now }
    requires proper { Proper s }
    requires linked { Linked s (view_of s mem.now) }
    requires page_lt_pages { (page < s.pages) × (c < s.columns) × (row.0 < rows_given (view_of s mem.now)) }
    requires page_value { page ≡ scan_page (shape_in s) (view_of s mem.now) scan.merges (range_of row.0) c }
    requires tallied { Tallied (shape_in s) (view_of s mem.now) scan c row.0 t }
    ensures { Tallied (shape_in s) (view_of s mem.now) scan c (row.0 + 1) result }
{
    let who = scan_reader(scan);
    if !visible(mem, s, who, row) {
        return t;
    }
    let value = of_word(word_of(mem, s, who, page, row, c));
    Tally {
        count: t.count + 1,
        total: t.total + i64::from(value),
    }
}

// A scan's sum of column c: the count of the rows seen and the sum of their values.
pub fn sum_rows(mem: &[u8], s: Sizes, scan: ScanEntry, c: u32) -> Answer
    requires suffices { Suffices s mem.now }
    requires proper { Proper s }
    requires linked { Linked s (view_of s mem.now) × Pooled s (view_of s mem.now) }
    requires c_lt_columns { c < s.columns }
    ensures { result ≡ sum_in (shape_in s) (view_of s mem.now) scan c }
{
    let given = read(mem, s, Region::Header, HEADER_ROWS);
    let rows = RANGE_ROWS as u32;
    let mut sum = Tally { count: 0, total: 0 };
    for g in 0..given.div_ceil(rows) {
        let page = scan_page(mem, s, scan.merges, g as usize, c);
        let end = ((g + 1) * rows).min(given);
        for row in g * rows..end {
            sum = add_row(mem, s, scan, page, Row(row), c, sum);
        }
    }
    Ok(Fields::Sum(sum.count, sum.total))
}

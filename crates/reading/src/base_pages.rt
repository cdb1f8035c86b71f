// The pages of a range and column: a row's cell, the current page, and the page that was current when a scan was opened. Each function answers by the model's
// definition of the same meaning.
ghost use Rattle.std.specs.Prelude.{◌≡◌, ◌*◌, ◌<◌};
ghost use Rattle.layout.specs.Sizes.{Proper};
ghost use Rattle.layout.specs.View.{view_of, Suffices};
ghost use Rattle.model.specs.Stored.{cell_in, within, current_in};
ghost use Rattle.model.specs.Reading.{was_current, scan_page};
ghost use Rattle.model.specs.Preconditions.{shape_in, Pooled};
ghost use Rattle.rows.specs.Finders.{Inside};
ghost use Rattle.reading.specs.ScanPages.{old_page};

use layout::codes::PAGE_WAITING;
use layout::{Region, Sizes};
use regions::read;
use terms::Row;
use terms::limits::RANGE_ROWS;

// The word of a row in a page.
pub fn cell(mem: &[u8], s: Sizes, page: usize, row: Row) -> u32
    requires suffices { Suffices s mem.now }
    requires proper { Proper s }
    requires page_lt_pages { page < s.pages }
    ensures { result ≡ cell_in (view_of s mem.now) page (within row.0) }
{
    read(
        mem,
        s,
        Region::Cells,
        page * RANGE_ROWS + row.0 as usize % RANGE_ROWS,
    )
}

// The current page of range g and column c.
pub fn current_page(mem: &[u8], s: Sizes, g: usize, c: u32) -> usize
    requires suffices { Suffices s mem.now }
    requires proper { Proper s }
    requires pooled { Pooled s (view_of s mem.now) }
    requires g_lt_ranges { (g < s.ranges) × (c < s.columns) }
    ensures { (result ≡ current_in (shape_in s) (view_of s mem.now) g c) × (result < s.pages) }
{
    read(mem, s, Region::Current, g * s.columns + c as usize) as usize
}

// Whether page p waits, is of this chunk, and was current after the first `merges` merges.
#[tactic(auto, using(layout::proofs::Indices::chunks_some))]
fn was_current(mem: &[u8], s: Sizes, merges: u32, chunk: usize, p: usize) -> bool
    requires suffices { Suffices s mem.now }
    requires proper { Proper s }
    requires p_lt_pages { p < s.pages }
    ensures { result ≡ was_current (shape_in s) (view_of s mem.now) merges chunk p }
{
    if read(mem, s, Region::PageState, p) < PAGE_WAITING
        || read(mem, s, Region::PageChunk, p) as usize % s.chunks != chunk
    {
        return false;
    }
    read(mem, s, Region::PageMade, p) <= merges && merges < read(mem, s, Region::PageReplaced, p)
}

// The first waiting page of a chunk that was current after the first `merges` merges.
fn old_page(mem: &[u8], s: Sizes, merges: u32, chunk: usize) -> Option<usize>
    requires suffices { Suffices s mem.now }
    requires proper { Proper s }
    ensures value { result ≡ old_page (shape_in s) (view_of s mem.now) merges chunk }
    ensures inside { Inside result s.pages }
{
    (0..s.pages).find(|&p| was_current(mem, s, merges, chunk, p))
}

// The page of range g and column c that was current after the first `merges` merges.
pub fn scan_page(mem: &[u8], s: Sizes, merges: u32, g: usize, c: u32) -> usize
    requires suffices { Suffices s mem.now }
    requires proper { Proper s }
    requires pooled { Pooled s (view_of s mem.now) }
    requires g_lt_ranges { (g < s.ranges) × (c < s.columns) }
    ensures { (result ≡ scan_page (shape_in s) (view_of s mem.now) merges g c) × (result < s.pages) }
{
    let current = current_page(mem, s, g, c);
    if read(mem, s, Region::PageMade, current) <= merges {
        return current;
    }
    let chunk = g * s.columns + c as usize;
    old_page(mem, s, merges, chunk).unwrap_or(current)
}

// Making a store in a lent memory: the lengths are tested, and then every word that the shape needs is written, so that nothing of what the memory held before
// is left in it.
#![tactic(auto)]

ghost use Rattle.std.specs.Prelude.{◌≡◌, ◌*◌, ◌≤◌, ◌<◌, length};
ghost use Rattle.terms.specs.Measures.{most_columns, most_pages};
ghost use Rattle.terms.specs.declared.Form.{Form};
ghost use Rattle.model.specs.Writing.{made_view};
ghost use Rattle.layout.specs.Regions.{need, columns_at, ranges_at, capacity_at, spares_at};
ghost use Rattle.layout.specs.declared.Region.TheVariants.{Header};
ghost use Rattle.layout.specs.Sizes.{sizes_of, too_many_words};
ghost use Rattle.layout.specs.View.{put, blank, view_of, Suffices};
ghost use Rattle.making.specs.Made.{named_view, made};

use layout::codes::PAGE_CURRENT;
use layout::{
    HEADER_CAPACITY, HEADER_COLUMNS, HEADER_RANGES, HEADER_SPARES, Region, Sizes, columns_word,
    sizes_of, within_limits, words_needed,
};
use loops::fill;
use regions::{count_in, fill_in, write};
use terms::limits::MOST_SCANS;
use terms::{Answer, Fields, Form, Refusal, Shape};

// Every word that the sizes need becomes 0.
fn clear(mem: &mut [u8], s: Sizes)
    requires { (Suffices s mem.old) × (need s < too_many_words) }
    ensures { view_of s mem.new ≡ blank s }
{
    let n = words_needed(s);
    fill(mem, 0, n, 0);
}

// The first pages become current, one for each chunk.
fn name_pages(mem: &mut [u8], s: Sizes)
    requires suffices { (Suffices s mem.old) × (s.chunks ≤ s.pages) × (s.pages ≤ most_pages) }
    requires mem_value { view_of s mem.old ≡ blank s }
    ensures { view_of s mem.new ≡ named_view s }
{
    let n = s.chunks;
    fill_in(mem, s, Region::PageState, 0, n, PAGE_CURRENT);
    count_in(mem, s, Region::PageChunk, 0, n);
    count_in(mem, s, Region::Current, 0, n);
}

// The measures; the first is the word of the columns, with the form.
fn put_measures(mem: &mut [u8], s: Sizes, word: u32, shape: Shape)
    requires { Suffices s mem.old }
    ensures { view_of s mem.new ≡ put Header columns_at word (put Header ranges_at shape.ranges (put Header capacity_at shape.capacity (put Header spares_at shape.spares (view_of s mem.old)))) }
{
    write(mem, s, Region::Header, HEADER_SPARES, shape.spares);
    write(mem, s, Region::Header, HEADER_CAPACITY, shape.capacity);
    write(mem, s, Region::Header, HEADER_RANGES, shape.ranges);
    write(mem, s, Region::Header, HEADER_COLUMNS, word);
}

// The needed part of a memory, made.
fn lay_out(mem: &mut [u8], s: Sizes, shape: Shape)
    requires suffices { (Suffices s mem.old) × (need s < too_many_words) }
    requires s_value { (s ≡ sizes_of Form.Newest shape) × (s.chunks ≤ s.pages) × (s.pages ≤ most_pages) × (shape.columns ≤ most_columns) }
    ensures { view_of s mem.new ≡ made_view Form.Newest shape }
{
    clear(mem, s);
    name_pages(mem, s);
    put_measures(mem, s, columns_word(Form::Newest, shape.columns), shape);
}

// A store of a shape in the newest form, in a memory and with a scan list of so many entries.
pub fn make(mem: &mut [u8], length: usize, shape: Shape) -> Answer
    ensures { (result, mem.new) ≡ made Form.Newest shape length mem.old }
{
    if !within_limits(shape) {
        return Err(Refusal::Shape);
    }
    let s = sizes_of(Form::Newest, shape);
    let n = words_needed(s) * 4;
    if mem.len() < n || length < MOST_SCANS {
        return Err(Refusal::Memory);
    }
    lay_out(&mut mem[..n], s, shape);
    Ok(Fields::Done)
}

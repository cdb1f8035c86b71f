// The store's memory: where each field of a shape lies among the words, and how many bytes a shape needs.
// Each field is a region of words, one after the other; what a call writes is said of the view, one list of words for each region.
#![tactic(auto)]

pub mod codes;

ghost use Rattle.std.specs.Prelude.{◌≡◌, true, ◌+◌, ◌*◌, ◌^◌, ◌≤◌, ◌<◌};
ghost use Rattle.terms.specs.Measures.{within_limits, most_columns, most_ranges, most_records};
ghost use Rattle.layout.specs.Cut.{start_from, end_from};
ghost use Rattle.layout.specs.Regions.{index, lens, base, need, form_known, form_in, columns_word};
ghost use Rattle.terms.specs.declared.Form.{Form};
ghost use Rattle.layout.specs.declared.Sizes.{Sizes};
ghost use Rattle.layout.specs.Starts.{behind, behind_all, older_before, words_before};
ghost use Rattle.layout.specs.Sizes.{sizes_of, later_of, in_form, BytesAnswered};

use loops::{and_between, either};
use terms::limits::{
    MOST_COLUMNS, MOST_RANGES, MOST_RECORDS, MOST_SPARES, MOST_TRANSACTIONS, RANGE_ROWS,
};
use terms::{Answer, Fields, Form, Refusal, Shape};

// The regions in the order in which they lie. A new one comes last, so that the others stay where they are.
#[derive(Clone, Copy)]
pub enum Region {
    // the measures, and the counts that the calls keep; HEADER_.. name the words
    Header,
    // the numbers of the open transactions, 0 at a free entry
    Opens,
    // a word for each row: its inserter, that transaction's state and stamp, its newest tail record, the columns that have been set
    RowTransaction,
    RowState,
    RowStamp,
    RowLink,
    RowMask,
    // a word for each tail record that a range can have, range by range
    TailTransaction,
    TailRow,
    TailKind,
    TailMask,
    TailLink,
    TailState,
    TailStamp,
    // a word for each tail record and column
    TailValues,
    // the tail records used of each range
    Used,
    // the current page of each range and column, at range * columns + column
    Current,
    // whether a page is free, current or waiting; codes.rt has the numbers
    PageState,
    // range * columns + column of a page
    PageChunk,
    // the merge that made a page, 0 for one made with the store, and the merge that replaced it
    PageMade,
    PageReplaced,
    PageLineage,
    PageNewest,
    // RANGE_ROWS words for each page
    Cells,
    // how many changes each open transaction has made, entry by entry as in Opens
    Changes,
    // the ordinal of the commit of each row's insert and of each tail record: the commits made up to and with it
    RowOrdinal,
    TailOrdinal,
    // What the first form does not have: these regions are empty there. The keeper of each row's inserter; of each tail record's transaction, but of the row's
    // inserter where the record holds original values; and of each open transaction, entry by entry as in Opens
    RowKeeper,
    TailKeeper,
    OpenKeeper,
}

// The header's length, and its words; those from 10 on are not used. The columns' word has the stored form in its upper half.
pub const HEADER_WORDS: usize = 16;

pub const HEADER_COLUMNS: usize = 0;

pub const HEADER_RANGES: usize = 1;

pub const HEADER_CAPACITY: usize = 2;

pub const HEADER_SPARES: usize = 3;

pub const HEADER_ROWS: usize = 4;

pub const HEADER_TRANSACTIONS: usize = 5;

pub const HEADER_SCANS: usize = 6;

pub const HEADER_STAMP: usize = 7;

pub const HEADER_MERGES: usize = 8;

pub const HEADER_COMMITS: usize = 9;

// The stored form is told by what is added to the columns in their word: nothing in form 1, this for each later one. The newest form is form 2.
pub const FORM_UNIT: u32 = 65_536;

pub const FIRST_FORM: u32 = 1;

pub const NEWEST_FORM: u32 = 2;

// Where the rows' regions begin, in every shape.
const ROWS_FROM: usize = HEADER_WORDS + MOST_TRANSACTIONS;

// The words that no size counts before the ordinals and the keepers: those, and the changes noted.
const ORDINALS_FROM: usize = ROWS_FROM + MOST_TRANSACTIONS;

// The words of a page, its six fields and its cells.
const PAGE_WORDS: usize = 6 + RANGE_ROWS;

// A shape and a form, and the lengths that its regions are made of. The products are fields, so that each region starts at a linear sum of them.
#[derive(Clone, Copy)]
pub struct Sizes {
    pub form: Form,
    pub columns: usize,
    pub ranges: usize,
    pub capacity: usize,
    pub spares: usize,
    pub rows: usize,
    pub slots: usize,
    pub values: usize,
    pub chunks: usize,
    pub pages: usize,
    pub later: Later,
}

// The lengths of the regions that the first form does not have, all 0 in that form.
#[derive(Clone, Copy)]
pub struct Later {
    pub rows: usize,
    pub slots: usize,
    pub opens: usize,
}

// A product, with a bound that is linear in one factor.
fn times(a: usize, b: usize) -> usize
    requires { (a ≤ most_ranges * most_records) × (b ≤ most_records) }
    ensures { (result ≡ a * b) × (result ≤ most_records * a) }
{
    a * b
}

// Whether each measure lies within its limits.
pub fn within_limits(shape: Shape) -> bool
    ensures { result ≡ within_limits shape }
{
    let c = and_between(true, 1, MOST_COLUMNS as u32, shape.columns);
    let r = and_between(c, 1, MOST_RANGES, shape.ranges);
    let t = and_between(r, 1, MOST_RECORDS, shape.capacity);
    and_between(t, 0, MOST_SPARES, shape.spares)
}

// The lengths of the regions that the first form does not have.
fn later_of(form: Form, rows: usize, slots: usize) -> Later
    ensures { result ≡ later_of form rows slots }
{
    match form {
        Form::First => Later {
            rows: 0,
            slots: 0,
            opens: 0,
        },
        Form::Newest => Later {
            rows,
            slots,
            opens: MOST_TRANSACTIONS,
        },
    }
}

// The sizes that a shape makes in a form.
pub fn sizes_of(form: Form, shape: Shape) -> Sizes
    requires { within_limits shape ≡ true }
    ensures { result ≡ sizes_of form shape }
{
    let columns = shape.columns as usize;
    let ranges = shape.ranges as usize;
    let capacity = shape.capacity as usize;
    let spares = shape.spares as usize;
    let slots = times(ranges, capacity);
    let chunks = times(columns, ranges);
    let rows = ranges * RANGE_ROWS;
    Sizes {
        form,
        columns,
        ranges,
        capacity,
        spares,
        rows,
        slots,
        values: times(slots, columns),
        chunks,
        pages: chunks + spares,
        later: later_of(form, rows, slots),
    }
}

// The sizes of the same shape in another form.
pub fn in_form(s: Sizes, form: Form) -> Sizes
    ensures { result ≡ in_form form s }
{
    Sizes {
        form,
        later: later_of(form, s.rows, s.slots),
        ..s
    }
}

// Whether a columns' word says a form that calls work on.
pub fn form_known(word: u32) -> bool
    ensures { result ≡ form_known word }
{
    let said = word / FORM_UNIT + 1;
    either(said == FIRST_FORM, said == NEWEST_FORM)
}

// The form that a columns' word says, if it is one of the two.
pub fn form_in(word: u32) -> Form
    ensures { result ≡ form_in word }
{
    if word / FORM_UNIT + 1 == FIRST_FORM {
        Form::First
    } else {
        Form::Newest
    }
}

// The columns' word of a memory in a form.
pub fn columns_word(form: Form, columns: u32) -> u32
    requires { columns ≤ most_columns }
    ensures { result ≡ columns_word form columns }
{
    match form {
        Form::First => columns,
        Form::Newest => (NEWEST_FORM - 1) * FORM_UNIT + columns,
    }
}

// What lies before a region: so many words, and so many times each length that regions are made of.
#[derive(Clone, Copy)]
pub struct Before {
    pub words: usize,
    pub rows: usize,
    pub slots: usize,
    pub values: usize,
    pub ranges: usize,
    pub chunks: usize,
    pub pages: usize,
    pub later: Later,
}

// A region that lies behind so many words and lengths, and behind none that the first form does not have.
fn behind(
    words: usize,
    rows: usize,
    slots: usize,
    values: usize,
    ranges: usize,
    chunks: usize,
    pages: usize,
) -> Before
    ensures { result ≡ behind words rows slots values ranges chunks pages }
{
    Before {
        words,
        rows,
        slots,
        values,
        ranges,
        chunks,
        pages,
        later: Later {
            rows: 0,
            slots: 0,
            opens: 0,
        },
    }
}

// A region of those that the first form does not have, behind all the others and so many of these.
fn behind_all(rows: usize, slots: usize) -> Before
    ensures { result ≡ behind_all rows slots }
{
    Before {
        words: ORDINALS_FROM,
        rows: 6,
        slots: 8,
        values: 1,
        ranges: 1,
        chunks: 1,
        pages: PAGE_WORDS,
        later: Later {
            rows,
            slots,
            opens: 0,
        },
    }
}

// The table of the regions, as numbers alone. A sum written out for each region says the same, but 30 of them are more than the compiler inlines, and every access
// to a word would then be a call; one sum over numbers is inlined, and is a constant's sum where the region is named.
fn lies_before(k: Region) -> Before
    ensures { (s : Sizes) → words_before result s ≡ start_from 0 (lens s) (index k) }
{
    match k {
        Region::Header => behind(0, 0, 0, 0, 0, 0, 0),
        Region::Opens => behind(HEADER_WORDS, 0, 0, 0, 0, 0, 0),
        Region::RowTransaction => behind(ROWS_FROM, 0, 0, 0, 0, 0, 0),
        Region::RowState => behind(ROWS_FROM, 1, 0, 0, 0, 0, 0),
        Region::RowStamp => behind(ROWS_FROM, 2, 0, 0, 0, 0, 0),
        Region::RowLink => behind(ROWS_FROM, 3, 0, 0, 0, 0, 0),
        Region::RowMask => behind(ROWS_FROM, 4, 0, 0, 0, 0, 0),
        Region::TailTransaction => behind(ROWS_FROM, 5, 0, 0, 0, 0, 0),
        Region::TailRow => behind(ROWS_FROM, 5, 1, 0, 0, 0, 0),
        Region::TailKind => behind(ROWS_FROM, 5, 2, 0, 0, 0, 0),
        Region::TailMask => behind(ROWS_FROM, 5, 3, 0, 0, 0, 0),
        Region::TailLink => behind(ROWS_FROM, 5, 4, 0, 0, 0, 0),
        Region::TailState => behind(ROWS_FROM, 5, 5, 0, 0, 0, 0),
        Region::TailStamp => behind(ROWS_FROM, 5, 6, 0, 0, 0, 0),
        Region::TailValues => behind(ROWS_FROM, 5, 7, 0, 0, 0, 0),
        Region::Used => behind(ROWS_FROM, 5, 7, 1, 0, 0, 0),
        Region::Current => behind(ROWS_FROM, 5, 7, 1, 1, 0, 0),
        Region::PageState => behind(ROWS_FROM, 5, 7, 1, 1, 1, 0),
        Region::PageChunk => behind(ROWS_FROM, 5, 7, 1, 1, 1, 1),
        Region::PageMade => behind(ROWS_FROM, 5, 7, 1, 1, 1, 2),
        Region::PageReplaced => behind(ROWS_FROM, 5, 7, 1, 1, 1, 3),
        Region::PageLineage => behind(ROWS_FROM, 5, 7, 1, 1, 1, 4),
        Region::PageNewest => behind(ROWS_FROM, 5, 7, 1, 1, 1, 5),
        Region::Cells => behind(ROWS_FROM, 5, 7, 1, 1, 1, 6),
        Region::Changes => behind(ROWS_FROM, 5, 7, 1, 1, 1, PAGE_WORDS),
        Region::RowOrdinal => behind(ORDINALS_FROM, 5, 7, 1, 1, 1, PAGE_WORDS),
        Region::TailOrdinal => behind(ORDINALS_FROM, 6, 7, 1, 1, 1, PAGE_WORDS),
        Region::RowKeeper => behind_all(0, 0),
        Region::TailKeeper => behind_all(1, 0),
        Region::OpenKeeper => behind_all(1, 1),
    }
}

// The words before a region that every form has.
fn older_words(b: Before, s: Sizes) -> usize
    requires { older_before b s < 2 ^ 62 }
    ensures { result ≡ older_before b s }
{
    b.words
        + b.rows * s.rows
        + b.slots * s.slots
        + b.values * s.values
        + b.ranges * s.ranges
        + b.chunks * s.chunks
        + b.pages * s.pages
}

// The word at which a region starts. Its contract is written with the sums; `base` says it for callers.
fn start(s: Sizes, k: Region) -> usize
    requires { end_from 0 (lens s) < 2 ^ 62 }
    ensures { result ≡ start_from 0 (lens s) (index k) }
{
    let b = lies_before(k);
    let older = older_words(b, s);
    older + b.later.rows * s.later.rows + b.later.slots * s.later.slots
}

// The word at which a region starts.
#[tactic(auto, unfolding(crate::specs::Regions::need, crate::specs::Regions::base))]
pub fn base(s: Sizes, k: Region) -> usize
    requires { need s < 2 ^ 62 }
    ensures { result ≡ base s k }
{
    start(s, k)
}

// The words that the regions take.
#[tactic(auto, unfolding(crate::specs::Regions::need))]
pub fn words_needed(s: Sizes) -> usize
    requires { need s < 2 ^ 62 }
    ensures { result ≡ need s }
{
    start(s, Region::OpenKeeper) + s.later.opens
}

// The bytes that a shape needs in the newest form, within the bound of rule 8.3 of docs/SPECIFICATION.md.
pub fn bytes_needed(shape: Shape) -> Answer
    ensures { BytesAnswered shape result }
{
    if !within_limits(shape) {
        return Err(Refusal::Shape);
    }
    let n = words_needed(sizes_of(Form::Newest, shape));
    Ok(Fields::Number((n * 4) as u32))
}

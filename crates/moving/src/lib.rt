// The moves of a store into a second memory, in the newest form or back in the first: the words of the regions that both forms have are copied, the others cleared, and the columns' word
// says the form. One path serves both ways. What a call rests on is in crate admission.
#![tactic(auto)]

ghost use Rattle.std.specs.Prelude.{◌≡◌, ◌&&◌, ◌+◌, ◌*◌, ◌^◌, ◌<◌, get_or};
ghost use Rattle.terms.specs.declared.Form.{Form};
ghost use Rattle.terms.specs.Measures.{most_transactions};
ghost use Rattle.layout.specs.Regions.{len, need, columns_word};
ghost use Rattle.layout.specs.Sizes.{sizes_of, too_many_words};
ghost use Rattle.layout.specs.View.{view_of, Suffices};
ghost use Rattle.layout.specs.Moved.{moved};
ghost use Rattle.history.specs.History.{Call};
ghost use Rattle.history.specs.Forms.{is_form, other_form};
ghost use Rattle.model.specs.Stored.{any_below};
ghost use Rattle.model.specs.Calls.{bears_keeper, keeper_borne_in};
ghost use Rattle.model.specs.Preconditions.{shape_in};
ghost use Rattle.promise.specs.Promise.{MovesBy};
ghost use Rattle.admission.specs.Admitted.{Fitted};
ghost use Rattle.moving.specs.Borne.{tail_borne, open_borne};

use admission::admit_in;
use conditions::any_below;
use layout::codes::KEEPER_LIMIT;
use layout::{
    HEADER_COLUMNS, HEADER_ROWS, Region, Sizes, base, columns_word, in_form, words_needed,
};
use loops::{both, copy_from, either};
use regions::{fill_in, read, read_later, write};
use scans::Scans;
use terms::limits::MOST_TRANSACTIONS;
use terms::{Answer, Fields, Form, Refusal};

// ---- 22: whether a row, a tail record or an open transaction bears a keeper other than 0

fn bears(word: u32) -> bool
    ensures { result ≡ bears_keeper word }
{
    word % KEEPER_LIMIT != 0
}

// Whether one of n words of region k, which has `length` words, bears one, from `at` on.
fn any_borne(mem: &[u8], s: Sizes, k: Region, length: usize, at: usize, n: usize) -> bool
    requires suffices { Suffices s mem.now }
    requires length_len { (length ≡ len s k) × (at + n < 2 ^ 62) }
    ensures { result ≡ any_below (λ i. bears_keeper (get_or (view_of s mem.now k) (at + i) 0)) n }
{
    any_below(n, |i| bears(read_later(mem, s, k, length, at + i)))
}

// Of the used tail records of every range.
fn tails_borne(mem: &[u8], s: Sizes) -> bool
    requires { Fitted s mem.now }
    ensures { result ≡ any_below (tail_borne s (view_of s mem.now)) s.ranges }
{
    any_below(s.ranges, |g| {
        let at = g * s.capacity;
        let used = read(mem, s, Region::Used, g) as usize;
        any_borne(mem, s, Region::TailKeeper, s.later.slots, at, used)
    })
}

// Of the open transactions.
fn opens_borne(mem: &[u8], s: Sizes) -> bool
    requires { Suffices s mem.now }
    ensures { result ≡ any_below (open_borne (view_of s mem.now)) most_transactions }
{
    any_below(MOST_TRANSACTIONS, |j| {
        let number = read(mem, s, Region::Opens, j);
        let word = read_later(mem, s, Region::OpenKeeper, s.later.opens, j);
        both(number != 0, bears(word))
    })
}

// Of them all.
fn keeper_borne(mem: &[u8], s: Sizes) -> bool
    requires { Fitted s mem.now }
    ensures { result ≡ keeper_borne_in (shape_in s) (view_of s mem.now) }
{
    let given = read(mem, s, Region::Header, HEADER_ROWS) as usize;
    let rows = any_borne(mem, s, Region::RowKeeper, s.later.rows, 0, given);
    let tails = tails_borne(mem, s);
    let opens = opens_borne(mem, s);
    either(rows, either(tails, opens))
}

// ---- the moves

// The form that a store is moved from.
fn other_form(to: Form) -> Form
    ensures { result ≡ other_form to }
{
    match to {
        Form::First => Form::Newest,
        Form::Newest => Form::First,
    }
}

// Whether a move to a form is refused for a keeper: only the way back can be.
fn keeper_lost(mem: &[u8], s: Sizes, to: Form) -> bool
    requires { Fitted s mem.now }
    ensures { result ≡ (is_form Form.First to && keeper_borne_in (shape_in s) (view_of s mem.now)) }
{
    match to {
        Form::First => keeper_borne(mem, s),
        Form::Newest => false,
    }
}

// The store in a memory of sizes s, into the needed part of another memory, by the sizes `to`.
fn lay_moved(mem: &[u8], s: Sizes, second: &mut [u8], to: Sizes, word: u32)
    requires suffices { (Suffices s mem.now) × (Suffices to second.old) }
    requires s_bound { (need s < too_many_words) × (need to < too_many_words) }
    requires s_value { (s ≡ sizes_of s.form (shape_in s)) × (to ≡ sizes_of to.form (shape_in s)) × (word ≡ columns_word to.form s.columns) }
    ensures { view_of to second.new ≡ moved to.form (shape_in s) (view_of s mem.now) }
{
    let n = base(to, Region::RowKeeper);
    copy_from(mem, n, second);
    fill_in(second, to, Region::RowKeeper, 0, to.later.rows, 0);
    fill_in(second, to, Region::TailKeeper, 0, to.later.slots, 0);
    fill_in(second, to, Region::OpenKeeper, 0, to.later.opens, 0);
    write(second, to, Region::Header, HEADER_COLUMNS, word);
}

// A store is moved to a form, into a second memory.
#[tactic(auto, using(crate::proofs::Ends::unfit, crate::proofs::Ends::fitted, crate::proofs::Ends::small, crate::proofs::Ends::sizes_moved, crate::proofs::Ends::word_moved, crate::proofs::Ends::short, crate::proofs::Ends::part_long, crate::proofs::Ends::part_room, crate::proofs::Ends::lost, crate::proofs::Ends::done))]
fn move_to(mem: &[u8], scans: Scans, second: &mut [u8], to: Form) -> Answer
    ensures { MovesBy scans mem.now (Call.move to second.old) result second.new }
{
    let (s, _) = admit_in(mem, scans, other_form(to))?;
    let moved = in_form(s, to);
    let n = words_needed(moved) * 4;
    if second.len() < n {
        return Err(Refusal::Memory);
    }
    if keeper_lost(mem, s, to) {
        return Err(Refusal::Keeper);
    }
    let word = columns_word(to, s.columns as u32);
    lay_moved(mem, s, &mut second[..n], moved, word);
    Ok(Fields::Done)
}

// A store in the first form is moved into a second memory, in the newest form.
pub fn upgrade(mem: &[u8], scans: Scans, second: &mut [u8]) -> Answer
    ensures { MovesBy scans mem.now (Call.move Form.Newest second.old) result second.new }
{
    move_to(mem, scans, second, Form::Newest)
}

// A store in the newest form is moved back into a second memory, in the first form.
pub fn downgrade(mem: &[u8], scans: Scans, second: &mut [u8]) -> Answer
    ensures { MovesBy scans mem.now (Call.move Form.First second.old) result second.new }
{
    move_to(mem, scans, second, Form::First)
}

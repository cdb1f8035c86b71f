// The answer as C takes it, and the test of memory and list.
ghost use Rattle.std.specs.Prelude.{◌≡◌, List};
ghost use Rattle.terms.specs.declared.ScanEntry.{ScanEntry};
ghost use Rattle.layout.specs.Regions.{form_number};
ghost use Rattle.scans.specs.Table.{table_of};
ghost use Rattle.deskrook.specs.Replies.{reply_of, usability};

use layout::{FIRST_FORM, NEWEST_FORM};
use pages::check::check;
use scans::Scans;
use terms::{Answer, Fields, Form, Refusal, number};
use words::to_word;

// An answer as C takes it. `result` is 0 where the call was accepted, 32 for the answer none, else the refusal's number. `first` is the number, the count or the
// number merged through, or the two's complement word of a value; `second` the records used; `stamp` the stamp of the commit that set the value; `sum` a sum. What an
// answer does not have is 0.
#[repr(C)]
#[derive(Clone, Copy)]
pub struct Reply {
    pub result: u32,
    pub first: u32,
    pub second: u32,
    pub stamp: u32,
    pub sum: i64,
}

const NONE: u32 = 32;

// The reply of an accepted call that answers no field.
const DONE: Reply = Reply {
    result: 0,
    first: 0,
    second: 0,
    stamp: 0,
    sum: 0,
};

pub fn encode(answer: Answer) -> Reply
    ensures { result ≡ reply_of answer }
{
    match answer {
        Err(r) => Reply {
            result: number(r),
            ..DONE
        },
        Ok(Fields::Done) => DONE,
        Ok(Fields::Number(n)) | Ok(Fields::Listed(n)) => Reply { first: n, ..DONE },
        Ok(Fields::Value(v)) => Reply {
            first: to_word(v),
            ..DONE
        },
        Ok(Fields::None) => Reply {
            result: NONE,
            ..DONE
        },
        Ok(Fields::Sum(n, sum)) => Reply {
            first: n,
            sum,
            ..DONE
        },
        Ok(Fields::Lineage(n, used)) => Reply {
            first: n,
            second: used,
            ..DONE
        },
        Ok(Fields::Version(v, stamp)) => Reply {
            first: to_word(v),
            stamp,
            ..DONE
        },
    }
}

// The number of a stored form.
fn form_number(form: Form) -> u32
    ensures { result ≡ form_number form }
{
    match form {
        Form::First => FIRST_FORM,
        Form::Newest => NEWEST_FORM,
    }
}

pub fn check_reply(mem: &[u8], t: Scans) -> Reply
    ensures { (ps : List ScanEntry) → t ≡ table_of ps → result ≡ reply_of (usability mem.now ps) }
{
    let Some(s) = check(mem, t) else {
        return encode(Err(Refusal::Memory));
    };
    encode(Ok(Fields::Number(form_number(s.form))))
}

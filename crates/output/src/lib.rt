// The two decisions of `gatebook` that no call of the store makes: which shapes it lends memory for, and after which answers it goes on.
#![tactic(auto)]

ghost use Rattle.std.specs.Prelude.{◌≡◌};
ghost use Rattle.output.specs.Output.{goes_on, lent};

use terms::{Answer, Refusal, Shape};

// The largest shape that memory is lent for.
const LENT_COLUMNS: u32 = 4;

const LENT_RANGES: u32 = 4;

const LENT_RECORDS: u32 = 64;

const LENT_SPARES: u32 = 16;

// The shapes that gatebook has memory for (rule 12.4 of docs/SPECIFICATION.md).
#[tactic(auto, unfolding(crate::specs::Output::lent))]
pub fn lends(shape: Shape) -> bool
    ensures { result ≡ lent shape }
{
    (1..=LENT_COLUMNS).contains(&shape.columns)
        && (1..=LENT_RANGES).contains(&shape.ranges)
        && (1..=LENT_RECORDS).contains(&shape.capacity)
        && shape.spares <= LENT_SPARES
}

// Whether gatebook goes on after an answer (rule 12.7).
#[tactic(auto, unfolding(crate::specs::Output::goes_on))]
pub fn goes_on(answer: Answer) -> bool
    ensures { result ≡ goes_on answer }
{
    !matches!(
        answer,
        Err(Refusal::Shape | Refusal::Command | Refusal::Cut)
    )
}

// Reads a whole sheet and says why it is refused, or what it holds.
#![tactic(auto)]

ghost use Rattle.std.specs.Prelude.{◌≡◌};
ghost use Rattle.model.specs.Call.{read};
ghost use Rattle.hir.specs.Says.{place_says};
ghost use Rattle.reading.specs.TotalsSays.{totals_says};
ghost use Rattle.reading.specs.Whole.{heading, place_lists, judged_sheet, judgement_of};
ghost use Rattle.reading.specs.Says.{heading_says, verdict_says};

use crate::blocks::{Totals, blocks};
use crate::sections::{functions, identifiers, places};
use hir::limits::{MOST_CONTEXT, MOST_PARAMS, MOST_SHEET, RETURNS_COUNT};
use hir::refusal::Refusal;
use hir::{Cursor, Place, Step};

pub mod blocks;
mod counts;
mod parts;
mod phis;
mod sections;

// How many identifiers and inner functions there are.
#[derive(Clone, Copy, Debug, PartialEq, Eq)]
pub struct Heading {
    pub identifiers: u32,
    pub functions: u32,
}

// Flags, identifiers, inner functions.
#[tactic(auto, unfolding(crate::specs::Whole::heading))]
fn head(c: Cursor, s: &[u32]) -> Step<Heading>
    ensures { heading_says result ≡ heading s.now c.at }
{
    let (_, c) = c.flags(s)?;
    let (identifiers, c) = identifiers(c, s)?;
    let (functions, c) = functions(c, s, identifiers)?;
    let heading = Heading {
        identifiers,
        functions,
    };
    Ok((heading, c))
}

// Parameters, context, returns.
#[tactic(auto, unfolding(crate::specs::Whole::place_lists))]
fn place_lists(c: Cursor, s: &[u32], n: u32) -> Step<Place>
    ensures { place_says result ≡ place_lists n s.now c.at }
{
    let (_, c) = places(c, s, n, MOST_PARAMS)?;
    let (_, c) = places(c, s, n, MOST_CONTEXT)?;
    let (_, c) = c.fixed(s, RETURNS_COUNT)?;
    c.place(s, n)
}

// All sections.
#[tactic(auto, unfolding(crate::specs::Whole::judged_sheet))]
pub fn sheet(s: &[u32]) -> Step<Totals>
    ensures { totals_says result ≡ judged_sheet s.now 0 }
{
    let (heading, c) = head(Cursor::START, s)?;
    let (_, c) = place_lists(c, s, heading.identifiers)?;
    blocks(c, s, heading)
}

// Refusals 2 to 8, or what refusal 8 counts, and whether there is a diagnosis or an Apply.
#[tactic(auto, using(crate::proofs::VerdictLaws::verdict_laws), unfolding(model::specs::Call::read))]
pub fn read(s: &[u32]) -> Result<Totals, Refusal>
    ensures { verdict_says result ≡ judgement_of (read s.now) }
{
    if MOST_SHEET < s.len() {
        return Err(Refusal::LongSheet);
    }
    let (totals, c) = sheet(s)?;
    if c.at < s.len() {
        return Err(Refusal::WordsFollow);
    }
    Ok(totals)
}

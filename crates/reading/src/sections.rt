// The sections before the blocks, every list of places, and the phis of a block, each after its count.
ghost use Rattle.std.specs.Prelude.{◌≡◌};
ghost use Rattle.model.specs.Limits.{most_identifiers, most_functions, most_inner_diagnostics, most_count};
ghost use Rattle.model.specs.Reading.{Read, counted};
ghost use Rattle.model.specs.Sections.{identifier, diagnostic, inner_function, place, phi};
ghost use Rattle.hir.specs.Says.{word_says};
ghost use Rattle.reading.specs.Judging.{telling};
ghost use Rattle.reading.specs.Parts.{IsPart};
ghost use Rattle.reading.specs.Whole.{length_of, skip};
ghost use Rattle.reading.specs.Says.{cursor_says};

use crate::parts::times;
use crate::phis::phi;
use hir::limits::{
    MOST_COUNT, MOST_FUNCTIONS, MOST_IDENTIFIERS, MOST_INNER_CONTEXT, MOST_INNER_DIAGNOSTICS,
};
use hir::refusal::Refusal;
use hir::{Cursor, Step};

// A count, at most `most`, and the parts: how many there are.
fn section<F: Fn(Cursor) -> Result<Cursor, Refusal>>(
    start: Cursor,
    s: &[u32],
    most: u32,
    part: F,
) -> Step<u32>
    requires { F.IsAlwaysCallable part }
    ensures { (f : Read (Unit {0})) → IsPart (F.post part) f s.now → word_says result ≡ length_of (counted most f) s.now start.at }
{
    let (count, c) = start.count(s, most)?;
    let c = times(count, c, part)?;
    Ok((count, c))
}

// An identifier count and the identifiers: how many there are.
pub fn identifiers(start: Cursor, s: &[u32]) -> Step<u32>
    ensures { word_says result ≡ length_of (counted most_identifiers identifier) s.now start.at }
{
    section(start, s, MOST_IDENTIFIERS, |c| Ok(c.identifier(s)?.1))
}

// A count and the diagnostics of an inner function: how many there are.
fn diagnostics(start: Cursor, s: &[u32]) -> Step<u32>
    ensures { word_says result ≡ length_of (counted most_inner_diagnostics diagnostic) s.now start.at }
{
    section(start, s, MOST_INNER_DIAGNOSTICS, |c| Ok(c.diagnostic(s)?.1))
}

// A count, at most `most`, and the places: how many there are.
pub fn places(start: Cursor, s: &[u32], n: u32, most: u32) -> Step<u32>
    ensures { word_says result ≡ length_of (counted most (place n)) s.now start.at }
{
    section(start, s, most, |c| Ok(c.place(s, n)?.1))
}

// A phi count and the phis: how many there are.
pub fn phis(start: Cursor, s: &[u32], n: u32) -> Step<u32>
    ensures { word_says result ≡ length_of (counted most_count (phi n)) s.now start.at }
{
    section(start, s, MOST_COUNT, |c| phi(c, s, n))
}

// Diagnostics, then context places.
#[tactic(auto, unfolding(model::specs::Sections::inner_function, crate::specs::Whole::length_of, crate::specs::Judging::telling))]
fn inner_function(c: Cursor, s: &[u32], n: u32) -> Result<Cursor, Refusal>
    ensures { cursor_says result ≡ telling (inner_function n) skip tt s.now c.at }
{
    let (_, c) = diagnostics(c, s)?;
    let (_, c) = places(c, s, n, MOST_INNER_CONTEXT)?;
    Ok(c)
}

// A count and the inner functions: how many there are.
pub fn functions(start: Cursor, s: &[u32], n: u32) -> Step<u32>
    ensures { word_says result ≡ length_of (counted most_functions (inner_function n)) s.now start.at }
{
    section(start, s, MOST_FUNCTIONS, |c| inner_function(c, s, n))
}

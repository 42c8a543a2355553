// A class load (document 02, order 2): the sheet of a seed, so many identifiers and so many effects.
#![tactic(auto)]

ghost use Rattle.std.specs.Prelude.{◌≡◌, true, length};
ghost use Rattle.model.specs.Call.{refusal as refused};
ghost use Rattle.model.specs.Encoder.{sheet_words};
ghost use Rattle.model.specs.Load.{loadable, class_load, load};
ghost use Rattle.hir.specs.Refusals.{refusal_number};
ghost use Rattle.writing.specs.Outcome.{Filled};
ghost use Rattle.writing.specs.Wrote.{Writes};

use crate::parts::{put_blocks, put_flags, put_identifiers, put_params, put_returns};
use hir::limits::{
    LEAST_LOAD_EFFECTS, LEAST_LOAD_IDENTIFIERS, MOST_IDENTIFIERS, MOST_LOAD_EFFECTS,
};
use hir::refusal::Refusal;
use writing::Writer;

mod draws;
mod parts;

// Whether the arguments are within their bounds.
fn loadable(n: u32, m: u32) -> bool
    ensures { result ≡ loadable n m }
{
    (LEAST_LOAD_IDENTIFIERS..=MOST_IDENTIFIERS).contains(&n)
        && (LEAST_LOAD_EFFECTS..=MOST_LOAD_EFFECTS).contains(&m)
}

// The whole sheet, from the beginning of the output.
fn put_sheet(sheet: &mut Writer<'_, u32>, seed: u32, n: u32, m: u32)
    requires loadable { loadable n m ≡ true }
    requires at_start { sheet.old.at ≡ 0 }
    ensures { Writes (sheet_words (class_load seed n m)) sheet.old sheet.new }
{
    put_flags(sheet);
    put_identifiers(sheet, n);
    put_params(sheet);
    put_returns(sheet, n);
    put_blocks(sheet, seed, n, m);
}

// A refusal leaves the output all 0.
fn refuse(sheet: &mut [u32], refusal: Refusal) -> Result<usize, Refusal>
    ensures { Filled (refused (refusal_number refusal)) sheet.old result sheet.new }
{
    sheet.fill(0);
    Err(refusal)
}

// The class load: the sheet's words, then zeros; how many words it has. OutOfRange for arguments outside their bounds, then ShortAnswer for an output that is shorter than the sheet.
pub fn class_load(seed: u32, n: u32, m: u32, sheet: &mut [u32]) -> Result<usize, Refusal>
    ensures { Filled (load seed n m (length sheet.old)) sheet.old result sheet.new }
{
    if !loadable(n, m) {
        return refuse(sheet, Refusal::OutOfRange);
    }
    let mut out = Writer::new(sheet);
    put_sheet(&mut out, seed, n, m);
    let length = out.at;
    if sheet.len() < length {
        return refuse(sheet, Refusal::ShortAnswer);
    }
    sheet[length..].fill(0);
    Ok(length)
}

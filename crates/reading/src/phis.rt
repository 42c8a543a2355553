// A phi, whose operands name no predecessor twice. Its words count nothing.
ghost use Rattle.std.specs.Prelude.{◌≡◌, [], ◌≤◌, length};
ghost use Rattle.model.specs.Lists.{among};
ghost use Rattle.model.specs.Sections.{operand, phi};
ghost use Rattle.reading.specs.Judging.{telling};
ghost use Rattle.reading.specs.Operands.{Whole, predecessors};
ghost use Rattle.reading.specs.Whole.{skip, passing_numbered};
ghost use Rattle.reading.specs.Says.{cursor_says};

use hir::at::OPERAND_WIDTH;
use hir::limits::MOST_COUNT;
use hir::refusal::Refusal;
use hir::{BlockId, Cursor};

// Whether a number is that of an operand from `from` up to `to`; an operand takes four words, its number first.
fn among_operands(s: &[u32], from: usize, to: usize, number: u32) -> bool
    requires whole { Whole from to }
    requires to_in_bounds { to ≤ length s.now }
    ensures { result ≡ among number (predecessors s.now from to) }
{
    s[from..to]
        .chunks_exact(OPERAND_WIDTH)
        .any(|operand| operand[0] == number)
}

// `count` operands: a predecessor's number that none before had, and a place. Numbers mostly rise, and then none of those before is looked at.
// Kept: a loop of its own, not `times`, for each operand is held to the numbers of those before it.
fn operands(start: Cursor, s: &[u32], n: u32, count: u32) -> Result<Cursor, Refusal>
    ensures { cursor_says result ≡ passing_numbered count [] (operand n) s.now start.at }
{
    let mut c = start;
    let mut above = 0;
    for _ in 0..count {
        let (BlockId(number), after) = c.block_number(s)?;
        if number < above && among_operands(s, start.at, c.at, number) {
            return Err(Refusal::UsedTwice);
        }
        above = above.max(number + 1);
        (_, c) = after.place(s, n)?;
    }
    Ok(c)
}

// A place, an operand count and the operands.
#[tactic(auto, using(crate::proofs::BlockLaws::phi_laws))]
pub fn phi(c: Cursor, s: &[u32], n: u32) -> Result<Cursor, Refusal>
    ensures { cursor_says result ≡ telling (phi n) skip tt s.now c.at }
{
    let (_, c) = c.place(s, n)?;
    let (count, c) = c.count(s, MOST_COUNT)?;
    operands(c, s, n, count)
}

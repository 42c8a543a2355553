// Why a call is refused.
ghost use Rattle.std.specs.Prelude.{◌≡◌};
ghost use Rattle.hir.specs.Refusals.{refusal_number};

// In the order of the numbers.
#[derive(Clone, Copy, Debug, PartialEq, Eq)]
pub enum Refusal {
    // The workspace has fewer than 16,384 words.
    ShortWorkspace = 1,
    // The sheet has more than 16,384 words.
    LongSheet = 2,
    // The sheet ends where a word is due.
    SheetEnds = 3,
    // A count is above its limit, or differs from a fixed count.
    Count = 4,
    // A word is outside its range.
    OutOfRange = 5,
    // A block number is used a second time, or a phi names one predecessor twice.
    UsedTwice = 6,
    // Words follow the last block.
    WordsFollow = 7,
    // There are too many mutations or renders, or too much would be held.
    Totals = 8,
    // The buffer is shorter than the answer.
    ShortAnswer = 9,
    // Apply is among an instruction's effects.
    Apply = 10,
    // The caller's position is outside the records.
    OutsideRecords = 11,
}

// The refusal's number.
impl From<Refusal> for u32 {
    ghost from_gives = { λ refusal n. n ≡ refusal_number refusal };

    fn from(refusal: Refusal) -> u32 {
        refusal as u32
    }
}

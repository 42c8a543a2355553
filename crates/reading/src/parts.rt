// Parts that stand one after another.
ghost use Rattle.reading.specs.Parts.{Times};

use hir::refusal::Refusal;

// So many parts, each read from what the one before left.
pub fn times<P, F: Fn(P) -> Result<P, Refusal>>(count: u32, start: P, part: F) -> Result<P, Refusal>
    requires { F.IsAlwaysCallable part }
    ensures { Times (F.post part) count start result }
{
    let mut p = start;
    for _ in 0..count {
        p = part(p)?;
    }
    Ok(p)
}

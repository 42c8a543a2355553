// Reads a sheet from standard input and prints the answer, a line for each section, or the refusal's number.
#![tactic(auto)]

ghost use Rattle.std.specs.Prelude.{◌≤◌, length, IfOk};

use files::load_words;
use service::turn_for;
use std::io::{self, BufWriter, Read, Write};

// One word more than the largest sheet has.
const MOST_BYTES: u64 = 65540;

// The answer's sections in their order, each with the words of a record.
const SECTIONS: [(&str, usize); 10] = [
    ("ranges", 2),
    ("params", 3),
    ("context", 3),
    ("diagnostics", 2),
    ("effects", 8),
    ("walks", 1),
    ("phis", 3),
    ("instructions", 3),
    ("terminals", 3),
    ("inner", 3),
];

// A section's line: its name, the count of records, and their words, or as many as there are; what stands behind them.
fn print_section<'a, W: Write>(
    out: &mut W,
    name: &str,
    width: usize,
    answer: &'a [u32],
) -> io::Result<&'a [u32]>
    ensures { IfOk result (λ rest. length rest.now ≤ length answer.now) }
{
    let mut rest = answer;
    write!(out, "{name}")?;
    if let Some((count, records)) = answer.split_first() {
        write!(out, " {count}")?;
        let words = (*count as usize).saturating_mul(width).min(records.len());
        for word in &records[..words] {
            write!(out, " {word}")?;
        }
        rest = &records[words..];
    }
    writeln!(out)?;
    Ok(rest)
}

fn print_answer<W: Write>(out: &mut W, answer: &[u32]) -> io::Result<()> {
    let mut rest = answer;
    for (name, width) in SECTIONS {
        rest = print_section(out, name, width, rest)?;
    }
    Ok(())
}

// It lends one record, which is new, and names caller 0.
fn main(rt: HostRuntime) -> io::Result<()> {
    let mut bytes = Vec::new(rt.alloc());
    rt.reader().take(MOST_BYTES).read_to_end(&mut bytes)?;
    let mut sheet = [0; 16385];
    let count = load_words(&bytes, &mut sheet);
    let mut workspace = [0; 16384];
    let mut answer = [0; 16384];
    let reply = turn_for(1, 0, 0, &sheet[..count], &mut workspace, &mut answer).reply;
    let mut out = BufWriter::new(rt.alloc(), io::writer(&rt))?;
    if reply.refusal == 0 {
        print_answer(&mut out, &answer)?;
    } else {
        writeln!(out, "refused {}", reply.refusal)?;
    }
    out.flush()
}

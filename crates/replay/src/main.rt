// Calls the service on sheets of the oracle, each for one of four callers and for callers outside the records, at several lengths
// of the lent buffers, which hold rubbish before each call, compares every word of the answer, of the words behind it and of the
// workspace, and prints counts.
// The file has parts of 32,768 words; in a part stand records, each after the number of its words, then zeros.
// A record: the sheet's length and words; the refusal if 18,000 answer words are lent, 0 for none; the answer's length and words.
#![tactic(auto)]

ghost use Rattle.std.specs.Prelude.{◌≤◌};

use files::load_words;
use service::{Turn, turn_for};
use std::alloc::Global;
use std::fs;
use std::io::{self, Read};

// So many callers have a record.
const CALLERS: usize = 4;

// The file has at most so many parts, each of so many bytes.
const PARTS: usize = 48;

const PART_BYTES: u64 = 131072;

// The words of the buffers that are lent.
const LENT: usize = 18000;

// A call, and what it has to give: the refusal, 0 for none, and the answer's words, none for a refusal.
// Kept: the refusal is the number of the file and of the reply.
#[derive(Clone, Copy, Debug, PartialEq, Eq)]
struct Case<'a> {
    sheet: &'a [u32],
    refusal: u32,
    expected: &'a [u32],
}

impl<'a> Case<'a> {
    // The same sheet, refused.
    fn refused(self, refusal: u32) -> Case<'a> {
        Case {
            refusal,
            expected: &self.expected[..0],
            ..self
        }
    }

    // Whether a call at a serial was answered as it has to be: with the length, or with the refusal, which keeps the serial.
    fn answered(self, turn: Turn, serial: u32) -> bool {
        let reply = turn.reply;
        reply.refusal == self.refusal
            && reply.length == self.expected.len()
            && if self.refusal == 0 {
                reply.serial == serial && turn.next == serial.wrapping_add(1)
            } else {
                reply.serial == 0 && turn.next == serial
            }
    }
}

// How many sheets and calls there were, how many calls gave something else, and the serial that is next for each caller.
#[derive(Drop)]
struct Counts {
    sheets: u32,
    calls: u32,
    different: u32,
    serials: [u32; CALLERS],
}

impl Counts {
    // The serial that is next for a caller, 0 for one without a record.
    fn serial(&self, position: usize) -> u32 {
        self.serials.get(position).copied().unwrap_or(0)
    }

    // One more call, after which a serial is next for a caller.
    fn call(&mut self, same: bool, position: usize, serial: u32) {
        if position < CALLERS {
            self.serials[position] = serial;
        }
        self.calls = self.calls.saturating_add(1);
        if !same {
            self.differs();
        }
    }

    // Something is not as it has to be.
    fn differs(&mut self) {
        self.different = self.different.saturating_add(1);
    }
}

// Every word something else than before and than its neighbour.
fn put_rubbish(words: &mut [u32], seed: u32) {
    let mut w = seed;
    for word in words.iter_mut() {
        w = w.wrapping_add(2654435769);
        *word = w;
    }
}

// Whether the words are those expected, and zeros behind them.
fn filled(words: &[u32], expected: &[u32]) -> bool {
    words.starts_with(expected) && words.iter().skip(expected.len()).all(|&w| w == 0)
}

// One call for one of so many callers with the buffers as lent, before which both hold rubbish.
fn call(
    counts: &mut Counts,
    callers: usize,
    position: usize,
    case: Case<'_>,
    workspace: &mut [u32],
    answer: &mut [u32],
) {
    let serial = counts.serial(position);
    put_rubbish(workspace, serial);
    put_rubbish(answer, serial.wrapping_add(77));
    let turn = turn_for(callers, position, serial, case.sheet, workspace, answer);
    let same = case.answered(turn, serial)
        && filled(answer, case.expected)
        && filled(workspace, &case.expected[..0]);
    counts.call(same, position, turn.next);
}

// The word at a position as a count: 0 if there is none, or if it is past 65,535.
fn count_at(words: &[u32], at: usize) -> usize
    ensures { result ≤ 65535 }
{
    match words.get(at) {
        Some(&word) if word < 65536 => word as usize,
        _ => 0,
    }
}

// The counts so far, and the buffers that are lent.
#[derive(Drop)]
struct Replay {
    counts: Counts,
    workspace: [u32; LENT],
    answer: [u32; LENT],
}

impl Replay {
    // One call with so many words of workspace and of answer.
    fn lend(&mut self, case: Case<'_>, words: usize, room: usize) {
        if LENT < words || LENT < room {
            self.counts.differs();
            return;
        }
        let position = (self.counts.sheets % 4) as usize;
        let workspace = &mut self.workspace[..];
        let answer = &mut self.answer[..];
        call(
            &mut self.counts,
            CALLERS,
            position,
            case,
            &mut workspace[..words],
            &mut answer[..room],
        );
    }

    // A call for callers outside the records, whatever the sheet and the workspace are: one past the last, the last position that there is, and the first where no record is lent.
    fn outside(&mut self, case: Case<'_>) {
        let case = case.refused(11);
        for (callers, position) in [(CALLERS, CALLERS), (CALLERS, usize::MAX), (0, 0)] {
            call(
                &mut self.counts,
                callers,
                position,
                case,
                &mut self.workspace,
                &mut self.answer,
            );
        }
    }

    // The calls of an accepted sheet: with an answer buffer as long as the answer, and the workspace one word short and long enough; then with an answer buffer that is one word short, far longer, and empty.
    fn accepted(&mut self, case: Case<'_>) {
        let full = case.expected.len();
        self.lend(case.refused(1), 16383, full);
        self.lend(case, 16384, full);
        if full == 0 {
            self.counts.differs();
            return;
        }
        self.lend(case.refused(9), 16384, full - 1);
        self.lend(case, LENT, LENT);
        self.lend(case.refused(9), 16385, 0);
    }

    // The calls of a sheet that is refused: workspaces that are too short, long enough and longer, answer buffers long and empty.
    fn refused(&mut self, case: Case<'_>) {
        let case = case.refused(case.refusal);
        self.lend(case.refused(1), 16383, 300);
        self.lend(case.refused(1), 0, 17);
        self.lend(case, 16384, LENT);
        self.lend(case, LENT, 0);
    }

    // All calls of a record.
    fn record(&mut self, words: &[u32]) {
        let n = count_at(words, 0);
        if words.len() < n + 3 {
            self.counts.differs();
            return;
        }
        let case = Case {
            sheet: &words[1..n + 1],
            refusal: words[n + 1],
            expected: &words[n + 3..],
        };
        if count_at(words, n + 2) != case.expected.len() {
            self.counts.differs();
            return;
        }
        self.counts.sheets = self.counts.sheets.saturating_add(1);
        self.outside(case);
        if case.refusal == 0 {
            self.accepted(case);
        } else {
            self.refused(case);
        }
    }

    // All records of a part, each after the number of its words; 0 ends the part.
    fn part(&mut self, part: &[u32]) {
        let mut rest = part;
        while let Some((_, behind)) = rest.split_first() {
            let n = count_at(rest, 0);
            if n == 0 {
                return;
            }
            if behind.len() < n {
                self.counts.differs();
                return;
            }
            self.record(&behind[..n]);
            rest = &behind[n..];
        }
    }

    // The next part of the file.
    fn next_part<R: Read>(&mut self, alloc: Global, file: &mut R) -> io::Result<()> {
        let mut bytes = Vec::new(alloc);
        file.take(PART_BYTES).read_to_end(&mut bytes)?;
        let mut words = [0; 32768];
        let count = load_words(&bytes, &mut words);
        self.part(&words[..count]);
        Ok(())
    }
}

// The largest serial is next for the second caller, so that its first sheet crosses the wrap while the others stay.
fn main(rt: HostRuntime) -> io::Result<()> {
    let mut replay = Replay {
        counts: Counts {
            sheets: 0,
            calls: 0,
            different: 0,
            serials: [0, 4294967295, 7, 4294967000],
        },
        workspace: [0; LENT],
        answer: [0; LENT],
    };
    let mut file = fs::open(&rt, "answers.bin")?;
    for _ in 0..PARTS {
        replay.next_part(rt.alloc(), &mut file)?;
    }
    let counts = &replay.counts;
    let [a, b, c, d] = counts.serials;
    println!(rt;
        "{} sheets, {} calls, {} different, next serials {a} {b} {c} {d}",
        counts.sheets, counts.calls, counts.different,
    )
}

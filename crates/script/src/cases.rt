// The run over the lines of a script.
ghost use Rattle.std.specs.Prelude.{◌↔◌, IfOk, IsTrue};
ghost use Rattle.script.specs.Outcome.{Agrees};

use super::groups::Groups;
use super::outcome::{Outcome, Refused};
use input::read_full;
use std::io;
use std::io::Read;

// What a case came to, and the refusal that the script has, if any.
#[derive(Clone, Copy)]
pub struct Case {
    pub came: Outcome,
    pub wanted: Option<Refused>,
}

// What a program makes of the lines of its script.
pub trait Cases {
    // The case of a line, or none where the line only says what the next cases stand on.
    fn line(&mut self, line: &[u8]) -> Option<Case>;
}

// Runs the script that `input` reads, and prints what it came to. Answers how many cases came out otherwise.
pub fn run<R: Print, I: Read, C: Cases>(rt: &R, input: &mut I, cases: &mut C) -> io::Result<u64> {
    let mut script = [0; 65_536];
    let n = read_full(input, &mut script)?;
    run_lines(rt, &script[..n], cases)
}

fn run_lines<R: Print, C: Cases>(rt: &R, script: &[u8], cases: &mut C) -> io::Result<u64> {
    let mut groups = Groups::new();
    for line in script.split(|byte| *byte == b'\n') {
        match line.first() {
            None | Some(0 | b'#') => {}
            Some(b'g') => {
                groups.print_group(rt)?;
                groups.begin(line.get(6..).unwrap_or_default());
            }
            Some(_) => {
                if let Some(case) = cases.line(line) {
                    groups.count(judge(rt, line, case)?);
                }
            }
        }
    }
    groups.finish(rt)
}

// Whether a case came to what the script says, and a line for it where it did not.
fn judge<R: Print>(rt: &R, line: &[u8], case: Case) -> io::Result<bool>
    ensures { IfOk result (λ right. IsTrue right ↔ Agrees case.came case.wanted) }
{
    let right = case.came.is(case.wanted);
    if !right {
        rt.write_all(b"wrong ")?;
        rt.write_all(line)?;
        println!(rt; " came={}", case.came)?;
    }
    Ok(right)
}

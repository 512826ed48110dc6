// Works out cases that stand on standard input, one to a line, and compares each with the result that the line expects.
#![tactic(auto)]

ghost use Rattle.std.specs.Prelude.{◌≡◌, ◌≤◌, Bool, vec_len, Decides};
ghost use Rattle.value.specs.Outcome.{outcome};
ghost use Rattle.vector.specs.Counts.{with_case, Counted};
ghost use Rattle.vector.specs.Worked.{worked};

use answer::faults::Fault;
use notation::reading;
use notation::reading::{Entry, Unread};
use std::alloc::AllocError;
use std::io;
use std::io::{BufRead, BufReader};
use value::rows::RegionRecord;
use value::text::Answer;
use value::values::Value;
use vector::tally::Tally;
use vector::working;
use vector::working::Case;

// What is kept from line to line: the malloc regions that cases are tried with, and the tally.
#[derive(Drop)]
struct Bench {
    regions: Vec<RegionRecord>,
    tally: Tally,
    ghost few: { vec_len regions ≤ 64 },
}

impl Bench {
    fn try_case(
        &mut self,
        rt: &HostRuntime,
        line: u64,
        case: Case,
        expected: Result<Value, Fault>,
    ) -> io::Result<()>
        ensures regions { self.new.regions ≡ self.old.regions }
        ensures counts { (agreed : Bool) × Decides agreed (worked self.old.regions.items case ≡ outcome expected) × (self.new.tally ≡ with_case agreed self.old.tally) }
    {
        let answer = working::evaluate(case, self.regions.as_slice());
        let agreed = working::agrees(answer, expected);
        self.tally.count_case(agreed);
        if agreed {
            return Ok(());
        }
        let answer = Answer(answer);
        let expected = Answer(expected);
        println!(rt; "line {line}: expected {expected}, worked out {answer}")
    }

    fn take_line(&mut self, rt: &HostRuntime, line: u64, text: &[u8]) -> io::Result<()>
        ensures { Counted self.old.tally self.new.tally }
    {
        match reading::read(rt.alloc(), text) {
            Ok(Entry::Nothing) => Ok(()),
            Ok(Entry::Sizes(regions)) => {
                self.regions = regions;
                Ok(())
            }
            Ok(Entry::Try(case, expected)) => self.try_case(rt, line, case, expected),
            Err(Unread::Malformed(reason)) => {
                self.tally.count_malformed();
                println!(rt; "line {line}: malformed: {reason}")
            }
            Err(Unread::NoMemory) => Err(AllocError.into()),
        }
    }
}

fn main(rt: HostRuntime) -> io::Result<()> {
    let mut input = BufReader::new(rt.alloc(), rt.stdin())?;
    let mut text = Vec::new(rt.alloc());
    let mut bench = Bench {
        regions: Vec::new(rt.alloc()),
        tally: Tally::new(),
    };
    for line in 1..u64::MAX {
        text.clear();
        if input.read_until(b'\n', &mut text)? == 0 {
            break;
        }
        bench.take_line(&rt, line, text.as_slice())?;
    }
    println!(rt; "{}", bench.tally)
}

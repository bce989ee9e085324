//! Answers for files with an instance on each line, read line by line.
#![tactic(auto, using(crate::proofs::Counting::counts_same, crate::proofs::Counting::counts_missed, crate::proofs::Counting::counts_on))]

ghost use Rattle.command_line.specs.Tallies.{Counts, IsRight};

use crate::answerer::Answerer;
use crate::desk::{Desk, Stop};
use crate::envelopes::{Subject, unanswered};
use crate::lines::{cut_ending, is_blank};
use crate::options::{Options, Output, STANDARD_INPUT};
use crate::outcomes::Outcome;
use crate::reports::{line_fault, unread_report};
use crate::tally::Tally;
use crate::telling::tell_unread;
use crate::watch::Watch;
use schema_reports::OutOfMemory;
use serde_json::Value;
use std::alloc::AllocError;
use std::fs;
use std::io::{BufRead, BufReader, Read};

/// The number of bytes of a file that are read at once.
const AT_ONCE: usize = 65536;

/// A file of lines, and the options by which it is answered for.
#[derive(Clone, Copy)]
struct Asked<'a, 'w> {
    rt: &'a HostRuntime,
    options: &'a Options<'w>,
    file: &'a str,
}

impl<'a, 'w> Asked<'a, 'w> {
    fn subject(&self, number: u64) -> Subject<'a> {
        Subject {
            schema: self.options.schema,
            instance: self.file,
            line: Some(number),
        }
    }

    fn answer<A: Answerer>(
        &self,
        answerer: &A,
        desk: &mut Desk,
        number: u64,
        instance: &Value,
    ) -> Result<Outcome, OutOfMemory>
        ensures counts { Counts (IsRight (A.Answerer.right answerer.now)) desk.old.tally desk.new.tally }
    {
        let subject = self.subject(number);
        let alloc = self.rt.alloc();
        let answer = answerer.answer(alloc, desk.style, subject, instance)?;
        let outcome = answer.0;
        desk.write(answer);
        Ok(outcome)
    }

    /// Returns the text printed for a line that is not JSON.
    fn unread(&self, number: u64, fault: &serde_json::Error) -> Result<String, OutOfMemory> {
        let alloc = self.rt.alloc();
        let subject = self.subject(number);
        let why = line_fault(alloc, fault)?;
        let text = match self.options.output {
            Output::Text => unread_report(alloc, subject, why.as_str()),
            output => unanswered(alloc, output, subject, why.as_str()),
        };
        drop(why);
        text
    }

    fn take<A: Answerer>(
        &self,
        answerer: &A,
        desk: &mut Desk,
        number: u64,
        line: &[u8],
    ) -> Result<Outcome, OutOfMemory>
        ensures counts { Counts (IsRight (A.Answerer.right answerer.now)) desk.old.tally desk.new.tally }
    {
        match Value::from_slice(self.rt.alloc(), line) {
            Ok(instance) => {
                let outcome = self.answer(answerer, desk, number, &instance);
                drop(instance);
                outcome
            }
            Err(fault) if fault.is_memory() => Err(AllocError),
            Err(fault) => {
                let text = self.unread(number, &fault);
                drop(fault);
                desk.write((Outcome::Unanswered, text?));
                Ok(Outcome::Unanswered)
            }
        }
    }

    /// Answers for a line and counts it, unless it is blank.
    fn count<A: Answerer>(
        &self,
        answerer: &A,
        desk: &mut Desk,
        number: u64,
        line: &[u8],
        tally: &mut Tally,
    ) -> Result<(), OutOfMemory>
        ensures counts { Counts (IsRight (A.Answerer.right answerer.now)) desk.old.tally desk.new.tally }
    {
        if !is_blank(line) {
            tally.count(self.take(answerer, desk, number, line)?);
        }
        Ok(())
    }

    /// Reads the next line into `line`, answers for it and counts it.
    ///
    /// Returns whether there was one.
    fn answer_next<A: Answerer, R: BufRead>(
        &self,
        answerer: &A,
        desk: &mut Desk,
        reader: &mut R,
        line: &mut Vec<u8>,
        number: u64,
        tally: &mut Tally,
    ) -> Result<bool, Stop>
        ensures counts { Counts (IsRight (A.Answerer.right answerer.now)) desk.old.tally desk.new.tally }
    {
        line.clear();
        match reader.read_until(b'\n', line) {
            Ok(0) => Ok(false),
            Ok(_) => {
                cut_ending(line);
                self.count(answerer, desk, number, line.as_slice(), tally)?;
                Ok(true)
            }
            Err(fault) => Err(tell_unread(self.rt, self.file, &fault)),
        }
    }

    fn answer_each<A: Answerer, R: BufRead>(
        &self,
        answerer: &A,
        desk: &mut Desk,
        reader: &mut R,
        tally: &mut Tally,
        watch: &mut Watch,
    ) -> Result<(), Stop>
        ensures counts { Counts (IsRight (A.Answerer.right answerer.now)) desk.old.tally desk.new.tally }
    {
        let mut line = Vec::new(self.rt.alloc());
        for number in 1..u64::MAX {
            if !self.answer_next(answerer, desk, reader, &mut line, number, tally)? {
                break;
            }
            if self.options.progress {
                watch.tell(self.rt, self.file, tally);
            }
        }
        Ok(())
    }

    /// Answers for the lines of a reader, and sums up.
    ///
    /// It sums up even if the reading ends early.
    fn answer_reader<A: Answerer, R: Read + Drop>(
        &self,
        answerer: &A,
        desk: &mut Desk,
        reader: R,
    ) -> Result<(), Stop>
        ensures counts { Counts (IsRight (A.Answerer.right answerer.now)) desk.old.tally desk.new.tally }
    {
        let Ok(mut reader) = BufReader::with_capacity(self.rt.alloc(), AT_ONCE, reader) else {
            return Err(Stop::OutOfMemory);
        };
        let mut tally = Tally::new();
        let mut watch = Watch::new(self.rt);
        let ended = self.answer_each(answerer, desk, &mut reader, &mut tally, &mut watch);
        drop(reader);
        watch.sum_up(self.rt, desk, self.file, &tally)?;
        ended
    }
}

/// Answers for the lines of a file, or of standard input.
pub(crate) fn answer_lines<A: Answerer>(
    rt: &HostRuntime,
    desk: &mut Desk,
    options: &Options<'_>,
    answerer: &A,
    file: &str,
) -> Result<(), Stop>
    ensures counts { Counts (IsRight (A.Answerer.right answerer.now)) desk.old.tally desk.new.tally }
{
    let asked = Asked { rt, options, file };
    if file == STANDARD_INPUT {
        return asked.answer_reader(answerer, desk, rt.stdin());
    }
    match fs::open(rt, file) {
        Ok(opened) => asked.answer_reader(answerer, desk, opened),
        Err(fault) => Err(tell_unread(rt, file, &fault)),
    }
}

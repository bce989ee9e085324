//! Answers for files that hold one instance each, and for folders of them.
#![tactic(auto, using(crate::proofs::Counting::counts_same, crate::proofs::Counting::counts_missed, crate::proofs::Counting::counts_on))]

ghost use Rattle.std.specs.Prelude.{◌≡◌};
ghost use Rattle.command_line.specs.Tallies.{Counts, IsRight};

use crate::answerer::Answerer;
use crate::desk::{Desk, Stop};
use crate::envelopes::{Subject, unanswered};
use crate::options::{Options, Output, STANDARD_INPUT};
use crate::outcomes::Outcome;
use crate::reading::{Fault, read_value, tell_fault};
use crate::telling::tell_unread;
use schema_reports::OutOfMemory;
use serde_json::Value;
use std::{fs, io};

/// How files are answered for.
#[derive(Clone, Copy)]
struct Asked<'a, 'w, A> {
    rt: &'a HostRuntime,
    options: &'a Options<'w>,
    answerer: &'a A,
}

/// Returns the text printed for a file that has no value. Outputs for programs alone have one.
fn fault_text(
    rt: &HostRuntime,
    output: Output,
    subject: Subject<'_>,
    fault: &Fault,
) -> Result<String, OutOfMemory> {
    let alloc = rt.alloc();
    if output == Output::Text {
        return Ok(String::new(alloc));
    }
    let why = format!(in alloc; "{fault}")?;
    let text = unanswered(alloc, output, subject, why.as_str());
    drop(why);
    text
}

/// Returns the paths of the files in a folder whose names end in `.json`, in order.
fn files_in(rt: &HostRuntime, folder: &str) -> io::Result<Vec<String>> {
    let mut files = Vec::new(rt.alloc());
    for entry in fs::read_dir(rt, folder)? {
        let entry = entry?;
        if entry.file_name().ends_with(".json") {
            files.push(String::from_str(rt.alloc(), entry.path().as_str())?)?;
        }
    }
    files.sort()?;
    Ok(files)
}

/// Returns whether there is a folder at this path.
fn is_folder(rt: &HostRuntime, path: &str) -> bool {
    path != STANDARD_INPUT && fs::metadata(rt, path).is_ok_and(|found| found.is_dir())
}

impl<A: Answerer> Asked<'_, '_, A> {
    fn answer_value(
        &self,
        desk: &mut Desk,
        subject: Subject<'_>,
        instance: &Value,
    ) -> Result<(), OutOfMemory>
        ensures counts { Counts (IsRight (A.Answerer.right self.now.answerer.now)) desk.old.tally desk.new.tally }
    {
        let alloc = self.rt.alloc();
        let answer = self.answerer.answer(alloc, desk.style, subject, instance)?;
        desk.write(answer);
        Ok(())
    }

    /// Reports that a file has no value, and counts it.
    fn miss(&self, desk: &mut Desk, subject: Subject<'_>, fault: &Fault) -> Result<(), Stop>
        ensures counts { Counts (IsRight (A.Answerer.right self.now.answerer.now)) desk.old.tally desk.new.tally }
    {
        match tell_fault(self.rt, subject.instance, fault) {
            Stop::Told => {
                let text = fault_text(self.rt, desk.style.output, subject, fault)?;
                desk.write((Outcome::Unanswered, text));
                Ok(())
            }
            Stop::OutOfMemory => Err(Stop::OutOfMemory),
        }
    }

    fn answer_file(&self, desk: &mut Desk, file: &str) -> Result<(), Stop>
        ensures counts { Counts (IsRight (A.Answerer.right self.now.answerer.now)) desk.old.tally desk.new.tally }
    {
        let subject = Subject {
            schema: self.options.schema,
            instance: file,
            line: None,
        };
        match read_value(self.rt, file) {
            Ok(instance) => {
                let answered = self.answer_value(desk, subject, &instance);
                drop(instance);
                Ok(answered?)
            }
            Err(fault) => {
                let missed = self.miss(desk, subject, &fault);
                drop(fault);
                missed
            }
        }
    }

    fn answer_each(&self, desk: &mut Desk, files: &[String]) -> Result<(), Stop>
        ensures counts { Counts (IsRight (A.Answerer.right self.now.answerer.now)) desk.old.tally desk.new.tally }
    {
        for file in files {
            self.answer_file(desk, file.as_str())?;
        }
        Ok(())
    }

    /// Answers for the files of a folder.
    fn answer_folder(&self, desk: &mut Desk, folder: &str) -> Result<(), Stop>
        ensures counts { Counts (IsRight (A.Answerer.right self.now.answerer.now)) desk.old.tally desk.new.tally }
    {
        match files_in(self.rt, folder) {
            Ok(files) => {
                let answered = self.answer_each(desk, files.as_slice());
                drop(files);
                answered
            }
            Err(fault) => {
                let stop = tell_unread(self.rt, folder, &fault);
                drop(fault);
                Err(stop)
            }
        }
    }

    fn answer_path(&self, desk: &mut Desk, path: &str) -> Result<(), Stop>
        ensures counts { Counts (IsRight (A.Answerer.right self.now.answerer.now)) desk.old.tally desk.new.tally }
    {
        if is_folder(self.rt, path) {
            self.answer_folder(desk, path)
        } else {
            self.answer_file(desk, path)
        }
    }
}

/// Says how many files were answered for, if it was more than one.
///
/// The counts go to the desk if the output is text, and otherwise to standard error.
fn sum_up(rt: &HostRuntime, desk: &mut Desk) -> Result<(), OutOfMemory>
    ensures same { desk.new.tally ≡ desk.old.tally }
{
    if desk.tally.instances <= 1 {
        return Ok(());
    }
    let text = desk.tally.text(rt.alloc(), "files")?;
    desk.say(rt, text.as_str());
    drop(text);
    Ok(())
}

/// Answers for each of the files and folders, and continues after one that has no answer.
pub(crate) fn answer_files<A: Answerer>(
    rt: &HostRuntime,
    desk: &mut Desk,
    options: &Options<'_>,
    answerer: &A,
) -> Result<(), Stop>
    ensures counts { Counts (IsRight (A.Answerer.right answerer.now)) desk.old.tally desk.new.tally }
{
    let asked = Asked {
        rt,
        options,
        answerer,
    };
    for path in &options.instances {
        asked.answer_path(desk, *path)?;
    }
    if options.instances.is_empty() && options.lines.is_none() && options.output == Output::Text {
        desk.put("the schema is accepted\n");
    }
    Ok(sum_up(rt, desk)?)
}

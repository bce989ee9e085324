//! The program, from its arguments to its output and status.
ghost use Rattle.std.specs.Prelude.{◌≡◌, Bool, IfOk, IfErr, OnErr, OnOk, string_bytes};
ghost use Rattle.std.specs.Io.KnownBytes.{Appends, Keeps};
ghost use Rattle.theory_definitions.specs.Instance.{Text};
ghost use Rattle.bench_program.specs.declared.program.faults.Fault.{Fault};
ghost use Rattle.bench_program.specs.ProgramFaults.{FaultStands, fault_line};
ghost use Rattle.bench_program.specs.ProgramMeaning.{AnswersWords};
ghost use Rattle.bench_program.specs.ProgramRuns.{IsAnswer, IsRefusal, UnlessUnwritten, answer_status, fault_status};
ghost use Rattle.bench_program.specs.ProgramViews.{texts};
ghost use Rattle.bench_program.specs.ProgramWords.{call_in};

pub mod answers;
pub mod arguments;
pub mod faults;
pub mod requests;

use crate::narrow::narrow_resolver;
use crate::program::answers::{Answer, ask};
use crate::program::faults::Fault;
use crate::program::requests::{Request, request_in};
use bench_parts::{BenchMatcher, BenchMeta};
use schema_drafts::{Draft, VocabularySet};
use schema_engine::Validator;
use standard_basics::{BasicKeyword, BasicTable};
use std::alloc::Global;
use std::io;
use std::io::Write;

/// How a run of the program ends.
#[derive(Clone, Copy, Debug, PartialEq, Eq)]
pub enum Status {
    /// The instance is accepted.
    Accepted,
    /// The instance is refused.
    Refused,
    /// The schema is refused.
    BuildRefused,
    /// The arguments are not as the usage line says, or one is not JSON.
    BadWords,
    OutOfMemory,
    /// The output could not be written.
    WriteFailed,
}

impl Status {
    ghost use Rattle.bench_program.specs.ProgramRuns.{code_of};

    /// Returns the exit status: 0 to 5, in the order of the variants.
    pub fn code(self) -> u8
        ensures code { result ≡ code_of self }
    {
        match self {
            Status::Accepted => 0,
            Status::Refused => 1,
            Status::BuildRefused => 2,
            Status::BadWords => 3,
            Status::OutOfMemory => 4,
            Status::WriteFailed => 5,
        }
    }
}

/// Returns the answer to the arguments.
fn answer_to(alloc: Global, words: &[Vec<u8>]) -> Result<Answer, Fault>
    ensures answer { IfOk result (λ a. AnswersWords (texts words.now) a.accepted (string_bytes a.text)) }
    ensures fault { IfErr result (FaultStands (texts words.now)) }
    ensures usage { call_in (texts words.now) ≡ None → result ≡ Err Fault.Usage }
{
    let Request {
        call,
        schema,
        instance,
        unfinished,
    } = request_in(alloc, words)?;
    let resolver = narrow_resolver(
        alloc,
        Draft::Draft202012,
        &schema,
        VocabularySet::new(alloc),
    )?;
    let matcher = BenchMatcher::new(unfinished);
    let validator = Validator::<BasicKeyword, BenchMatcher>::new(
        alloc,
        &schema,
        &BasicTable {},
        &resolver,
        &matcher,
        &BenchMeta {},
    )?;
    Ok(ask(alloc, &validator, call, &instance)?)
}

fn print<W: Write>(out: &mut W, text: &str) -> io::Result<()>
    ensures printed { OnOk result (Appends (W.contents out.old) (W.contents out.new) text.now) }
{
    out.write_all(text.as_bytes())?;
    out.flush()
}

/// Writes the line of a fault. Allocates nothing.
fn tell<E: Write>(err: &mut E, fault: Fault) -> io::Result<()>
    ensures told { OnOk result (Appends (E.contents err.old) (E.contents err.new) (fault_line fault)) }
{
    err.writeln(fault)?;
    err.flush()
}

/// Returns this status, or `WriteFailed` if the output could not be written.
fn written(writing: io::Result<()>, status: Status) -> Status
    ensures written { OnOk writing (result ≡ status) }
    ensures unwritten { OnErr writing (result ≡ Status.WriteFailed) }
{
    match writing {
        Ok(()) => status,
        Err(_unwritten) => Status::WriteFailed,
    }
}

/// Writes the line of a fault, and returns its status.
pub fn refuse<E: Write>(err: &mut E, fault: Fault) -> Status
    ensures status { UnlessUnwritten (fault_status fault) result }
    ensures line { result ≡ fault_status fault → Appends (E.contents err.old) (E.contents err.new) (fault_line fault) }
{
    written(tell(err, fault), fault.status())
}

/// Runs the program on its arguments.
///
/// These are MODE, SCHEMA, INSTANCE and perhaps UNFINISHED, as bytes. The answer is written to
/// `out`, or the reason why there is none to `err`, with a line feed after each line.
pub fn run<W: Write, E: Write>(alloc: Global, words: &[Vec<u8>], out: &mut W, err: &mut E) -> Status
    ensures answer { IsAnswer result → (accepted : Bool) × (result ≡ answer_status accepted)
        × (text : Text) × AnswersWords (texts words.now) accepted text × Appends (W.contents out.old) (W.contents out.new) text }
    ensures answer_alone { IsAnswer result → Keeps (E.contents err.old) (E.contents err.new) }
    ensures refusal { IsRefusal result → (fault : Fault) × (result ≡ fault_status fault) × FaultStands (texts words.now) fault
        × Appends (E.contents err.old) (E.contents err.new) (fault_line fault) }
    ensures refusal_alone { IsRefusal result → Keeps (W.contents out.old) (W.contents out.new) }
    ensures usage { call_in (texts words.now) ≡ None → UnlessUnwritten Status.BadWords result }
{
    match answer_to(alloc, words) {
        Ok(answer) => written(print(out, answer.text.as_str()), answer.status()),
        Err(fault) => refuse(err, fault),
    }
}

//! The words of a call, and how they are read.
ghost use Rattle.std.specs.Prelude.{◌≡◌, ◌≢◌};
ghost use Rattle.clap.specs.Words.{kind_of};
ghost use Rattle.command_line.specs.Outcomes.{code_of};

use crate::options::{Options, Output, Resource, draft_named};
use crate::outcomes::Outcome;
use crate::styles::Color;
use clap::error::ErrorKind;
use clap::{Arg, ArgAction, ArgMatches, Command, Error};
use schema_reports::OutOfMemory;
use std::alloc::Global;
use std::{env, io};

static DRAFTS: [&str; 5] = ["4", "6", "7", "2019-09", "2020-12"];

static OUTPUTS: [&str; 5] = ["text", "flag", "list", "basic", "hierarchical"];

static COLORS: [&str; 3] = ["auto", "always", "never"];

const ABOUT: &str = "Checks JSON by a JSON Schema, of drafts 4, 6, 7, 2019-09 and 2020-12.";

const AFTER: &str =
    "FILE and SCHEMA may be '-', once, which is standard input. A folder stands for its .json files. With neither FILE nor --lines the
schema alone is checked.

The status is 0 where all is accepted, 1 where one instance is refused, and 2 where one has no answer: a file that cannot be
read, text that is not JSON, a schema that is refused, a limit that is reached, words that are wrong, memory that cannot be had, or a
write that failed.";

/// Returns an option that takes a value.
fn option<'a>(alloc: Global, name: &'a str, value: &'a str, help: &'a str) -> Arg<'a> {
    Arg::new(alloc, name)
        .long(name)
        .value_name(value)
        .action(ArgAction::Set)
        .help(help)
}

/// Returns an option that takes no value.
fn flag<'a>(alloc: Global, name: &'a str, help: &'a str) -> Arg<'a> {
    Arg::new(alloc, name)
        .long(name)
        .action(ArgAction::SetTrue)
        .help(help)
}

fn schema_word<'a>(alloc: Global) -> Arg<'a> {
    Arg::new(alloc, "schema")
        .value_name("SCHEMA")
        .required(true)
        .help("The file of the schema")
}

fn file_words<'a>(alloc: Global) -> Arg<'a> {
    Arg::new(alloc, "file")
        .value_name("FILE")
        .action(ArgAction::Append)
        .help("Files of one instance each, or folders of such files")
}

fn instance_option<'a>(alloc: Global) -> Arg<'a> {
    let help = "A file of an instance, like FILE; may be given again";
    option(alloc, "instance", "FILE", help)
        .short('i')
        .action(ArgAction::Append)
}

fn lines_option<'a>(alloc: Global) -> Arg<'a> {
    let help = "A file of an instance a line; blank lines are passed over";
    option(alloc, "lines", "FILE", help)
}

fn resource_option<'a>(alloc: Global) -> Arg<'a> {
    let help = "A document that references find under this URI; may be given again";
    option(alloc, "resource", "URI=FILE", help).action(ArgAction::Append)
}

fn unlinked_flag<'a>(alloc: Global) -> Arg<'a> {
    let help = "Reads no file that only a reference of the schema names";
    flag(alloc, "no-files", help)
}

fn draft_option<'a>(alloc: Global) -> Arg<'a> {
    let help = "The draft of the schema, whatever its $schema says; else that one, or 2020-12";
    option(alloc, "draft", "DRAFT", help).value_parser(DRAFTS.as_slice())
}

fn output_option<'a>(alloc: Global) -> Arg<'a> {
    let help = "What is printed: text for people, or an object in JSON on a line for each instance";
    option(alloc, "output", "OUTPUT", help)
        .value_parser(OUTPUTS.as_slice())
        .default_value("text")
}

fn unchecked_flag<'a>(alloc: Global) -> Arg<'a> {
    let help = "Does not check the schema by its meta-schema";
    flag(alloc, "no-check", help)
}

fn progress_flag<'a>(alloc: Global) -> Result<Arg<'a>, OutOfMemory> {
    let help = "Tells on standard error each second how far the lines are read";
    flag(alloc, "progress", help).requires_arg("lines")
}

fn assert_flag<'a>(alloc: Global) -> Arg<'a> {
    let help = "Asserts formats; else drafts 4, 6 and 7 alone do";
    flag(alloc, "assert-format", help)
}

fn no_assert_flag<'a>(alloc: Global) -> Result<Arg<'a>, OutOfMemory> {
    let help = "Asserts no formats";
    flag(alloc, "no-assert-format", help).conflicts_with("assert-format")
}

fn color_option<'a>(alloc: Global) -> Arg<'a> {
    let help = "When verdicts are coloured: auto for a terminal, unless NO_COLOR is set";
    option(alloc, "color", "WHEN", help)
        .value_parser(COLORS.as_slice())
        .default_value("auto")
}

fn quiet_flag<'a>(alloc: Global) -> Arg<'a> {
    let help = "Writes nothing to standard output; the status says the answer";
    flag(alloc, "quiet", help).short('q')
}

fn verbose_flag<'a>(alloc: Global) -> Result<Arg<'a>, OutOfMemory> {
    let help = "Shows long values whole";
    flag(alloc, "verbose", help)
        .short('v')
        .conflicts_with("quiet")
}

fn run_limit_option<'a>(alloc: Global) -> Arg<'a> {
    let help = "How many runs an instance takes at most where matches stay unfinished; else 64";
    option(alloc, "run-limit", "N", help).value_parser(clap::value_parser!(u32).range(1..))
}

fn work_limit_option<'a>(alloc: Global) -> Arg<'a> {
    let help = "How many steps an instance takes at most; else any number";
    option(alloc, "work-limit", "N", help).value_parser(clap::value_parser!(u64))
}

fn depth_limit_option<'a>(alloc: Global) -> Arg<'a> {
    let help = "How many evaluations are open at once at most; 0 for any number";
    option(alloc, "depth-limit", "N", help)
        .value_parser(clap::value_parser!(usize))
        .default_value("1000")
}

fn nested_limit_option<'a>(alloc: Global) -> Arg<'a> {
    let help = "How many targets of references are compiled one inside another; else 4";
    option(alloc, "nested-limit", "N", help).value_parser(clap::value_parser!(usize))
}

/// Adds the options that name files.
///
/// Arguments are made one after the other, so that few of them have to be dropped at each exit.
fn files<'a>(alloc: Global, command: Command<'a>) -> Result<Command<'a>, OutOfMemory> {
    let command = command.arg(schema_word(alloc))?;
    let command = command.arg(file_words(alloc))?;
    let command = command.arg(instance_option(alloc))?;
    let command = command.arg(lines_option(alloc))?;
    let command = command.arg(resource_option(alloc))?;
    command.arg(unlinked_flag(alloc))
}

/// Adds the options that choose how schemas are read.
fn manners<'a>(alloc: Global, command: Command<'a>) -> Result<Command<'a>, OutOfMemory> {
    let command = command.arg(draft_option(alloc))?;
    let command = command.arg(assert_flag(alloc))?;
    let unasserted = no_assert_flag(alloc)?;
    let command = command.arg(unasserted)?;
    command.arg(unchecked_flag(alloc))
}

/// Adds the options that choose what is shown.
fn outputs<'a>(alloc: Global, command: Command<'a>) -> Result<Command<'a>, OutOfMemory> {
    let command = command.arg(output_option(alloc))?;
    let command = command.arg(color_option(alloc))?;
    let command = command.arg(quiet_flag(alloc))?;
    let verbose = verbose_flag(alloc)?;
    let command = command.arg(verbose)?;
    let progress = progress_flag(alloc)?;
    command.arg(progress)
}

fn limits<'a>(alloc: Global, command: Command<'a>) -> Result<Command<'a>, OutOfMemory> {
    let command = command.arg(run_limit_option(alloc))?;
    let command = command.arg(work_limit_option(alloc))?;
    let command = command.arg(depth_limit_option(alloc))?;
    command.arg(nested_limit_option(alloc))
}

/// Returns the command, as `--help` shows it.
fn command<'a>(alloc: Global) -> Result<Command<'a>, OutOfMemory> {
    let command = Command::new(alloc, "jsonschema")
        .version("0.1.0")
        .about(ABOUT)
        .after_help(AFTER);
    limits(
        alloc,
        outputs(alloc, manners(alloc, files(alloc, command)?)?)?,
    )
}

fn values_of<'w>(
    alloc: Global,
    matches: &ArgMatches<'w>,
    id: &str,
) -> Result<Vec<&'w str>, OutOfMemory> {
    match matches.get_strs(id) {
        Some(values) => Vec::from_slice(alloc, values),
        None => Ok(Vec::new(alloc)),
    }
}

/// Returns the files and folders of instances that the matches name.
fn instances_of<'w>(alloc: Global, matches: &ArgMatches<'w>) -> Result<Vec<&'w str>, OutOfMemory> {
    let mut files = values_of(alloc, matches, "file")?;
    if let Some(more) = matches.get_strs("instance") {
        files.extend_from_slice(more)?;
    }
    Ok(files)
}

/// Returns whether formats are asserted, if the matches choose it.
fn formats_of(matches: &ArgMatches<'_>) -> Option<bool> {
    if matches.get_flag("assert-format") {
        Some(true)
    } else if matches.get_flag("no-assert-format") {
        Some(false)
    } else {
        None
    }
}

/// Returns the resources of these words.
///
/// If a word names none, the first such word is an inner `Err`.
fn resources_of<'w>(
    alloc: Global,
    words: &[&'w str],
) -> Result<Result<Vec<Resource<'w>>, &'w str>, OutOfMemory> {
    let mut resources = Vec::new(alloc);
    for word in words {
        match Resource::named(*word) {
            Some(resource) => resources.push(resource)?,
            None => return Ok(Err(*word)),
        }
    }
    Ok(Ok(resources))
}

/// Returns the limit on depth, unless it is 0.
fn depth_limit_of(matches: &ArgMatches<'_>) -> Option<usize> {
    matches
        .get_one::<usize>("depth-limit")
        .filter(|limit| *limit > 0)
}

fn options_of<'w>(
    alloc: Global,
    matches: &ArgMatches<'w>,
    resources: Vec<Resource<'w>>,
) -> Result<Options<'w>, OutOfMemory> {
    Ok(Options {
        schema: matches.get_str("schema").unwrap_or("-"),
        instances: instances_of(alloc, matches)?,
        lines: matches.get_str("lines"),
        resources,
        linked: !matches.get_flag("no-files"),
        draft: matches.get_str("draft").and_then(draft_named),
        formats: formats_of(matches),
        output: matches
            .get_str("output")
            .and_then(Output::named)
            .unwrap_or(Output::Text),
        color: matches
            .get_str("color")
            .and_then(Color::named)
            .unwrap_or(Color::Auto),
        quiet: matches.get_flag("quiet"),
        verbose: matches.get_flag("verbose"),
        checked: !matches.get_flag("no-check"),
        run_limit: matches.get_one::<u32>("run-limit"),
        work_limit: matches.get_one::<u64>("work-limit"),
        depth_limit: depth_limit_of(matches),
        nested_limit: matches.get_one::<usize>("nested-limit"),
        progress: matches.get_flag("progress"),
    })
}

/// Returns the resources that the matches name.
///
/// If a word names none, the first such word is an inner `Err`.
fn resources_in<'w>(
    alloc: Global,
    matches: &ArgMatches<'w>,
) -> Result<Result<Vec<Resource<'w>>, &'w str>, OutOfMemory> {
    let words = values_of(alloc, matches, "resource")?;
    let resources = resources_of(alloc, words.as_slice());
    drop(words);
    resources
}

/// Returns the error for words that name no resource, with the usage.
fn no_resource<'w>(
    alloc: Global,
    command: &mut Command<'w>,
    word: &str,
) -> Result<Error, OutOfMemory> {
    let message = format!(in alloc; "'{word}' is not URI=FILE, as '--resource' takes it")?;
    let error = command.error(ErrorKind::ValueValidation, message.as_str());
    drop(message);
    error
}

/// Returns the options, or an error with the command's usage.
///
/// It is an error if the options read standard input more than once.
fn reading_once<'w>(command: &mut Command<'w>, options: Options<'w>) -> Result<Options<'w>, Error> {
    if options.inputs() <= 1 {
        return Ok(options);
    }
    drop(options);
    let told = "standard input, '-', can be read only once";
    Err(command.error(ErrorKind::ArgumentConflict, told)?)
}

/// Returns the chosen options, or an error with the command's usage.
fn checked_options<'w>(
    alloc: Global,
    command: &mut Command<'w>,
    matches: &ArgMatches<'w>,
) -> Result<Options<'w>, Error> {
    match resources_in(alloc, matches)? {
        Ok(resources) => {
            let options = options_of(alloc, matches, resources)?;
            reading_once(command, options)
        }
        Err(word) => Err(no_resource(alloc, command, word)?),
    }
}

fn options_by<'w>(
    alloc: Global,
    command: &mut Command<'w>,
    words: &'w [String],
) -> Result<Options<'w>, Error> {
    let matches = command.try_get_matches_from_mut(words)?;
    let options = checked_options(alloc, command, &matches);
    drop(matches);
    options
}

/// Returns the options that the words choose.
///
/// The first word is the program's name.
///
/// # Errors
///
/// The words are wrong, they request help or the version, or out of memory. The error prints the
/// text to show.
pub fn options_in<'w>(alloc: Global, words: &'w [String]) -> Result<Options<'w>, Error> {
    let mut command = command(alloc)?;
    let options = options_by(alloc, &mut command, words);
    drop(command);
    options
}

/// Returns the words of the call, the program's name first.
///
/// # Errors
///
/// A word is not UTF-8, or out of memory.
pub fn given_words(rt: &HostRuntime) -> io::Result<Vec<String>> {
    let words: Vec<String> = env::args(rt)?.collect(rt.alloc())?;
    Ok(words)
}

/// Prints the text shown in place of an answer, and returns the outcome.
///
/// Help and the version count as accepted.
pub fn say(rt: &HostRuntime, told: Error) -> Outcome
    ensures wrong { kind_of told ≢ ErrorKind.DisplayHelp → kind_of told ≢ ErrorKind.DisplayVersion → code_of result ≡ 2 }
    ensures no_refusal { code_of result ≢ 1 }
{
    let printed = told.print(rt);
    let wrong = told.use_stderr() || printed.is_err();
    drop(told);
    if wrong {
        Outcome::Unanswered
    } else {
        Outcome::Accepted
    }
}

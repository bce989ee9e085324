//! The output of the program `engine_bench` and its status, through `run`.
//!
//! The tests compare printed texts to the letter, and statuses. They cover faults in the words,
//! words that are not UTF-8, writers that refuse, and the words of a process.
use bench_program::{Fault, given_words, refuse, run};
use schema_reports::OutOfMemory;
use serde_json::Value;
use std::alloc::Global;
use std::slice::from_ref;
use test_parts::{NarrowWriter, TwoWords, are_two_words, push_written, with_words};
use test_rows::{column, list_at, number_at};

/// Returns the writer of a row.
///
/// Column 3 is how many bytes it takes, if not all; if column 4 is false, its flush fails.
fn writer_of(alloc: Global, row: &Value) -> NarrowWriter {
    NarrowWriter {
        taken: Vec::new(alloc),
        room: number_at(row, 3).unwrap_or(usize::MAX),
        flushes: column(row, 4).as_bool() != Some(false),
    }
}

/// Adds the output of the program for its words.
fn push_run(
    alloc: Global,
    row: &Value,
    words: &[Vec<u8>],
    log: &mut String,
) -> Result<(), OutOfMemory> {
    let mut out = writer_of(alloc, row);
    let mut err = writer_of(alloc, row);
    let code = run(alloc, words, &mut out, &mut err).code();
    let pushed = push_written(log, out.taken.as_slice(), err.taken.as_slice(), code);
    drop(out);
    drop(err);
    pushed
}

/// Adds the output of the program for a row's words.
///
/// The program is run in each mode of column 1, or with the words alone if there is none.
pub(crate) fn tell_program(
    alloc: Global,
    row: &Value,
    log: &mut String,
) -> Result<(), OutOfMemory> {
    let modes = list_at(row, 1);
    if modes.is_empty() {
        let words = with_words(alloc, Vec::new(alloc), list_at(row, 2))?;
        return push_run(alloc, row, words.as_slice(), log);
    }
    for mode in modes {
        let begun = with_words(alloc, Vec::new(alloc), from_ref(mode))?;
        let words = with_words(alloc, begun, list_at(row, 2))?;
        push_run(alloc, row, words.as_slice(), log)?;
    }
    Ok(())
}

/// Returns whether lack of memory is reported by its line and its status.
fn tells_want_of_memory(alloc: Global) -> bool {
    let mut err = writer_of(alloc, &Value::Null);
    let code = refuse(&mut err, Fault::OutOfMemory).code();
    code == 4 && err.taken.as_slice() == b"out of memory\n".as_slice()
}

#[test]
fn words_of_the_process_and_want_of_memory(rt: HostRuntime) -> Result<(), OutOfMemory> {
    let words = given_words(rt.alloc(), &TwoWords {})?;
    let given = are_two_words(words.as_slice());
    drop(words);
    assert!(rt; given);
    assert!(rt; tells_want_of_memory(rt.alloc()));
    Ok(())
}

// The output, each mode (or none), and words. The rows have each form of an answer, to the letter:
// none, one and several lines, a failure, the place of a name, and a list.
pub(crate) const ANSWERS: &str = r##"[
["true\n0;ok\n0;0;", ["valid","first","errors"], [{"type":"string"},"\"AB\"",[]]],
[["false\n1;","\t/type\t/type\t1 is not of type \"string\"\n1;","\t/type\t/type\t1 is not of type \"string\"\n1;"],
 ["valid","first","errors"], [{"type":"string"},1,[]]],
[["false\n1;","\t\t\tFalse schema does not allow null\n1;","\t\t\tFalse schema does not allow null\n1;"],
 ["valid","first","errors"], [false,"null",[]]],
[["false\n1;",
  "\t/required\t/required\t\"c\" is a required property\n1;",
  "\t/required\t/required\t\"c\" is a required property\n",
  "/a\t/properties/a/type\t/properties/a/type\t1 is not of type \"string\"\n",
  "/b\t/properties/b/type\t/properties/b/type\t2 is not of type \"string\"\n1;"],
 ["valid","first","errors"], [{"properties":{"a":{"type":"string"},"b":{"type":"string"}},"required":["c"]},{"a":1,"b":2},[]]],
[["false\n1;",
  "\t/minProperties\t/minProperties\t{\"a\":3} has less than 2 properties\n1;",
  "\t/minProperties\t/minProperties\t{\"a\":3} has less than 2 properties\n",
  "\t/propertyNames/minLength\t/propertyNames/minLength\t\"a\" is shorter than 3 characters\n1;"],
 ["valid","first","errors"], [{"minProperties":2,"propertyNames":{"minLength":3}},{"a":3},[]]],
[["false\n1;",
  "/x\t/$defs/s/type\t/properties/x/$ref/type\t1 is not of type \"string\"\n1;",
  "/x\t/$defs/s/type\t/properties/x/$ref/type\t1 is not of type \"string\"\n1;"],
 ["valid","first","errors"], [{"properties":{"x":{"$ref":"#/$defs/s"}},"$defs":{"s":{"type":"string"}}},{"x":1},[]]],
[["false\n1;",
  "\t/not/pattern\t/not/pattern\tError executing regex: Max limit for backtracking count exceeded\n1;",
  "\t/not/pattern\t/not/pattern\tError executing regex: Max limit for backtracking count exceeded\n1;"],
 ["valid","first","errors"], [{"not":{"pattern":"(?<=ab)c"}},"\"abc\"",["(?<=ab)c"]]],
["\t/type\t/type\t[\"a\",\"b\",\"c\",\"d\",\"e\",\"f\"] is not of type \"object\"\n1;",
 [], ["first",{"items":{"pattern":"(?<=ab)c"},"type":"object"},["a","b","c","d","e","f"],["(?<=ab)c"]]],
[["{\"details\":[{\"evaluationPath\":\"\",\"instanceLocation\":\"\",\"schemaLocation\":\"\",\"valid\":true},",
  "{\"evaluationPath\":\"/type\",\"instanceLocation\":\"\",\"schemaLocation\":\"/type\",\"valid\":true}],\"valid\":true}\n0;"],
 [], ["list",{"type":"string"},"\"AB\""]],
[["{\"details\":[{\"errors\":{\"falseSchema\":\"False schema does not allow 1\"},",
  "\"evaluationPath\":\"\",\"instanceLocation\":\"\",\"schemaLocation\":\"\",\"valid\":false}],\"valid\":false}\n1;"],
 [], ["list",false,1]]
]"##;

// The output for faults in the words. A word that is `null` is not UTF-8.
pub(crate) const FAULTS: &str = r##"[
["!build refused: 1\n2;", [], ["valid",{"properties":{"a":3}},1]],
["!build refused: 2\n2;", [], ["first",{"$ref":5},1]],
["!build refused: 3\n2;", [], ["valid",{"$ref":"#/$defs/zz"},1]],
["!build refused: 3\n2;", [], ["valid",{"$schema":"http://x/no"},1]],
["!build refused: 4\n2;", [], ["errors",{"type":7},1]],
["!build refused: 4\n2;", [], ["valid",{"pattern":1},1,["(?<=ab)c"]]],
["!build refused: 6\n2;", [], ["valid",[1],1]],
["!build refused: 6\n2;", [], ["errors",{"items":[true]},1]],
["true\n0;", [], ["valid"," true ","\t1\n","[\"p\", \"q\"]"]],
["!usage: engine_bench MODE SCHEMA INSTANCE [UNFINISHED]\n3;", [], []],
["!usage: engine_bench MODE SCHEMA INSTANCE [UNFINISHED]\n3;", [], ["valid",true]],
["!usage: engine_bench MODE SCHEMA INSTANCE [UNFINISHED]\n3;", [], ["valid",true,1,[],1,1]],
["!usage: engine_bench MODE SCHEMA INSTANCE [UNFINISHED]\n3;", [], ["Valid",true,1]],
["!usage: engine_bench MODE SCHEMA INSTANCE [UNFINISHED]\n3;", [], ["lists",true,1]],
["!usage: engine_bench MODE SCHEMA INSTANCE [UNFINISHED]\n3;", [], ["","{",1]],
["!not JSON: SCHEMA\n3;", [], ["valid","{",1]],
["!not JSON: SCHEMA\n3;", [], ["valid","","{","{"]],
["!not JSON: INSTANCE\n3;", [], ["valid",true,"1 1"]],
["!not JSON: INSTANCE\n3;", [], ["valid",{"type":7},"'a'",1]],
["!not JSON: UNFINISHED\n3;", [], ["valid",true,1,"["]],
["!not JSON: UNFINISHED\n3;", [], ["valid",7,1,{}]],
["!not JSON: UNFINISHED\n3;", [], ["valid",true,1,["p",1]]],
["!usage: engine_bench MODE SCHEMA INSTANCE [UNFINISHED]\n3;", [], [null,"true","\"a\"","[]"]],
["!not JSON: SCHEMA\n3;", [], ["valid",null,"\"a\"","[]"]],
["!not JSON: INSTANCE\n3;", [], ["valid","true",null,"[]"]],
["!not JSON: UNFINISHED\n3;", [], ["valid","true","\"a\"",null]]
]"##;

// The output, with how many bytes are taken, and whether they are flushed.
pub(crate) const WRITES: &str = r##"[
["ok\n0;", [], ["first","true","1"], 3, true],
["ok\n5;", [], ["first","true","1"], 3, false],
["ok5;", [], ["first","true","1"], 2, true],
["5;", [], ["first","true","1"], 0, true],
["!build refused: 6\n2;", [], ["first","7","1"], 17, true],
["!build refused: 6\n5;", [], ["first","7","1"], 17, false],
["!build refused: 65;", [], ["first","7","1"], 16, true],
["0;", [], ["errors","true","1"], 0, true]
]"##;

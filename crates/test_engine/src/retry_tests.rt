//! A call that fails for lack of memory leaves the validator as it was.
//!
//! Called again, the validator returns the row's answer. The runner of the test refuses the memory,
//! so no row of `test_check_rows` covers this.
use crate::rows::{Rows, wrong};

// The answers, schema, instance, nothing, patterns that stay unfinished.
const RETRIES: &str = r##"[
["no: \"abc\" is longer than 1 character; \"abc\" is longer than 1 character",
 {"if":{"pattern":"(?<=ab)c"},"then":{"minLength":9},"maxLength":1}, "abc", null, ["(?<=ab)c"]],
["yes", {"allOf":[
  {"anyOf":[{"pattern":"(?<=d)c"},{"type":"string"}]}, {"anyOf":[{"pattern":"(?<=e)c"},{"type":"string"}]},
  {"anyOf":[{"pattern":"(?<=f)c"},{"type":"string"}]}, {"anyOf":[{"pattern":"(?<=g)c"},{"type":"string"}]},
  {"anyOf":[{"pattern":"(?<=h)c"},{"type":"string"}]}]},
 "abc", null, ["(?<=d)c","(?<=e)c","(?<=f)c","(?<=g)c","(?<=h)c"]]
]"##;

// (a test of its own, so that its runner can refuse memory to it alone)
#[test]
fn rows_hold_when_asked_again(rt: HostRuntime) -> Result<(), serde_json::Error> {
    let alloc = rt.alloc();
    assert_eq!(rt; wrong(alloc, Rows::Retries, RETRIES)?, None);
    Ok(())
}

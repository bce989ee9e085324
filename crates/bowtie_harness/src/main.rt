//! The Bowtie harness for testing implementations of JSON Schema side by side.
//!
//! It reads commands in JSON, one on each line, and writes a line in JSON for each. `start`
//! requests a description of the implementation, `dialect` sets the draft of schemas that do not
//! name theirs, `run` validates several instances against a schema, and `stop` ends. If a line is
//! not a command, the reply says what is wrong with it, and the next line is read.
#![tactic(auto)]

mod cases;

use crate::cases::Harness;
use anyhow::Result;
use bowtie_protocol::answer_lines;
use jsonschema::MetaSchemas;
use schema_engine::Draft;

fn main(rt: HostRuntime) -> Result<()> {
    let mut metas = MetaSchemas::new();
    metas.compile_each(rt.alloc())?;
    answer_lines(&rt, &Harness { metas: &metas }, Draft::Draft202012)
}

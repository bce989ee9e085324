//! The maker of one keyword: its start, and the replies to its requests.
ghost use Rattle.std.specs.Prelude.{◌≡◌, OnOk, length, option_map, string_bytes};
ghost use Rattle.schema_traits.specs.Showing.{Shows};
ghost use Rattle.schema_traits.specs.MakerViews.{begun, maker_reply_of, name_of};
ghost use Rattle.schema_traits.specs.EdgeViews.{edge_of};
ghost use Rattle.schema_keys.specs.Compiling.{answers};
ghost use Rattle.schema_compiler.specs.Gives.{script_for};
ghost use Rattle.schema_compiler.specs.Heads.{KeepsEdge};

use crate::compiler::entries::EntryHead;
use crate::compiler::setup::Compiler;
use schema_keys::{Context, SchemaKey};
use schema_reports::OutOfMemory;
use schema_traits::{Edge, KeywordTable, MakerReply, Resolver, Validate};
use serde_json::{Map, Value};

impl<'p, R: Resolver, T> Compiler<'p, R, T> {
    /// Returns the maker of a key's member, before its first request.
    pub(crate) fn maker_of<K: Validate>(
        &self,
        key: &SchemaKey<R::State>,
        members: &Map<String, Value>,
        head: EntryHead<'_>,
    ) -> Result<T::Maker, OutOfMemory>
    where
        T: KeywordTable<K>,
        requires named { name_of head.origin ≡ string_bytes head.name.now }
        ensures begins { Shows T.waiting result
            (begun (script_for R.Resolver T.KeywordTable K.Validate self.now key.now members.now.entries head.entry)) }
    {
        let context = Context {
            alloc: self.alloc,
            resolver: self.resolver,
            options: self.options,
            key,
        };
        let formats = context.validates_formats_by_default();
        self.table.begin(
            self.alloc,
            head.origin,
            members,
            context.draft(),
            &key.vocabularies,
            formats,
        )
    }
}

// The reply to the request with this number, which got this edge.
fn reply_for(edge: &Option<Edge>, number: usize) -> MakerReply
    ensures reply { maker_reply_of result ≡ answers (option_map edge_of edge.now) number }
{
    match edge {
        Some(_) => MakerReply::Child(number),
        None => MakerReply::Skipped,
    }
}

/// Appends the edge that a request got, and returns the reply to the maker.
pub(crate) fn keep_edge(
    edges: &mut Vec<Option<Edge>>,
    edge: Option<Edge>,
) -> Result<MakerReply, OutOfMemory>
    ensures kept { OnOk result (KeepsEdge edges.old.items edges.new.items edge) }
    ensures told { Shows maker_reply_of result (answers (option_map edge_of edge) (length edges.old.items)) }
{
    let reply = reply_for(&edge, edges.len());
    edges.push(edge)?;
    Ok(reply)
}

//! A table that makes `allOf` a keyword that marks its children.
use keyword_makers::{Children, MakesByValue, MemberKeyword};
use schema_reports::OutOfMemory;
use serde_json::Value;
use std::alloc::Global;
use test_laws::BothOnce;

/// Makes `allOf`, with two subschemas, a keyword that marks both.
#[derive(Drop)]
pub struct MarkingTable {}

impl MakesByValue<BothOnce> for MarkingTable {
    ghost use Rattle.std.specs.Prelude.{false, refl};
    ghost use Rattle.keyword_makers.specs.ByValue.{right_where_whole};
    ghost use Rattle.test_parts.specs.MarkingTable.{made};

    ghost owned = { λ t name. false };

    ghost made = { λ t. made };

    fn owns(&self, _name: &str) -> bool {
        false
    }

    fn make(
        &self,
        _alloc: Global,
        name: &str,
        _value: &Value,
    ) -> Result<MemberKeyword<BothOnce>, OutOfMemory> {
        if name == "allOf" {
            return Ok(MemberKeyword::Keyword(BothOnce {}, Children::Items));
        }
        Ok(MemberKeyword::Nothing)
    }

    ghost right = { λ t name value. right_where_whole _ _ (λ k. refl) (λ k. refl) value (made name value) };
}

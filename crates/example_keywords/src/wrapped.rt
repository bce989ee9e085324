//! Three keywords without a plan, with their table.
//!
//! Each uses the wrapper of its trait: `x-no-text` asks nothing, `x-one-of` judges, and `x-all-of`
//! takes its own turns.
ghost use Rattle.std.specs.Prelude.{◌≡◌};
ghost use Rattle.keyword_authoring.specs.Items.{item_count};
ghost use Rattle.theory_definitions.specs.Instance.{a_value};
ghost use Rattle.serde_json.specs.View.{view};

use keyword_authoring::{
    ByTurns, Judge, JudgeKeyword, Judged, Leaf, LeafKeyword, OwnKeyword, Progress, as_text,
    ask_here, item_count, next_number,
};
use keyword_makers::{Children, MakesByValue, MemberKeyword};
use schema_reports::{Instance, OutOfMemory};
use schema_traits::{Answer, Below, Mode, Reply, Step};
use serde_json::Value;
use std::alloc::Global;

/// `x-no-text`: the instance is not a string.
#[derive(Clone, Copy)]
pub struct NoText {}

impl LeafKeyword for NoText {
    ghost use Rattle.std.specs.Prelude.{codes};
    ghost use Rattle.example_keywords.specs.Wrapped.{is_no_text, text_refused};

    type Shape = ();

    ghost shape = { λ k. tt };

    ghost called = { λ k. codes "x-no-text" };

    ghost accepts = { λ k s. is_no_text s };

    ghost error_text = { λ k s. text_refused };

    fn name(&self) -> &str {
        "x-no-text"
    }

    fn holds(&self, instance: Instance<'_>) -> bool {
        match as_text(instance) {
            Some(_) => false,
            None => true,
        }
    }

    fn text(&self, alloc: Global, _instance: Instance<'_>) -> Result<String, OutOfMemory> {
        String::from_str(alloc, "this is a text")
    }
}

/// `x-one-of`: exactly one of its schemas accepts the instance.
#[derive(Clone, Copy)]
pub struct OneOf {
    pub schemas: usize,
}

impl JudgeKeyword for OneOf {
    ghost use Rattle.std.specs.Prelude.{codes, false, true};
    ghost use Rattle.keyword_authoring.specs.Items.{child_here};
    ghost use Rattle.keyword_authoring.specs.Places.{children_present};
    ghost use Rattle.example_keywords.specs.Wrapped.{count_told, is_one};

    type Shape = OneOf;

    ghost shape = { λ k. k };

    ghost called = { λ k. codes "x-one-of" };

    ghost count = { λ k s. k.schemas };

    ghost question = { λ k. child_here };

    ghost enough = { λ k. 2 };

    ghost shows = { λ k. true };

    ghost accepts = { λ k s n. is_one n };

    ghost error_text = { λ k s n. count_told n };

    ghost says_monotone = { λ k. false };

    fn name(&self) -> &str {
        "x-one-of"
    }

    fn judge(&self, _instance: Instance<'_>) -> Judge {
        Judge {
            count: self.schemas,
            enough: 2,
            shows: true,
        }
    }

    fn ask(&self, number: usize, mode: Mode) -> Step<'_> {
        Step::Ask(number, Below::Here, mode)
    }

    fn holds(&self, _instance: Instance<'_>, accepted: usize) -> bool {
        accepted == 1
    }

    fn text(
        &self,
        alloc: Global,
        _instance: Instance<'_>,
        accepted: usize,
    ) -> Result<String, OutOfMemory> {
        let words = if accepted == 0 {
            "no schema accepts"
        } else {
            "more than one schema accepts"
        };
        String::from_str(alloc, words)
    }

    fn monotone(&self) -> bool {
        false
    }

    ghost present = { λ k s. children_present s k.schemas };

    ghost grows = { λ k s h. absurd (cc h) };
}

/// `x-all-of`: each of its schemas accepts the instance.
#[derive(Clone, Copy)]
pub struct AllOf {
    pub schemas: usize,
}

impl OwnKeyword for AllOf {
    ghost use Rattle.std.specs.Prelude.{refl, true};
    ghost use Rattle.keyword_authoring.specs.Places.{children_present};
    ghost use Rattle.keyword_authoring.specs.WayGrows.{way_grows};
    ghost use Rattle.example_keywords.specs.Wrapped.{all_of_way};

    type Shape = AllOf;

    ghost shape = { λ k. k };

    ghost way = { λ k s. all_of_way k.schemas };

    ghost shows_no_fraction = { λ k. true };

    ghost present = { λ k s. children_present s k.schemas };

    ghost says_monotone = { λ k. true };

    ghost grows = { λ k s h. way_grows (all_of_way k.schemas) refl };

    fn take_turn<'s, 'i: 's>(
        &'s self,
        alloc: Global,
        run: &mut Progress,
        _instance: Instance<'i>,
        reply: Reply<'i>,
        answer: &mut Answer<'i>,
    ) -> Result<Step<'s>, OutOfMemory> {
        let mode = run.mode;
        let number = next_number(alloc, 0, self.schemas, run, reply, answer)?;
        Ok(ask_here(number, mode))
    }

    fn monotone(&self) -> bool {
        true
    }
}

/// Returns the number of schemas in a value, or 0 if it is not an array.
fn schemas_in(value: &Value) -> usize
    ensures count { result ≡ item_count (a_value (view value.now)) }
{
    item_count(Instance::Value(value))
}

/// The table of the three keywords.
#[derive(Drop)]
pub struct WrappedTable {}

impl MakesByValue<Leaf<NoText>> for WrappedTable {
    ghost use Rattle.std.specs.Prelude.{bytes_eq, codes, refl};
    ghost use Rattle.keyword_makers.specs.ByValue.{right_where_whole};
    ghost use Rattle.example_keywords.specs.Wrapped.{no_text_made};

    ghost owned = { λ t name. bytes_eq name (codes "x-no-text") };

    ghost made = { λ t. no_text_made };

    fn owns(&self, name: &str) -> bool {
        name == "x-no-text"
    }

    fn make(
        &self,
        _alloc: Global,
        name: &str,
        _value: &Value,
    ) -> Result<MemberKeyword<Leaf<NoText>>, OutOfMemory> {
        if name == "x-no-text" {
            let keyword = Leaf { keyword: NoText {} };
            return Ok(MemberKeyword::Keyword(keyword, Children::Childless));
        }
        Ok(MemberKeyword::Nothing)
    }

    ghost right = { λ t name value. right_where_whole _ _ (λ k. refl) (λ k. refl) value (no_text_made name value) };
}

impl MakesByValue<Judged<OneOf>> for WrappedTable {
    ghost use Rattle.std.specs.Prelude.{bytes_eq, codes, refl};
    ghost use Rattle.keyword_makers.specs.ByValue.{right_where_whole};
    ghost use Rattle.example_keywords.specs.Wrapped.{one_of_made};

    ghost owned = { λ t name. bytes_eq name (codes "x-one-of") };

    ghost made = { λ t. one_of_made };

    fn owns(&self, name: &str) -> bool {
        name == "x-one-of"
    }

    fn make(
        &self,
        _alloc: Global,
        name: &str,
        value: &Value,
    ) -> Result<MemberKeyword<Judged<OneOf>>, OutOfMemory> {
        if name == "x-one-of" {
            let schemas = schemas_in(value);
            let keyword = Judged {
                keyword: OneOf { schemas },
            };
            return Ok(MemberKeyword::Keyword(keyword, Children::Items));
        }
        Ok(MemberKeyword::Nothing)
    }

    ghost right = { λ t name value. right_where_whole _ _ (λ k. refl) (λ k. refl) value (one_of_made name value) };
}

impl MakesByValue<ByTurns<AllOf>> for WrappedTable {
    ghost use Rattle.std.specs.Prelude.{bytes_eq, codes, refl};
    ghost use Rattle.keyword_makers.specs.ByValue.{right_where_whole};
    ghost use Rattle.example_keywords.specs.Wrapped.{all_of_made};

    ghost owned = { λ t name. bytes_eq name (codes "x-all-of") };

    ghost made = { λ t. all_of_made };

    fn owns(&self, name: &str) -> bool {
        name == "x-all-of"
    }

    fn make(
        &self,
        _alloc: Global,
        name: &str,
        value: &Value,
    ) -> Result<MemberKeyword<ByTurns<AllOf>>, OutOfMemory> {
        if name == "x-all-of" {
            let schemas = schemas_in(value);
            let keyword = ByTurns {
                keyword: AllOf { schemas },
            };
            return Ok(MemberKeyword::Keyword(keyword, Children::Items));
        }
        Ok(MemberKeyword::Nothing)
    }

    ghost right = { λ t name value. right_where_whole _ _ (λ k. refl) (λ k. refl) value (all_of_made name value) };
}

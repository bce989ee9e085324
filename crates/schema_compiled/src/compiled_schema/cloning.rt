//! Clones of compiled schemas.
ghost use Rattle.std.specs.Prelude.{◌≡◌, IfOk};
ghost use Rattle.schema_node_table.specs.Cloned.{shaped_nodes};
ghost use Rattle.schema_compiled.specs.Cloned.{AnswerSame, SaySame};

use crate::compiled_schema::CompiledSchema;
use schema_reports::OutOfMemory;
use schema_traits::{CloneKeyword, Matcher};
use std::alloc::Global;

impl<K: CloneKeyword, M: Matcher> CompiledSchema<K, M> {
    /// Returns a clone of the compiled schema, which returns the same answers.
    ///
    /// It has the same root, draft, limits, and numbers that its solver inlines. Its nodes are the
    /// same except for their keywords, which have the shapes of the originals. Its matcher matches
    /// alike, and says alike whether it finishes every match.
    ///
    /// # Errors
    ///
    /// Out of memory.
    pub fn clone(&self, alloc: Global) -> Result<CompiledSchema<K, M>, OutOfMemory>
        ensures root { IfOk result (λ copy. copy.root ≡ self.now.root) }
        ensures draft { IfOk result (λ copy. copy.draft ≡ self.now.draft) }
        ensures nodes { IfOk result (λ copy. shaped_nodes K.shape copy.nodes ≡ shaped_nodes K.shape self.now.nodes) }
        ensures matcher { IfOk result (λ copy. M.matching copy.matcher ≡ M.matching self.now.matcher) }
        ensures finishing { IfOk result (λ copy. M.finishing copy.matcher ≡ M.finishing self.now.matcher) }
        ensures solver { IfOk result (λ copy. copy.followed ≡ self.now.followed) }
        ensures runs { IfOk result (λ copy. copy.runs ≡ self.now.runs) }
        ensures work { IfOk result (λ copy. copy.work ≡ self.now.work) }
        ensures depth { IfOk result (λ copy. copy.depth ≡ self.now.depth) }
        ensures says { IfOk result (λ copy. SaySame K.Validate M.Matcher.own copy self.now) }
        ensures answers { IfOk result (λ copy. AnswerSame K.Validate M.Matcher.own copy self.now) }
    {
        Ok(CompiledSchema {
            nodes: self.nodes.clone(alloc)?,
            root: self.root,
            draft: self.draft,
            matcher: self.matcher.clone()?,
            run_limit: self.run_limit,
            work_limit: self.work_limit,
            depth_limit: self.depth_limit,
            finder: self.finder.clone()?,
        })
    }
}

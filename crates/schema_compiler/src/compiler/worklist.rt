//! The worklist of keys that wait.
//!
//! They were found while as many targets of references were open as may nest. Each is compiled in a
//! round of its own, in the order in which they were found, which is the order of their numbers. So
//! the list is worked off in one pass over the numbers. A round is named by the number that it
//! begins with.
ghost use Rattle.std.specs.Prelude.{◌<◌, length, suc};
ghost use Rattle.schema_node_table.specs.NodeTable.{Waits};
ghost use Rattle.schema_compiler.specs.Gives.{ComesTo, ComesToEnd, GivesWorked, IsAt};

use crate::compiler::compilation::{Compilation, Progress};
use crate::compiler::setup::Compiler;
use schema_keys::{BuildError, Reading, SchemaKey};
use schema_traits::{KeywordTable, Resolver, SchemaNode, Validate};
use std::rc::Rc;

impl<'p, R: Resolver, T> Compiler<'p, R, T> {
    // Compiles the key of a number that waits, in a round of its own.
    fn compile_waiting<K: Validate>(
        &self,
        compiled: &mut Compilation<R::State, K>,
        root: &Rc<SchemaKey<R::State>>,
        number: usize,
    ) -> Result<(), BuildError>
    where
        T: KeywordTable<K>,
        requires at { IsAt R.Resolver T.KeywordTable K.Validate self.now root.now.value compiled.old number }
        requires waits { Waits compiled.old.nodes number }
        ensures { ComesTo R.Resolver T.KeywordTable K.Validate self.now root.now.value compiled.new (suc number) result }
    {
        let key = compiled.keys.shared(number)?;
        compiled.nodes.begin(SchemaNode(number), number);
        compiled.progress = Progress::at_round(number);
        let planned = self.plan_node(compiled, &key, Reading::Unread)?;
        let settled = !compiled.progress.reaches_unsettled;
        compiled.nodes.fill(
            SchemaNode(number),
            planned.form,
            planned.annotations,
            settled,
        );
        Ok(())
    }

    // Moves past a number, and compiles its key if it waits.
    fn pass_number<K: Validate>(
        &self,
        compiled: &mut Compilation<R::State, K>,
        root: &Rc<SchemaKey<R::State>>,
        number: usize,
    ) -> Result<(), BuildError>
    where
        T: KeywordTable<K>,
        requires at { IsAt R.Resolver T.KeywordTable K.Validate self.now root.now.value compiled.old number }
        requires within { number < length compiled.old.keys }
        ensures { ComesTo R.Resolver T.KeywordTable K.Validate self.now root.now.value compiled.new (suc number) result }
    {
        if compiled.nodes.waits(SchemaNode(number)) {
            return self.compile_waiting(compiled, root, number);
        }
        Ok(())
    }

    /// Compiles the keys that wait, by number, including those found meanwhile.
    pub(crate) fn work_off<K: Validate>(
        &self,
        compiled: &mut Compilation<R::State, K>,
        root: &Rc<SchemaKey<R::State>>,
    ) -> Result<(), BuildError>
    where
        T: KeywordTable<K>,
        requires first { IsAt R.Resolver T.KeywordTable K.Validate self.now root.now.value compiled.old 0 }
        ensures { ComesToEnd R.Resolver T.KeywordTable K.Validate self.now root.now.value compiled.new result }
    {
        let mut next = 0;
        while next < compiled.keys.len() {
            self.pass_number(compiled, root, next)?;
            next += 1;
        }
        Ok(())
    }

    /// Compiles a key into an empty table, with everything that it reaches.
    pub(crate) fn compile_alone<K: Validate>(
        &self,
        root: SchemaKey<R::State>,
    ) -> Result<Compilation<R::State, K>, BuildError>
    where
        T: KeywordTable<K>,
        ensures { GivesWorked R.Resolver T.KeywordTable K.Validate self.now root result }
    {
        let mut compiled = Compilation::new(self.alloc);
        let shared = Rc::new(self.alloc, root)?;
        self.number_within(&mut compiled, &shared, None)?;
        self.work_off(&mut compiled, &shared)?;
        Ok(compiled)
    }
}

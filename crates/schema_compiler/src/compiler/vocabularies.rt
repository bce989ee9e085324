//! Checks that the custom vocabularies that a schema requires are declared.
ghost use Rattle.std.specs.Prelude.{◌≡◌, OnOk, IfErr, map, string_bytes, bytes_eq};
ghost use Rattle.std.specs.List.{list_any};
ghost use Rattle.schema_compiler.specs.Lacking.{LacksNone, NamesFirstLacking, NamesLacking, custom_vocabularies};

use crate::compiler::setup::Compiler;
use schema_drafts::VocabularySet;
use schema_keys::BuildError;
use schema_traits::{KeywordTable, Resolver, Validate};

fn is_declared(declared: &[String], uri: &str) -> bool
    ensures declared { result ≡ list_any (bytes_eq uri.now) (map string_bytes declared.now) }
{
    declared.iter().any(|other| uri == other.as_str())
}

impl<'p, R: Resolver, T> Compiler<'p, R, T> {
    // Refuses the first of these vocabularies that is not declared.
    fn check_each<K: Validate>(&self, uris: &[String]) -> Result<(), BuildError>
    where
        T: KeywordTable<K>,
        ensures declared { OnOk result (LacksNone R.Resolver T.KeywordTable K.Validate self.now (custom_vocabularies uris.now)) }
        ensures refused { IfErr result (NamesLacking R.Resolver T.KeywordTable K.Validate self.now (custom_vocabularies uris.now)) }
        ensures first { IfErr result (NamesFirstLacking R.Resolver T.KeywordTable K.Validate self.now (custom_vocabularies uris.now)) }
    {
        for uri in uris {
            if !is_declared(self.options.declared.as_slice(), uri.as_str()) {
                return Err(BuildError::UnsupportedVocabulary(uri.clone()?));
            }
        }
        Ok(())
    }

    /// Refuses the first custom vocabulary that is not declared.
    pub(crate) fn check_declared<K: Validate>(
        &self,
        vocabularies: &VocabularySet,
    ) -> Result<(), BuildError>
    where
        T: KeywordTable<K>,
        ensures declared { OnOk result (LacksNone R.Resolver T.KeywordTable K.Validate self.now vocabularies.now) }
        ensures refused { IfErr result (NamesLacking R.Resolver T.KeywordTable K.Validate self.now vocabularies.now) }
        ensures first { IfErr result (NamesFirstLacking R.Resolver T.KeywordTable K.Validate self.now vocabularies.now) }
    {
        self.check_each(vocabularies.custom())
    }
}

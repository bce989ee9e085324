//! Instances that are texts.
ghost use Rattle.std.specs.Prelude.{◌≡◌};
ghost use Rattle.schema_reports.specs.InstanceViews.{subject_of};
ghost use Rattle.keyword_authoring.specs.Texts.{as_text};
ghost use Rattle.schema_traits.specs.Readings.{text_read};

use schema_reports::Instance;

/// Returns the instance's text, if it is one. The name of a member is a text too.
pub fn as_text<'i>(instance: Instance<'i>) -> Option<&'i str>
    ensures text { text_read result ≡ as_text (subject_of instance.entry) }
{
    match instance {
        Instance::Value(value) => value.as_str(),
        Instance::Name(name) => Some(name),
    }
}

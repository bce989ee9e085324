//! The text of an instance.
ghost use Rattle.std.specs.Prelude.{◌≡◌};
ghost use Rattle.schema_reports.specs.InstanceViews.{subject_of};
ghost use Rattle.standard_basics.specs.Counts.{subject_string};
ghost use Rattle.schema_traits.specs.Readings.{text_read};

use schema_reports::Instance;

/// Returns the text if the instance is a text or a name.
pub fn text_of<'i>(instance: Instance<'i>) -> Option<&'i str>
    ensures text { text_read result ≡ subject_string (subject_of instance.entry) }
{
    match instance {
        Instance::Name(name) => Some(name),
        Instance::Value(value) => value.as_str(),
    }
}

//! The parts of a text between marks.
ghost use Rattle.std.specs.Prelude.{◌≡◌};
ghost use Rattle.std.specs.List.{list_all};
ghost use Rattle.text_formats.specs.Cutting.{parts};
ghost use Rattle.text_formats.specs.Parts as spec;

use crate::addresses::is_snum;
use crate::cutting::cut;
use crate::emails::is_atom;
use crate::hostnames::is_label;
use crate::templates::is_variable;

// The kind of the parts: atoms of a mail address or labels of a host's name, where `true` allows
// characters outside ASCII, numbers of an IPv4 address in mail, or variables of a template.
#[derive(Clone, Copy)]
pub(crate) enum Part {
    Atom(bool),
    Label(bool),
    Snum,
    Variable,
}

impl Part {
    fn is(self, text: &[u8]) -> bool
        ensures part { result ≡ spec.is_part self text.now }
    {
        match self {
            Part::Atom(wide) => is_atom(wide, text),
            Part::Label(wide) => is_label(wide, text),
            Part::Snum => is_snum(text),
            Part::Variable => is_variable(text),
        }
    }

    #[tactic(auto, using(crate::proofs::Parting::each_after, crate::proofs::Parting::each_alone))]
    // Returns whether each part of a text between marks is of this kind.
    pub(crate) fn is_each(self, text: &[u8], mark: u8) -> bool
        ensures each { result ≡ list_all (spec.is_part self) (parts mark text.now) }
    {
        let mut rest = text;
        while let Some((part, left)) = cut(rest, mark) {
            if !self.is(part) {
                return false;
            }
            rest = left;
        }
        self.is(rest)
    }
}

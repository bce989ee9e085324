//! Internationalized host names.
//!
//! The cases of the official test suite are those of its newer state (draft 7,
//! `optional/format/idn-hostname`). The examples follow RFC 5890, section 2.3.2.3, and RFC 5892,
//! section 2 and appendix A.
use standard_formats::is_idn_hostname;
use std::alloc::AllocError;

/// A text, and whether it is an internationalized host name.
type Case = (&'static str, bool);

/// Cases of the suite.
const OF_THE_SUITE: [Case; 45] = [
    ("\u{C2E4}\u{B840}.\u{D14C}\u{C2A4}\u{D2B8}", true),
    ("\u{302E}\u{C2E4}\u{B840}.\u{D14C}\u{C2A4}\u{D2B8}", false),
    ("\u{C2E4}\u{302E}\u{B840}.\u{D14C}\u{C2A4}\u{D2B8}", false),
    (
        "\u{C2E4}\u{C2E4}\u{C2E4}\u{C2E4}\u{C2E4}\u{C2E4}\u{C2E4}\u{C2E4}\u{C2E4}\u{C2E4}\u{C2E4}\u{C2E4}\u{C2E4}\u{C2E4}\u{C2E4}\u{C2E4}\u{C2E4}\u{C2E4}\u{C2E4}\u{C2E4}\u{C2E4}\u{C2E4}\u{C2E4}\u{C2E4}\u{C2E4}\u{C2E4}\u{C2E4}\u{C2E4}\u{C2E4}\u{C2E4}\u{C2E4}\u{C2E4}\u{C2E4}\u{C2E4}\u{C2E4}\u{C2E4}\u{C2E4}\u{C2E4}\u{C2E4}\u{C2E4}\u{C2E4}\u{C2E4}\u{C2E4}\u{C2E4}\u{C2E4}\u{C2E4}\u{C2E4}\u{C2E4}\u{C2E4}\u{C2E4}\u{C2E4}\u{C2E4}\u{B840}\u{B840}\u{D14C}\u{C2A4}\u{D2B8}\u{B840}\u{B840}\u{B840}\u{B840}\u{B840}\u{B840}\u{B840}\u{B840}\u{B840}\u{B840}\u{B840}\u{B840}\u{B840}\u{B840}\u{B840}\u{B840}\u{B840}\u{D14C}\u{C2A4}\u{D2B8}\u{B840}\u{B840}\u{B840}\u{B840}\u{B840}\u{B840}\u{B840}\u{B840}\u{B840}\u{B840}\u{B840}\u{B840}\u{B840}\u{B840}\u{B840}\u{B840}\u{B840}\u{B840}\u{B840}\u{D14C}\u{C2A4}\u{D2B8}\u{B840}\u{B840}\u{B840}\u{B840}\u{B840}\u{B840}\u{B840}\u{B840}\u{B840}\u{B840}\u{B840}\u{B840}\u{D14C}\u{C2A4}\u{D2B8}\u{B840}\u{B840}\u{C2E4}\u{B840}.\u{D14C}\u{C2A4}\u{D2B8}",
        false,
    ),
    ("-> $1.00 <--", false),
    ("xn--ihqwcrb4cv8a8dqg056pqjye", true),
    ("xn--X", false),
    ("XN--aa---o47jg78q", false),
    ("-hello", false),
    ("hello-", false),
    ("-hello-", false),
    ("\u{903}hello", false),
    ("\u{300}hello", false),
    ("\u{488}hello", false),
    ("\u{DF}\u{3C2}\u{F0B}\u{3007}", true),
    ("\u{6FD}\u{6FE}", true),
    ("\u{640}\u{7FA}", false),
    (
        "\u{3031}\u{3032}\u{3033}\u{3034}\u{3035}\u{302E}\u{302F}\u{303B}",
        false,
    ),
    ("a\u{B7}l", false),
    ("\u{B7}l", false),
    ("l\u{B7}a", false),
    ("l\u{B7}", false),
    ("l\u{B7}l", true),
    ("\u{3B1}\u{375}S", false),
    ("\u{3B1}\u{375}", false),
    ("\u{3B1}\u{375}\u{3B2}", true),
    ("A\u{5F3}\u{5D1}", false),
    ("\u{5F3}\u{5D1}", false),
    ("\u{5D0}\u{5F3}\u{5D1}", true),
    ("A\u{5F4}\u{5D1}", false),
    ("\u{5F4}\u{5D1}", false),
    ("\u{5D0}\u{5F4}\u{5D1}", true),
    ("def\u{30FB}abc", false),
    ("\u{30FB}", false),
    ("\u{30FB}\u{3041}", true),
    ("\u{30FB}\u{30A1}", true),
    ("\u{30FB}\u{4E08}", true),
    ("\u{660}\u{6F0}", false),
    ("\u{628}\u{660}\u{628}", true),
    ("\u{6F0}0", true),
    ("\u{915}\u{200D}\u{937}", false),
    ("\u{200D}\u{937}", false),
    ("\u{915}\u{94D}\u{200D}\u{937}", true),
    ("\u{915}\u{94D}\u{200C}\u{937}", true),
    ("\u{628}\u{64A}\u{200C}\u{628}\u{64A}", true),
];

/// Names that the standards allow or disallow.
const OF_STANDARDS: [Case; 28] = [
    ("\u{2603}", false),
    ("\u{1F600}.com", false),
    ("\u{2122}", false),
    ("\u{BD}", false),
    ("\u{3014}", false),
    ("\u{DC}", false),
    ("\u{FB01}", false),
    ("e\u{301}", false),
    ("\u{E9}", true),
    ("B\u{FC}cher", false),
    ("b\u{FC}cher", true),
    ("WWW.b\u{FC}cher.Example", true),
    ("b\u{FC}cher\u{3002}example", true),
    ("a..b", false),
    ("b\u{FC}cher.", false),
    ("", false),
    ("\u{20D0}a", false),
    ("a\u{20D0}", false),
    ("\u{1100}\u{1161}", false),
    ("xn--n3h", false),
    ("xn--bcher-kva", true),
    ("a\u{AD}b", false),
    ("l\u{B7}l.l\u{B7}l", true),
    ("l\u{B7}.l", false),
    ("\u{3B1}\u{375}.\u{3B2}", false),
    ("\u{5D0}.\u{5F3}", false),
    ("\u{30FB}.\u{3041}", false),
    ("\u{660}.\u{6F0}", false),
];

#[test]
fn names_are_told_as_wanted(rt: HostRuntime) -> Result<(), AllocError> {
    for case in &OF_THE_SUITE {
        let told = is_idn_hostname(rt.alloc(), case.0)?;
        assert!(rt; told == case.1, "of the suite: {}", case.0);
    }
    for case in &OF_STANDARDS {
        let told = is_idn_hostname(rt.alloc(), case.0)?;
        assert!(rt; told == case.1, "of a standard: {}", case.0);
    }
    Ok(())
}

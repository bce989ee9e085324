//! Texts, and what they are read as by `pattern_reader`.

use pattern_reader::read;
use std::alloc::AllocError;

/// A text, the number of its groups, and whether it has a back reference.
type Read = (&'static str, u32, bool);

/// A text, and what is said of it.
type Refused = (&'static str, &'static str);

/// Texts that are read.
const READ: [Read; 12] = [
    ("^(?!aws:).+$", 0, false),
    ("\\_", 0, false),
    ("\\A\\d+\\Z", 0, false),
    ("(?i)abc", 0, false),
    ("^(2|3)\\s*(?i)GB$", 1, false),
    ("a(?i)b(?-i)c", 0, false),
    ("(?i)\\babc\\B", 0, false),
    ("[\\uD800-\\uDBFF]", 0, false),
    ("(?<n>a)\\k<n>", 1, true),
    ("${1,128}", 0, false),
    ("{1-3}", 0, false),
    ("(a)(?:b)(c)", 2, false),
];

/// Texts that are refused.
const REFUSED: [Refused; 16] = [
    (
        "a{2,1}",
        "no pattern: the numbers of a quantifier are out of order, at character 1",
    ),
    (
        "(",
        "no pattern: a group has no closing bracket, at character 1",
    ),
    (
        "ab)",
        "no pattern: a closing bracket closes no group, at character 2",
    ),
    (
        "a**",
        "no pattern: a quantifier has nothing to repeat, at character 2",
    ),
    (
        "a[b",
        "no pattern: a class has no closing bracket, at character 1",
    ),
    (
        "[b-a]",
        "no pattern: the ends of a range are out of order, at character 0",
    ),
    (
        "(?<n>a)\\k<m>",
        "no pattern: a back reference has the name of no group, at character 7",
    ),
    (
        "(?>a)",
        "not supported: the characters after (? begin a group of another engine, at character 0",
    ),
    (
        "(?P>n)",
        "not supported: the characters after (? begin a group of another engine, at character 0",
    ),
    (
        "a(?",
        "no pattern: the characters after (? begin no group, at character 1",
    ),
    (
        "\\_(?>a)",
        "not supported: the characters after (? begin a group of another engine, at character 2",
    ),
    (
        "[\\d-z",
        "no pattern: a class has no closing bracket, at character 0",
    ),
    (
        "\\p{L",
        "not supported: no known property of characters has this name, at character 0",
    ),
    (
        "a(?x)b",
        "not supported: a flag of a group is none of i, m and s, at character 1",
    ),
    (
        "a(?i)*",
        "no pattern: a quantifier has nothing to repeat, at character 5",
    ),
    (
        "(?i)(a)\\1",
        "not supported: a back reference ignores case, at character 7",
    ),
];

#[test]
fn texts_are_read(rt: HostRuntime) -> Result<(), AllocError> {
    for (text, groups, has_reference) in &READ {
        let chars: Vec<char> = text.chars().collect(rt.alloc())?;
        match read(rt.alloc(), chars.as_slice())? {
            Ok(pattern) => {
                assert_eq!(rt; pattern.groups, *groups, "{text}");
                assert_eq!(rt; pattern.has_reference, *has_reference, "{text}");
            }
            Err(error) => assert!(rt; false, "{text}: {error}"),
        }
    }
    Ok(())
}

#[test]
fn texts_are_refused(rt: HostRuntime) -> Result<(), AllocError> {
    for (text, said) in &REFUSED {
        let chars: Vec<char> = text.chars().collect(rt.alloc())?;
        match read(rt.alloc(), chars.as_slice())? {
            Ok(_) => assert!(rt; false, "{text} is read"),
            Err(error) => {
                let found = error.to_string(rt.alloc())?;
                assert_eq!(rt; found.as_str(), *said, "{text}");
            }
        }
    }
    Ok(())
}

//! Contents: base64 and JSON.
//!
//! The examples follow RFC 2045, section 6.8, RFC 4648, section 10, and RFC 8259, section 13.
use standard_formats::{is_base64, is_json, is_json_in_base64};
use std::alloc::AllocError;

/// A text, and whether it is base64.
type Case = (&'static str, bool);

const OF_BASE64: [Case; 9] = [
    ("", true),
    ("Zg==", true),
    ("Zm8=", true),
    ("Zm9v", true),
    ("Zm9v\r\nYmFy", true),
    ("Zm9v\nYmFy\n", true),
    ("Zg", false),
    ("Zm9v YmFy", false),
    ("Zm9v%", false),
];

#[test]
fn contents_are_told_as_wanted(rt: HostRuntime) -> Result<(), AllocError> {
    for case in &OF_BASE64 {
        let told = is_base64(rt.alloc(), case.0)?;
        assert!(rt; told == case.1, "base64: {}", case.0);
    }
    assert!(rt; is_json(rt.alloc(), "\"Hello world!\"")?);
    assert!(rt; !is_json(rt.alloc(), "Hello world!")?);
    assert!(rt; is_json_in_base64(rt.alloc(), "eyJmb28i\r\nOiAiYmFyIn0K")?);
    assert!(rt; !is_json_in_base64(rt.alloc(), "ezp9Cg==")?);
    Ok(())
}

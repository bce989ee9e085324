//! Cases of the official test suite, and examples of the standards.
//!
//! The cases are those of the suite's optional groups on formats, in drafts 4, 6 and 7
//! (JSON-Schema-Test-Suite, `optional/format`), whose instance is a text and whose format is
//! checked by its grammar. The examples are from the standards that define the grammars.
use text_formats::Format;

/// A format's name, a text, and whether the text has the format.
type Case = (&'static str, &'static str, bool);

/// Cases of the suite.
const OF_THE_SUITE: [Case; 117] = [
    ("date", "1963-06-19", true),
    ("date", "06/19/1963", false),
    ("date", "2013-350", false),
    ("date-time", "1963-06-19T08:30:06.283185Z", true),
    ("date-time", "1963-06-19T08:30:06Z", true),
    ("date-time", "1937-01-01T12:00:27.87+00:20", true),
    ("date-time", "1990-12-31T15:59:50.123-08:00", true),
    ("date-time", "1990-02-31T15:59:60.123-08:00", false),
    ("date-time", "1990-12-31T15:59:60-24:00", false),
    ("date-time", "06/19/1963 08:30:06 PST", false),
    ("date-time", "1963-06-19t08:30:06.283185z", true),
    ("date-time", "2013-350T01:01:01", false),
    ("date-time", "1963-06-19T08:30:06.28123+01:00Z", false),
    ("email", "joe.bloggs@example.com", true),
    ("email", "2962", false),
    ("hostname", "www.example.com", true),
    ("hostname", "-a-host-name-that-starts-with--", false),
    ("hostname", "not_a_valid_host_name", false),
    (
        "hostname",
        "a-vvvvvvvvvvvvvvvveeeeeeeeeeeeeeeerrrrrrrrrrrrrrrryyyyyyyyyyyyyyyy-long-host-name-component",
        false,
    ),
    ("hostname", "xn--4gbwdl.xn--wgbh1c", true),
    ("idn-email", "실례@실례.테스트", true),
    ("idn-email", "2962", false),
    ("ipv4", "192.168.0.1", true),
    ("ipv4", "127.0.0.0.1", false),
    ("ipv4", "256.256.256.256", false),
    ("ipv4", "127.0", false),
    ("ipv4", "0x7f000001", false),
    ("ipv6", "::1", true),
    ("ipv6", "12345::", false),
    ("ipv6", "1:1:1:1:1:1:1:1:1:1:1:1:1:1:1:1", false),
    ("ipv6", "::laptop", false),
    ("iri", "http://ƒøø.ßår/?∂éœ=πîx#πîüx", true),
    ("iri", "http://ƒøø.com/blah_(wîkïpédiå)_blah#ßité-1", true),
    ("iri", "http://ƒøø.ßår/?q=Test%20URL-encoded%20stuff", true),
    (
        "iri",
        "http://-.~_!$&'()*+,;=:%40:80%2f::::::@example.com",
        true,
    ),
    (
        "iri",
        "http://[2001:0db8:85a3:0000:0000:8a2e:0370:7334]",
        true,
    ),
    (
        "iri",
        "http://2001:0db8:85a3:0000:0000:8a2e:0370:7334",
        false,
    ),
    ("iri", "/abc", false),
    ("iri", "\\\\WINDOWS\\filëßåré", false),
    ("iri", "âππ", false),
    ("iri-reference", "http://ƒøø.ßår/?∂éœ=πîx#πîüx", true),
    ("iri-reference", "//ƒøø.ßår/?∂éœ=πîx#πîüx", true),
    ("iri-reference", "/âππ", true),
    ("iri-reference", "\\\\WINDOWS\\filëßåré", false),
    ("iri-reference", "âππ", true),
    ("iri-reference", "#ƒrägmênt", true),
    ("iri-reference", "#ƒräg\\mênt", false),
    ("json-pointer", "/foo/bar~0/baz~1/%a", true),
    ("json-pointer", "/foo/bar~", false),
    ("json-pointer", "/foo//bar", true),
    ("json-pointer", "/foo/bar/", true),
    ("json-pointer", "", true),
    ("json-pointer", "/foo", true),
    ("json-pointer", "/foo/0", true),
    ("json-pointer", "/", true),
    ("json-pointer", "/a~1b", true),
    ("json-pointer", "/c%d", true),
    ("json-pointer", "/e^f", true),
    ("json-pointer", "/g|h", true),
    ("json-pointer", "/i\\j", true),
    ("json-pointer", "/k\"l", true),
    ("json-pointer", "/ ", true),
    ("json-pointer", "/m~0n", true),
    ("json-pointer", "/foo/-", true),
    ("json-pointer", "/foo/-/bar", true),
    ("json-pointer", "/~1~0~0~1~1", true),
    ("json-pointer", "/~1.1", true),
    ("json-pointer", "/~0.1", true),
    ("json-pointer", "#", false),
    ("json-pointer", "#/", false),
    ("json-pointer", "#a", false),
    ("json-pointer", "/~0~", false),
    ("json-pointer", "/~0/~", false),
    ("json-pointer", "/~2", false),
    ("json-pointer", "/~-1", false),
    ("json-pointer", "/~~", false),
    ("json-pointer", "a", false),
    ("json-pointer", "0", false),
    ("json-pointer", "a/a", false),
    ("relative-json-pointer", "1", true),
    ("relative-json-pointer", "0/foo/bar", true),
    ("relative-json-pointer", "2/0/baz/1/zip", true),
    ("relative-json-pointer", "0#", true),
    ("relative-json-pointer", "/foo/bar", false),
    ("time", "08:30:06.283185Z", true),
    ("time", "08:30:06 PST", false),
    ("time", "01:01:01,1111", false),
    ("uri", "http://foo.bar/?baz=qux#quux", true),
    ("uri", "http://foo.com/blah_(wikipedia)_blah#cite-1", true),
    ("uri", "http://foo.bar/?q=Test%20URL-encoded%20stuff", true),
    ("uri", "http://xn--nw2a.xn--j6w193g/", true),
    (
        "uri",
        "http://-.~_!$&'()*+,;=:%40:80%2f::::::@example.com",
        true,
    ),
    ("uri", "http://223.255.255.254", true),
    ("uri", "ftp://ftp.is.co.za/rfc/rfc1808.txt", true),
    ("uri", "http://www.ietf.org/rfc/rfc2396.txt", true),
    ("uri", "ldap://[2001:db8::7]/c=GB?objectClass?one", true),
    ("uri", "mailto:John.Doe@example.com", true),
    ("uri", "news:comp.infosystems.www.servers.unix", true),
    ("uri", "tel:+1-816-555-1212", true),
    (
        "uri",
        "urn:oasis:names:specification:docbook:dtd:xml:4.1.2",
        true,
    ),
    ("uri", "//foo.bar/?baz=qux#quux", false),
    ("uri", "/abc", false),
    ("uri", "\\\\WINDOWS\\fileshare", false),
    ("uri", "abc", false),
    ("uri", "http:// shouldfail.com", false),
    ("uri", ":// should fail", false),
    ("uri-reference", "http://foo.bar/?baz=qux#quux", true),
    ("uri-reference", "//foo.bar/?baz=qux#quux", true),
    ("uri-reference", "/abc", true),
    ("uri-reference", "\\\\WINDOWS\\fileshare", false),
    ("uri-reference", "abc", true),
    ("uri-reference", "#fragment", true),
    ("uri-reference", "#frag\\ment", false),
    (
        "uri-template",
        "http://example.com/dictionary/{term:1}/{term}",
        true,
    ),
    (
        "uri-template",
        "http://example.com/dictionary/{term:1}/{term",
        false,
    ),
    ("uri-template", "http://example.com/dictionary", true),
    ("uri-template", "dictionary/{term:1}/{term}", true),
];

/// Examples of RFC 3339, RFC 4291, RFC 4122, RFC 3986 and RFC 5321.
///
/// RFC 3339, section 5.8 and appendix A; RFC 4291, section 2.2; RFC 4122, section 3; RFC 3986,
/// section 1.1.2; RFC 5321, sections 4.1.2 and 4.1.3.
const OF_STANDARDS: [Case; 19] = [
    ("date-time", "1985-04-12T23:20:50.52Z", true),
    ("date-time", "1996-12-19T16:39:57-08:00", true),
    ("date-time", "1990-12-31T23:59:60Z", true),
    ("date-time", "1990-12-31T15:59:60-08:00", true),
    ("ipv6", "ABCD:EF01:2345:6789:ABCD:EF01:2345:6789", true),
    ("ipv6", "2001:DB8:0:0:8:800:200C:417A", true),
    ("ipv6", "FF01::101", true),
    ("ipv6", "::", true),
    ("ipv6", "0:0:0:0:0:0:13.1.68.3", true),
    ("ipv6", "::FFFF:129.144.52.38", true),
    ("uuid", "f81d4fae-7dec-11d0-a765-00a0c91e6bf6", true),
    ("duration", "P4DT12H30M5S", true),
    ("duration", "P2W", true),
    ("duration", "P1Y2W", false),
    ("duration", "PT", false),
    ("duration", "P1Y1D", false),
    ("uri", "telnet://192.0.2.16:80/", true),
    ("email", "\"joe bloggs\"@example.com", true),
    ("email", "joe.bloggs@[IPv6:::1]", true),
];

/// Examples of RFC 6570, and texts that two grammars accept or refuse.
///
/// The examples are from sections 1.1, 1.2 and 3.2. The grammars are those of RFC 6570, section 2,
/// and of RFC 6531, section 3.3.
const OF_TEMPLATES_AND_ADDRESSES: [Case; 55] = [
    ("uri-template", "http://example.com/~{username}/", true),
    ("uri-template", "http://example.com/search{?q,lang}", true),
    (
        "uri-template",
        "http://www.example.com/foo{?query,number}",
        true,
    ),
    ("uri-template", "O{empty}X", true),
    ("uri-template", "up{+path}{var}/here", true),
    ("uri-template", "X{#hello}", true),
    ("uri-template", "map?{x,y}", true),
    ("uri-template", "{#path,x}/here", true),
    ("uri-template", "X{.x,y}", true),
    ("uri-template", "{/var:1,var}", true),
    ("uri-template", "{/list*,path:4}", true),
    ("uri-template", "{;x,y,empty}", true),
    ("uri-template", "?fixed=yes{&x}", true),
    ("uri-template", "{var:30}", true),
    ("uri-template", "X{.empty_keys*}", true),
    ("uri-template", "www{.dom*}", true),
    ("uri-template", "", true),
    ("uri-template", "%7B{%7e._0.a}~!", true),
    ("uri-template", "{var:9999}", true),
    ("uri-template", "{=var}", true),
    ("uri-template", "{,var}", true),
    ("uri-template", "{!var}", true),
    ("uri-template", "{@var}", true),
    ("uri-template", "{|a,b*}", true),
    ("uri-template", "é{var}\u{E000}", true),
    ("uri-template", "{}", false),
    ("uri-template", "{var", false),
    ("uri-template", "var}", false),
    ("uri-template", "{{var}}", false),
    ("uri-template", "{?}", false),
    ("uri-template", "{$var}", false),
    ("uri-template", "{a,}", false),
    ("uri-template", "{a,,b}", false),
    ("uri-template", "{a..b}", false),
    ("uri-template", "{.a.}", false),
    ("uri-template", "{a b}", false),
    ("uri-template", "{é}", false),
    ("uri-template", "{%4}", false),
    ("uri-template", "{var:0}", false),
    ("uri-template", "{var:10000}", false),
    ("uri-template", "{var:}", false),
    ("uri-template", "{var*:3}", false),
    ("uri-template", "{var:3*}", false),
    ("uri-template", "{var**}", false),
    ("uri-template", "it's", false),
    ("uri-template", "a|b", false),
    ("uri-template", "%4g", false),
    ("uri-template", "\u{85}", false),
    ("idn-email", "\"a b\"@bücher.example", true),
    ("idn-email", "é.è@example.com", true),
    ("idn-email", "@bücher.example", false),
    ("idn-email", "é@-b.example", false),
    ("idn-email", "é è@example.com", false),
    ("email", "é@example.com", false),
    ("email", "e@bücher.example", false),
];

/// Durations in letters of either case, and literals of addresses in mail.
///
/// By RFC 3339, appendix A, with RFC 5234, section 2.3; by RFC 5321, section 4.1.3.
const OF_EITHER_CASE_AND_LITERALS: [Case; 19] = [
    ("duration", "p1d", true),
    ("duration", "p4dt12h30m5s", true),
    ("duration", "P1yT2h", true),
    ("duration", "p", false),
    ("duration", "1d", false),
    ("email", "joe.bloggs@[127.0.0.1]", true),
    ("email", "joe.bloggs@[127.000.000.001]", true),
    ("email", "joe.bloggs@[256.0.0.1]", false),
    ("email", "joe.bloggs@[0127.0.0.1]", false),
    ("email", "joe.bloggs@[127.0.1]", false),
    ("email", "joe.bloggs@[ipv6:::1]", true),
    ("email", "joe.bloggs@[::1]", false),
    ("email", "joe.bloggs@[IPv6:1:2:3:4:5:6:7:8]", true),
    ("email", "joe.bloggs@[IPv6:1:2:3:4:5:6::]", true),
    ("email", "joe.bloggs@[IPv6:1:2:3:4:5:6:7::]", false),
    ("email", "joe.bloggs@[IPv6:1:2:3:4:5:6:127.0.0.001]", true),
    ("email", "joe.bloggs@[IPv6:1:2:3:4::127.0.0.1]", true),
    ("email", "joe.bloggs@[IPv6:1:2:3:4:5::127.0.0.1]", false),
    ("ipv6", "1:2:3:4:5:6:7::", true),
];

/// Returns whether the answer for a case's text is the wanted one.
fn is_told(case: &Case) -> bool {
    match Format::named(case.0) {
        Some(format) => format.accepts(case.1) == case.2,
        None => false,
    }
}

#[test]
fn texts_are_told_as_wanted(rt: HostRuntime) {
    for case in &OF_THE_SUITE {
        assert!(rt; is_told(case), "{} of the suite: {}", case.0, case.1);
    }
    for case in &OF_STANDARDS {
        assert!(rt; is_told(case), "{} of a standard: {}", case.0, case.1);
    }
    for case in &OF_TEMPLATES_AND_ADDRESSES {
        assert!(rt; is_told(case), "{} by its grammar: {}", case.0, case.1);
    }
    for case in &OF_EITHER_CASE_AND_LITERALS {
        assert!(rt; is_told(case), "{} of its grammar: {}", case.0, case.1);
    }
}

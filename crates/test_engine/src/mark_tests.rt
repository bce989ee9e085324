//! A custom keyword type that marks its children, with its table.
//!
//! The engine keeps the marks of a run apart from those of other runs. The rows of
//! `test_check_rows` have no such table.

// The answers, schema, instance, nothing, no patterns. The keyword's error says "is refused",
// whatever its children say. In the third and fourth row the outer keyword has marked its two
// children before its second child is asked: if its marks were seen inside, the second child there
// would be skipped. In the fifth row the inner run has ended with marks of its own: if they were
// left, the outer second child would be skipped.
pub(crate) const MARKS: &str = r##"[
["yes", {"allOf":[true,true]}, null, null, []],
["no: is refused; is refused", {"allOf":[true,false]}, null, null, []],
["yes", {"allOf":[true,{"allOf":[true,true]}]}, null, null, []],
["no: is refused; is refused", {"allOf":[true,{"allOf":[true,false]}]}, null, null, []],
["no: is refused; is refused", {"allOf":[{"allOf":[true,true]},false]}, null, null, []]
]"##;

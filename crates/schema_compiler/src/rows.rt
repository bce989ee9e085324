//! A worked example: the order of keys and the guarded edges of a small schema.
ghost use Rattle.schema_compiler.specs.Rows.{CircleCloses, FoundNested, FoundWaiting, OnlyTheWayBack, nested_standings, waiting_standings};

/// States how the keys of a small cyclic schema are found.
///
/// The keys of `{"$ref": "#/$defs/a", "$defs": {"a": {"not": {"$ref": "#"}}}}` are found in this
/// order: the root, `/$defs/a`, and the value of `not`. With eight nested targets, that takes one
/// round; with none, two. In both cases, the edge back to the root is the only guarded edge of this
/// cycle.
///
/// The example is computed from the definitions alone, with a tiny resolver, table, matcher and
/// keyword type. The function does nothing at run time.
pub fn guarded_rows()
    ensures circle_closes { CircleCloses }
    ensures found_nested { FoundNested }
    ensures found_waiting { FoundWaiting }
    ensures nested_way_back { OnlyTheWayBack nested_standings }
    ensures waiting_way_back { OnlyTheWayBack waiting_standings }
{}

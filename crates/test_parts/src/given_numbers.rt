//! The numbers that makers were given, as their keywords hold them.
use schema_node_table::{NodeValidator, Nodes};
use schema_reports::OutOfMemory;
use schema_traits::{PendingSchemaNode, SchemaNode, Validate};
use test_laws::ItemsKeyword;

/// A keyword that may hold the number that its maker was given.
pub trait Numbered: Validate {
    fn number(&self) -> Option<PendingSchemaNode>;
}

impl Numbered for ItemsKeyword {
    fn number(&self) -> Option<PendingSchemaNode> {
        self.number
    }
}

/// Returns a word for a keyword's number: the first number, another, or none.
fn word_of<K: Numbered>(asked: NodeValidator<'_, K>) -> &'static str {
    let NodeValidator::Keyword(keyword) = asked else {
        return "";
    };
    match keyword.number() {
        Some(number) => {
            if number == PendingSchemaNode(0) {
                " first"
            } else {
                " another"
            }
        }
        None => "",
    }
}

/// Adds a word for each number of a node's keywords, if there is such a node.
fn push_numbers<K: Numbered>(
    nodes: &Nodes<K>,
    node: usize,
    log: &mut String,
) -> Result<(), OutOfMemory> {
    if node >= nodes.len() {
        return Ok(());
    }
    for asked in nodes.validators(SchemaNode(node)) {
        log.push_str(word_of(asked))?;
    }
    Ok(())
}

/// Adds a stroke for each node, and then the words of all nodes.
pub fn push_nodes<K: Numbered>(nodes: &Nodes<K>, log: &mut String) -> Result<(), OutOfMemory> {
    for _ in 0..nodes.len() {
        log.push_str("|")?;
    }
    for node in 0..nodes.len() {
        push_numbers(nodes, node, log)?;
    }
    Ok(())
}

// Nodes as JSON.
ghost use Rattle.std.specs.Prelude.{◌≡◌, ◌++◌, ◌∷◌, All, OnOk, string_bytes};
ghost use Rattle.json.specs.Print.{quoted};
ghost use Rattle.serde_json.specs.Data.{array, string, item, no_items};
ghost use Rattle.serde_json.specs.Written.{compact_text};
ghost use Rattle.goal_form.specs.declared.goal.Node.TheVariants as node;
ghost use Rattle.cert_rows.specs.FieldNames.{field_text};
ghost use Rattle.cert_rows.specs.Shapes.{IsTypedNode, IsTypedWord};
ghost use Rattle.cert_rows.specs.Values.{words_node, node_value, nodes_value};

use crate::field_names::text_of_field;
use crate::pieces::{push_comma, push_number, push_quoted};
use crate::words::push_words;
use goal_form::{Node, Words};
use std::alloc::{AllocError, Global};
use text_base::Field;

/// Adds the opening bracket and the letter of a node.
fn push_letter(alloc: Global, text: &mut String, letter: &str) -> Result<(), AllocError>
    ensures { OnOk result (string_bytes text.new ≡ string_bytes text.old ++ 91 ∷ quoted letter.now) }
{
    text.push_str("[")?;
    push_quoted(alloc, text, letter)
}

/// Adds a comma and the name of a field.
fn push_field(alloc: Global, text: &mut String, field: &Field) -> Result<(), AllocError>
    ensures { OnOk result (string_bytes text.new ≡ string_bytes text.old ++ 44 ∷ quoted (field_text field.now)) }
{
    let name = text_of_field(alloc, field)?;
    text.push_str(",")?;
    push_quoted(alloc, text, name.as_str())
}

/// Adds a node of a letter, a field and words.
fn push_words_node(
    alloc: Global,
    text: &mut String,
    letter: &str,
    field: &Field,
    words: &Words,
) -> Result<(), AllocError>
    ensures text { OnOk result (string_bytes text.new ≡ string_bytes text.old ++ compact_text (words_node letter.now field.now words.now.list)) }
    ensures typed { OnOk result (All IsTypedWord words.now.list) }
{
    push_letter(alloc, text, letter)?;
    push_field(alloc, text, field)?;
    text.push_str(",")?;
    push_words(text, words.list.as_slice())?;
    text.push_str("]")
}

fn push_split(alloc: Global, text: &mut String, atom: u32) -> Result<(), AllocError>
    ensures { OnOk result (string_bytes text.new ≡ string_bytes text.old ++ compact_text (node_value (node.Split atom))) }
{
    push_letter(alloc, text, "s")?;
    text.push_str(",")?;
    push_number(text, u64::from(atom))?;
    text.push_str("]")
}

fn push_clash(alloc: Global, text: &mut String, field: &Field) -> Result<(), AllocError>
    ensures { OnOk result (string_bytes text.new ≡ string_bytes text.old ++ compact_text (node_value (node.Clash field.now))) }
{
    push_letter(alloc, text, "c")?;
    push_field(alloc, text, field)?;
    text.push_str("]")
}

/// Adds a node of a letter alone.
fn push_bare(alloc: Global, text: &mut String, letter: &str) -> Result<(), AllocError>
    ensures { OnOk result (string_bytes text.new ≡ string_bytes text.old ++ compact_text (array (item (string letter.now) no_items))) }
{
    push_letter(alloc, text, letter)?;
    text.push_str("]")
}

fn push_node(alloc: Global, text: &mut String, node: &Node) -> Result<(), AllocError>
    ensures text { OnOk result (string_bytes text.new ≡ string_bytes text.old ++ compact_text (node_value node.now)) }
    ensures typed { OnOk result (IsTypedNode node.now) }
{
    match node {
        Node::Split { atom } => push_split(alloc, text, *atom),
        Node::False => push_bare(alloc, text, "b"),
        Node::Clash { field } => push_clash(alloc, text, field),
        Node::Closed { field, words } => push_words_node(alloc, text, "e", field, words),
        Node::Rest => push_bare(alloc, text, "o"),
        Node::Capped { field, words } => push_words_node(alloc, text, "q", field, words),
    }
}

/// Adds the nodes as an array.
pub fn push_nodes(alloc: Global, text: &mut String, nodes: &[Node]) -> Result<(), AllocError>
    ensures text { OnOk result (string_bytes text.new ≡ string_bytes text.old ++ compact_text (nodes_value nodes.now)) }
    ensures typed { OnOk result (All IsTypedNode nodes.now) }
{
    text.push_str("[")?;
    let mut later = false;
    for node in nodes {
        push_comma(text, later)?;
        push_node(alloc, text, node)?;
        later = true;
    }
    text.push_str("]")
}

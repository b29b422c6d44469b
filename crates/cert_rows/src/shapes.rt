// Whether a row has the shape of rows.
ghost use Rattle.std.specs.Prelude.{◌≡◌};
ghost use Rattle.std.specs.List.{list_all};
ghost use Rattle.text_base.specs.Alphabets.{between as lies_between};
ghost use Rattle.goal_form.specs.Goals.{is_named_well as is_well};
ghost use Rattle.cert_rows.specs.Shapes.{are_words as are_words_of, is_node as is_node_of, is_body as is_body_of, is_shaped};

use goal_form::{Node, Row, RowBody};
use req_model::is_header_name;
use text_base::Field;

fn are_words(words: &[(u64, u8)]) -> bool
    ensures { result ≡ are_words_of 0 words.now }
{
    for (i, word) in words.iter().enumerate() {
        if word.0 > i as u64 || word.1 < b' ' || word.1 > b'~' {
            return false;
        }
    }
    true
}

fn is_named_well(field: &Field) -> bool
    ensures { result ≡ is_well field.now }
{
    match field {
        Field::Header(name) => is_header_name(name.as_bytes()),
        _ => true,
    }
}

fn is_node(node: &Node) -> bool
    ensures { result ≡ is_node_of node.now }
{
    match node {
        Node::Split { .. } => true,
        Node::False => true,
        Node::Rest => true,
        Node::Clash { field } => is_named_well(field),
        Node::Closed { field, words } => is_named_well(field) && are_words(words.list.as_slice()),
        Node::Capped { field, words } => is_named_well(field) && are_words(words.list.as_slice()),
    }
}

fn are_nodes(nodes: &[Node]) -> bool
    ensures { result ≡ list_all is_node_of nodes.now }
{
    nodes.iter().all(|node| is_node(node))
}

fn is_body(body: &RowBody) -> bool
    ensures { result ≡ is_body_of body.now }
{
    match body {
        RowBody::Reached(_) => true,
        RowBody::Refuted(nodes) => are_nodes(nodes.as_slice()),
        RowBody::Undecided {
            nodes,
            splits,
            states,
        } => {
            are_nodes(nodes.as_slice())
                && (1 <= *splits && *splits <= 65_536)
                && (16 <= *states && *states <= 4_096)
        }
    }
}

/// Whether the row has the shape of rows, so that its line is read back as the row: headers of its nodes have names that
/// headers of requests may have; the prefix of each word is an earlier one or the empty word, and its last byte is
/// printed; splits are 1 to 65,536 and states 16 to 4,096. Takes no memory.
pub fn has_shape(row: &Row) -> bool
    ensures { result ≡ is_shaped row.now }
{
    is_body(&row.body)
}

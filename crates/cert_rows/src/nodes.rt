// Nodes of a row, read of their JSON values.
ghost use Rattle.std.specs.Prelude.{◌≡◌};
ghost use Rattle.serde_json.specs.View.{view, items_view};
ghost use Rattle.json_walk.specs.Outcome.{Gives};
ghost use Rattle.cert_rows.specs.Nodes.{letter, field_words as field_words_of, node_by as node_of_letter, node_at, nodes};

use crate::field_names::field_of;
use crate::leaves::{elements, none_more, one_value, two_values};
use crate::letter::{Letter, letter_named};
use crate::words::words_of;
use goal_form::{Node, Words};
use json_walk::{Kind, ReadFail, Reader, Text, at_index, count_of, read_list, refused_at};
use serde_json::Value;
use sqlite_items::Items;
use std::alloc::Global;
use text_base::Field;

/// The letter at the place.
#[tactic(auto, unfolding(crate::specs::Nodes::letter, json_walk::specs::Leaves::text))]
fn letter_of(alloc: Global, value: &Value, place: &Text) -> Result<Letter, ReadFail>
    ensures { Gives (λ l. l) result (letter place.now (view value.now)) }
{
    if let Some(text) = value.as_str() {
        if let Some(letter) = letter_named(text) {
            return Ok(letter);
        }
    }
    Err(refused_at(place.copy(alloc)?, Kind::WrongKind))
}

/// The field and the words after a letter.
#[tactic(auto, unfolding(crate::specs::Nodes::field_words))]
fn field_words(
    alloc: Global,
    values: &[Value],
    place: &Text,
) -> Result<(Field, Items<(u64, u8)>), ReadFail>
    ensures { Gives (λ b. b) result (field_words_of place.now (items_view values.now)) }
{
    let (first, second) = two_values(alloc, values, place)?;
    let field = field_of(alloc, first, &at_index(alloc, place, 1)?)?;
    let words = words_of(alloc, second, &at_index(alloc, place, 2)?)?;
    Ok((field, words))
}

/// The node of a letter and of the values after it.
#[tactic(auto, unfolding(crate::specs::Nodes::node_by))]
fn node_by(alloc: Global, letter: Letter, values: &[Value], place: &Text) -> Result<Node, ReadFail>
    ensures { Gives (λ n. n) result (node_of_letter place.now letter (items_view values.now)) }
{
    match letter {
        Letter::Split => {
            let value = one_value(alloc, values, place)?;
            let place = at_index(alloc, place, 1)?;
            let atom = count_of(alloc, value, &place, 0, 4_294_967_295)?;
            Ok(Node::Split { atom: atom as u32 })
        }
        Letter::False => {
            none_more(alloc, values, place)?;
            Ok(Node::False)
        }
        Letter::Clash => {
            let value = one_value(alloc, values, place)?;
            let field = field_of(alloc, value, &at_index(alloc, place, 1)?)?;
            Ok(Node::Clash { field })
        }
        Letter::Closed => {
            let (field, list) = field_words(alloc, values, place)?;
            Ok(Node::Closed {
                field,
                words: Words { list },
            })
        }
        Letter::Rest => {
            none_more(alloc, values, place)?;
            Ok(Node::Rest)
        }
        Letter::Capped => {
            let (field, list) = field_words(alloc, values, place)?;
            Ok(Node::Capped {
                field,
                words: Words { list },
            })
        }
    }
}

/// Reads a node.
#[derive(Drop)]
struct NodeReader;

impl Reader for NodeReader {
    type Out = Node;

    ghost reads = { λ _. node_at };

    #[tactic(auto, unfolding(crate::specs::Nodes::node_at))]
    fn read(&self, alloc: Global, value: &Value, place: &Text) -> Result<Node, ReadFail> {
        match elements(alloc, value, place)? {
            [] => Err(refused_at(place.copy(alloc)?, Kind::WrongKind)),
            [first, rest @ ..] => {
                let letter = letter_of(alloc, first, &at_index(alloc, place, 0)?)?;
                node_by(alloc, letter, rest, place)
            }
        }
    }
}

/// Reads a list of nodes.
#[derive(Drop)]
pub struct NodeList;

impl Reader for NodeList {
    type Out = Items<Node>;

    ghost reads = { λ _. nodes };

    #[tactic(auto, unfolding(crate::specs::Nodes::nodes))]
    fn read(&self, alloc: Global, value: &Value, place: &Text) -> Result<Items<Node>, ReadFail> {
        read_list(alloc, value, place, None, &NodeReader)
    }
}

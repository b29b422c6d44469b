// A guess at the row of a line that is as `write_row` writes rows of nodes, without a JSON value. Nothing is promised of it:
// the caller compares the line of the guessed row with the line that was given.

use crate::field_names::field_named;
use crate::letter::{Letter, letter_named};
use goal_form::{Node, Row, RowBody, Words};
use sqlite_items::Items;
use std::alloc::{AllocError, Global};
use text_base::{Field, Text};

/// The digits that the line begins with, and the rest.
fn split_digits(line: &[u8]) -> (&[u8], &[u8]) {
    match line.iter().position(|byte| !byte.is_ascii_digit()) {
        Some(end) => line.split_at(end),
        None => (line, &[]),
    }
}

/// The number that the line begins with, and the rest.
fn number(line: &[u8]) -> Option<(u64, &[u8])> {
    let (digits, rest) = split_digits(line);
    let mut value = 0u64;
    for digit in digits {
        value = value
            .checked_mul(10)?
            .checked_add(u64::from(digit.wrapping_sub(b'0')))?;
    }
    Some((value, rest))
}

/// The text up to the next quote, and the rest after the quote.
fn text(line: &[u8]) -> Option<(&str, &[u8])> {
    let end = line.iter().position(|byte| *byte == b'"')?;
    let (bytes, rest) = line.split_at(end);
    let text = str::from_utf8(bytes).ok()?;
    Some((text, rest.strip_prefix(b"\"".as_slice())?))
}

/// A word in its brackets, and the rest.
fn word(line: &[u8]) -> Option<((u64, u8), &[u8])> {
    let (parent, rest) = number(line.strip_prefix(b"[".as_slice())?)?;
    let (byte, rest) = number(rest.strip_prefix(b",".as_slice())?)?;
    let byte = u8::try_from(byte).ok()?;
    Some(((parent, byte), rest.strip_prefix(b"]".as_slice())?))
}

/// The words after an opening bracket, and the rest after the closing one.
fn words(alloc: Global, line: &[u8]) -> Result<Option<(Words, &[u8])>, AllocError> {
    let mut list = Items::new(alloc);
    let mut rest = line;
    for _ in 0..line.len() {
        let Some((found, more)) = word(rest) else {
            break;
        };
        list.push(found)?;
        rest = more;
        match rest {
            [b',', more @ ..] => rest = more,
            _ => break,
        }
    }
    match rest {
        [b']', more @ ..] => Ok(Some((Words { list }, more))),
        _ => Ok(None),
    }
}

/// The rest after a closing bracket.
fn closed(line: &[u8]) -> Option<&[u8]> {
    line.strip_prefix(b"]".as_slice())
}

/// The node of a letter without a field, read after the letter, and the rest.
fn bare_node(letter: Letter, line: &[u8]) -> Option<(Node, &[u8])> {
    match letter {
        Letter::False => Some((Node::False, closed(line)?)),
        Letter::Rest => Some((Node::Rest, closed(line)?)),
        Letter::Split => {
            let (atom, rest) = number(line.strip_prefix(b",".as_slice())?)?;
            let atom = u32::try_from(atom).ok()?;
            Some((Node::Split { atom }, closed(rest)?))
        }
        _ => None,
    }
}

/// The field after a letter, and the rest.
fn field(alloc: Global, line: &[u8]) -> Result<Option<(Field, &[u8])>, AllocError> {
    let Some(rest) = line.strip_prefix(b",\"".as_slice()) else {
        return Ok(None);
    };
    let Some((name, rest)) = text(rest) else {
        return Ok(None);
    };
    match field_named(alloc, name)? {
        Some(field) => Ok(Some((field, rest))),
        None => Ok(None),
    }
}

/// The field and the words after a letter, and the rest.
fn field_and_words(
    alloc: Global,
    line: &[u8],
) -> Result<Option<(Field, Words, &[u8])>, AllocError> {
    let Some((field, rest)) = field(alloc, line)? else {
        return Ok(None);
    };
    let Some(rest) = rest.strip_prefix(b",[".as_slice()) else {
        return Ok(None);
    };
    match words(alloc, rest)? {
        Some((words, rest)) => Ok(Some((field, words, rest))),
        None => Ok(None),
    }
}

/// The node of a letter with words.
fn words_node(letter: Letter, field: Field, words: Words) -> Option<Node> {
    match letter {
        Letter::Closed => Some(Node::Closed { field, words }),
        Letter::Capped => Some(Node::Capped { field, words }),
        _ => None,
    }
}

/// The node of a letter with a field, read after the letter, and the rest.
fn field_node(
    alloc: Global,
    letter: Letter,
    line: &[u8],
) -> Result<Option<(Node, &[u8])>, AllocError> {
    if let Letter::Clash = letter {
        let Some((field, rest)) = field(alloc, line)? else {
            return Ok(None);
        };
        return Ok(match closed(rest) {
            Some(rest) => Some((Node::Clash { field }, rest)),
            None => None,
        });
    }
    let Some((field, words, rest)) = field_and_words(alloc, line)? else {
        return Ok(None);
    };
    Ok(match (words_node(letter, field, words), closed(rest)) {
        (Some(node), Some(rest)) => Some((node, rest)),
        _ => None,
    })
}

/// The letter of a node after its opening bracket, and the rest.
fn letter(line: &[u8]) -> Option<(Letter, &[u8])> {
    let (name, rest) = text(line.strip_prefix(b"[\"".as_slice())?)?;
    Some((letter_named(name)?, rest))
}

/// A node, and the rest.
fn node(alloc: Global, line: &[u8]) -> Result<Option<(Node, &[u8])>, AllocError> {
    match letter(line) {
        Some((letter, rest)) => match letter {
            Letter::Split | Letter::False | Letter::Rest => Ok(bare_node(letter, rest)),
            Letter::Clash | Letter::Closed | Letter::Capped => field_node(alloc, letter, rest),
        },
        None => Ok(None),
    }
}

/// The nodes after an opening bracket, and the rest after the closing one.
fn nodes(alloc: Global, line: &[u8]) -> Result<Option<(Items<Node>, &[u8])>, AllocError> {
    let mut all = Items::new(alloc);
    let mut rest = line;
    for _ in 0..line.len() {
        let Some((found, more)) = node(alloc, rest)? else {
            break;
        };
        all.push(found)?;
        rest = more;
        match rest {
            [b',', more @ ..] => rest = more,
            _ => break,
        }
    }
    match closed(rest) {
        Some(rest) => Ok(Some((all, rest))),
        None => Ok(None),
    }
}

/// The budgets after the route, where there are some.
fn budgets(line: &[u8]) -> Option<(u32, u32)> {
    let (splits, rest) = number(line.strip_prefix(b",\"splits\":".as_slice())?)?;
    let (states, _) = number(rest.strip_prefix(b",\"states\":".as_slice())?)?;
    Some((u32::try_from(splits).ok()?, u32::try_from(states).ok()?))
}

fn body(nodes: Items<Node>, budgets: Option<(u32, u32)>) -> RowBody {
    match budgets {
        Some((splits, states)) => RowBody::Undecided {
            nodes,
            splits,
            states,
        },
        None => RowBody::Refuted(nodes),
    }
}

/// The row of nodes that the line seems to be, where it seems to be one.
pub fn guess(alloc: Global, line: &[u8]) -> Result<Option<Row>, AllocError> {
    let Some(rest) = line.strip_prefix(b"{\"nodes\":[".as_slice()) else {
        return Ok(None);
    };
    let Some((nodes, rest)) = nodes(alloc, rest)? else {
        return Ok(None);
    };
    let Some(rest) = rest.strip_prefix(b",\"route\":\"".as_slice()) else {
        return Ok(None);
    };
    let Some((place, rest)) = text(rest) else {
        return Ok(None);
    };
    let route = Text::of(alloc, place)?;
    Ok(Some(Row {
        route,
        body: body(nodes, budgets(rest)),
    }))
}

// The configuration of the cases, requests, and nodes out of short words.
ghost use Rattle.std.specs.Prelude.{IfOk};
ghost use Rattle.cfg_types.specs.Lawful.{IsLawful};

use cfg_types::Config;
use goal_form::{Node, Words};
use json_walk::ReadFail;
use read_config::read_config;
use req_model::{Parts, Request};
use sqlite_items::Items;
use std::alloc::Global;
use text_base::{Field, OutOfMemory, Text};

/// Routes by their rules: what the goals of the cases are made of.
const ROUTES: [&str; 7] = [
    r#""prefix":"/a""#,
    r#""path":"/a/x""#,
    r#""path":"/b""#,
    r#""path":"/b""#,
    r#""safe_regex":{"regex":"/[c-d]+"}"#,
    r#""prefix":"/h","headers":[{"name":"x","present_match":true}]"#,
    r#""prefix":"/h","headers":[{"name":"x","exact_match":"1"}]"#,
];

/// One host with the routes of the cases.
pub(crate) fn config(alloc: Global) -> Result<Config, ReadFail>
    ensures { IfOk result IsLawful }
{
    let mut text = String::new(alloc);
    text.push_str(r#"{"virtual_hosts":[{"name":"h","domains":["*"],"routes":["#)?;
    for (number, rule) in ROUTES.iter().enumerate() {
        if number > 0 {
            text.push(',')?;
        }
        let route = format!(in alloc;
            "{{\"match\":{{{rule}}},\"direct_response\":{{\"status\":200}}}}"
        )?;
        text.push_str(route.as_str())?;
    }
    text.push_str("]}]}")?;
    read_config(alloc, text.as_str().as_bytes())
}

fn bytes(alloc: Global, text: &str) -> Result<Items<u8>, OutOfMemory> {
    Items::from_slice(alloc, text.as_bytes())
}

/// A request for this target, which is to be valid.
pub(crate) fn request_for(alloc: Global, target: &str) -> Result<Request, OutOfMemory> {
    let parts = Parts {
        authority: bytes(alloc, "h")?,
        target: bytes(alloc, target)?,
        method: bytes(alloc, "GET")?,
        https: false,
        internal: false,
        headers: Items::new(alloc),
        runtime: Items::new(alloc),
        random: 0,
    };
    match Request::new(alloc, parts) {
        Ok(request) => Ok(request),
        Err(_) => Err(OutOfMemory),
    }
}

/// Words by pairs of a digit, the place of the parent, and a byte. Word 1 is made of the empty word and the first byte.
fn words_of(alloc: Global, first: u8, text: &str) -> Result<Words, OutOfMemory> {
    let mut list = Items::new(alloc);
    list.push((0, first))?;
    let bytes = text.as_bytes();
    for k in 0..bytes.len() / 2 {
        list.push((
            u64::from(bytes[2 * k].saturating_sub(b'0')),
            bytes[2 * k + 1],
        ))?;
    }
    Ok(Words { list })
}

/// The words close the target where it is `/a/x` and doesn't begin with `/a`, or are damaged.
fn closed(alloc: Global, first: u8, text: &str) -> Result<Node, OutOfMemory> {
    Ok(Node::Closed {
        field: Field::Target,
        words: words_of(alloc, first, text)?,
    })
}

/// `sK` splits on the atom K, `b` is false already, `o` wasn't looked at, `c` says that the target clashes, `h` that the
/// header does, `k` has three words of the target, `e` closes; the other words are damaged ones of `e`.
fn node_of(alloc: Global, word: &str) -> Result<Node, OutOfMemory> {
    if let Some(number) = word.strip_prefix("s") {
        return Ok(Node::Split {
            atom: number.parse::<u32>().unwrap_or(0),
        });
    }
    match word {
        "b" => Ok(Node::False),
        "o" => Ok(Node::Rest),
        "c" => Ok(Node::Clash {
            field: Field::Target,
        }),
        "h" => Ok(Node::Clash {
            field: Field::Header(Text::of(alloc, "x")?),
        }),
        "k" => Ok(Node::Capped {
            field: Field::Target,
            words: words_of(alloc, b' ', "0/")?,
        }),
        "e" => closed(alloc, b' ', "0/2!2a4 4!4/7x8?9 "),
        "parent" => closed(alloc, b' ', "7/2!2a4 4!4/7x8?9 "),
        "byte" => closed(alloc, 31, "0/2!2a4 4!4/7x8?9 "),
        "short" => closed(alloc, b' ', "0/2!2a4 4!4/7x8?"),
        _ => closed(alloc, b' ', "0/2!2a4 4!4/7x8?9 0 "),
    }
}

/// The nodes of a line.
pub(crate) fn nodes_of(alloc: Global, line: &str) -> Result<Items<Node>, OutOfMemory> {
    let mut nodes = Items::new(alloc);
    for word in line.split(' ') {
        nodes.push(node_of(alloc, word)?)?;
    }
    Ok(nodes)
}

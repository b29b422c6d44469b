// The parts of a request, and what rules can name of one.
ghost use Rattle.std.specs.Prelude.{◌≡◌};

use crate::Text;
use sqlite_items::Items;

/// A part of a request that a rule can name. A header's name is in lower case.
#[derive(Debug, Drop)]
pub enum Field {
    Authority,
    Target,
    Method,
    Proto,
    Random,
    Runtime,
    Internal,
    Header(Text),
}

impl Field {
    ghost use Rattle.text_base.specs.Seen.{field_named};

    /// The field that a name of a header stands for: `:authority`, `:path`, `:method`, `x-forwarded-proto` and
    /// `x-envoy-internal` stand for parts of the request. Takes no memory.
    pub fn of_header(name: Text) -> Field
        ensures { result ≡ field_named name }
    {
        let text = name.as_str();
        if text == ":authority" {
            Field::Authority
        } else if text == ":path" {
            Field::Target
        } else if text == ":method" {
            Field::Method
        } else if text == "x-forwarded-proto" {
            Field::Proto
        } else if text == "x-envoy-internal" {
            Field::Internal
        } else {
            Field::Header(name)
        }
    }
}

/// The parts of a request, valid or not. `https` stands for the proto, and an empty `runtime` for none.
#[derive(Debug, Drop)]
pub struct Parts {
    pub authority: Items<u8>,
    pub target: Items<u8>,
    pub method: Items<u8>,
    pub https: bool,
    pub internal: bool,
    pub headers: Items<(Items<u8>, Items<u8>)>,
    pub runtime: Items<u8>,
    pub random: u64,
}

/// The first part of a request that breaks its rules, or want of memory. A header is told by its index.
#[derive(Clone, Copy, Debug, PartialEq, Eq)]
pub enum BadRequest {
    Authority,
    Target,
    Method,
    Runtime,
    Header { index: u32 },
    OutOfMemory,
}

/// Headers by name and value, in order.
#[derive(Debug, Drop)]
pub struct Heads {
    pub list: Items<(Items<u8>, Items<u8>)>,
}

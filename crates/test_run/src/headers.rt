// Rules on headers that a test expects to hold on its request and on its response.
ghost use Rattle.std.specs.Prelude.{◌≡◌, ◌++◌, ◌⊎◌, All, IfOk, OnOk, if◌then◌else◌, Option, None};
ghost use Rattle.std.specs.Option.{option_copied};
ghost use Rattle.text_base.specs.Asked.{Bytes};
ghost use Rattle.text_base.specs.Seen.{values, joined_values};
ghost use Rattle.cfg_types.specs.HeaderRules.{header_agrees};
ghost use Rattle.test_run.specs.Verdicts.{request_text, response_heads as heads_of_response, response_text, names_a_part as is_named_part, header_failures};
ghost use Rattle.test_run.specs.HeaderTexts.{text_seen};
ghost use Rattle.test_run.specs.Lines.{IsNamed};

use crate::verdicts::Failure;
use cfg_types::{HeaderRule, Reply};
use req_model::{Joined, Request, join};
use route_match::{HeaderTest, Scratch};
use sqlite_items::Items;
use std::alloc::Global;
use std::marker::Model;
use test_read::Test;
use text_base::{Heads, OutOfMemory, Text};

/// Headers, which contracts see as their list. The values of each name are joined.
#[derive(Drop)]
pub struct JoinedHeads<'a> {
    heads: &'a Heads,
    joined: Joined,
}

impl<'a> Model for JoinedHeads<'a> {
    ghost use Rattle.std.specs.Prelude.{List};
    ghost use Rattle.text_base.specs.Asked.{Head};
    ghost use Rattle.req_model.specs.Joins.{AreJoined};

    ghost Value = { List Head };

    ghost view = { λ h. h.heads.now.list };

    ghost invariant = { λ h. AreJoined h.joined h.heads.now.list };
}

impl<'a> JoinedHeads<'a> {
    fn of(alloc: Global, heads: &'a Heads) -> Result<JoinedHeads<'a>, OutOfMemory>
        ensures { IfOk result (λ h. h ≡ heads.now.list) }
    {
        let joined = join(alloc, heads.list.as_slice())?;
        Ok(JoinedHeads { heads, joined })
    }

    /// The joined values of a name. Takes no memory.
    fn value(&self, name: &Text) -> Option<&[u8]>
        ensures { option_copied result ≡ joined_values (values name.now self.now) }
    {
        match self.joined.get(name.as_str()) {
            Some(value) => Some(value.as_slice()),
            None => None,
        }
    }
}

/// What rules on headers look at.
#[derive(Drop)]
pub enum Looked<'a> {
    Received(&'a Request),
    Sent {
        request: &'a Request,
        authority: &'a [u8],
        target: &'a [u8],
        heads: JoinedHeads<'a>,
    },
    Answered(JoinedHeads<'a>),
}

/// The request that rules look at: as it is sent on where it is forwarded, else as received.
pub fn request_looked<'a>(
    alloc: Global,
    test: &'a Test,
    answer: &'a Reply,
) -> Result<Looked<'a>, OutOfMemory>
    ensures { IfOk result (λ l. (name : Bytes) → text_seen l name ≡ request_text test.now.request answer.now name) }
{
    match answer {
        Reply::Forward {
            target,
            authority,
            request_headers,
            ..
        } => Ok(Looked::Sent {
            request: &test.request,
            authority: authority.as_slice(),
            target: target.as_slice(),
            heads: JoinedHeads::of(alloc, request_headers)?,
        }),
        _ => Ok(Looked::Received(&test.request)),
    }
}

/// The headers of the response: as edited where a route is chosen, else as they came.
fn response_heads<'a>(answer: &'a Reply, received: &'a Heads) -> &'a Heads
    ensures { result.now.list ≡ heads_of_response answer.now received.now.list }
{
    match answer {
        Reply::Forward {
            response_headers,
            ..
        }
        | Reply::Redirect {
            response_headers,
            ..
        }
        | Reply::Direct {
            response_headers,
            ..
        } => response_headers,
        Reply::NoHost | Reply::NoRoute { .. } | Reply::Tls { .. } => received,
    }
}

/// The response that rules look at.
pub fn response_looked<'a>(
    alloc: Global,
    test: &'a Test,
    answer: &'a Reply,
) -> Result<Looked<'a>, OutOfMemory>
    ensures { IfOk result (λ l. (name : Bytes) → text_seen l name ≡ response_text (heads_of_response answer.now test.now.response.list) name) }
{
    let heads = response_heads(answer, &test.response);
    Ok(Looked::Answered(JoinedHeads::of(alloc, heads)?))
}

fn names_a_part(name: &str) -> bool
    ensures { result ≡ is_named_part name.now }
{
    name == ":authority" || name == ":path" || name == ":method"
}

/// The text of a name among the headers of a response.
fn answered<'a>(heads: &'a JoinedHeads, name: &Text) -> Option<&'a [u8]>
    ensures { option_copied result ≡ response_text heads.now name.now }
{
    if names_a_part(name.as_str()) {
        return None;
    }
    heads.value(name)
}

/// Whether a rule holds on its text.
fn holds(alloc: Global, rule: &HeaderRule, looked: &Looked) -> Result<bool, OutOfMemory>
    ensures { IfOk result (λ b. b ≡ header_agrees rule.now (text_seen looked.now rule.now.name)) }
{
    let test = HeaderTest::build(alloc, rule)?;
    let mut scratch = Scratch::new(alloc, test.room())?;
    Ok(match looked {
        Looked::Received(request) => test.holds(request, &mut scratch),
        Looked::Sent {
            request,
            authority,
            target,
            heads,
        } => {
            let text = match rule.name.as_str() {
                ":authority" => Some(*authority),
                ":path" => Some(*target),
                ":method" => Some(request.parts().method.as_slice()),
                _ => heads.value(&rule.name),
            };
            test.agrees(text, &mut scratch)
        }
        Looked::Answered(heads) => test.agrees(answered(heads, &rule.name), &mut scratch),
    })
}

/// Adds a failure for each rule that doesn't hold, by its index. A rule past the first 2^32 is answered as want of memory.
pub fn judge(
    alloc: Global,
    failures: &mut Items<Failure>,
    field: u8,
    rules: &[HeaderRule],
    looked: &Looked,
) -> Result<(), OutOfMemory>
    requires told { (field ≡ 6) ⊎ (field ≡ 7) }
    requires named { All IsNamed failures.old }
    ensures more { OnOk result (failures.new ≡ failures.old ++ header_failures field (text_seen looked.now) rules.now) }
    ensures named { OnOk result (All IsNamed failures.new) }
{
    for (index, rule) in rules.iter().enumerate() {
        if holds(alloc, rule, looked)? {
            continue;
        }
        let Ok(index) = u32::try_from(index) else {
            return Err(OutOfMemory);
        };
        failures.push(Failure::Header { field, index })?;
    }
    Ok(())
}

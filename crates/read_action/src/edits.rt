// Edits of headers: the header lists of a level.
ghost use Rattle.std.specs.Prelude.{◌≡◌, map, option_map, if◌then◌else◌, None};
ghost use Rattle.serde_json.specs.View.{view};
ghost use Rattle.serde_json.specs.Find.{get};
ghost use Rattle.json_tables.specs.declared.message.Message.TheVariants as messages;
ghost use Rattle.json_tables.specs.Spellings.{both, with_camel};
ghost use Rattle.json_walk.specs.Outcome.{Gives};
ghost use Rattle.json_walk.specs.Members.{is_given as is_given_of, names_of};
ghost use Rattle.json_walk.specs.Fields.{field as field_of};
ghost use Rattle.read_action.specs.Edits.{header_value, append_actions, how_of as how_at, append_action, how_form as how_form_of, way_of_adding as way_of_adding_at, header_value_option, listed as listed_of, edits, name_of};

use cfg_types::{Addition, EditPair, Edits, How};
use json_walk::{
    Message, Names, ReadFail, Reader, Text, Truth, alone, choice_of, members, optional, read_list,
    required, text_or_empty, under,
};
use read_match::{EditName, ValueText};
use serde_json::Value;
use sqlite_items::Items;
use std::alloc::Global;

/// The most elements of a header list.
const LIST_LIMIT: u32 = 1_000;

/// A HeaderValue: the name of a header and its value, empty by default.
#[derive(Drop)]
struct HeaderValue;

impl Reader for HeaderValue {
    type Out = (Text, Text);

    ghost reads = { λ _. header_value };

    #[tactic(auto, unfolding(crate::specs::Edits::header_value))]
    fn read(&self, alloc: Global, value: &Value, place: &Text) -> Result<(Text, Text), ReadFail> {
        const M: Message = Message::HeaderValue;
        let names = members(alloc, value, place, M)?;
        let key = required(alloc, value, place, &names, M, 0, &EditName)?;
        let value = optional(alloc, value, place, &names, M, 1, &ValueText)?;
        let value = text_or_empty(alloc, value)?;
        Ok((key, value))
    }
}

#[tactic(auto, unfolding(crate::specs::Edits::append_actions))]
fn append_names() -> &'static [&'static str]
    ensures { map (λ n. n.now) result.now ≡ append_actions }
{
    &[
        "APPEND_IF_EXISTS_OR_ADD",
        "ADD_IF_ABSENT",
        "OVERWRITE_IF_EXISTS_OR_ADD",
        "OVERWRITE_IF_EXISTS",
    ]
}

fn how_of(number: usize) -> How
    ensures { result ≡ how_at number }
{
    match number {
        0 => How::Append,
        1 => How::IfAbsent,
        2 => How::Overwrite,
        _ => How::OverwriteIfThere,
    }
}

/// One of the four names, else `OutOfRange`.
#[derive(Drop)]
struct AppendAction;

impl Reader for AppendAction {
    type Out = How;

    ghost reads = { λ _. append_action };

    #[tactic(auto, unfolding(crate::specs::Edits::append_action))]
    fn read(&self, alloc: Global, value: &Value, place: &Text) -> Result<How, ReadFail> {
        let number = choice_of(alloc, value, place, append_names())?;
        Ok(how_of(number))
    }
}

#[tactic(auto, unfolding(crate::specs::Edits::how_form))]
fn how_form(append: Option<bool>, action: Option<How>) -> How
    ensures { result ≡ how_form_of append action }
{
    match append {
        Some(true) => How::Append,
        Some(false) => How::Overwrite,
        None => action.unwrap_or(How::Append),
    }
}

/// How the header is added, and whether an empty value is kept.
#[tactic(auto, unfolding(crate::specs::Edits::way_of_adding))]
fn way_of_adding(
    alloc: Global,
    value: &Value,
    place: &Text,
    names: &Names,
) -> Result<(How, bool), ReadFail>
    requires { names.now.spelled.items ≡ names_of messages.HeaderValueOption (view value.now) }
    ensures { Gives (λ w. w) result (way_of_adding_at place.now (view value.now)) }
{
    const M: Message = Message::HeaderValueOption;
    let append = optional(alloc, value, place, names, M, 1, &Truth)?;
    let action = optional(alloc, value, place, names, M, 2, &AppendAction)?;
    let keep = optional(alloc, value, place, names, M, 3, &Truth)?;
    alone(alloc, value, place, names, M, 1, 2)?;
    Ok((how_form(append, action), keep.unwrap_or(false)))
}

/// A HeaderValueOption: a header that is added.
#[derive(Drop)]
pub struct HeaderOption;

impl Reader for HeaderOption {
    type Out = Addition;

    ghost reads = { λ _. header_value_option };

    #[tactic(auto, unfolding(crate::specs::Edits::header_value_option))]
    fn read(&self, alloc: Global, value: &Value, place: &Text) -> Result<Addition, ReadFail> {
        const M: Message = Message::HeaderValueOption;
        let names = members(alloc, value, place, M)?;
        let (name, text) = required(alloc, value, place, &names, M, 0, &HeaderValue)?;
        let (how, keep_empty) = way_of_adding(alloc, value, place, &names)?;
        Ok(Addition {
            name,
            value: text,
            how,
            keep_empty,
        })
    }
}

/// A header list of an object.
#[derive(Clone, Copy)]
enum HeaderList {
    RequestAdd,
    RequestRemove,
    ResponseAdd,
    ResponseRemove,
}

/// The two spellings of its name.
fn spellings_of(list: HeaderList) -> (&'static str, &'static str)
    ensures { both result ≡ with_camel (name_of list) }
{
    match list {
        HeaderList::RequestAdd => ("request_headers_to_add", "requestHeadersToAdd"),
        HeaderList::RequestRemove => ("request_headers_to_remove", "requestHeadersToRemove"),
        HeaderList::ResponseAdd => ("response_headers_to_add", "responseHeadersToAdd"),
        HeaderList::ResponseRemove => ("response_headers_to_remove", "responseHeadersToRemove"),
    }
}

/// The member with this name, where it is there and not null.
fn given<'v>(value: &'v Value, name: &str) -> Option<&'v Value>
    ensures { option_map (λ v. view v.now) result ≡ (if is_given_of (get name.now (view value.now)) then get name.now (view value.now) else None) }
{
    match value.get(name) {
        Some(member) => if member.is_null() { None } else { Some(member) },
        None => None,
    }
}

/// The list under either spelling of its name, where it is there and not null.
fn list_in<'v>(value: &'v Value, list: HeaderList) -> Option<&'v Value>
    ensures { option_map (λ v. view v.now) result ≡ field_of (name_of list) (view value.now) }
{
    let (snake, camel) = spellings_of(list);
    match given(value, snake) {
        Some(member) => Some(member),
        None => given(value, camel),
    }
}

/// A header list of the object, which is empty where it is absent.
fn listed<R: Reader>(
    alloc: Global,
    value: &Value,
    place: &Text,
    list: HeaderList,
    element: &R,
) -> Result<Items<R::Out>, ReadFail>
    ensures { Gives (λ l. l) result (listed_of (name_of list) (R.reads element.now) place.now (view value.now)) }
{
    match list_in(value, list) {
        Some(member) => {
            let at = under(alloc, place, spellings_of(list).0)?;
            read_list(alloc, member, &at, Some(LIST_LIMIT), element)
        }
        None => Ok(Items::new(alloc)),
    }
}

/// The header edits of an object: its four header lists, each of at most 1,000 elements. An absent one is empty. The object's
/// other members aren't looked at.
#[tactic(auto, unfolding(crate::specs::Edits::edits))]
pub fn read_edits(alloc: Global, value: &Value, place: &Text) -> Result<EditPair, ReadFail>
    ensures { Gives (λ e. e) result (edits place.now (view value.now)) }
{
    let add = listed(alloc, value, place, HeaderList::RequestAdd, &HeaderOption)?;
    let remove = listed(alloc, value, place, HeaderList::RequestRemove, &EditName)?;
    let add_back = listed(alloc, value, place, HeaderList::ResponseAdd, &HeaderOption)?;
    let remove_back = listed(alloc, value, place, HeaderList::ResponseRemove, &EditName)?;
    Ok(EditPair {
        request: Edits { remove, add },
        response: Edits {
            remove: remove_back,
            add: add_back,
        },
    })
}

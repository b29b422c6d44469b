// Matchers.
ghost use Rattle.std.specs.Prelude.{◌≡◌, ◌<◌, [], length, get_or, option_map, IfOk};
ghost use Rattle.serde_json.specs.View.{view, items_view, members_view};
ghost use Rattle.json_tables.specs.Fields.{fields};
ghost use Rattle.json_tables.specs.declared.message.Message.TheVariants as messages;
ghost use Rattle.json_walk.specs.Outcome.{Gives};
ghost use Rattle.json_walk.specs.Fields.{optional as optional_at, required as required_at};
ghost use Rattle.json_walk.specs.Leaves.{items};
ghost use Rattle.json_walk.specs.Members.{names_of};
ghost use Rattle.read_tree.specs.Maps.{in_byte_order};
ghost use Rattle.read_tree.specs.Trees.{then_form as then_form_of, then_forms as then_forms_of, keeps_matching as keeps_matching_of, on_match as on_match_of, field_matcher as field_matcher_of, some_entry as some_entry_of, matcher_list as matcher_list_of, key_then as key_then_of, keyed as keyed_of, map_entries as map_entries_of, some_key as some_key_of, match_map as match_map_of, map_form as map_form_of, matcher_tree as matcher_tree_of, body_form as body_form_of, matcher};

use crate::action::ActionReader;
use crate::input::InputReader;
use crate::maps::{key_of, longest_first};
use crate::predicate::PredicateReader;
use cfg_types::{Entry, InputRule, KeyThen, Route, Then, Tree, TreeBody};
use json_walk::{
    Kind, Message, Names, ReadFail, Reader, Text, Truth, alone, at_index, field, field_place,
    items_of, members, must, object_of, optional, refused_at, required, under,
};
use serde_json::{Map, Value};
use sqlite_items::{Boxed, Items};
use std::alloc::Global;
use text_base::OutOfMemory;

/// How deep matchers may be nested.
const DEPTH: u8 = 12;

/// The matcher at a place, or its first offence.
pub fn read_tree(alloc: Global, value: &Value, place: &Text) -> Result<Tree, ReadFail>
    ensures { Gives (λ t. t) result (matcher 12 place.now (view value.now)) }
{
    read_matcher(alloc, value, place, DEPTH)
}

// ---- what a match leads to

#[tactic(auto, unfolding(crate::specs::Trees::then_form))]
fn then_form(
    alloc: Global,
    tree: Option<Tree>,
    routes: Option<Items<Route>>,
) -> Result<Option<Then>, OutOfMemory>
    ensures { IfOk result (λ o. o ≡ then_form_of tree routes) }
{
    if let Some(tree) = tree {
        return Ok(Some(Then::Inner(Boxed::new(alloc, tree)?)));
    }
    if let Some(routes) = routes {
        return Ok(Some(Then::Routes(routes)));
    }
    Ok(None)
}

#[tactic(auto, unfolding(crate::specs::Trees::keeps_matching))]
fn keeps_matching(alloc: Global, place: &Text, keep: Option<bool>) -> Result<(), ReadFail>
    ensures { Gives (λ u. u) result (keeps_matching_of place.now keep) }
{
    match keep {
        Some(true) => {
            let at = field_place(alloc, place, Message::OnMatch, 2)?;
            Err(refused_at(at, Kind::NotInProfile))
        }
        _ => Ok(()),
    }
}

#[cycle(matcher)]
#[tactic(auto, unfolding(crate::specs::Trees::on_match))]
fn read_on_match(alloc: Global, value: &Value, place: &Text, left: u8) -> Result<Then, ReadFail>
    ensures { Gives (λ t. t) result (on_match_of (matcher left) place.now (view value.now)) }
{
    const M: Message = Message::OnMatch;
    let names = members(alloc, value, place, M)?;
    let found = then_forms(alloc, value, place, &names, left)?;
    let keep = optional(alloc, value, place, &names, M, 2, &Truth)?;
    alone(alloc, value, place, &names, M, 0, 2)?;
    let next = must(alloc, place, found)?;
    keeps_matching(alloc, place, keep)?;
    Ok(next)
}

/// The alternatives of what a match leads to, and the first that is there.
#[cycle(matcher)]
#[tactic(auto, unfolding(crate::specs::Trees::then_forms))]
fn then_forms(
    alloc: Global,
    value: &Value,
    place: &Text,
    names: &Names,
    left: u8,
) -> Result<Option<Then>, ReadFail>
    requires { names.now.spelled.items ≡ names_of messages.OnMatch (view value.now) }
    ensures { Gives (λ o. o) result (then_forms_of (matcher left) place.now (view value.now)) }
{
    let tree = optional_matcher(alloc, value, place, names, 0, left)?;
    let routes = optional(
        alloc,
        value,
        place,
        names,
        Message::OnMatch,
        1,
        &ActionReader,
    )?;
    Ok(then_form(alloc, tree, routes)?)
}

#[cycle(matcher)]
fn optional_matcher(
    alloc: Global,
    value: &Value,
    place: &Text,
    names: &Names,
    number: usize,
    left: u8,
) -> Result<Option<Tree>, ReadFail>
    requires named { names.now.spelled.items ≡ names_of messages.OnMatch (view value.now) }
    requires within { number < length (fields messages.OnMatch) }
    ensures { Gives (λ o. o) result
        (optional_at place.now (view value.now) (get_or (fields messages.OnMatch) number []) (matcher left)) }
{
    match field(value, names, Message::OnMatch, number) {
        Some(inner) => {
            let at = field_place(alloc, place, Message::OnMatch, number)?;
            Ok(Some(read_matcher(alloc, inner, &at, left)?))
        }
        None => Ok(None),
    }
}

#[cycle(matcher)]
fn required_on_match(
    alloc: Global,
    value: &Value,
    place: &Text,
    names: &Names,
    number: usize,
    left: u8,
) -> Result<Then, ReadFail>
    requires named { names.now.spelled.items ≡ names_of messages.FieldMatcher (view value.now) }
    requires within { number < length (fields messages.FieldMatcher) }
    ensures { Gives (λ t. t) result
        (required_at place.now (view value.now) (get_or (fields messages.FieldMatcher) number []) (on_match_of (matcher left))) }
{
    let at = field_place(alloc, place, Message::FieldMatcher, number)?;
    match field(value, names, Message::FieldMatcher, number) {
        Some(inner) => read_on_match(alloc, inner, &at, left),
        None => Err(refused_at(at, Kind::Missing)),
    }
}

// ---- lists

#[cycle(matcher)]
#[tactic(auto, unfolding(crate::specs::Trees::field_matcher))]
fn field_matcher(alloc: Global, value: &Value, place: &Text, left: u8) -> Result<Entry, ReadFail>
    ensures { Gives (λ e. e) result (field_matcher_of (matcher left) place.now (view value.now)) }
{
    const M: Message = Message::FieldMatcher;
    let names = members(alloc, value, place, M)?;
    let test = required(alloc, value, place, &names, M, 0, &PredicateReader)?;
    let next = required_on_match(alloc, value, place, &names, 1, left)?;
    Ok(Entry { test, next })
}

#[cycle(matcher)]
fn each_entry(
    alloc: Global,
    values: &[Value],
    place: &Text,
    left: u8,
) -> Result<Items<Entry>, ReadFail>
    ensures { Gives (λ es. es) result (items place.now (field_matcher_of (matcher left)) 0 (items_view values.now)) }
{
    let mut all = Items::new(alloc);
    for (i, value) in values.iter().enumerate() {
        let at = at_index(alloc, place, i)?;
        let one = field_matcher(alloc, value, &at, left)?;
        all.push(one)?;
    }
    Ok(all)
}

#[tactic(auto, unfolding(crate::specs::Trees::some_entry))]
fn some_entry(list: Items<Entry>, place: Text) -> Result<Items<Entry>, ReadFail>
    ensures { Gives (λ es. es) result (some_entry_of place list) }
{
    if list.is_empty() {
        return Err(refused_at(place, Kind::Missing));
    }
    Ok(list)
}

#[cycle(matcher)]
#[tactic(auto, unfolding(crate::specs::Trees::matcher_list))]
fn matcher_list(
    alloc: Global,
    value: &Value,
    place: &Text,
    left: u8,
) -> Result<Items<Entry>, ReadFail>
    ensures { Gives (λ es. es) result (matcher_list_of (matcher left) place.now (view value.now)) }
{
    const M: Message = Message::MatcherList;
    let names = members(alloc, value, place, M)?;
    let at = field_place(alloc, place, M, 0)?;
    let Some(inner) = field(value, &names, M, 0) else {
        return Err(refused_at(at, Kind::Missing));
    };
    let items = items_of(alloc, inner, &at, None)?;
    let list = each_entry(alloc, items.as_slice(), &at, left)?;
    some_entry(list, at)
}

#[cycle(matcher)]
fn optional_list(
    alloc: Global,
    value: &Value,
    place: &Text,
    names: &Names,
    number: usize,
    left: u8,
) -> Result<Option<Items<Entry>>, ReadFail>
    requires named { names.now.spelled.items ≡ names_of messages.Matcher (view value.now) }
    requires within { number < length (fields messages.Matcher) }
    ensures { Gives (λ o. o) result
        (optional_at place.now (view value.now) (get_or (fields messages.Matcher) number []) (matcher_list_of (matcher left))) }
{
    match field(value, names, Message::Matcher, number) {
        Some(inner) => {
            let at = field_place(alloc, place, Message::Matcher, number)?;
            Ok(Some(matcher_list(alloc, inner, &at, left)?))
        }
        None => Ok(None),
    }
}

// ---- maps

#[cycle(matcher)]
#[tactic(auto, unfolding(crate::specs::Trees::key_then))]
fn key_then(
    alloc: Global,
    key: &str,
    value: &Value,
    place: &Text,
    left: u8,
) -> Result<KeyThen, ReadFail>
    ensures { Gives (λ k. k) result (key_then_of (matcher left) place.now key.now (view value.now)) }
{
    let at = under(alloc, place, key)?;
    let key = key_of(alloc, key, &at)?;
    let next = read_on_match(alloc, value, &at, left)?;
    Ok(KeyThen { key, next })
}

#[cycle(matcher)]
fn each_key(
    alloc: Global,
    members: &Map<String, Value>,
    place: &Text,
    left: u8,
) -> Result<Vec<KeyThen>, ReadFail>
    ensures { Gives (λ ks. ks.items) result (keyed_of (matcher left) place.now (in_byte_order (members_view members.now.entries))) }
{
    let mut all = Vec::new(alloc);
    for (key, member) in members.iter() {
        let one = key_then(alloc, key.as_str(), member, place, left)?;
        all.push(one)?;
    }
    Ok(all)
}

#[tactic(auto, unfolding(crate::specs::Trees::some_key))]
fn some_key(list: Vec<KeyThen>, place: Text) -> Result<Vec<KeyThen>, ReadFail>
    ensures { Gives (λ ks. ks.items) result (some_key_of place list.items) }
{
    if list.is_empty() {
        return Err(refused_at(place, Kind::Missing));
    }
    Ok(list)
}

#[cycle(matcher)]
#[tactic(auto, unfolding(crate::specs::Trees::map_entries))]
fn map_entries(
    alloc: Global,
    value: &Value,
    place: &Text,
    left: u8,
) -> Result<Vec<KeyThen>, ReadFail>
    ensures { Gives (λ ks. ks.items) result (map_entries_of (matcher left) place.now (view value.now)) }
{
    match value.as_object() {
        Some(members) => each_key(alloc, members, place, left),
        None => Err(refused_at(place.copy(alloc)?, Kind::WrongKind)),
    }
}

#[cycle(matcher)]
#[tactic(auto, unfolding(crate::specs::Trees::match_map))]
fn match_map(alloc: Global, value: &Value, place: &Text, left: u8) -> Result<Vec<KeyThen>, ReadFail>
    ensures { Gives (λ ks. ks.items) result (match_map_of (matcher left) place.now (view value.now)) }
{
    const M: Message = Message::MatchMap;
    let names = members(alloc, value, place, M)?;
    let at = field_place(alloc, place, M, 0)?;
    let Some(inner) = field(value, &names, M, 0) else {
        return Err(refused_at(at, Kind::Missing));
    };
    let list = map_entries(alloc, inner, &at, left)?;
    some_key(list, at)
}

#[cycle(matcher)]
fn optional_map(
    alloc: Global,
    value: &Value,
    place: &Text,
    names: &Names,
    number: usize,
    left: u8,
) -> Result<Option<Vec<KeyThen>>, ReadFail>
    requires named { names.now.spelled.items ≡ names_of messages.MatcherTree (view value.now) }
    requires within { number < length (fields messages.MatcherTree) }
    ensures { Gives (option_map (λ ks. ks.items)) result
        (optional_at place.now (view value.now) (get_or (fields messages.MatcherTree) number []) (match_map_of (matcher left))) }
{
    match field(value, names, Message::MatcherTree, number) {
        Some(inner) => {
            let at = field_place(alloc, place, Message::MatcherTree, number)?;
            Ok(Some(match_map(alloc, inner, &at, left)?))
        }
        None => Ok(None),
    }
}

#[tactic(auto, unfolding(crate::specs::Trees::map_form))]
fn map_form(
    input: InputRule,
    exact: Option<Vec<KeyThen>>,
    prefix: Option<Vec<KeyThen>>,
) -> Result<Option<TreeBody>, OutOfMemory>
    ensures { IfOk result (λ o. o ≡ map_form_of input (option_map (λ ks. ks.items) exact) (option_map (λ ks. ks.items) prefix)) }
{
    if let Some(map) = exact {
        return Ok(Some(TreeBody::Exact {
            input,
            map: Items::from_vec(map),
        }));
    }
    if let Some(map) = prefix {
        return Ok(Some(TreeBody::Prefix {
            input,
            map: longest_first(map)?,
        }));
    }
    Ok(None)
}

#[cycle(matcher)]
#[tactic(auto, unfolding(crate::specs::Trees::matcher_tree))]
fn matcher_tree(alloc: Global, value: &Value, place: &Text, left: u8) -> Result<TreeBody, ReadFail>
    ensures { Gives (λ b. b) result (matcher_tree_of (matcher left) place.now (view value.now)) }
{
    const M: Message = Message::MatcherTree;
    let names = members(alloc, value, place, M)?;
    let input = required(alloc, value, place, &names, M, 0, &InputReader)?;
    let exact = optional_map(alloc, value, place, &names, 1, left)?;
    let prefix = optional_map(alloc, value, place, &names, 2, left)?;
    alone(alloc, value, place, &names, M, 1, 2)?;
    let found = map_form(input, exact, prefix)?;
    must(alloc, place, found)
}

#[cycle(matcher)]
fn optional_tree(
    alloc: Global,
    value: &Value,
    place: &Text,
    names: &Names,
    number: usize,
    left: u8,
) -> Result<Option<TreeBody>, ReadFail>
    requires named { names.now.spelled.items ≡ names_of messages.Matcher (view value.now) }
    requires within { number < length (fields messages.Matcher) }
    ensures { Gives (λ o. o) result
        (optional_at place.now (view value.now) (get_or (fields messages.Matcher) number []) (matcher_tree_of (matcher left))) }
{
    match field(value, names, Message::Matcher, number) {
        Some(inner) => {
            let at = field_place(alloc, place, Message::Matcher, number)?;
            Ok(Some(matcher_tree(alloc, inner, &at, left)?))
        }
        None => Ok(None),
    }
}

// ---- matchers

#[cycle(matcher)]
fn optional_on_match(
    alloc: Global,
    value: &Value,
    place: &Text,
    names: &Names,
    number: usize,
    left: u8,
) -> Result<Option<Then>, ReadFail>
    requires named { names.now.spelled.items ≡ names_of messages.Matcher (view value.now) }
    requires within { number < length (fields messages.Matcher) }
    ensures { Gives (λ o. o) result
        (optional_at place.now (view value.now) (get_or (fields messages.Matcher) number []) (on_match_of (matcher left))) }
{
    match field(value, names, Message::Matcher, number) {
        Some(inner) => {
            let at = field_place(alloc, place, Message::Matcher, number)?;
            Ok(Some(read_on_match(alloc, inner, &at, left)?))
        }
        None => Ok(None),
    }
}

#[tactic(auto, unfolding(crate::specs::Trees::body_form))]
fn body_form(entries: Option<Items<Entry>>, tree: Option<TreeBody>) -> TreeBody
    ensures { result ≡ body_form_of entries tree }
{
    if let Some(entries) = entries {
        return TreeBody::List(entries);
    }
    match tree {
        Some(body) => body,
        None => TreeBody::Bare,
    }
}

/// A matcher, with so many levels left.
#[cycle(matcher)]
#[tactic(auto, unfolding(crate::specs::Trees::matcher, crate::specs::Trees::matcher_by))]
fn read_matcher(alloc: Global, value: &Value, place: &Text, left: u8) -> Result<Tree, ReadFail>
    ensures { Gives (λ t. t) result (matcher left place.now (view value.now)) }
{
    const M: Message = Message::Matcher;
    if left == 0 {
        object_of(alloc, value, place)?;
        return Err(refused_at(place.copy(alloc)?, Kind::TooDeep));
    }
    let names = members(alloc, value, place, M)?;
    let entries = optional_list(alloc, value, place, &names, 0, left - 1)?;
    let tree = optional_tree(alloc, value, place, &names, 1, left - 1)?;
    let otherwise = optional_on_match(alloc, value, place, &names, 2, left - 1)?;
    alone(alloc, value, place, &names, M, 0, 2)?;
    Ok(Tree {
        body: body_form(entries, tree),
        otherwise,
    })
}

/// The matcher of a host.
#[derive(Drop)]
pub struct TreeReader;

impl Reader for TreeReader {
    type Out = Tree;

    ghost reads = { λ _. matcher 12 };

    fn read(&self, alloc: Global, value: &Value, place: &Text) -> Result<Tree, ReadFail> {
        read_tree(alloc, value, place)
    }
}

// Public calls that reading a whole file doesn't reach, or not in this way.
use crate::configs::refusal_told;
use crate::told::{edits_told, route_told};
use json_tables::{
    Message, camel_is_met_first, carried_of, fields_of, outside_of, spellings_differ,
};
use json_walk::{ReadFail, Reader, items_of, list_of, members, object_of, read_value};
use read_action::{TypedRoute, read_edits};
use std::alloc::Global;
use std::test::Fail;
use text_base::Text;

#[test]
fn tables_have_both_spellings(rt: HostRuntime) {
    camel_is_met_first();
    spellings_differ();
    let tables = [
        (
            fields_of(Message::StringMatcher),
            6,
            ("ignore_case", "ignoreCase"),
        ),
        (fields_of(Message::RouteList), 2, ("routes", "routes")),
        (
            carried_of(Message::RegexMatcher),
            1,
            ("google_re2", "googleRe2"),
        ),
        (outside_of(Message::RouteMatch), 6, ("cookies", "cookies")),
        (
            fields_of(Message::Validate),
            8,
            ("response_header_matches", "responseHeaderMatches"),
        ),
    ];
    for (table, count, last) in tables {
        assert_eq!(rt; table.len(), count);
        let found = table
            .last()
            .map(|name| (name.0 == last.0, name.1 == last.1));
        assert_eq!(rt; found, Some((true, true)), "of {count}");
    }
    assert_eq!(rt; carried_of(Message::Grpc).len(), 0);
}

/// How many elements the list has, counted in two ways.
fn counts_of(alloc: Global, text: &str) -> Result<(usize, usize), ReadFail> {
    let value = read_value(alloc, text.as_bytes())?;
    let place = Text::of(alloc, "/l")?;
    let items = items_of(alloc, &value, &place, Some(2))?.len();
    Ok((items, list_of(alloc, &value, &place, None)?))
}

#[test]
fn elements_are_counted(rt: HostRuntime) -> Result<(), Fail> {
    assert_eq!(rt; counts_of(rt.alloc(), r#"["a","b"]"#)?, (2, 2));
    Ok(())
}

/// How many fields a matcher may have, where the text is one, or its offence.
fn matcher_told(alloc: Global, text: &str) -> Result<String, ReadFail> {
    let value = read_value(alloc, text.as_bytes())?;
    let place = Text::of(alloc, "/x")?;
    match members(alloc, &value, &place, Message::Matcher) {
        Ok(names) => Ok(format!(in alloc; "{}", names.spelled.len())?),
        Err(ReadFail::Refused(refusal)) => Ok(refusal_told(alloc, "/x", &refusal)?),
        Err(ReadFail::OutOfMemory) => Err(ReadFail::OutOfMemory),
    }
}

/// Whether the text is an object.
fn is_object(alloc: Global, text: &str) -> Result<bool, ReadFail> {
    let value = read_value(alloc, text.as_bytes())?;
    let place = Text::of(alloc, "/x")?;
    Ok(object_of(alloc, &value, &place).is_ok())
}

#[test]
fn members_are_those_of_an_object(rt: HostRuntime) -> Result<(), Fail> {
    let alloc = rt.alloc();
    for (text, want) in [("[]", "WrongKind"), ("{}", "3")] {
        let told = matcher_told(alloc, text)?;
        assert_eq!(rt; told.as_str(), want);
        assert_eq!(rt; is_object(alloc, text)?, want == "3");
    }
    Ok(())
}

/// What is told of the route of an action's `typed_config`.
fn typed_route_told(alloc: Global, text: &str) -> Result<String, ReadFail> {
    let value = read_value(alloc, text.as_bytes())?;
    let place = Text::of(alloc, "/m")?;
    let route = TypedRoute.read(alloc, &value, &place)?;
    Ok(route_told(alloc, &route)?)
}

/// What is told of the header lists of an object.
fn lists_told(alloc: Global, text: &str) -> Result<String, ReadFail> {
    let value = read_value(alloc, text.as_bytes())?;
    let place = Text::of(alloc, "")?;
    let edits = read_edits(alloc, &value, &place)?;
    Ok(edits_told(alloc, &edits)?)
}

#[test]
fn other_members_are_passed_over(rt: HostRuntime) -> Result<(), Fail> {
    let alloc = rt.alloc();
    let typed = r#"{"@type":7,"match":{"path":"/a"},"route":{"cluster":"c"}}"#;
    let route = typed_route_told(alloc, typed)?;
    assert_eq!(rt;
        route.as_str(),
        "place=/m name= cluster=c rewrite= host=kept added=0"
    );
    let lists = lists_told(
        alloc,
        r#"{"other":1,"requestHeadersToAdd":[{"header":{"key":"X-A"}}]}"#,
    )?;
    let want =
        "name=x-a value= how=Append keep=false added=1 removed=0 added_back=0 removed_back=0";
    assert_eq!(rt; lists.as_str(), want);
    Ok(())
}

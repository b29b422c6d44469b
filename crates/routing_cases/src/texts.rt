// Rules on texts by their forms, with and without letter case.
use crate::replies::reply_line;
use std::alloc::Global;
use std::test::Fail;
use text_base::OutOfMemory;

/// The route that asks for a header `x` of this form and value.
fn route_of(alloc: Global, form: &str, value: &str, fold: &str) -> Result<String, OutOfMemory> {
    format!(in alloc;
        "{}{form}{}{value}{}{fold}{}",
        r#"{"match":{"prefix":"/","headers":[{"name":"x","string_match":{""#,
        r#"":""#,
        r#"","ignore_case":"#,
        r#"}}]},"direct_response":{"status":200}}"#
    )
}

/// A request whose header `x` is this text.
fn input_of(alloc: Global, text: &str) -> Result<String, OutOfMemory> {
    format!(in alloc;
        "{}{text}{}",
        r#"{"authority":"x.com","path":"/","additional_request_headers":[{"key":"x","value":""#,
        r#""}]}"#
    )
}

/// Whether the rule of this form holds on the text just where the list has the form.
fn form_holds(
    alloc: Global,
    form: &str,
    row: [&str; 2],
    fold: &str,
    list: &str,
) -> Result<bool, Fail> {
    let route = route_of(alloc, form, row[0], fold)?;
    let input = input_of(alloc, row[1])?;
    let reply = reply_line(alloc, route.as_str(), input.as_str())?;
    Ok((reply.as_str() == "direct 0 200 []") == list.contains(form))
}

/// A value, a text, and the forms whose rule with this value holds on the text, by the case of letters and without
/// it.
const TEXTS: [[&str; 4]; 9] = [
    [
        "ab",
        "ab",
        "exact prefix suffix contains",
        "exact prefix suffix contains",
    ],
    ["ab", "AB", "", "exact prefix suffix contains"],
    ["Ab", "aBc", "", "prefix contains"],
    ["b", "ab", "suffix contains", "suffix contains"],
    ["B", "abc", "", "contains"],
    ["aab", "aaab", "suffix contains", "suffix contains"],
    ["", "a", "prefix suffix contains", "prefix suffix contains"],
    [
        "",
        "",
        "exact prefix suffix contains",
        "exact prefix suffix contains",
    ],
    ["abc", "ab", "", ""],
];

#[test]
fn texts_by_their_forms(rt: HostRuntime) -> Result<(), Fail> {
    let alloc = rt.alloc();
    for [value, text, plain, folded] in TEXTS {
        for form in ["exact", "prefix", "suffix", "contains"] {
            for (fold, list) in [("false", plain), ("true", folded)] {
                let holds = form_holds(alloc, form, [value, text], fold, list)?;
                assert!(rt; holds, "{form} {value} {text} {fold}");
            }
        }
    }
    Ok(())
}

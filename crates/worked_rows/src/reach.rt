// What `reach` writes of small tables: the verdict of each route, in a report that `verify` accepts.
use crate::calls::told;
use check_core::Status;
use std::alloc::Global;
use std::test::Fail;
use text_base::OutOfMemory;

/// The configuration of one host with a route for each line, which is the route's match.
pub(crate) fn table(alloc: Global, rules: &str) -> Result<String, OutOfMemory> {
    let mut text = format!(in alloc;
        "{}",
        r#"{"virtual_hosts":[{"name":"h","domains":["*"],"routes":["#
    )?;
    for (number, rule) in rules.lines().enumerate() {
        if number > 0 {
            text.push_str(",")?;
        }
        let route = format!(in alloc;
            "{}{rule}{}{number}{}",
            r#"{"match":"#, r#","route":{"cluster":"c"#, r#""}}"#
        )?;
        text.push_str(route.as_str())?;
    }
    text.push_str("]}]}")?;
    Ok(text)
}

/// Whether the verdict is that of the row. Any row has the verdict `any`.
fn has_verdict(row: &str, verdict: &str) -> bool {
    let Some((_, behind)) = row.rsplit_once(r#","verdict":""#) else {
        return false;
    };
    let name = behind.strip_suffix(r#""}"#).unwrap_or("cut");
    verdict == "any" || name == verdict
}

/// Whether the rows have these verdicts, in order.
pub(crate) fn have_verdicts(rows: &str, verdicts: &str) -> bool {
    let mut rows = rows.lines();
    for verdict in verdicts.split(' ') {
        let Some(row) = rows.next() else {
            return false;
        };
        if !has_verdict(row, verdict) {
            return false;
        }
    }
    rows.next().is_none()
}

/// Whether `verify` accepts this many rows as the report of a configuration.
pub(crate) fn accepts(
    alloc: Global,
    config: &str,
    report: &str,
    rows: usize,
) -> Result<bool, Fail> {
    let due = format!(in alloc; "{}{rows}{}", r#"{"accepted":"#, "}\n")?;
    let (status, answer) = told(alloc, "verify c t", config, report)?;
    Ok(status == Status::Done && answer.as_str() == due.as_str())
}

/// The report of a table, which has rows with these verdicts and is accepted.
fn report_of(alloc: Global, line: &str, rules: &str, verdicts: &str) -> Result<String, Fail> {
    let config = table(alloc, rules)?;
    let (status, report) = told(alloc, line, config.as_str(), "")?;
    if status != Status::Done || !have_verdicts(report.as_str(), verdicts) {
        return Err(Fail::new(report.as_str()));
    }
    let rows = verdicts.split(' ').count();
    if !accepts(alloc, config.as_str(), report.as_str(), rows)? {
        return Err(Fail::new("not accepted"));
    }
    Ok(report)
}

pub(crate) const SHADOWED: &str = r#"{"prefix":"/a"}
{"path":"/a/x"}"#;

const PATTERNS: &str = r#"{"safe_regex":{"regex":"/[a-c]+"}}
{"path":"/d"}
{"safe_regex":{"regex":"/(a|b)+"}}"#;

const FEWER_PATTERNS: &str = r#"{"safe_regex":{"regex":"/[a-b]+"}}
{"path":"/d"}
{"path":"/c"}"#;

/// A header is present or absent.
pub(crate) const PRESENCE: &str = r#"{"prefix":"/","headers":[{"name":"x-a","present_match":true}]}
{"prefix":"/","headers":[{"name":"x-a","present_match":false}]}
{"prefix":"/"}"#;

const FIVE_HEADERS: &str =
    r#"{"prefix":"/","headers":[{"name":"a","exact_match":"1"},{"name":"b","prefix_match":"2"},{"name":"c","suffix_match":"3"},{"name":"d","contains_match":"4"},{"name":"e","present_match":true}]}"#;

const TWO_VALUES: &str =
    r#"{"path":"/a","headers":[{"name":"x","exact_match":"1"},{"name":"x","exact_match":"2"}]}"#;

#[test]
fn routes_are_reached_or_refuted(rt: HostRuntime) -> Result<(), Fail> {
    let rows = [
        ("reach c", SHADOWED, "reached refuted"),
        ("reach c --splits=3", SHADOWED, "reached refuted"),
        ("reach c", PATTERNS, "reached reached refuted"),
        ("reach c", FEWER_PATTERNS, "reached reached reached"),
        ("reach c", PRESENCE, "reached reached refuted"),
        ("reach c", FIVE_HEADERS, "reached"),
        ("reach c", TWO_VALUES, "refuted"),
    ];
    for (line, rules, verdicts) in rows {
        report_of(rt.alloc(), line, rules, verdicts)?;
    }
    Ok(())
}

/// The second pattern has no text that the first lacks, which takes more than 16 states to see.
const WIDE: &str =
    r#"{"prefix":"/","headers":[{"name":"x-a","safe_regex_match":{"regex":".*[ab].{12}"}}]}
{"prefix":"/","headers":[{"name":"x-a","safe_regex_match":{"regex":".*a.{12}"}}]}"#;

/// How many words a report's last node with too many states lists.
fn capped_words(report: &str) -> usize {
    let Some((_, behind)) = report.rsplit_once(r#"["q","header:x-a",["#) else {
        return 0;
    };
    let Some((words, _)) = behind.split_once("]]") else {
        return 0;
    };
    words.matches('[').count()
}

/// An unfinished row tells its budgets, the default ones too. Whether the wide table's first row is finished is open.
#[test]
fn searches_end_at_their_budgets(rt: HostRuntime) -> Result<(), Fail> {
    let alloc = rt.alloc();
    let report = report_of(alloc, "reach c --splits=1", SHADOWED, "reached undecided")?;
    assert_eq!(rt; report.matches(r#"["s","#).count(), 1);
    assert!(rt; report.contains(r#","splits":1,"states":1000,"#));
    let report = report_of(alloc, "reach c --states=16", WIDE, "any undecided")?;
    assert_eq!(rt; capped_words(report.as_str()), 16);
    assert!(rt; report.contains(r#","splits":4096,"states":16,"#));
    Ok(())
}

/// Twenty paths with a header, a prefix, and a path behind the prefix.
fn twenty_paths(alloc: Global) -> Result<String, OutOfMemory> {
    let mut rules = String::new(alloc);
    for number in 1..21u32 {
        let rule = format!(in alloc;
            "{}{number}{}\n",
            r#"{"path":"/p"#, r#"","headers":[{"name":"h","present_match":true}]}"#
        )?;
        rules.push_str(rule.as_str())?;
    }
    rules.push_str("{\"prefix\":\"/q\"}\n{\"path\":\"/q/x\"}")?;
    Ok(rules)
}

/// Each row names its route. The header isn't split on where the paths before it are out.
#[test]
fn many_routes_take_few_splits(rt: HostRuntime) -> Result<(), Fail> {
    let alloc = rt.alloc();
    let rules = twenty_paths(alloc)?;
    let mut verdicts = "reached ".repeat(alloc, 21)?;
    verdicts.push_str("refuted")?;
    let report = report_of(
        alloc,
        "reach c --splits=22",
        rules.as_str(),
        verdicts.as_str(),
    )?;
    assert_eq!(rt; report.matches(r#"["s","#).count(), 22);
    for (number, row) in report.lines().enumerate() {
        let place = format!(in alloc;
            "{}{number}{}",
            r#","route":"/virtual_hosts/0/routes/"#, r#"",""#
        )?;
        assert!(rt; row.contains(place.as_str()), "{row}");
    }
    Ok(())
}

const OFFENCE: &str = r#"{"virtual_hosts":[{"name":"h","domains":["*"],"routes":[],"foo":1}]}"#;

/// An offence of the configuration ends the run before a report is read.
#[test]
fn offences_are_told(rt: HostRuntime) -> Result<(), Fail> {
    let line = concat!(
        r#"{"kind":"UnknownField","place":"/virtual_hosts/0/foo","refused":"config"}"#,
        "\n"
    );
    for call in ["reach c", "verify c t", "verify c absent"] {
        let (status, text) = told(rt.alloc(), call, OFFENCE, "")?;
        assert!(rt; status == Status::Refused, "{call}");
        assert_eq!(rt; text.as_str(), line, "{call}");
    }
    Ok(())
}

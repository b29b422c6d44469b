// Rows of the rules of routes.
use crate::configs::Table;
use crate::told::Part;

const RULES: &str =
    r#"{"path":"/a"} => exact=/a fold=false grpc=false fraction=false headers=0 queries=0
{"path":"/a b%"} => exact=/a b% fold=false grpc=false fraction=false headers=0 queries=0
{"prefix":"/a","caseSensitive":false} => prefix=/a fold=true grpc=false fraction=false headers=0 queries=0
{"prefix":"/a b","grpc":{}} => prefix=/a b fold=false grpc=true fraction=false headers=0 queries=0
{"path_separated_prefix":"/s"} => separated=/s fold=false grpc=false fraction=false headers=0 queries=0
{"safe_regex":{"regex":"a"}} => pattern=a fold=false grpc=false fraction=false headers=0 queries=0
{"safe_regex":{"regex":"a","googleRe2":7}} => pattern=a fold=false grpc=false fraction=false headers=0 queries=0
{"connect_matcher":null,"prefix":"/"} => prefix=/ fold=false grpc=false fraction=false headers=0 queries=0
7 => WrongKind
[] => WrongKind
{} => Missing
{"prefix":null} => Missing
{"prefix":7} => WrongKind /prefix
{"prefix":"/?"} => BadText /prefix
{"prefix":"/","path":"/"} => Conflict /path
{"prefix":"/","path":"/#"} => BadText /path
{"prefix":"/","path":"/","case_sensitive":1} => WrongKind /case_sensitive
{"pathSeparatedPrefix":"/s/"} => BadText /path_separated_prefix
{"path_separated_prefix":""} => BadText /path_separated_prefix
{"prefix":"/","safe_regex":{}} => Missing /safe_regex/regex
{"prefix":"/","safe_regex":{"regex":"a"}} => Conflict /safe_regex
{"safe_regex":{"regex":"a("}} => BadRegex { at: 2 } /safe_regex/regex
{"safe_regex":{"regex":"aaa)"}} => BadRegex { at: 3 } /safe_regex/regex
{"safe_regex":{"regex":"(a{255}){20}"}} => TooMany /safe_regex/regex
{"prefix":"/","cookies":[]} => NotInProfile /cookies
{"connectMatcher":[]} => NotInProfile /connect_matcher
{"prefix":"/","prefixes":[]} => UnknownField /prefixes
{"prefix":"/","grpc":{"a":1}} => UnknownField /grpc/a
{"prefix":"/","query_parameters":[{"name":"0"},{"name":"1"},{"name":"2"},{"name":"3"},{"name":"4"},{"name":"5"},{"name":"6"},{"name":"7"},{"name":"8"},{"name":"9"},{"é~/":1}]} => UnknownField /query_parameters/10/é~0~1"#;

const HEADERS: &str =
    r#"{"name":":path","range_match":{"start":"-10","end":5},"invert_match":true} => name=:path from=-10 below=5 invert=true missing_empty=false
{"name":":authority","treat_missing_header_as_empty":true} => name=:authority present=true invert=false missing_empty=true
{"name":"X-User","string_match":{"exact":"jo"}} => name=x-user exact=jo fold=false invert=false missing_empty=false
{"name":"X-A_~`!#$%&'*+.^|","present_match":false} => name=x-a_~`!#$%&'*+.^| present=false invert=false missing_empty=false
{} => Missing /name
{"name":"HOST"} => NotInProfile /name
{"name":":Path"} => NotInProfile /name
{"name":"a b"} => BadText /name
{"name":""} => BadText /name
{"name":"x","exact_match":"a","present_match":false} => Conflict /present_match
{"name":"x","exact_match":"a","prefix_match":"\u0001"} => BadText /prefix_match
{"name":"x","safe_regex_match":{}} => Missing /safe_regex_match/regex
{"name":"x","stringMatch":{"exact":"é"}} => BadText /string_match/exact
{"name":"x","string_match":{}} => Missing /string_match
{"name":"x","range_match":{"first":1}} => UnknownField /range_match/first"#;

const NUMBERS: &str = r#"7 => from=7 below=0
-7 => from=-7 below=0
"-10" => from=-10 below=0
"-0" => from=0 below=0
"00000000000000000010" => from=10 below=0
9223372036854775807 => from=9223372036854775807 below=0
"-9223372036854775808" => from=-9223372036854775808 below=0
1.5 => WrongKind
1.0 => WrongKind
1e1 => WrongKind
-0 => WrongKind
18446744073709551616 => WrongKind
18446744073709551615 => OutOfRange
"18446744073709551616" => OutOfRange
9223372036854775808 => OutOfRange
"9223372036854775808" => OutOfRange
"-9223372036854775809" => OutOfRange
"+5" => WrongKind
"-" => WrongKind
"" => WrongKind
"000000000000000000001" => WrongKind
true => WrongKind"#;

const TEXTS: &str = r#"{"safe_regex":{"regex":"a"}} => pattern=a fold=false
{"exact":"a","ignoreCase":true,"suffix":null} => exact=a fold=true
{"suffix":"a","ignoreCase":true} => suffix=a fold=true
{"contains":"a b?"} => contains=a b? fold=false
{"prefix":"","ignore_case":false} => prefix= fold=false
{"ignore_case":true} => Missing
{"exact":"a","ignore_case":"true"} => WrongKind /ignore_case
{"exact":"a","ignoreCase":true,"ignore_case":true} => Conflict /ignore_case
{"contains":"a","exact":"b"} => Conflict /contains
{"suffix":"a","exact":"b","contains":"c"} => Conflict /suffix
{"suffix":1,"exact":2,"contains":3} => WrongKind /exact
{"custom":{},"exact":"b"} => NotInProfile /custom"#;

const QUERIES: &str = r#"{"name":"v","string_match":{"prefix":"1"}} => name=v form=true
{"name":"a b","present_match":true} => name=a b form=false
{"name":""} => BadText /name
{"name":"a=b"} => BadText /name
{"name":"a","present_match":false} => NotInProfile /present_match
{"name":"a","present_match":false,"string_match":{"exact":""}} => Conflict /present_match"#;

const FRACTIONS: &str =
    r#"{"default_value":{"numerator":"25","denominator":"MILLION"},"runtime_key":"k"} => below=25 of=1000000 key=k
{"default_value":{}} => below=0 of=100 key=
{"default_value":{"numerator":11,"denominator":"TEN_THOUSAND"}} => below=11 of=10000 key=
{"default_value":{"numerator":-11}} => OutOfRange /default_value/numerator
{"default_value":{"denominator":"TEN"}} => OutOfRange /default_value/denominator"#;

/// A route whose rule is still to come.
pub(crate) const MATCH_TABLES: &[Table] = &[
    (
        Part::Rule,
        "/virtual_hosts/0/routes/0/match",
        r#"{"virtual_hosts":[{"name":"h","domains":["*"],"routes":[
{"route":{"cluster":"a"},"match":"#,
        "}]}]}",
        RULES,
    ),
    (
        Part::HeaderRule,
        "/virtual_hosts/0/routes/0/match/headers/0",
        r#"{"virtual_hosts":[{"name":"h","domains":["*"],"routes":[
{"route":{"cluster":"a"},"match":{"prefix":"/","headers":["#,
        "]}}]}]}",
        HEADERS,
    ),
    (
        Part::HeaderForm,
        "/virtual_hosts/0/routes/0/match/headers/0/range_match/start",
        r#"{"virtual_hosts":[{"name":"h","domains":["*"],"routes":[
{"route":{"cluster":"a"},"match":{"prefix":"/","headers":[{"name":"x","range_match":{"start":"#,
        "}}]}}]}]}",
        NUMBERS,
    ),
    (
        Part::HeaderForm,
        "/virtual_hosts/0/routes/0/match/headers/0/string_match",
        r#"{"virtual_hosts":[{"name":"h","domains":["*"],"routes":[
{"route":{"cluster":"a"},"match":{"prefix":"/","headers":[{"name":"x","string_match":"#,
        "}]}}]}]}",
        TEXTS,
    ),
    (
        Part::QueryRule,
        "/virtual_hosts/0/routes/0/match/query_parameters/0",
        r#"{"virtual_hosts":[{"name":"h","domains":["*"],"routes":[
{"route":{"cluster":"a"},"match":{"prefix":"/","query_parameters":["#,
        "]}}]}]}",
        QUERIES,
    ),
    (
        Part::Fraction,
        "/virtual_hosts/0/routes/0/match/runtime_fraction",
        r#"{"virtual_hosts":[{"name":"h","domains":["*"],"routes":[
{"route":{"cluster":"a"},"match":{"prefix":"/","runtime_fraction":"#,
        "}}]}]}",
        FRACTIONS,
    ),
];

// The goals of routes of matcher trees, told whole.
use crate::formulas::all_are_so;
use std::test::Fail;

/// After what an entry leads to stands what the entry asks, without a route. Prefixes go by length, and other keys in byte
/// order.
const TREES: &str =
    r#"{"matcher_list":{"matchers":[{"predicate":{"single_predicate":{$header$:"x"}},"value_match":{"exact":"1"}}},"on_match":{$route$:{"prefix":"/a"},$to$}}}}]},"on_no_match":{$routes$:[{"match":{"path":"/b"},$to$},{"match":{"prefix":"/"},$to$}]}}}}
all(any(all(yes)) all(0 all(1))); header:x in 1; target in /a.*
all(any(all(yes)) all(0) not(all(1 all(2))) not(all(1))); target in /b(()|?.*); header:x in 1; target in /a.*
all(any(all(yes)) all(0) not(all(1 all(2))) not(all(1)) not(all(3))); target in /.*; header:x in 1; target in /a.*; target in /b(()|?.*)

{"matcher_tree":{$header$:":path"}},"prefix_match_map":{"map":{"/a":{$route$:{"prefix":"/"},$to$}}},"/a/b":{"matcher":{"matcher_list":{"matchers":[{"predicate":{"single_predicate":{$header$:":path"}},"value_match":{"exact":"/"}}},"on_match":{$route$:{"prefix":"/"},$to$}}}}]}}}}}}}
all(any(all(yes)) all(0 all(1 all(2)))); target in /a/b.*; target in /; target in /.*
all(any(all(yes)) all(0 all(1)) not(all(2 all(3 all(1)))) not(all(2 all(3))) not(all(2))); target in /a.*; target in /.*; target in /a/b.*; target in /

{"matcher_tree":{$query$:"k"}},"exact_match_map":{"map":{"a":{$route$:{"prefix":"/a"},$to$}}},"B":{$route$:{"prefix":"/b"},$to$}}}}}}}
all(any(all(yes)) all(0 all(1))); target in [^?]*?(((()|[^&=k][^&=]*|k[^&=][^&=]*)(()|=[^&]*))&)*k=B(()|&.*); target in /b.*
all(any(all(yes)) all(0 all(1)) not(all(2 all(3))) not(all(2))); target in [^?]*?(((()|[^&=k][^&=]*|k[^&=][^&=]*)(()|=[^&]*))&)*k=a(()|&.*); target in /a.*; target in [^?]*?(((()|[^&=k][^&=]*|k[^&=][^&=]*)(()|=[^&]*))&)*k=B(()|&.*); target in /b.*

{"matcher_list":{"matchers":[{"predicate":{"not_matcher":{"or_matcher":{"predicate":[{"single_predicate":{$header$:"x"}},"value_match":{"safe_regex":{"regex":"a+"}}}},{"single_predicate":{$header$:"y"}},"value_match":{"prefix":"on","ignore_case":true}}}]}}},"on_match":{$route$:{"prefix":"/"},$to$}}}}]},"on_no_match":{"matcher":{"matcher_tree":{$header$:"z"}},"exact_match_map":{"map":{"":{$route$:{"prefix":"/"},$to$}}}}}}}}}
all(any(all(yes)) all(not(any(0 1)) all(2))); header:x in pattern aa*; header:y in [Oo][Nn].*; target in /.*
all(any(all(yes)) all(0 all(1)) not(all(not(any(2 3)) all(1))) not(all(not(any(2 3))))); header:z in (); target in /.*; header:x in pattern aa*; header:y in [Oo][Nn].*"#;

#[test]
fn a_tree_is_told_by_its_guards(rt: HostRuntime) -> Result<(), Fail> {
    all_are_so(rt.alloc(), TREES)
}

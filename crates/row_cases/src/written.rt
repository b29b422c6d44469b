// Lines that are rows, and what is written of them.
use crate::told::{row_holds, told};
use std::test::Fail;

/// Lines as they are written, and lines with blanks, other orders, spellings and escapes.
const ROWS: &str =
    r#"= => {"nodes":[["s",0],["s",1],["b"],["e","target",[[0,32],[0,47],[2,33],[2,97],[4,32],[4,33],[4,47],[7,120],[8,63],[9,32]]],["b"]],"route":"/virtual_hosts/0/routes/1","verdict":"refuted"}
= => {"nodes":[["s",4294967295],["o"],["q","header:x-a",[[0,97],[1,126]]],["c","runtime"]],"route":"/virtual_hosts/0/routes/1","splits":1,"states":1000,"verdict":"undecided"}
= => {"nodes":[["c","authority"],["c","target"],["c","method"],["c","proto"],["c","random"],["c","runtime"],["c","internal"],["c","header:a-!#$%&'*+-.^_`|~9"]],"route":"","verdict":"refuted"}
= => {"nodes":[["e","proto",[]],["q","header:hosts",[]]],"route":"","splits":65536,"states":4096,"verdict":"undecided"}
= => {"nodes":[],"route":"","splits":1,"states":16,"verdict":"undecided"}
= => {"nodes":[],"route":"é/\"\\\n\u0001","verdict":"refuted"}
= => {"request":{"authority":"x.com:80","headers":[["x-a","1"],["x-a",""],["x-b","\" ~"]],"internal":true,"method":"GET","path":"/a?\"","random_value":18446744073709551615,"runtime":"r","ssl":false},"route":"/virtual_hosts/0/routes/0","verdict":"reached"}
= => {"request":{"authority":"x","headers":[],"internal":false,"method":"M","path":"/","random_value":0,"runtime":"","ssl":true},"route":"é","verdict":"reached"}
{"nodes":[["e","proto",[[0,104]]]],"route":"r","verdict":"refuted"} =>  { "verdict" : "refuted", "route":"r", "nodes":[["e","proto",[["0","104"]]]] }
{"nodes":[["b"]],"route":"r","verdict":"refuted"} => {"nodes":[["b"]],"verdict":"refuted","route":"r"}
{"nodes":[["b"]],"route":"r","verdict":"refuted"} => {"\u006eodes":[["\u0062"]],"route":"\u0072","verdict":"ref\u0075ted"}
{"nodes":[["b"]],"route":"b","verdict":"refuted"} => {"nodes":[["b"]],"route":"a","verdict":"refuted","route":"b"}
{"nodes":[["s",7]],"route":"","splits":3,"states":16,"verdict":"undecided"} => {"nodes":[["s","7"]],"route":"","splits":"3","states":"016","verdict":"undecided"}
{"request":{"authority":"x","headers":[],"internal":false,"method":"M","path":"/","random_value":5,"runtime":"","ssl":true},"route":"","verdict":"reached"} => {"request":{"ssl":true,"authority":"x","headers":[],"internal":false,"method":"M","path":"\/","randomValue":"5","runtime":""},"route":"","verdict":"reached"}"#;

#[test]
fn rows_are_read_and_written(rt: HostRuntime) -> Result<(), Fail> {
    for row in ROWS.lines() {
        assert!(rt; row_holds(rt.alloc(), row)?, "{row}");
    }
    Ok(())
}

/// A row, of which a line feed may be a part.
const LINE: &str = r#"{"nodes":[["b"]],"route":"","verdict":"refuted"}"#;

#[test]
fn line_feeds_are_no_part_of_the_row(rt: HostRuntime) -> Result<(), Fail> {
    for end in ["", "\n", "\r\n", "\n \n\t"] {
        let line = format!(in rt.alloc(); "{LINE}{end}")?;
        let told = told(rt.alloc(), line.as_str().as_bytes())?;
        assert!(rt; told.as_str() == LINE, "{end}");
    }
    Ok(())
}

// Lines that are no rows, each with `Syntax` or the place of its first offence.
use crate::told::{row_holds, told};
use std::test::Fail;

const ROWS: &str = r#"Syntax => {
Syntax => {"route":"","verdict":1e400}
Syntax => {"nodes":[],"route":"","verdict":"refuted"}}
Syntax => {"nodes":[],"route":"","verdict":"refuted",}
Syntax => {"nodes":[],"route":"\x","verdict":"refuted"}
Syntax => [[[[[[[[[[[[[[[[[[[[[[[[[[[[[[[[[[[[[[[[[[[[[[[[[[[[[[[[[[[[[[[[[[[[[[[[[[[[[[[[[[[[[[[[[[[[[[[[[[[[[[[[[[[[[[[[[[[[[[[[[[[[[[[[]]]]]]]]]]]]]]]]]]]]]]]]]]]]]]]]]]]]]]]]]]]]]]]]]]]]]]]]]]]]]]]]]]]]]]]]]]]]]]]]]]]]]]]]]]]]]]]]]]]]]]]]]]]]]]]]]]]]]]]]]]]]]]]]
 => [[[[[[[[[[[[[[[[[[[[[[[[[[[[[[[[[[[[[[[[[[[[[[[[[[[[[[[[[[[[[[[[[[[[[[[[[[[[[[[[[[[[[[[[[[[[[[[[[[[[[[[[[[[[[[[[[[[[[[[[[[[[[[[]]]]]]]]]]]]]]]]]]]]]]]]]]]]]]]]]]]]]]]]]]]]]]]]]]]]]]]]]]]]]]]]]]]]]]]]]]]]]]]]]]]]]]]]]]]]]]]]]]]]]]]]]]]]]]]]]]]]]]]]]]]]]]]
 => []
 => 7
 => null
/verdict => {"route":"","verdict":"done"}
/verdict => {}
/verdict => {"verdict":null}
/verdict => {"verdict":["refuted"]}
/verdict => {"verdict":"Refuted","zz":1}
/zz => {"verdict":"refuted","zz":1,"nodes":1}
/a~1b~0 => {"zz":1,"a/b~":null,"verdict":"reached"}
/splits => {"verdict":"refuted","nodes":[],"route":"","splits":null}
/nodes => {"verdict":"reached","nodes":[],"route":""}
/request => {"verdict":"undecided","request":{},"nodes":7}
/nodes => {"verdict":"refuted","route":""}
/nodes => {"verdict":"refuted","route":"","nodes":null}
/nodes => {"verdict":"refuted","route":"","nodes":{}}
/route => {"verdict":"refuted","nodes":[["b"]],"route":1}
/route => {"verdict":"refuted","nodes":[["b"]]}
/splits => {"verdict":"undecided","nodes":[],"route":"","splits":65537,"states":15}
/splits => {"verdict":"undecided","nodes":[],"route":"","splits":0,"states":16}
/splits => {"verdict":"undecided","nodes":[],"route":"","splits":1.0,"states":16}
/states => {"verdict":"undecided","nodes":[],"route":"","splits":1,"states":15}
/states => {"verdict":"undecided","nodes":[],"route":"","splits":1,"states":4097}
/states => {"verdict":"undecided","nodes":[],"route":"","splits":1}
/nodes/0 => {"nodes":[7],"route":"","verdict":"refuted"}
/nodes/0 => {"nodes":[[]],"route":"","verdict":"refuted"}
/nodes/1/0 => {"nodes":[["b"],["t",0,0]],"route":"","verdict":"refuted"}
/nodes/0/0 => {"nodes":[[["b"]]],"route":"","verdict":"refuted"}
/nodes/0 => {"nodes":[["b",0]],"route":"","verdict":"refuted"}
/nodes/0 => {"nodes":[["o",0]],"route":"","verdict":"refuted"}
/nodes/0 => {"nodes":[["s"]],"route":"","verdict":"refuted"}
/nodes/0 => {"nodes":[["s",0,0]],"route":"","verdict":"refuted"}
/nodes/0 => {"nodes":[["c"]],"route":"","verdict":"refuted"}
/nodes/0 => {"nodes":[["e","target"]],"route":"","verdict":"refuted"}
/nodes/0 => {"nodes":[["q","target",[],[]]],"route":"","verdict":"refuted"}
/nodes/0/1 => {"nodes":[["s",4294967296]],"route":"","verdict":"refuted"}
/nodes/0/1 => {"nodes":[["s",-1]],"route":"","verdict":"refuted"}
/nodes/0/1 => {"nodes":[["s","x"]],"route":"","verdict":"refuted"}
/nodes/0/1 => {"nodes":[["s",1e0]],"route":"","verdict":"refuted"}
/nodes/0/1 => {"nodes":[["c","header:host"]],"route":"","verdict":"refuted"}
/nodes/0/1 => {"nodes":[["c","header:x-forwarded-proto"]],"route":"","verdict":"refuted"}
/nodes/0/1 => {"nodes":[["c","header:x-envoy-internal"]],"route":"","verdict":"refuted"}
/nodes/0/1 => {"nodes":[["c","header:"]],"route":"","verdict":"refuted"}
/nodes/0/1 => {"nodes":[["c","header:a b"]],"route":"","verdict":"refuted"}
/nodes/0/1 => {"nodes":[["c","Target"]],"route":"","verdict":"refuted"}
/nodes/0/1 => {"nodes":[["c",7]],"route":"","verdict":"refuted"}
/nodes/0/1 => {"nodes":[["e","header:X",7]],"route":"","verdict":"refuted"}
/nodes/0/2 => {"nodes":[["e","target",7]],"route":"","verdict":"refuted"}
/nodes/0/2/1 => {"nodes":[["e","target",[[0,32],[0]]]],"route":"","verdict":"refuted"}
/nodes/0/2/0 => {"nodes":[["e","target",[[0,32,0]]]],"route":"","verdict":"refuted"}
/nodes/0/2/0 => {"nodes":[["e","target",[7]]],"route":"","verdict":"refuted"}
/nodes/0/2/0/0 => {"nodes":[["e","target",[[1,32]]]],"route":"","verdict":"refuted"}
/nodes/0/2/2/0 => {"nodes":[["e","target",[[0,97],[1,98],[3,99]]]],"route":"","verdict":"refuted"}
/nodes/0/2/0/0 => {"nodes":[["e","target",[[-1,32]]]],"route":"","verdict":"refuted"}
/nodes/0/2/0/1 => {"nodes":[["e","target",[[0,31]]]],"route":"","verdict":"refuted"}
/nodes/0/2/1/1 => {"nodes":[["q","target",[[0,32],[1,127]]]],"route":"","verdict":"refuted"}
/nodes/0/2/0/1 => {"nodes":[["e","target",[[0,"a"]]]],"route":"","verdict":"refuted"}
/nodes/0/2/2/0 => {"nodes":[["e","target",[[0,32],[1,32],[4,31]]]],"route":"","verdict":"refuted"}
/request => {"verdict":"reached","route":""}
/request => {"request":null,"verdict":"reached","route":""}
/request => {"request":[],"verdict":"reached","route":""}
/request/zz => {"request":{"zz":1},"verdict":"reached","route":7}
/request/internal => {"request":{"authority":"x","headers":[],"method":"GET","path":"/","random_value":0,"runtime":"","ssl":true},"route":"","verdict":"reached"}
/request/authority => {"request":{"authority":7,"headers":[],"internal":true,"method":"GET","path":"/","random_value":0,"runtime":"","ssl":true},"route":"","verdict":"reached"}
/request/authority => {"request":{"authority":"","headers":[],"internal":true,"method":"GET","path":"/","random_value":0,"runtime":"","ssl":true},"route":"","verdict":"reached"}
/request/authority => {"request":{"authority":"a b","headers":[],"internal":true,"method":"GET","path":"/","random_value":0,"runtime":"","ssl":true},"route":"","verdict":"reached"}
/request/path => {"request":{"authority":"x","headers":[["Host",""]],"internal":true,"method":"GET","path":"a","random_value":0,"runtime":"","ssl":true},"route":"","verdict":"reached"}
/request/path => {"request":{"authority":"x","headers":[],"internal":true,"method":"GET","path":"/#","random_value":0,"runtime":"","ssl":true},"route":"","verdict":"reached"}
/request/method => {"request":{"authority":"x","headers":[],"internal":true,"method":"","path":"/","random_value":0,"runtime":"","ssl":true},"route":"","verdict":"reached"}
/request/method => {"request":{"authority":"x","headers":[],"internal":true,"method":"G T","path":"/","random_value":0,"runtime":"","ssl":true},"route":"","verdict":"reached"}
/request/runtime => {"request":{"authority":"x","headers":[],"internal":true,"method":"GET","path":"/","random_value":0,"runtime":"\t","ssl":true},"route":"","verdict":"reached"}
/request/ssl => {"request":{"authority":"x","headers":[],"internal":true,"method":"GET","path":"/","random_value":0,"runtime":"","ssl":"true"},"route":"","verdict":"reached"}
/request/internal => {"request":{"authority":"x","headers":[],"internal":null,"method":"GET","path":"/","random_value":0,"runtime":"","ssl":true},"route":"","verdict":"reached"}
/request/random_value => {"request":{"authority":"x","headers":[],"internal":true,"method":"GET","path":"/","randomValue":0,"random_value":0,"runtime":"","ssl":true},"route":"","verdict":"reached"}
/request/random_value => {"request":{"authority":"x","headers":[],"internal":true,"method":"GET","path":"/","random_value":-1,"runtime":"","ssl":true},"route":"","verdict":"reached"}
/request/random_value => {"request":{"authority":"x","headers":[],"internal":true,"method":"GET","path":"/","random_value":18446744073709551616,"runtime":"","ssl":true},"route":"","verdict":"reached"}
/request/random_value => {"request":{"authority":"x","headers":[],"internal":true,"method":"GET","path":"/","random_value":"18446744073709551616","runtime":"","ssl":true},"route":"","verdict":"reached"}
/request/headers => {"request":{"authority":"x","headers":7,"internal":true,"method":"GET","path":"/","random_value":0,"runtime":"","ssl":true},"route":"","verdict":"reached"}
/request/headers/1 => {"request":{"authority":"x","headers":[["a",""],["b"," "]],"internal":true,"method":"GET","path":"/","random_value":0,"runtime":"","ssl":true},"route":"","verdict":"reached"}
/request/headers/1 => {"request":{"authority":"x","headers":[["a",""],["host",""]],"internal":true,"method":"GET","path":"/","random_value":0,"runtime":"","ssl":true},"route":"","verdict":"reached"}
/request/headers/0 => {"request":{"authority":"x","headers":[["A",""]],"internal":true,"method":"GET","path":"/","random_value":0,"runtime":"","ssl":true},"route":"","verdict":"reached"}
/request/headers/0 => {"request":{"authority":"x","headers":[["",""]],"internal":true,"method":"GET","path":"/","random_value":0,"runtime":"","ssl":true},"route":"","verdict":"reached"}
/request/headers/0/1 => {"request":{"authority":"","headers":[["a",1]],"internal":true,"method":"GET","path":"/","random_value":0,"runtime":"","ssl":true},"route":"","verdict":"reached"}
/request/headers/0/0 => {"request":{"authority":"x","headers":[[1,"a"]],"internal":true,"method":"GET","path":"/","random_value":0,"runtime":"","ssl":true},"route":"","verdict":"reached"}
/request/headers/0 => {"request":{"authority":"x","headers":[["a"]],"internal":true,"method":"GET","path":"/","random_value":0,"runtime":"","ssl":true},"route":"","verdict":"reached"}
/request/headers/0 => {"request":{"authority":"x","headers":["a","b"],"internal":true,"method":"GET","path":"/","random_value":0,"runtime":"","ssl":true},"route":"","verdict":"reached"}"#;

#[test]
fn lines_that_are_no_rows_have_their_faults(rt: HostRuntime) -> Result<(), Fail> {
    for row in ROWS.lines() {
        assert!(rt; row_holds(rt.alloc(), row)?, "{row}");
    }
    Ok(())
}

#[test]
fn bytes_that_are_no_text_are_no_json(rt: HostRuntime) -> Result<(), Fail> {
    let lines: [&[u8]; 5] = [b"", b"\n", b"\"\xff\"", b"\"\t\"", b"{}\0"];
    for line in lines {
        let told = told(rt.alloc(), line)?;
        assert!(rt; told.as_str() == "Syntax", "{line:?}");
    }
    Ok(())
}

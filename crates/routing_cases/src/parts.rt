// Calls that no configuration and no test file reach.
use crate::replies::tests_of;
use cfg_types::{Fraction, HeaderForm, HeaderRule, Target};
use path_change::cluster_of;
use req_model::{BadRequest, Field, Parts, Request};
use route_match::{FractionTest, GrpcTest, HeaderTest, Scratch};
use sqlite_items::Items;
use std::alloc::Global;
use std::test::Fail;
use text_base::{OutOfMemory, Text, valid_law};

#[test]
fn a_text_keeps_its_bytes(rt: HostRuntime) -> Result<(), Fail> {
    let text = Text::of(rt.alloc(), "a.com")?;
    assert_eq!(rt; text.as_str(), "a.com");
    assert_eq!(rt; text.as_bytes(), b"a.com".as_slice());
    let copy = text.copy(rt.alloc())?;
    assert!(rt; copy.same(&text));
    let other = Text::of(rt.alloc(), "A.com")?;
    assert!(rt; !copy.same(&other));
    valid_law();
    Ok(())
}

fn bytes(alloc: Global, text: &str) -> Result<Items<u8>, OutOfMemory> {
    Items::from_slice(alloc, text.as_bytes())
}

/// What is wrong with a request by this method, with this runtime text and this header behind a good one.
fn fault_of(alloc: Global, row: [&str; 5]) -> Result<&'static str, OutOfMemory> {
    let [_, method, runtime, name, value] = row;
    let mut headers = Items::new(alloc);
    headers.push((bytes(alloc, "x")?, bytes(alloc, "1")?))?;
    headers.push((bytes(alloc, name)?, bytes(alloc, value)?))?;
    let parts = Parts {
        authority: bytes(alloc, "x.com")?,
        target: bytes(alloc, "/")?,
        method: bytes(alloc, method)?,
        https: false,
        internal: false,
        headers,
        runtime: bytes(alloc, runtime)?,
        random: 0,
    };
    Ok(match Request::new(alloc, parts) {
        Ok(_) => "nothing",
        Err(BadRequest::Method) => "method",
        Err(BadRequest::Runtime) => "runtime",
        Err(BadRequest::Header { index: 1 }) => "second header",
        Err(_) => "another part",
    })
}

/// The fault, the method, the runtime text, and the name and value of the second header.
const FAULTS: [[&str; 5]; 15] = [
    ["method", "G T", "\n", "", ""],
    ["runtime", "GET", "\n", "", ""],
    ["nothing", "GET", "", "x-a", ""],
    ["nothing", "GET", "", "x-a", "a b"],
    ["second header", "GET", "", "x-a", " a"],
    ["second header", "GET", "", "x-a", "a "],
    ["second header", "GET", "", "x-a", " "],
    ["second header", "GET", "", "x-a", "\t"],
    ["second header", "GET", "", "", "a"],
    ["second header", "GET", "", "X-a", "a"],
    ["second header", "GET", "", ":path", "a"],
    ["second header", "GET", "", "host", "a"],
    ["second header", "GET", "", "x-forwarded-proto", "http"],
    ["second header", "GET", "", "x-envoy-internal", "true"],
    ["nothing", "GET", "", "hosts", "a"],
];

/// The first bad part is told, and a header by its index.
#[test]
fn faults_of_requests(rt: HostRuntime) -> Result<(), Fail> {
    for row in FAULTS {
        assert_eq!(rt; fault_of(rt.alloc(), row)?, row[0], "{} {}", row[3], row[4]);
    }
    Ok(())
}

/// What the only test's request shows of its random value, its runtime text and its path.
fn seen(alloc: Global, input: &str) -> Result<String, Fail> {
    let mut text = String::new(alloc);
    for test in tests_of(alloc, input)?.as_slice() {
        let request = &test.request;
        for part in [
            request.see(&Field::Random),
            request.see(&Field::Runtime),
            Some(request.path_part()),
        ] {
            text.push_str(
                str::from_utf8(part.unwrap_or(b"none"))
                    .ok()
                    .ok_or("no text")?,
            )?;
            text.push_str(";")?;
        }
    }
    Ok(text)
}

/// The last six digits of a random value are seen.
#[test]
fn random_runtime_and_path_are_seen(rt: HostRuntime) -> Result<(), Fail> {
    for (input, want) in [
        (
            r#"{"authority":"x.com","path":"/p;v?x=1?y","random_value":3000024}"#,
            "000024;none;/p;v;",
        ),
        (
            r#"{"authority":"x.com","path":"/","runtime":"key"}"#,
            "000000;key;/;",
        ),
    ] {
        let seen = seen(rt.alloc(), input)?;
        assert_eq!(rt; seen.as_str(), want);
    }
    Ok(())
}

/// Whether a header rule, that the number is from -10 on and below 0, agrees with the text that it sees.
fn agrees(alloc: Global, text: Option<&[u8]>) -> Result<bool, OutOfMemory> {
    let rule = HeaderRule {
        name: Text::of(alloc, "n")?,
        form: HeaderForm::Range { start: -10, end: 0 },
        invert: false,
        missing_empty: false,
    };
    let test = HeaderTest::build(alloc, &rule)?;
    let mut scratch = Scratch::new(alloc, test.room())?;
    Ok(test.agrees(text, &mut scratch))
}

/// The room of the tests of a fraction and of gRPC.
fn rooms(alloc: Global) -> Result<(u32, u32), OutOfMemory> {
    let fraction = Fraction {
        key: Text::of(alloc, "k")?,
        below: 25,
        of: 100,
    };
    let fraction = FractionTest::build(alloc, &fraction)?.room();
    Ok((fraction, GrpcTest::build(alloc)?.room()))
}

#[test]
fn rules_are_asked_of_texts(rt: HostRuntime) -> Result<(), Fail> {
    let alloc = rt.alloc();
    assert!(rt; agrees(alloc, Some(b"-1"))?);
    assert!(rt; !agrees(alloc, None)?);
    assert_eq!(rt; rooms(alloc)?, (0, 0));
    Ok(())
}

/// Where there is no share, the cluster has no name.
#[test]
fn no_share_is_picked(rt: HostRuntime) -> Result<(), Fail> {
    let alloc = rt.alloc();
    for test in tests_of(alloc, r#"{"authority":"h","path":"/"}"#)?.as_slice() {
        let cluster = cluster_of(alloc, &Target::Weighted(Items::new(alloc)), &test.request)?;
        assert_eq!(rt; cluster.as_str(), "");
    }
    Ok(())
}

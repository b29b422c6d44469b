// Terms of the builders: their sizes, texts that are in them, and rows that are long.
use rx_auto::{Scratch, Table};
use rx_build::{
    contains, digits_below, empty_law, exact, has_empty, host, host_laws, number_laws, path_ends,
    path_exact, path_laws, path_pattern, path_prefix, path_rule_laws, path_separated, prefix,
    query_first, query_laws, range, suffix, text_laws,
};
use rx_rows::{below, either, letter, printed_but, text_then};
use rx_term::{OutOfMemory, Term};
use std::alloc::Global;
use std::test::Fail;

#[test]
fn terms_of_texts_have_their_sizes(rt: HostRuntime) -> Result<(), Fail> {
    let alloc = rt.alloc();
    let question = path_ends(false);
    let sizes = [
        (exact(alloc, b"/a", false)?.size(), 3),
        (prefix(alloc, b"/a", true)?.size(), 6),
        (suffix(alloc, b"/a", false)?.size(), 6),
        (contains(alloc, b"/a", true)?.size(), 9),
        (path_prefix(alloc, b"/a", false, question)?.size(), 6),
        (
            path_prefix(alloc, b"/a;", false, path_ends(true))?.size(),
            1,
        ),
        (path_exact(alloc, b"/a", false, question)?.size(), 10),
        (path_separated(alloc, b"/a", true, question)?.size(), 10),
    ];
    for (size, want) in sizes {
        assert_eq!(rt; size, want);
    }
    let pattern = exact(alloc, b"a", false)?;
    assert_eq!(rt; path_pattern(alloc, &pattern, question)?.size(), 8);
    assert_eq!(rt; query_first(alloc, b"k", &pattern)?.size(), 41);
    assert!(rt; !has_empty(&pattern));
    Ok(())
}

#[test]
fn terms_of_numbers_and_hosts_have_their_sizes(rt: HostRuntime) -> Result<(), Fail> {
    let alloc = rt.alloc();
    let sizes = [
        (digits_below(alloc, 100, 7)?.size(), 21),
        (digits_below(alloc, 1_000_000, 0)?.size(), 13),
        (range(alloc, -10, 0)?.size(), 101),
        (range(alloc, i64::MIN, i64::MAX)?.size(), 3551),
        (host(alloc, b"*", false)?.size(), 2),
        (host(alloc, b"a:1", true)?.size(), 12),
        (host(alloc, b"*.a", true)?.size(), 30),
        (host(alloc, b"a.*", true)?.size(), 30),
    ];
    for (size, want) in sizes {
        assert_eq!(rt; size, want);
    }
    Ok(())
}

/// Whether the text is in the term, by a table that tests it.
fn is_in(alloc: Global, term: Term, text: &[u8]) -> Result<bool, OutOfMemory> {
    let table = Table::build(alloc, &term)?;
    let mut scratch = Scratch::new(alloc, table.room())?;
    Ok(table.matches(text, &mut scratch))
}

/// A range has its start and not its end, with leading zeros and without a sign or with one.
#[test]
fn ranges_have_their_numbers(rt: HostRuntime) -> Result<(), Fail> {
    let alloc = rt.alloc();
    for (text, want) in [
        ("-1", true),
        ("-010", true),
        ("0", false),
        ("+1", false),
        ("", false),
    ] {
        let range = range(alloc, -10, 0)?;
        assert_eq!(rt; is_in(alloc, range, text.as_bytes())?, want, "{text}");
    }
    Ok(())
}

#[test]
fn a_row_has_its_letters_and_its_end(rt: HostRuntime) -> Result<(), Fail> {
    let row = text_then(rt.alloc(), b"aZ", true, Term::Empty)?;
    assert_eq!(rt; row.size(), 5);
    let letter = letter(true, b'Z');
    assert!(rt; letter.has(b'z') && letter.has(b'Z') && !letter.has(b'Y'));
    assert!(rt; !either(printed_but(b'?'), below(32)).has(b'?'));
    Ok(())
}

#[test]
fn a_long_row_needs_no_deep_stack(rt: HostRuntime) -> Result<(), Fail> {
    let alloc = rt.alloc();
    let mut row = Term::Empty;
    for _ in 0..1_000_000 {
        row = Term::cat(alloc, Term::Empty, row)?;
    }
    assert!(rt; has_empty(&row));
    assert_eq!(rt;
        path_pattern(alloc, &row, path_ends(true))?.size(),
        2_000_008
    );
    Ok(())
}

#[test]
fn laws_can_be_called() {
    text_laws();
    path_laws();
    path_rule_laws();
    query_laws();
    number_laws();
    host_laws();
    empty_law();
}

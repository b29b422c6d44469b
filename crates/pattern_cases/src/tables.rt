//! Worked tables.

ghost use Rattle.std.specs.Prelude.{◌≡◌, length};

use crate::made::{optional_row, row, starred, term_of};
use rx_auto::{Members, Scratch, StateSet, Table, Words, follow, put};
use rx_term::{OutOfMemory, Term};
use sqlite_items::Items;
use std::alloc::Global;
use std::test::Fail;

/// Whether the table matches the text, in a scratch of its room, which stays so large.
fn matches(alloc: Global, table: &Table, text: &[u8]) -> Result<bool, OutOfMemory> {
    let mut scratch = Scratch::new(alloc, table.room())?;
    let matches = table.matches(text, &mut scratch);
    Ok(matches && scratch.room() == table.room())
}

/// Whether the table answers to each text as its row says.
fn answers_are_right(
    alloc: Global,
    table: &Table,
    rows: &[(&str, bool)],
) -> Result<bool, OutOfMemory> {
    for (text, answer) in rows {
        if matches(alloc, table, text.as_bytes())? != *answer {
            return Ok(false);
        }
    }
    Ok(true)
}

/// Whether the table matches a text of so many letters.
fn matches_letters(alloc: Global, table: &Table, letters: usize) -> Result<bool, OutOfMemory> {
    let text = vec![in alloc; b'a'; letters]?;
    matches(alloc, table, &text)
}

/// Steps the state, and tells whether that changes it.
fn changes(
    alloc: Global,
    table: &Table,
    state: &mut StateSet,
    byte: u8,
) -> Result<bool, OutOfMemory>
    requires row { length state.old.marks ≡ length table.now.terms }
    requires room { state.old.room ≡ table.now.room }
    ensures row { length state.new.marks ≡ length table.now.terms }
    ensures room { state.new.room ≡ table.now.room }
{
    let before = state.copy(alloc)?;
    table.step(state, byte);
    Ok(!state.same(&before))
}

/// Whether `/` leaves the start and ends nowhere, a letter ends, and one more of them changes nothing.
fn steps_are_right(alloc: Global, table: &Table) -> Result<bool, OutOfMemory> {
    let mut state = table.start(alloc)?;
    let begun = table.accepts(&state);
    let left = changes(alloc, table, &mut state, b'/')?;
    let behind = table.accepts(&state);
    table.step(&mut state, b'a');
    let ended = table.accepts(&state);
    let left_again = changes(alloc, table, &mut state, b'c')?;
    table.step(&mut state, b'd');
    Ok(!begun && left && !behind && ended && !left_again && !table.accepts(&state))
}

/// Where `/` leads from the first of four places, counted from 100, with 7 put in before.
fn led(alloc: Global, table: &Table) -> Result<Vec<u64>, OutOfMemory>
    requires { length table.now.terms ≡ 4 }
{
    let mut edges = Vec::new(alloc);
    table.edges(0, 100, &mut edges)?;
    let mut places = Vec::new(alloc);
    follow(edges.as_slice(), b'/', &mut places)?;
    put(&mut places, 7)?;
    put(&mut places, 7)?;
    Ok(places)
}

/// Where a letter leads from the second and the third of four places, counted from 100.
fn led_by_two(alloc: Global, table: &Table) -> Result<Vec<u64>, OutOfMemory>
    requires { length table.now.terms ≡ 4 }
{
    let mut scratch = Scratch::new(alloc, table.room())?;
    let mut edges = Vec::new(alloc);
    table.edges_of(&[1, 2], 100, &mut scratch, &mut edges)?;
    let mut places = Vec::new(alloc);
    follow(edges.as_slice(), b'a', &mut places)?;
    Ok(places)
}

/// Whether there are four places, of which the third ends and the second doesn't, and bytes lead where they should.
fn places_are_right(alloc: Global, table: &Table) -> Result<bool, OutOfMemory> {
    table.known();
    if table.room() != 4 || table.places() != 4 {
        return Ok(false);
    }
    let ends = !table.ends_at(1) && table.ends_at(2);
    let one = led(alloc, table)?;
    let two = led_by_two(alloc, table)?;
    let leads = one.as_slice() == [7, 101].as_slice() && two.as_slice() == [102].as_slice();
    Ok(ends && leads)
}

/// Whether the letters are one class and all else is the other one.
fn classes_are_right(table: &Table) -> bool {
    table.classes() == 2
        && table.class_of(b'a') == table.class_of(b'c')
        && table.class_of(b'd') == table.class_of(0x80)
        && table.class_of(b'a') != table.class_of(b'd')
}

/// What is said of a table.
#[derive(Drop)]
enum Claim<'a> {
    /// A step needs so much room.
    Room(u32),
    /// Texts are matched or not.
    Answers(&'a [(&'a str, bool)]),
    /// A text of so many letters is matched or not.
    Letters(usize, bool),
    /// The steps of `/[a-c]+` are right.
    Steps,
    /// The places of `/[a-c]+` are right.
    Places,
    /// The classes of `[a-c]+` are right.
    Classes,
}

/// Whether the claim holds of the table.
fn holds_of(alloc: Global, table: &Table, claim: &Claim) -> Result<bool, OutOfMemory> {
    match claim {
        Claim::Room(room) => Ok(table.room() == *room),
        Claim::Answers(rows) => answers_are_right(alloc, table, *rows),
        Claim::Letters(letters, answer) => Ok(matches_letters(alloc, table, *letters)? == *answer),
        Claim::Steps => steps_are_right(alloc, table),
        Claim::Places => places_are_right(alloc, table),
        Claim::Classes => Ok(classes_are_right(table)),
    }
}

/// Whether the claim holds of the term's table.
fn holds(alloc: Global, term: &Term, claim: &Claim) -> Result<bool, OutOfMemory> {
    let table = Table::build(alloc, term)?;
    holds_of(alloc, &table, claim)
}

/// The table of `/[a-c]+`.
#[test]
fn slash_and_letters_are_matched_stepped_and_led(rt: HostRuntime) -> Result<(), Fail> {
    let rows = [
        ("/abc", true),
        ("/a", true),
        ("/abd", false),
        ("/", false),
        ("", false),
        ("//a", false),
    ];
    let term = term_of(rt.alloc(), "/22*..")?;
    assert!(rt; holds(rt.alloc(), &term, &Claim::Answers(&rows))?);
    assert!(rt; holds(rt.alloc(), &term, &Claim::Steps)?);
    assert!(rt; holds(rt.alloc(), &term, &Claim::Places)?);
    Ok(())
}

/// The table of `[a-c]+`.
#[test]
fn letters_have_two_classes(rt: HostRuntime) -> Result<(), Fail> {
    let term = term_of(rt.alloc(), "22*.")?;
    assert!(rt; holds(rt.alloc(), &term, &Claim::Classes)?);
    Ok(())
}

/// Whether a set has the two numbers that are put in, each once, and none once it is cleared.
fn members_are_right(alloc: Global) -> Result<bool, OutOfMemory> {
    let mut members = Members::new(alloc, 4)?;
    members.put(2);
    members.put(0);
    members.put(2);
    let filled = members.has(2) && !members.has(1) && members.count() == 2;
    members.clear();
    Ok(filled && members.count() == 0 && !members.has(2))
}

#[test]
fn members_are_put_and_words_begin_empty(rt: HostRuntime) -> Result<(), Fail> {
    assert!(rt; members_are_right(rt.alloc())?);
    let words = Words {
        list: Items::new(rt.alloc()),
    };
    assert!(rt; words.list.is_empty());
    Ok(())
}

#[test]
fn stars_over_stars_stay_small(rt: HostRuntime) -> Result<(), Fail> {
    let rows = [("abcabcabc", true), ("abcd", false)];
    let term = starred(rt.alloc(), optional_row(rt.alloc(), 300)?, 60)?;
    assert!(rt; holds(rt.alloc(), &term, &Claim::Room(898))?);
    assert!(rt; holds(rt.alloc(), &term, &Claim::Answers(&rows))?);
    Ok(())
}

#[test]
fn long_terms_need_no_deep_stack(rt: HostRuntime) -> Result<(), Fail> {
    let stars = starred(rt.alloc(), Term::Empty, 100_000)?;
    assert!(rt; holds(rt.alloc(), &stars, &Claim::Room(1))?);
    let letters = row(rt.alloc(), 100_000)?;
    assert!(rt; holds(rt.alloc(), &letters, &Claim::Room(100_001))?);
    Ok(())
}

#[test]
fn rows_of_optional_letters_match(rt: HostRuntime) -> Result<(), Fail> {
    let term = optional_row(rt.alloc(), 600)?;
    assert!(rt; holds(rt.alloc(), &term, &Claim::Letters(600, true))?);
    assert!(rt; holds(rt.alloc(), &term, &Claim::Letters(601, false))?);
    Ok(())
}

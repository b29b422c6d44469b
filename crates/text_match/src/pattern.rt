// Patterns, by their tables.
ghost use Rattle.std.specs.Prelude.{◌≡◌, ◌≤◌, IfOk};
ghost use Rattle.rx_term.specs.Language.{is_in};

use cfg_types::Pattern;
use rx_auto::{Scratch, Table};
use std::alloc::Global;
use std::marker::Model;
use text_base::{OutOfMemory, Text};

/// A pattern with its table, which contracts see as the pattern and the room that it needs.
#[derive(Drop)]
pub struct PatternTest {
    text: Text,
    table: Table,
}

impl Model for PatternTest {
    ghost use Rattle.std.specs.Coded.{codes};
    ghost use Rattle.rx_term.specs.contracts.terms.Term as of_term;
    ghost use Rattle.text_match.specs.Meanings.{PatternMeaning, meaning_of};

    ghost Value = { PatternMeaning };

    ghost coded = { Prim.hlevel (codes, of_term.the_row.coded) };

    ghost view = { λ p. meaning_of p.text p.table };
}

impl PatternTest {
    pub fn build(alloc: Global, pattern: &Pattern) -> Result<PatternTest, OutOfMemory>
        ensures { IfOk result (λ p. p.pattern ≡ pattern.now) }
    {
        Ok(PatternTest {
            text: pattern.text.copy(alloc)?,
            table: Table::build(alloc, &pattern.term)?,
        })
    }

    /// The room that the test needs. Takes no memory.
    pub fn room(&self) -> u32
        ensures { result ≡ self.now.room }
    {
        self.table.room()
    }

    /// Whether the text is in the pattern's language. Takes no memory.
    pub fn holds(&self, text: &[u8], scratch: &mut Scratch) -> bool
        requires { self.now.room ≤ scratch.old }
        ensures answer { result ≡ is_in self.now.pattern.term text.now }
        ensures room { scratch.new ≡ scratch.old }
    {
        self.table.matches(text, scratch)
    }
}

// Tests of texts.
ghost use Rattle.std.specs.Prelude.{◌≡◌, ◌≤◌, IfOk};
ghost use Rattle.cfg_types.specs.TextRules.{agrees, form_agrees};
ghost use Rattle.text_match.specs.Forms.{form_of, room_of};

use crate::compare::{begins, ends, equals, occurs};
use crate::pattern::PatternTest;
use cfg_types::{TextForm, TextRule};
use rx_auto::Scratch;
use std::alloc::Global;
use std::marker::Model;
use text_base::{OutOfMemory, Text};

/// The form of a rule, with the table of a pattern.
#[derive(Drop)]
pub enum FormTest {
    Exact(Text),
    Prefix(Text),
    Suffix(Text),
    Contains(Text),
    Pattern(PatternTest),
}

/// A rule on a text, which contracts see as the rule and the room that its test needs.
#[derive(Drop)]
pub struct TextTest {
    form: FormTest,
    fold: bool,
}

impl Model for TextTest {
    ghost use Rattle.std.specs.Coded.{codes};
    ghost use Rattle.rx_term.specs.contracts.terms.Term as of_term;
    ghost use Rattle.text_match.specs.Meanings.{TextMeaning};

    ghost Value = { TextMeaning };

    ghost coded = { Prim.hlevel (codes, of_term.the_row.coded) };

    ghost use Rattle.text_match.specs.Forms.{form_of, room_of};

    ghost view = { λ t. record { rule = record { form = form_of t.form; fold = t.fold }; room = room_of t.form } };
}

impl TextTest {
    /// The test of a rule.
    pub fn build(alloc: Global, rule: &TextRule) -> Result<TextTest, OutOfMemory>
        ensures { IfOk result (λ t. t.rule ≡ rule.now) }
    {
        Ok(TextTest {
            form: form_test(alloc, &rule.form)?,
            fold: rule.fold,
        })
    }

    /// The room that the test needs. Takes no memory.
    pub fn room(&self) -> u32
        ensures { result ≡ self.now.room }
    {
        room_for(&self.form)
    }

    /// Whether the text agrees with the rule. Takes no memory.
    pub fn holds(&self, text: &[u8], scratch: &mut Scratch) -> bool
        requires { self.now.room ≤ scratch.old }
        ensures answer { result ≡ agrees self.now.rule text.now }
        ensures room { scratch.new ≡ scratch.old }
    {
        form_holds(&self.form, self.fold, text, scratch)
    }
}

fn form_test(alloc: Global, form: &TextForm) -> Result<FormTest, OutOfMemory>
    ensures { IfOk result (λ f. form_of f ≡ form.now) }
{
    Ok(match form {
        TextForm::Exact(value) => FormTest::Exact(value.copy(alloc)?),
        TextForm::Prefix(value) => FormTest::Prefix(value.copy(alloc)?),
        TextForm::Suffix(value) => FormTest::Suffix(value.copy(alloc)?),
        TextForm::Contains(value) => FormTest::Contains(value.copy(alloc)?),
        TextForm::Pattern(pattern) => FormTest::Pattern(PatternTest::build(alloc, pattern)?),
    })
}

fn room_for(form: &FormTest) -> u32
    ensures { result ≡ room_of form.now }
{
    match form {
        FormTest::Pattern(pattern) => pattern.room(),
        _ => 0,
    }
}

fn form_holds(form: &FormTest, fold: bool, text: &[u8], scratch: &mut Scratch) -> bool
    requires { room_of form.now ≤ scratch.old }
    ensures answer { result ≡ form_agrees fold (form_of form.now) text.now }
    ensures room { scratch.new ≡ scratch.old }
{
    match form {
        FormTest::Exact(value) => equals(text, value.as_bytes(), fold),
        FormTest::Prefix(value) => begins(text, value.as_bytes(), fold),
        FormTest::Suffix(value) => ends(text, value.as_bytes(), fold),
        FormTest::Contains(value) => occurs(text, value.as_bytes(), fold),
        FormTest::Pattern(pattern) => pattern.holds(text, scratch),
    }
}

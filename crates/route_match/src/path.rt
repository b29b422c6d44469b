// Tests of path rules.
ghost use Rattle.std.specs.Prelude.{◌≡◌, ◌≤◌, ◌++◌, ◌∷◌, [], IfOk, position};
ghost use Rattle.text_base.specs.Seen.{matched_path as path_that_counts, ends_path as is_end};
ghost use Rattle.cfg_types.specs.PathRules.{path_holds};
ghost use Rattle.cfg_types.specs.declared.rules.PathRule.TheVariants as path_rule;
ghost use Rattle.route_match.specs.Forms.{rule_of, path_room_of};

use cfg_types::PathRule;
use req_model::Request;
use std::alloc::Global;
use std::marker::Model;
use text_base::{OutOfMemory, Text};
use text_match::{PatternTest, Scratch, begins, equals};

/// A path and a slash behind it.
#[derive(Drop)]
pub struct SlashedPath {
    value: Text,
    slashed: Text,
}

impl Model for SlashedPath {
    ghost use Rattle.std.specs.Prelude.{◌≡◌, List, ℕ, ◌++◌, ◌∷◌, []};

    ghost Value = { List ℕ };

    ghost view = { λ p. p.value };

    ghost invariant = { λ p. p.slashed ≡ p.value ++ 47 ∷ [] };
}

/// A path rule, made ready.
#[derive(Drop)]
pub enum PathForm {
    Prefix(Text),
    Exact(Text),
    Pattern(PatternTest),
    Separated(SlashedPath),
}

/// A path rule with what it ignores, which contracts see as these and the room that its test needs.
#[derive(Drop)]
pub struct PathTest {
    form: PathForm,
    fold: bool,
    ignore_params: bool,
}

impl Model for PathTest {
    ghost use Rattle.std.specs.Coded.{codes};
    ghost use Rattle.rx_term.specs.contracts.terms.Term as of_term;
    ghost use Rattle.route_match.specs.Meanings.{PathMeaning};

    ghost Value = { PathMeaning };

    ghost coded = { Prim.hlevel (codes, of_term.the_row.coded) };

    ghost use Rattle.route_match.specs.Forms.{rule_of, path_room_of};

    ghost view = { λ p. record { rule = rule_of p.form; fold = p.fold; ignore_params = p.ignore_params; room = path_room_of p.form } };
}

impl SlashedPath {
    fn of(alloc: Global, value: &Text) -> Result<SlashedPath, OutOfMemory>
        ensures { IfOk result (λ p. p ≡ value.now) }
    {
        Ok(SlashedPath {
            value: value.copy(alloc)?,
            slashed: slashed(alloc, value)?,
        })
    }

    fn holds(&self, path: &[u8], fold: bool) -> bool
        ensures { result ≡ path_holds (path_rule.Separated self.now) fold path.now }
    {
        equals(path, self.value.as_bytes(), fold) || begins(path, self.slashed.as_bytes(), fold)
    }
}

/// The text and a slash.
fn slashed(alloc: Global, text: &Text) -> Result<Text, OutOfMemory>
    ensures { IfOk result (λ t. t ≡ text.now ++ 47 ∷ []) }
{
    let mut whole = String::from_str(alloc, text.as_str())?;
    whole.push_str("/")?;
    Text::of(alloc, whole.as_str())
}

impl PathTest {
    /// The test of a path rule.
    pub fn build(
        alloc: Global,
        path: &PathRule,
        fold: bool,
        ignore_params: bool,
    ) -> Result<PathTest, OutOfMemory>
        ensures rule { IfOk result (λ p. p.rule ≡ path.now) }
        ensures fold { IfOk result (λ p. p.fold ≡ fold) }
        ensures params { IfOk result (λ p. p.ignore_params ≡ ignore_params) }
    {
        Ok(PathTest {
            form: path_form(alloc, path)?,
            fold,
            ignore_params,
        })
    }

    /// The room that the test needs. Takes no memory.
    pub fn room(&self) -> u32
        ensures { result ≡ self.now.room }
    {
        room_for(&self.form)
    }

    /// Whether the rule holds on the path of the request. Takes no memory.
    pub fn holds(&self, request: &Request, scratch: &mut Scratch) -> bool
        requires { self.now.room ≤ scratch.old }
        ensures answer { result ≡ path_holds self.now.rule self.now.fold (path_that_counts self.now.ignore_params request.now.target) }
        ensures room { scratch.new ≡ scratch.old }
    {
        let target = request.parts().target.as_slice();
        let path = matched_path(self.ignore_params, target);
        form_holds(&self.form, self.fold, path, scratch)
    }
}

fn path_form(alloc: Global, path: &PathRule) -> Result<PathForm, OutOfMemory>
    ensures { IfOk result (λ f. rule_of f ≡ path.now) }
{
    Ok(match path {
        PathRule::Prefix(value) => PathForm::Prefix(value.copy(alloc)?),
        PathRule::Exact(value) => PathForm::Exact(value.copy(alloc)?),
        PathRule::Pattern(pattern) => PathForm::Pattern(PatternTest::build(alloc, pattern)?),
        PathRule::Separated(value) => PathForm::Separated(SlashedPath::of(alloc, value)?),
    })
}

fn room_for(form: &PathForm) -> u32
    ensures { result ≡ path_room_of form.now }
{
    match form {
        PathForm::Pattern(pattern) => pattern.room(),
        _ => 0,
    }
}

fn form_holds(form: &PathForm, fold: bool, path: &[u8], scratch: &mut Scratch) -> bool
    requires { path_room_of form.now ≤ scratch.old }
    ensures answer { result ≡ path_holds (rule_of form.now) fold path.now }
    ensures room { scratch.new ≡ scratch.old }
{
    match form {
        PathForm::Prefix(value) => begins(path, value.as_bytes(), fold),
        PathForm::Exact(value) => equals(path, value.as_bytes(), fold),
        PathForm::Pattern(pattern) => pattern.holds(path, scratch),
        PathForm::Separated(value) => value.holds(path, fold),
    }
}

fn ends_path(ignore_params: bool, byte: u8) -> bool
    ensures { result ≡ is_end ignore_params byte }
{
    byte == b'?' || (ignore_params && byte == b';')
}

fn end_of_path(ignore_params: bool, target: &[u8]) -> Option<usize>
    ensures { result ≡ position (λ b. is_end ignore_params b) target.now }
{
    target
        .iter()
        .position(|byte| ends_path(ignore_params, *byte))
}

/// The target before its first `?`, and before its first `;` too where path parameters are ignored.
fn matched_path(ignore_params: bool, target: &[u8]) -> &[u8]
    ensures { result.now ≡ path_that_counts ignore_params target.now }
{
    match end_of_path(ignore_params, target) {
        Some(end) => &target[..end],
        None => target,
    }
}

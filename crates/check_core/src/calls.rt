// The calls that words give.
ghost use Rattle.std.specs.Prelude.{◌≡◌, ◌≤◌, IfSome, map, count_by, option_map, string_bytes};
ghost use Rattle.std.specs.List.{list_any, list_all};
ghost use Rattle.cert_check.specs.LawfulRows.{AreBudgets};
ghost use Rattle.check_core.specs.Calls.{command_of, check_of, reach_of, verify_of, IsHostCount, IsWithinBounds};
ghost use Rattle.check_core.specs.Words.{check, reach, verify, sample, parsed, is_only_failures as is_only_failures_of, is_check_word as is_check_word_of, are_check_words as are_check_words_of, is_reach_word as is_reach_word_of, are_reach_words as are_reach_words_of, budgets_of as budgets_of_words, check_command, reach_command, plain_command, verify_call as verify_call_of, sample_call as sample_call_of};

use crate::words::{
    are_arguments, argument, count_options, first_option, is_argument, is_option, number,
};

/// A call of `check`: the two files that it names, the least percentage of routes that tests have to cover, from 0 to 100,
/// and whether passing tests go untold.
#[derive(Debug, Drop)]
pub struct CheckWords<'a> {
    pub config: &'a str,
    pub tests: &'a str,
    pub fail_under: u32,
    pub only_failures: bool,
}

/// What a search may spend on a route: splits, from 1 to 65,536, and states of a field, from 16 to 4,096.
#[derive(Clone, Copy, Debug, Drop)]
pub struct Budgets {
    pub splits: u32,
    pub states: u32,
}

/// A call of `reach`: the file that it names, and the budgets.
#[derive(Debug, Drop)]
pub struct ReachWords<'a> {
    pub config: &'a str,
    pub budgets: Budgets,
}

/// A call of `verify`: the two files that it names.
#[derive(Debug, Drop)]
pub struct VerifyWords<'a> {
    pub config: &'a str,
    pub report: &'a str,
}

/// A call of a command. That of `sample` has the number of hosts, from 1 to 2,000.
#[derive(Debug, Drop)]
pub enum Call<'a> {
    Check(CheckWords<'a>),
    Reach(ReachWords<'a>),
    Verify(VerifyWords<'a>),
    Sample(u32),
}

fn is_only_failures(word: &str) -> bool
    ensures { result ≡ is_only_failures_of word.now }
{
    word == "--only-show-failures"
}

fn is_check_word(word: &str) -> bool
    ensures { result ≡ is_check_word_of word.now }
{
    is_argument(word) || is_option(word, "--fail-under", 0, 100) || is_only_failures(word)
}

fn all_check_words(words: &[String]) -> bool
    ensures { result ≡ list_all (λ w. is_check_word_of (string_bytes w)) words.now }
{
    words.iter().all(|word| is_check_word(word.as_str()))
}

fn only_failures_options(words: &[String]) -> usize
    ensures { result ≡ count_by (λ w. is_only_failures_of (string_bytes w)) words.now }
{
    words
        .iter()
        .filter(|word| is_only_failures(word.as_str()))
        .count()
}

/// Whether each word is an argument or an option of `check`, and no option is there twice.
#[tactic(auto, using(crate::proofs::CallWords::check_words_stand))]
fn are_check_words(words: &[String]) -> bool
    ensures { result ≡ are_check_words_of (map string_bytes words.now) }
{
    all_check_words(words)
        && count_options(words, "--fail-under", 0, 100) <= 1
        && only_failures_options(words) <= 1
}

fn shows_only_failures(words: &[String]) -> bool
    ensures { result ≡ list_any (λ w. is_only_failures_of (string_bytes w)) words.now }
{
    words.iter().any(|word| is_only_failures(word.as_str()))
}

/// The call of `check` that the words after the command give.
fn check_call(words: &[String]) -> Option<CheckWords<'_>>
    ensures { option_map (λ c. check (check_of c)) result ≡ check_command (map string_bytes words.now) }
{
    if !are_check_words(words) {
        return None;
    }
    let config = argument(words, 0)?;
    let tests = argument(words, 1)?;
    if argument(words, 2).is_some() {
        return None;
    }
    Some(CheckWords {
        config,
        tests,
        fail_under: first_option(words, "--fail-under", 0, 100, 0),
        only_failures: shows_only_failures(words),
    })
}

fn is_reach_word(word: &str) -> bool
    ensures { result ≡ is_reach_word_of word.now }
{
    is_argument(word)
        || is_option(word, "--splits", 1, 65_536)
        || is_option(word, "--states", 16, 4_096)
}

fn all_reach_words(words: &[String]) -> bool
    ensures { result ≡ list_all (λ w. is_reach_word_of (string_bytes w)) words.now }
{
    words.iter().all(|word| is_reach_word(word.as_str()))
}

/// Whether each word is an argument or an option of `reach`, and no option is there twice.
#[tactic(auto, using(crate::proofs::CallWords::reach_words_stand))]
fn are_reach_words(words: &[String]) -> bool
    ensures { result ≡ are_reach_words_of (map string_bytes words.now) }
{
    all_reach_words(words)
        && count_options(words, "--splits", 1, 65_536) <= 1
        && count_options(words, "--states", 16, 4_096) <= 1
}

/// The budgets that the options give, 4,096 splits and 1,000 states by default.
fn asked_budgets(words: &[String]) -> Budgets
    ensures budgets { result ≡ budgets_of_words (map string_bytes words.now) }
    ensures bounds { AreBudgets result.splits result.states }
{
    Budgets {
        splits: first_option(words, "--splits", 1, 65_536, 4_096),
        states: first_option(words, "--states", 16, 4_096, 1_000),
    }
}

/// The call of `reach` that the words after the command give.
fn reach_call(words: &[String]) -> Option<ReachWords<'_>>
    ensures call { option_map (λ c. reach (reach_of c)) result ≡ reach_command (map string_bytes words.now) }
    ensures bounds { IfSome result (λ c. AreBudgets c.budgets.splits c.budgets.states) }
{
    if !are_reach_words(words) {
        return None;
    }
    let config = argument(words, 0)?;
    if argument(words, 1).is_some() {
        return None;
    }
    Some(ReachWords {
        config,
        budgets: asked_budgets(words),
    })
}

/// The call of `verify` that the words after the command give.
fn verify_call(words: &[String]) -> Option<VerifyWords<'_>>
    ensures { option_map (λ c. verify (verify_of c)) result ≡ plain_command verify_call_of (map string_bytes words.now) }
{
    if !are_arguments(words) {
        return None;
    }
    let config = argument(words, 0)?;
    let report = argument(words, 1)?;
    if argument(words, 2).is_some() {
        return None;
    }
    Some(VerifyWords { config, report })
}

/// The number of hosts that the words after the command `sample` give.
fn sample_call(words: &[String]) -> Option<u32>
    ensures call { option_map sample result ≡ plain_command sample_call_of (map string_bytes words.now) }
    ensures bounds { IfSome result IsHostCount }
{
    if !are_arguments(words) {
        return None;
    }
    let hosts = argument(words, 0)?;
    if argument(words, 1).is_some() {
        return None;
    }
    number(hosts, 1, 2_000)
}

/// The call that the words give, if they are in the grammar.
pub fn parse(words: &[String]) -> Option<Call<'_>>
    ensures call { option_map command_of result ≡ parsed (map string_bytes words.now) }
    ensures bounds { IfSome result IsWithinBounds }
{
    let [command, rest @ ..] = words else {
        return None;
    };
    match command.as_str() {
        "check" => {
            let call = check_call(rest)?;
            Some(Call::Check(call))
        }
        "reach" => {
            let call = reach_call(rest)?;
            Some(Call::Reach(call))
        }
        "verify" => {
            let call = verify_call(rest)?;
            Some(Call::Verify(call))
        }
        "sample" => {
            let hosts = sample_call(rest)?;
            Some(Call::Sample(hosts))
        }
        _ => None,
    }
}

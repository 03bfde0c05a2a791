//! What the words ask for.

ghost use Rattle.std.specs.Prelude.{◌≡◌, ◌<◌, ◌≤◌, IfOk, IfSome, MatchOption, Some, None, option_map};
ghost use Rattle.clap.specs.Words.{found_of, rows_of};
ghost use Rattle.apd_words.specs.Words.{AreLimits, asked_options, asked_subject, bytes_of, filter_of, is_plain, log_from, options_from, options_in, options_of, number_of, strategy_named, strategy_or, subject_from, subject_with, tree_of};
ghost use Rattle.apd_base.specs.declared.limits.TheConstants.{MOST_SHOWN};
ghost use Rattle.apd_gen.specs.declared.nodes.TheConstants.{MOST_NODES};

use crate::command::command;
use crate::limits::{limit_or, number_of};
use apd_base::{MOST_SHOWN, USUAL_BUDGET};
use apd_divide::Strategy;
use apd_gen::MOST_NODES;
use apd_ports::Filter;
use clap::ArgMatches;
use clap::error::ErrorKind;
use std::alloc::{AllocError, Global};

/// What is debugged.
#[derive(Clone, Copy)]
pub enum Subject<'a> {
    /// The program in the file of this name.
    File(&'a str),
    /// As a demonstration, the program of a tree of so many nodes, from 1 to 10,000.
    Tree(u32),
    /// Nothing: the log in a file is checked, which was written for the program in another.
    Log { program: &'a str, log: &'a str },
}

/// What the words ask for.
#[derive(Drop)]
pub struct Wanted<'a> {
    /// What is debugged.
    pub subject: Subject<'a>,
    /// The most ports that a run shows, from 1 to 1,000,000.
    pub budget: u32,
    /// The most answers that a run shows, from 1 to 1,000,000.
    pub answers: u32,
    /// Which ports are printed.
    pub filter: Filter,
    /// How a diagnosis chooses what it asks about.
    pub strategy: Strategy,
    /// The name of the oracle file, where one is given, which a tree has not.
    pub oracle: Option<&'a str>,
    /// The name of the reference program's file, where one is given, which a tree and a log have not.
    pub reference: Option<&'a str>,
}

/// The filter that a flag's value sets.
fn filter_of(value: Option<&str>) -> Filter
    ensures { result ≡ filter_of (option_map (λ s. s.now) value.entry) }
{
    match value {
        Some(word) if word == "true" => Filter::All,
        _ => Filter::Off,
    }
}

/// The strategy of this name.
fn strategy_named(word: &str) -> Option<Strategy>
    ensures { result ≡ strategy_named word.now }
{
    match word {
        "divide" => Some(Strategy::Divide),
        "single" => Some(Strategy::Single),
        "top" => Some(Strategy::Top),
        _ => None,
    }
}

/// The strategy that a value names, or the usual one where there is no value.
fn strategy_or(value: Option<&str>) -> Option<Strategy>
    ensures { result ≡ strategy_or (option_map (λ s. s.now) value.entry) }
{
    match value {
        None => Some(Strategy::Divide),
        Some(word) => strategy_named(word),
    }
}

/// The tree of so many nodes as a word writes.
fn tree_of<'a>(word: &str) -> Option<Subject<'a>>
    ensures { let nodes = number_of MOST_NODES word.now in
        MatchOption result (tree_of nodes ≡ None) (λ s. tree_of nodes ≡ Some (asked_subject s)) }
{
    let nodes = number_of(MOST_NODES, word)?;
    Some(Subject::Tree(nodes))
}

/// What is debugged: a tree or a file, exactly one of which is given. A tree has no oracle file and no reference program.
fn subject_from<'a>(
    demo: Option<&'a str>,
    oracle: Option<&'a str>,
    reference: Option<&'a str>,
    program: Option<&'a str>,
) -> Option<Subject<'a>>
    ensures { let subject = subject_from (option_map (λ s. s.now) demo.entry)
        (option_map (λ s. s.now) oracle.entry) (option_map (λ s. s.now) reference.entry)
        (option_map (λ s. s.now) program.entry) in
        MatchOption result (subject ≡ None) (λ s. subject ≡ Some (asked_subject s)) }
{
    match (demo, oracle, reference, program) {
        (None, _, _, Some(program)) => Some(Subject::File(program)),
        (Some(demo), None, None, None) => tree_of(demo),
        _ => None,
    }
}

/// Whether neither a limit, a strategy nor ports that are printed are asked for.
fn is_plain(
    budget: Option<&str>,
    answers: Option<&str>,
    strategy: Option<&str>,
    filter: &Filter,
) -> bool
    ensures { result ≡ is_plain (option_map (λ s. s.now) budget.entry)
        (option_map (λ s. s.now) answers.entry) (option_map (λ s. s.now) strategy.entry)
        filter.now }
{
    match (budget, answers, strategy, filter) {
        (None, None, None, Filter::Off) => true,
        _ => false,
    }
}

/// A log that is checked, where nothing else is asked for but an oracle file, and a program's file is named.
fn log_from<'a>(
    plain: bool,
    log: &'a str,
    demo: Option<&'a str>,
    reference: Option<&'a str>,
    program: Option<&'a str>,
) -> Option<Subject<'a>>
    ensures { let subject = log_from plain log.now (option_map (λ s. s.now) demo.entry)
        (option_map (λ s. s.now) reference.entry) (option_map (λ s. s.now) program.entry) in
        MatchOption result (subject ≡ None) (λ s. subject ≡ Some (asked_subject s)) }
{
    match (plain, demo, reference, program) {
        (true, None, None, Some(program)) => Some(Subject::Log { program, log }),
        _ => None,
    }
}

/// A log that is checked, where one is named; else what is debugged.
fn subject_with<'a>(
    plain: bool,
    check: Option<&'a str>,
    demo: Option<&'a str>,
    oracle: Option<&'a str>,
    reference: Option<&'a str>,
    program: Option<&'a str>,
) -> Option<Subject<'a>>
    ensures { let subject = subject_with plain (option_map (λ s. s.now) check.entry)
        (option_map (λ s. s.now) demo.entry) (option_map (λ s. s.now) oracle.entry)
        (option_map (λ s. s.now) reference.entry) (option_map (λ s. s.now) program.entry) in
        MatchOption result (subject ≡ None) (λ s. subject ≡ Some (asked_subject s)) }
{
    match check {
        Some(log) => log_from(plain, log, demo, reference, program),
        None => subject_from(demo, oracle, reference, program),
    }
}

/// The options that values give, where each limit keeps its rule, the strategy is known and something is debugged.
fn options_from<'a>(
    budget: Option<u32>,
    answers: Option<u32>,
    filter: Filter,
    strategy: Option<Strategy>,
    oracle: Option<&'a str>,
    reference: Option<&'a str>,
    subject: Option<Subject<'a>>,
) -> Option<Wanted<'a>>
    requires budget { IfSome budget (λ n. (0 < n) × (n ≤ MOST_SHOWN)) }
    requires answers { IfSome answers (λ n. (0 < n) × (n ≤ MOST_SHOWN)) }
    ensures options { let options = options_from budget answers filter strategy
        (option_map (λ s. s.now) oracle.entry) (option_map (λ s. s.now) reference.entry)
        (option_map asked_subject subject.entry) in
        MatchOption result (options ≡ None) (λ a. options ≡ Some (asked_options a)) }
    ensures limits { IfSome result (λ a. AreLimits a.budget a.answers) }
{
    match (budget, answers, strategy, subject) {
        (Some(budget), Some(answers), Some(strategy), Some(subject)) => Some(Wanted {
            subject,
            budget,
            answers,
            filter,
            strategy,
            oracle,
            reference,
        }),
        _ => None,
    }
}

/// The options that clap's matches give, where each limit keeps its rule, the strategy is known and something is debugged.
fn options_in<'a>(matches: &ArgMatches<'a>) -> Option<Wanted<'a>>
    ensures options { let options = options_in (rows_of (found_of matches.now)) in
        MatchOption result (options ≡ None) (λ a. options ≡ Some (asked_options a)) }
    ensures limits { IfSome result (λ a. AreLimits a.budget a.answers) }
{
    let budget = matches.get_str("budget");
    let answers = matches.get_str("answers");
    let filter = filter_of(matches.get_str("trace"));
    let strategy = matches.get_str("strategy");
    let oracle = matches.get_str("oracle");
    let reference = matches.get_str("reference");
    let demo = matches.get_str("demo");
    let check = matches.get_str("check");
    let program = matches.get_str("program");
    let plain = is_plain(budget, answers, strategy, &filter);
    let subject = subject_with(plain, check, demo, oracle, reference, program);
    let ports = limit_or(USUAL_BUDGET, budget);
    let shown = limit_or(MOST_SHOWN, answers);
    let chosen = strategy_or(strategy);
    options_from(ports, shown, filter, chosen, oracle, reference, subject)
}

/// The options that the words give, of which the first is the program's own name; none where they break their rules.
pub fn read_words<'a>(alloc: Global, words: &'a [String]) -> Result<Option<Wanted<'a>>, AllocError>
    ensures options { let options = options_of (bytes_of words.entry.now) in
        IfOk result (λ o. MatchOption o (options ≡ None) (λ a. options ≡ Some (asked_options a))) }
    ensures limits { IfOk result (λ o. IfSome o (λ a. AreLimits a.budget a.answers)) }
{
    let command = command(alloc)?;
    match command.try_get_matches_from(words) {
        Ok(matches) => Ok(options_in(&matches)),
        Err(error) => match error.kind() {
            ErrorKind::OutOfMemory => Err(AllocError),
            _ => Ok(None),
        },
    }
}

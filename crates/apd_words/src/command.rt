//! The command that the words are for.

ghost use Rattle.std.specs.Prelude.{◌≡◌, IfOk, false};
ghost use Rattle.clap.specs.Words.{app_of, rule_of, with_rule};
ghost use Rattle.apd_words.specs.Words.{command, option_rule};

use clap::{Arg, ArgAction, Command};
use std::alloc::{AllocError, Global};

/// An option with one value.
fn option<'a>(alloc: Global, name: &'a str) -> Arg<'a>
    ensures rule { rule_of result ≡ option_rule name.entry.now }
    ensures local { result.global ≡ false }
{
    Arg::new(alloc, name).long(name).action(ArgAction::Set)
}

/// The command with one more option, which has one value.
fn with_option<'a>(
    alloc: Global,
    before: Command<'a>,
    name: &'a str,
) -> Result<Command<'a>, AllocError>
    ensures { IfOk result (λ c. app_of c ≡ with_rule (app_of before.entry)
        (option_rule name.entry.now)) }
{
    let argument = option(alloc, name);
    let command = before.arg(argument)?;
    Ok(command)
}

/// One simple command: two limits, a strategy, the names of an oracle file and of a reference program's file, how many nodes a
/// demonstration has, the name of a log's file, a flag and the name of a file.
pub(crate) fn command<'a>(alloc: Global) -> Result<Command<'a>, AllocError>
    ensures { IfOk result (λ c. app_of c ≡ command) }
{
    let start = Command::new(alloc, "apd");
    let budget = with_option(alloc, start, "budget")?;
    let answers = with_option(alloc, budget, "answers")?;
    let strategy = with_option(alloc, answers, "strategy")?;
    let oracle = with_option(alloc, strategy, "oracle")?;
    let reference = with_option(alloc, oracle, "reference")?;
    let demo = with_option(alloc, reference, "demo")?;
    let check = with_option(alloc, demo, "check")?;
    let flag = Arg::new(alloc, "trace")
        .long("trace")
        .action(ArgAction::SetTrue);
    let trace = check.arg(flag)?;
    let file = Arg::new(alloc, "program").action(ArgAction::Set);
    let command = trace.arg(file)?;
    Ok(command)
}

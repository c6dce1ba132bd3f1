//! What the words ask for.

ghost use Rattle.std.specs.Prelude.{◌≡◌, IfOk, true, map, option_map, string_bytes};
ghost use Rattle.std.specs.Char.{is_ascii_digit};
ghost use Rattle.std.specs.List.{list_all};
ghost use Rattle.std.specs.Option.{option_copied, option_map_or};
ghost use Rattle.clap.specs.Words.{app_of};
ghost use Rattle.rl_words.specs.Words.{asked_given, asked_of, is_value, number_of, root_of, seen_asked, units_of};
ghost use Rattle.rl_words.specs.Reader.{app, asked_in, given_of};

use crate::name::is_module_name;
use clap::error::ErrorKind;
use clap::{Arg, ArgAction, ArgMatches, Command};
use std::alloc::{AllocError, Global};

// The units of a run whose words give no number.
const DEFAULT_UNITS: u64 = 50_000_000;

/// A module to run.
#[derive(Clone, Copy)]
pub struct Asked<'a> {
    /// The folder of the modules, empty where there is none.
    pub root: &'a str,
    /// The name of the module, one or more names joined by `::`.
    pub name: &'a str,
    /// The units that the run may take.
    pub units: u64,
}

// The command line: two options and two plain words, with no help flag.
fn command<'a>(alloc: Global) -> Result<Command<'a>, AllocError>
    ensures { IfOk result (λ command. app_of command ≡ app) }
{
    let root = Arg::new(alloc, "root").long("root").action(ArgAction::Set);
    let steps = Arg::new(alloc, "steps")
        .long("steps")
        .action(ArgAction::Set);
    let job = Arg::new(alloc, "job").action(ArgAction::Set);
    let name = Arg::new(alloc, "module").action(ArgAction::Set);
    Command::new(alloc, "rascal")
        .no_binary_name(true)
        .disable_help_flag(true)
        .arg(root)?
        .arg(steps)?
        .arg(job)?
        .arg(name)
}

// Whether a word may be the value of an option: it is not empty and begins with no `-`.
fn is_value(word: &str) -> bool
    ensures { result ≡ is_value word.now }
{
    match word.as_bytes() {
        [] => false,
        [first, ..] => *first != b'-',
    }
}

fn is_digits(text: &[u8]) -> bool
    ensures { result ≡ list_all is_ascii_digit text.now }
{
    text.iter().all(|byte| byte.is_ascii_digit())
}

// The number of decimal digits; None where there are none, another character, or too great a number.
fn number(digits: &str) -> Option<u64>
    ensures { result ≡ number_of digits.now }
{
    if !is_digits(digits.as_bytes()) {
        return None;
    }
    digits.parse::<u64>().ok()
}

fn units_of(steps: Option<&str>) -> Option<u64>
    ensures { result ≡ units_of (option_copied steps.entry) }
{
    match steps {
        None => Some(DEFAULT_UNITS),
        Some(digits) => number(digits),
    }
}

fn root_of<'a>(root: Option<&'a str>) -> &'a str
    ensures { result.now ≡ root_of (option_copied root.entry) }
{
    match root {
        None => "",
        Some(root) => root,
    }
}

// Whether an option is left out or has a value that it may have.
fn is_left_out_or_value(given: Option<&str>) -> bool
    ensures { result ≡ option_map_or is_value (option_copied given.entry) true }
{
    match given {
        None => true,
        Some(word) => is_value(word),
    }
}

// What is asked for by the values of the options and by the plain words.
fn asked_by<'a>(
    root: Option<&'a str>,
    steps: Option<&'a str>,
    job: Option<&'a str>,
    name: Option<&'a str>,
) -> Option<Asked<'a>>
    ensures { option_map seen_asked result ≡ asked_given (given_of (option_copied root.entry)
        (option_copied steps.entry) (option_copied job.entry) (option_copied name.entry)) }
{
    if !is_left_out_or_value(root) || !is_left_out_or_value(steps) {
        return None;
    }
    let job = job?;
    let name = name?;
    if job != "run" || !is_module_name(name.as_bytes()) {
        return None;
    }
    let units = units_of(steps)?;
    let root = root_of(root);
    Some(Asked { root, name, units })
}

fn asked_in<'a>(matches: &ArgMatches<'a>) -> Option<Asked<'a>>
    ensures { option_map seen_asked result ≡ asked_in matches.now }
{
    let root = matches.get_str("root");
    let steps = matches.get_str("steps");
    let job = matches.get_str("job");
    let name = matches.get_str("module");
    asked_by(root, steps, job, name)
}

/// What the words ask for: `run MODULE [--root DIR] [--steps N]`. None exactly where they have another form.
///
/// - Before the first `--`, a word `--root` or `--steps` takes the next word as its value, and
///   `--root=V` and `--steps=V` carry it. Options and other words may be mixed. The first `--` ends
///   the options; what follows are plain words.
/// - Before that `--` no other word begins with `-`, but for `-` alone.
/// - An option is given at most once. Its value is not empty and begins with no `-`.
/// - N is one or more decimal digits with a value of at most 2^64 - 1, and 50,000,000 if it is left out.
/// - The plain words are `run` and MODULE, one or more names joined by `::`, where a name is a
///   letter or `_` followed by letters, digits and `_` of ASCII.
///
/// Err is want of memory.
pub fn asked_of<'a>(alloc: Global, words: &'a [String]) -> Result<Option<Asked<'a>>, AllocError>
    ensures { IfOk result (λ asked. option_map seen_asked asked ≡ asked_of (map string_bytes words.entry.now)) }
{
    let command = command(alloc)?;
    match command.try_get_matches_from(words) {
        Ok(matches) => Ok(asked_in(&matches)),
        Err(error) => match error.kind() {
            ErrorKind::OutOfMemory => Err(AllocError),
            _ => Ok(None),
        },
    }
}

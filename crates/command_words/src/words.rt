ghost use Rattle.std.specs.Prelude.{◌≡◌, IfOk, IfSome, is_some, true};
ghost use Rattle.command_words.specs.Commands.{Reads, are_said, gen_of, gen_words, is_gen_name, is_gen_number, is_plan_name, plan_words, said_by, verb_of, with_plan};

use crate::numerals::number;
use mem_bdev::Name;
use plan_files::is_name;
use std::alloc::Global;

/// The largest N of `gen N NAME`; the smallest is 1.
pub const MAX_GEN: u64 = 4096;

/// How many bytes the NAME of `gen N NAME` has at most.
pub const MAX_GEN_NAME: usize = 200;

/// What a command line asks for.
#[derive(Debug, Drop)]
pub enum Words {
    /// `run PLAN`: a run of the plan.
    Run { plan: Name },
    /// `check PLAN`: whether the records of the plan's finished run are right.
    Check { plan: Name },
    /// `show PLAN`: the configuration that a run of the plan starts with.
    Show { plan: Name },
    /// `gen N NAME`: the files of a generated plan, whose names begin with this one.
    Gen { n: u32, name: Name },
}

/// Why words give no command.
#[derive(Clone, Copy, Debug, PartialEq, Eq)]
pub enum WordsError {
    /// They are no command.
    Usage,
    /// There was no memory for their values.
    Memory,
}

/// A command that takes a plan.
#[derive(Clone, Copy, Debug, PartialEq, Eq)]
pub enum Verb {
    Run,
    Check,
    Show,
}

/// Whether a word may name a plan: 1 to 255 bytes from 21h to 7Eh that don't begin with `-`.
pub fn is_plan_name(word: &[u8]) -> bool
    ensures { result ≡ is_plan_name word.now }
{
    is_name(word) && !word.starts_with(b"-")
}

/// Whether a word may be the NAME of `gen`: as a plan's, and at most 200 bytes.
pub fn is_gen_name(word: &[u8]) -> bool
    ensures { result ≡ is_gen_name word.now }
{
    is_plan_name(word) && word.len() <= MAX_GEN_NAME
}

/// The text of a name that may name a plan ([`is_plan_name`]), and `None` of any other.
pub fn plan_text(name: &Name) -> Option<&str>
    ensures text { IfSome result (λ t. t.now ≡ name.now) }
    ensures named { is_some result ≡ is_plan_name name.now }
{
    if !is_plan_name(name.as_bytes()) {
        return None;
    }
    match name.as_text() {
        Some(text) => Some(text),
        None => unreachable!(),
    }
}

/// The command that takes a plan of this name: `run`, `check` or `show`.
#[tactic(auto, unfolding(crate::specs::Commands::verb_of))]
pub fn verb_of(word: &str) -> Option<Verb>
    ensures { result ≡ verb_of word.now }
{
    match word {
        "run" => Some(Verb::Run),
        "check" => Some(Verb::Check),
        "show" => Some(Verb::Show),
        _ => None,
    }
}

fn with_plan(verb: Verb, plan: Name) -> Words
    ensures words { result ≡ with_plan verb plan }
    ensures said { are_said result ≡ is_plan_name plan }
{
    match verb {
        Verb::Run => Words::Run { plan },
        Verb::Check => Words::Check { plan },
        Verb::Show => Words::Show { plan },
    }
}

// A command and a plan.
fn read_plan_words(alloc: Global, verb: &str, plan: &str) -> Result<Words, WordsError>
    ensures reads { Reads (plan_words verb.now plan.now) result }
    ensures said { IfOk result (λ w. are_said w ≡ true) }
{
    let Some(verb) = verb_of(verb) else {
        return Err(WordsError::Usage);
    };
    if !is_plan_name(plan.as_bytes()) {
        return Err(WordsError::Usage);
    }
    match Name::copied(alloc, plan.as_bytes()) {
        Ok(plan) => Ok(with_plan(verb, plan)),
        Err(_) => Err(WordsError::Memory),
    }
}

// The N of `gen`: a decimal number from 1 to 4,096.
fn gen_number(word: &str) -> Option<u32>
    ensures number { result ≡ gen_of word.now }
    ensures said { IfSome result (λ n. is_gen_number n ≡ true) }
{
    match number(word) {
        Some(n) => {
            if 1 <= n && n <= MAX_GEN {
                Some(n as u32)
            } else {
                None
            }
        }
        None => None,
    }
}

// `gen`, a number and a name.
fn read_gen_words(alloc: Global, verb: &str, n: &str, name: &str) -> Result<Words, WordsError>
    ensures reads { Reads (gen_words verb.now n.now name.now) result }
    ensures said { IfOk result (λ w. are_said w ≡ true) }
{
    if verb != "gen" {
        return Err(WordsError::Usage);
    }
    let Some(n) = gen_number(n) else {
        return Err(WordsError::Usage);
    };
    if !is_gen_name(name.as_bytes()) {
        return Err(WordsError::Usage);
    }
    match Name::copied(alloc, name.as_bytes()) {
        Ok(name) => Ok(Words::Gen { n, name }),
        Err(_) => Err(WordsError::Memory),
    }
}

/// What the words after the program's name say: `run PLAN`, `check PLAN`, `show PLAN`, PLAN being 1
/// to 255 bytes from 21h to 7Eh that don't begin with `-`, or `gen N NAME`, N being a decimal number
/// from 1 to 4,096 without sign or leading zero and NAME a name as PLAN of at most 200 bytes.
///
/// `Usage` exactly where they say nothing; `Memory` where they say something and there is no memory
/// to keep it.
pub fn read_words(alloc: Global, words: &[String]) -> Result<Words, WordsError>
    ensures reads { Reads (said_by words.now) result }
    // Their values are such as the words may have.
    ensures said { IfOk result (λ w. are_said w ≡ true) }
{
    match words {
        [verb, plan] => read_plan_words(alloc, verb.as_str(), plan.as_str()),
        [verb, n, name] => read_gen_words(alloc, verb.as_str(), n.as_str(), name.as_str()),
        _ => Err(WordsError::Usage),
    }
}

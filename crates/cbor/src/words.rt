//! Which words the program accepts as its arguments, and what they ask for.

ghost use Rattle.std.specs.Prelude.{◌≡◌, ◌≢◌, ◌≤◌, ℕ, IsSome, IsTrue, MatchOption, codes, length};
ghost use Rattle.std.specs.Prelude.{map, string_bytes};
ghost use Rattle.std.specs.Bool.{MatchBool};
ghost use Rattle.std.specs.Option.{SomeIff};
ghost use Rattle.std.specs.Str.Parse.{digits_value};
ghost use Rattle.cbor.specs.Words.{AskFor, AskForNothing, IsLimit, NameLimit, NameLimitBehind};
ghost use Rattle.cbor.specs.Words.{behind_flags, behind_number, command_limit, is_flag, is_number};
ghost use Rattle.cbor.specs.Words.{takes_files, words_before, words_behind};
ghost use Rattle.cbor.specs.declared.command.Command.{Command};
ghost use Rattle.cbor.specs.declared.command.Command.TheVariants.{Show};
ghost use Rattle.cbor.specs.declared.reading.Showing.{Showing};

use crate::command::{Command, Topic};
use crate::reading::{Layout, Reading, Showing, Spelling};
use ciborium::de::RECURSION_LIMIT;
use ciborium_value::KeyOrder::{Bytewise, LengthFirst};

// How many flags a command has at most.
const MOST_FLAGS: usize = 3;

// The greatest limit that a word names. Writing, showing and dropping a value take stack for each
// of its levels, and so many fit the 8 MiB that a process has by default.
const MOST_LEVELS: usize = 10_000;

/// What all of the words ask for, or `None` where they ask for nothing.
pub fn judge_words(words: &[String]) -> Option<Command>
    ensures { MatchOption result (AskForNothing (map string_bytes words.now))
        (λ command. AskFor (map string_bytes words.now) command) }
{
    if let Some(command) = judge_alone(words) {
        return Some(command);
    }
    judge_with_limit(words)
}

/// What the words ask for before the names of files, and these names, or `None` where they ask for
/// nothing that takes files.
pub fn judge_files(words: &[String]) -> Option<(Command, &[String])>
    ensures { MatchOption result ((command : Command) → IsTrue (takes_files command) →
        ¬ AskFor (words_before (map string_bytes words.now)) command)
        (λ asked. AskFor (words_before (map string_bytes words.now)) asked.0
        × IsTrue (takes_files asked.0)
        × (map string_bytes asked.1.now ≡ words_behind (map string_bytes words.now))) }
{
    let names = find_names(words);
    let Some(command) = judge_words(&words[..words.len() - names.len()]) else {
        return None;
    };
    if !command.takes_files() {
        return None;
    }
    Some((command, names))
}

// The words that may be names of files.
fn find_names(words: &[String]) -> &[String]
    ensures names { map string_bytes result.now ≡ words_behind (map string_bytes words.now) }
    ensures fewer { length result.now ≤ length words.now }
{
    let [_, words @ ..] = words else {
        return words;
    };
    skip_number(skip_flags(words, MOST_FLAGS))
}

// The words behind those at the front that are flags, but at most so many.
fn skip_flags(words: &[String], most: usize) -> &[String]
    ensures behind { map string_bytes result.now
        ≡ behind_flags most (map string_bytes words.now) }
    ensures fewer { length result.now ≤ length words.now }
{
    match words {
        [word, others @ ..] if most > 0 && is_flag(word.as_str()) => skip_flags(others, most - 1),
        _ => words,
    }
}

// The words behind the first one, where it is digits alone.
fn skip_number(words: &[String]) -> &[String]
    ensures behind { map string_bytes result.now ≡ behind_number (map string_bytes words.now) }
    ensures fewer { length result.now ≤ length words.now }
{
    match words {
        [word, others @ ..] if is_number(word.as_str()) => others,
        _ => words,
    }
}

// Whether a word is a dash, with more behind it.
fn is_flag(word: &str) -> bool
    ensures { result ≡ is_flag word.now }
{
    word.len() >= 2 && word.as_bytes()[0] == b'-'
}

// Whether a word is digits alone.
fn is_number(word: &str) -> bool
    ensures { result ≡ is_number word.now }
{
    word.as_bytes().iter().all(|byte| byte.is_ascii_digit())
}

// What the words ask for that takes no limit.
fn judge_alone(words: &[String]) -> Option<Command>
    ensures { MatchOption result
        ((command : Command) → command_limit command ≡ None →
        ¬ AskFor (map string_bytes words.now) command)
        (λ command. AskFor (map string_bytes words.now) command) }
{
    if are_words(words, &["sort"]) {
        return Some(Command::Sort(LengthFirst));
    }
    if are_words(words, &["sort", "--core"]) {
        return Some(Command::Sort(Bytewise));
    }
    if are_words(words, &["seq"]) {
        return Some(Command::Answer(Reading::Sequence));
    }
    if are_words(words, &["dump"]) {
        return Some(Command::Answer(Reading::Dump));
    }
    if are_words(words, &["diag", "--exact"]) {
        return Some(Command::Answer(Reading::Exact));
    }
    if are_words(words, &["diag", "--binary", "--exact"]) {
        return Some(Command::ShowExactly);
    }
    if are_words(words, &["dump", "--binary"]) {
        return Some(Command::Dump);
    }
    if are_words(words, &["--help"]) || are_words(words, &["-h"]) {
        return Some(Command::Tell(Topic::Help));
    }
    if are_words(words, &["--version"]) {
        return Some(Command::Tell(Topic::Version));
    }
    None
}

// What the words ask for that takes a limit.
fn judge_with_limit(words: &[String]) -> Option<Command>
    ensures { MatchOption result
        ((command : Command) → IsSome (command_limit command) →
        ¬ AskFor (map string_bytes words.now) command)
        (λ command. AskFor (map string_bytes words.now) command) }
{
    if let Some(command) = judge_showing(words) {
        return Some(command);
    }
    if let Some(limit) = limit_behind(words, &["read"]) {
        return Some(Command::Answer(Reading::Item(Spelling::Any, limit)));
    }
    if let Some(limit) = limit_behind(words, &["read", "--det"]) {
        let spelling = Spelling::Deterministic(LengthFirst);
        return Some(Command::Answer(Reading::Item(spelling, limit)));
    }
    if let Some(limit) = limit_behind(words, &["read", "--det", "--core"]) {
        let spelling = Spelling::Deterministic(Bytewise);
        return Some(Command::Answer(Reading::Item(spelling, limit)));
    }
    if let Some(limit) = limit_behind(words, &["canon"]) {
        return Some(Command::Answer(Reading::Form(LengthFirst, limit)));
    }
    if let Some(limit) = limit_behind(words, &["canon", "--core"]) {
        return Some(Command::Answer(Reading::Form(Bytewise, limit)));
    }
    if let Some(limit) = limit_behind(words, &["diag"]) {
        return Some(Command::Answer(Reading::Notation(Layout::OneLine, limit)));
    }
    if let Some(limit) = limit_behind(words, &["diag", "--indent"]) {
        return Some(Command::Answer(Reading::Notation(Layout::Indented, limit)));
    }
    if let Some(limit) = limit_behind(words, &["encode"]) {
        return Some(Command::Answer(Reading::Encode(limit)));
    }
    if let Some(limit) = limit_behind(words, &["encode", "--binary"]) {
        return Some(Command::Encode(limit));
    }
    None
}

// What the words ask for that shows the items of bytes.
fn judge_showing(words: &[String]) -> Option<Command>
    ensures { MatchOption result ((showing : Showing) (limit : ℕ) →
        ¬ AskFor (map string_bytes words.now) (Show showing limit))
        (λ command. AskFor (map string_bytes words.now) command) }
{
    if let Some(limit) = limit_behind(words, &["read", "--binary"]) {
        return Some(Command::Show(Showing::Encoding(Spelling::Any), limit));
    }
    if let Some(limit) = limit_behind(words, &["read", "--binary", "--det"]) {
        let spelling = Spelling::Deterministic(LengthFirst);
        return Some(Command::Show(Showing::Encoding(spelling), limit));
    }
    if let Some(limit) = limit_behind(words, &["read", "--binary", "--det", "--core"]) {
        let spelling = Spelling::Deterministic(Bytewise);
        return Some(Command::Show(Showing::Encoding(spelling), limit));
    }
    if let Some(limit) = limit_behind(words, &["diag", "--binary"]) {
        return Some(Command::Show(Showing::Notation(Layout::OneLine), limit));
    }
    if let Some(limit) = limit_behind(words, &["diag", "--binary", "--indent"]) {
        return Some(Command::Show(Showing::Notation(Layout::Indented), limit));
    }
    if let Some(limit) = limit_behind(words, &["canon", "--binary"]) {
        return Some(Command::Show(Showing::Form(LengthFirst), limit));
    }
    if let Some(limit) = limit_behind(words, &["canon", "--binary", "--core"]) {
        return Some(Command::Show(Showing::Form(Bytewise), limit));
    }
    None
}

// Whether the words are these.
fn are_words(words: &[String], names: &[&str]) -> bool
    ensures { MatchBool result (map string_bytes words.now ≡ map (λ n. n.now) names.now)
        (map string_bytes words.now ≢ map (λ n. n.now) names.now) }
{
    let [name, names @ ..] = names else {
        return words.is_empty();
    };
    let [word, words @ ..] = words else {
        return false;
    };
    word.as_str() == *name && are_words(words, names)
}

// The limit that the words behind these flags name, and that of the library where no word is left;
// none where the words do not begin with the flags, or name no limit behind them.
fn limit_behind(words: &[String], flags: &[&str]) -> Option<usize>
    ensures { MatchOption result
        ((n : ℕ) → ¬ NameLimitBehind (map (λ f. f.now) flags.now) (map string_bytes words.now) n)
        (λ limit. NameLimitBehind (map (λ f. f.now) flags.now) (map string_bytes words.now) limit) }
{
    let [flag, flags @ ..] = flags else {
        return judge_limit(words);
    };
    let [word, words @ ..] = words else {
        return None;
    };
    if word.as_str() != *flag {
        return None;
    }
    limit_behind(words, flags)
}

// The limit that a word names, and that of the library where no word is left.
fn judge_limit(words: &[String]) -> Option<usize>
    ensures { MatchOption result ((n : ℕ) → ¬ NameLimit (map string_bytes words.now) n)
        (λ limit. NameLimit (map string_bytes words.now) limit) }
{
    match words {
        [] => Some(RECURSION_LIMIT),
        [limit] => parse_limit(limit.as_str()),
        _ => None,
    }
}

// The number of one digit or more, where it is at most `MOST_LEVELS`. No sign stands before it.
fn parse_limit(text: &str) -> Option<usize>
    ensures { SomeIff result (IsLimit text.now) (digits_value 10 text.now) }
{
    if text.starts_with('+') {
        return None;
    }
    match text.parse() {
        Ok(limit) if limit <= MOST_LEVELS => Some(limit),
        _ => None,
    }
}

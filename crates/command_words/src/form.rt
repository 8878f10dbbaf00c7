//! Which words are a command.
ghost use Rattle.std.specs.Prelude.{◌≡◌, IfSome, is_some, map, string_bytes};
ghost use Rattle.std.specs.List.{list_any};
ghost use Rattle.std.specs.Str.{bytes_eq};
ghost use Rattle.command_words.specs.Form.{are_options, are_two_names, fits, has_word, is_count, is_form_of, is_new_option, is_number_within, is_plan};
ghost use Rattle.command_words.specs.Words.{asked, is_word_for_name};

use crate::options::{Range, count_range, limit_of, range_of};
use flow_types::parse_number;

// How many digits a number may have at the most.
const MOST_DIGITS: usize = 8;

/// Whether the words are a command.
pub fn is_command(words: &[String]) -> bool
    ensures { result ≡ is_some (asked (map string_bytes words.now)) }
{
    match words.split_first() {
        Some((command, rest)) => is_form_of(command.as_str(), rest),
        None => false,
    }
}

// Whether the words may stand behind this command.
fn is_form_of(command: &str, words: &[String]) -> bool
    ensures { result ≡ is_form_of command.now (map string_bytes words.now) }
{
    match command {
        "plan" => is_plan(words),
        "check" | "explain" | "judge" => are_two_names(words),
        "make" | "trial" => is_count(words),
        _ => false,
    }
}

// Whether the words may stand behind `plan`: a name, with options before it and behind it.
fn is_plan(words: &[String]) -> bool
    ensures { result ≡ is_plan (map string_bytes words.now) }
{
    match words {
        [] => false,
        [name] => is_word_for_name(name.as_str()),
        [word, value, rest @ ..] => {
            if is_word_for_name(word.as_str()) {
                return are_options(&words[1..]);
            }
            is_new_option(word.as_str(), value.as_str(), rest) && is_plan(rest)
        }
    }
}

// Whether the words are options alone, each with its word behind it.
fn are_options(words: &[String]) -> bool
    ensures { result ≡ are_options (map string_bytes words.now) }
{
    match words {
        [] => true,
        [_] => false,
        [option, value, rest @ ..] => {
            is_new_option(option.as_str(), value.as_str(), rest) && are_options(rest)
        }
    }
}

// Whether the words are an option and what fits it, and the option doesn't stand in the rest.
fn is_new_option(option: &str, value: &str, rest: &[String]) -> bool
    ensures { result ≡ is_new_option option.now value.now (map string_bytes rest.now) }
{
    fits(option, value) && !has_word(option, rest)
}

// Whether the word is an option, and the value one that may stand behind it.
fn fits(option: &str, value: &str) -> bool
    ensures { result ≡ fits option.now value.now }
{
    if option == "--cert" {
        return is_word_for_name(value);
    }
    match limit_of(option) {
        Some(limit) => is_number_within(range_of(limit), value),
        None => false,
    }
}

// Whether the word is among the words.
fn has_word(word: &str, words: &[String]) -> bool
    ensures { result ≡ has_word word.now (map string_bytes words.now) }
{
    words.iter().any(|other| other.as_str() == word)
}

// Whether the words are two names.
fn are_two_names(words: &[String]) -> bool
    ensures { result ≡ are_two_names (map string_bytes words.now) }
{
    match words {
        [first, second] => is_word_for_name(first.as_str()) && is_word_for_name(second.as_str()),
        _ => false,
    }
}

// Whether the words are one number, as it may stand behind `make` or `trial`.
fn is_count(words: &[String]) -> bool
    ensures { result ≡ is_count (map string_bytes words.now) }
{
    match words {
        [word] => is_number_within(count_range(), word.as_str()),
        _ => false,
    }
}

// Whether the word is a name: it isn't empty and doesn't begin with `-`.
fn is_word_for_name(word: &str) -> bool
    ensures { result ≡ is_word_for_name word.now }
{
    match word.as_bytes() {
        [] => false,
        [first, ..] => *first != b'-',
    }
}

// Whether the word spells a number of the range.
fn is_number_within(range: Range, word: &str) -> bool
    ensures { result ≡ is_number_within range word.now }
{
    if word.len() > MOST_DIGITS {
        return false;
    }
    match parse_number(word.as_bytes()) {
        Some(number) => range.least <= number && number <= range.most,
        None => false,
    }
}

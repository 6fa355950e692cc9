//! The words of `watch`, which `clap` knows without their options.

ghost use Rattle.std.specs.Prelude.{◌≡◌, ◌∷◌, ◌≤◌, IfSome, List, Some, codes, decimal, is_some, map, option_map, true, ℕ};
ghost use Rattle.gb_words.specs.Words;

use crate::words::{MOST_FRAMES, Task, is_file};

/// An option of `watch`.
#[derive(Clone, Copy, Debug, PartialEq, Eq)]
pub enum WatchOption {
    Stack,
    Cert,
    Symbols,
    Events,
}

/// The options of `watch`, as they were given.
#[derive(Clone, Copy, Debug, PartialEq, Eq)]
pub struct WatchOptions<'a> {
    /// The stack region's addresses.
    pub stack: Option<&'a str>,
    /// The file of a certificate, whose region is taken.
    pub cert: Option<&'a str>,
    /// The file of symbols.
    pub symbols: Option<&'a str>,
    /// The file of events, which are played in place of a script of keys.
    pub events: Option<&'a str>,
}

impl WatchOptions<'_> {
    /// None of them.
    pub fn none() -> WatchOptions<'static>
        ensures { Words.texts_of result ≡ Words.no_texts }
    {
        WatchOptions {
            stack: None,
            cert: None,
            symbols: None,
            events: None,
        }
    }
}

/// The option that a word names.
fn option_named(word: &str) -> Option<WatchOption>
    ensures { result ≡ Words.option_named word.now }
{
    if word == "--stack" {
        Some(WatchOption::Stack)
    } else if word == "--cert" {
        Some(WatchOption::Cert)
    } else if word == "--sym" {
        Some(WatchOption::Symbols)
    } else if word == "--events" {
        Some(WatchOption::Events)
    } else {
        None
    }
}

/// The options with one more, which may come once.
fn with_option<'a>(
    options: WatchOptions<'a>,
    option: WatchOption,
    value: &'a str,
) -> Option<WatchOptions<'a>>
    ensures { option_map Words.texts_of result ≡ Words.with_option option value.now (Words.texts_of options.entry) }
{
    let (is_given, more) = match option {
        WatchOption::Stack => {
            let stack = Some(value);
            (options.stack.is_some(), WatchOptions { stack, ..options })
        }
        WatchOption::Cert => {
            let cert = Some(value);
            (options.cert.is_some(), WatchOptions { cert, ..options })
        }
        WatchOption::Symbols => {
            let symbols = Some(value);
            (
                options.symbols.is_some(),
                WatchOptions { symbols, ..options },
            )
        }
        WatchOption::Events => {
            let events = Some(value);
            (options.events.is_some(), WatchOptions { events, ..options })
        }
    };
    if is_given { None } else { Some(more) }
}

/// The options that some words are: names, each with its value.
#[tactic(auto, unfolding(crate::specs::Words::options_in))]
fn options_of<'a>(words: &'a [&'a str]) -> Option<WatchOptions<'a>>
    ensures { option_map Words.texts_of result ≡ Words.options_in (map (λ word. word.now) words.now) }
{
    let Some((name, others)) = words.split_first() else {
        return Some(WatchOptions::none());
    };
    let Some((value, rest)) = others.split_first() else {
        return None;
    };
    let option = option_named(name)?;
    let options = options_of(rest)?;
    with_option(options, option, value)
}

/// Whether a word begins with a plus.
fn begins_with_plus(word: &str) -> bool
    ensures { result ≡ Words.begins_with_plus word.now }
{
    !word.is_empty() && word.as_bytes()[0] == b'+'
}

/// The number of frames that a word names, in decimal digits.
fn frames_named(word: &str) -> Option<u32>
    ensures some { IfSome result (λ n. Words.IsFrames word.now n) }
    ensures all { (n : ℕ) → n ≤ 36000 → word.now ≡ decimal n → is_some result ≡ true }
{
    if begins_with_plus(word) {
        return None;
    }
    let Ok(frames) = word.parse::<u32>() else {
        return None;
    };
    if frames <= MOST_FRAMES as u32 {
        Some(frames)
    } else {
        None
    }
}

/// The task that the words `watch ROM SCRIPT FRAMES` and options ask for.
pub(crate) fn watch_asked<'a>(words: &'a [&'a str]) -> Option<Task<'a>>
    ensures some { IfSome result (Words.StandFor (map (λ word. word.now) words.now)) }
    ensures all { (rom script : List ℕ) (n : ℕ) (options : List (List ℕ)) → map (λ word. word.now) words.now ≡ codes "watch" ∷ rom ∷ script ∷ decimal n ∷ options
        → Words.is_file rom ≡ true → Words.is_file script ≡ true → n ≤ 36000 → Words.are_options_without_events (Words.options_in options) ≡ true → is_some result ≡ true }
{
    let [name, rom, script, frames, options @ ..] = words else {
        return None;
    };
    if *name != "watch" || !is_file(rom) || !is_file(script) {
        return None;
    }
    let frames = frames_named(frames)?;
    let options = options_of(options)?;
    if options.events.is_some() {
        return None;
    }
    Some(Task::Watch {
        rom,
        script,
        frames,
        options,
    })
}

/// The task that the words `watch ROM` and options ask for, one of which names a file of events.
pub(crate) fn replay_asked<'a>(words: &'a [&'a str]) -> Option<Task<'a>>
    ensures some { IfSome result (Words.StandFor (map (λ word. word.now) words.now)) }
    ensures all { (rom : List ℕ) (options : List (List ℕ)) → map (λ word. word.now) words.now ≡ codes "watch" ∷ rom ∷ options
        → Words.is_file rom ≡ true → Words.are_options_with_events (Words.options_in options) ≡ true → is_some result ≡ true }
{
    let [name, rom, options @ ..] = words else {
        return None;
    };
    if *name != "watch" || !is_file(rom) {
        return None;
    }
    let options = options_of(options)?;
    let events = options.events?;
    Some(Task::Replay {
        rom,
        events,
        options,
    })
}

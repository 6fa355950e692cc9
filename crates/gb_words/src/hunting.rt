//! The words of `hunt`, which `clap` knows without their options.

ghost use Rattle.std.specs.Prelude.{◌≡◌, ◌∷◌, IfSome, List, Some, codes, is_some, map, option_map, true, ℕ};
ghost use Rattle.gb_words.specs.HuntWords;
ghost use Rattle.gb_words.specs.Words;

use crate::words::{Task, is_file};

/// An option of `hunt`.
#[derive(Clone, Copy, Debug, PartialEq, Eq)]
pub enum HuntOption {
    Frames,
    Seconds,
    Seed,
    Stack,
    Keys,
    Events,
    Symbols,
}

/// The options of `hunt`, as they were given.
#[derive(Clone, Copy, Debug, PartialEq, Eq)]
pub struct HuntOptions<'a> {
    /// The most frames that are played.
    pub frames: Option<&'a str>,
    /// The most seconds that the search takes.
    pub seconds: Option<&'a str>,
    /// The number that the keys come from.
    pub seed: Option<&'a str>,
    /// The stack region's addresses.
    pub stack: Option<&'a str>,
    /// The file that the script is written to.
    pub keys: Option<&'a str>,
    /// The file that the list of events is written to.
    pub events: Option<&'a str>,
    /// The file of symbols.
    pub symbols: Option<&'a str>,
    /// Whether interrupts may come at any time, and hardware gives any byte.
    pub any_timing: bool,
}

impl HuntOptions<'_> {
    /// None of them.
    pub fn none() -> HuntOptions<'static>
        ensures { HuntWords.hunt_texts_of result ≡ HuntWords.no_hunt_texts }
    {
        HuntOptions {
            frames: None,
            seconds: None,
            seed: None,
            stack: None,
            keys: None,
            events: None,
            symbols: None,
            any_timing: false,
        }
    }
}

/// The option that a word names.
fn hunt_option_named(word: &str) -> Option<HuntOption>
    ensures { result ≡ HuntWords.hunt_option_named word.now }
{
    if word == "--frames" {
        Some(HuntOption::Frames)
    } else if word == "--seconds" {
        Some(HuntOption::Seconds)
    } else if word == "--seed" {
        Some(HuntOption::Seed)
    } else if word == "--stack" {
        Some(HuntOption::Stack)
    } else if word == "--keys" {
        Some(HuntOption::Keys)
    } else if word == "--events" {
        Some(HuntOption::Events)
    } else if word == "--sym" {
        Some(HuntOption::Symbols)
    } else {
        None
    }
}

/// What an option was given before.
fn given<'a>(options: HuntOptions<'a>, option: HuntOption) -> Option<&'a str>
    ensures { option_map (λ s. s.now) result ≡ HuntWords.given option (HuntWords.hunt_texts_of options.entry) }
{
    match option {
        HuntOption::Frames => options.frames,
        HuntOption::Seconds => options.seconds,
        HuntOption::Seed => options.seed,
        HuntOption::Stack => options.stack,
        HuntOption::Keys => options.keys,
        HuntOption::Events => options.events,
        HuntOption::Symbols => options.symbols,
    }
}

/// The options where one is this.
fn with_value<'a>(options: HuntOptions<'a>, option: HuntOption, value: &'a str) -> HuntOptions<'a>
    ensures { HuntWords.hunt_texts_of result ≡ HuntWords.with_value option value.now (HuntWords.hunt_texts_of options.entry) }
{
    let value = Some(value);
    match option {
        HuntOption::Frames => HuntOptions {
            frames: value,
            ..options
        },
        HuntOption::Seconds => HuntOptions {
            seconds: value,
            ..options
        },
        HuntOption::Seed => HuntOptions {
            seed: value,
            ..options
        },
        HuntOption::Stack => HuntOptions {
            stack: value,
            ..options
        },
        HuntOption::Keys => HuntOptions {
            keys: value,
            ..options
        },
        HuntOption::Events => HuntOptions {
            events: value,
            ..options
        },
        HuntOption::Symbols => HuntOptions {
            symbols: value,
            ..options
        },
    }
}

/// The options with one more, which may come once.
fn with_hunt_option<'a>(
    options: HuntOptions<'a>,
    option: HuntOption,
    value: &'a str,
) -> Option<HuntOptions<'a>>
    ensures { option_map HuntWords.hunt_texts_of result ≡ HuntWords.with_hunt_option option value.now (HuntWords.hunt_texts_of options.entry) }
{
    match given(options, option) {
        Some(_) => None,
        None => Some(with_value(options, option, value)),
    }
}

/// Whether a word asks for any timing.
fn is_any_timing(word: &str) -> bool
    ensures { result ≡ HuntWords.is_any_timing word.now }
{
    word == "--any-timing"
}

/// The options at any timing, which may be asked for once.
fn with_any_timing<'a>(options: HuntOptions<'a>) -> Option<HuntOptions<'a>>
    ensures { option_map HuntWords.hunt_texts_of result ≡ HuntWords.with_any_timing (Some (HuntWords.hunt_texts_of options.entry)) }
{
    if options.any_timing {
        return None;
    }
    Some(HuntOptions {
        any_timing: true,
        ..options
    })
}

/// The options that some words are: names, each with its value, and `--any-timing`.
#[tactic(auto, unfolding(crate::specs::HuntWords::hunt_options_in))]
fn hunt_options_of<'a>(words: &'a [&'a str]) -> Option<HuntOptions<'a>>
    ensures { option_map HuntWords.hunt_texts_of result ≡ HuntWords.hunt_options_in (map (λ word. word.now) words.now) }
{
    let Some((name, others)) = words.split_first() else {
        return Some(HuntOptions::none());
    };
    if is_any_timing(name) {
        let options = hunt_options_of(others)?;
        return with_any_timing(options);
    }
    let Some((value, rest)) = others.split_first() else {
        return None;
    };
    let option = hunt_option_named(name)?;
    let options = hunt_options_of(rest)?;
    with_hunt_option(options, option, value)
}

/// The task that the words `hunt ROM` and options ask for.
pub(crate) fn hunt_asked<'a>(words: &'a [&'a str]) -> Option<Task<'a>>
    ensures some { IfSome result (Words.StandFor (map (λ word. word.now) words.now)) }
    ensures all { (rom : List ℕ) (options : List (List ℕ)) → map (λ word. word.now) words.now ≡ codes "hunt" ∷ rom ∷ options
        → Words.is_file rom ≡ true → is_some (HuntWords.hunt_options_in options) ≡ true → is_some result ≡ true }
{
    let [name, rom, options @ ..] = words else {
        return None;
    };
    if *name != "hunt" || !is_file(rom) {
        return None;
    }
    let options = hunt_options_of(options)?;
    Some(Task::Hunt { rom, options })
}

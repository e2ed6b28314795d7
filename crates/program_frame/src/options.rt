//! The options of `check`, after its DATE.

ghost use Rattle.std.specs.Prelude.{◌≡◌, ◌≤◌, ◌∷◌, codes, ℕ, List, length, map, option_map, string_bytes, Some, IfSome, MatchOption};
ghost use Rattle.program_frame.specs.ListOption.{list_files};
ghost use Rattle.program_frame.specs.Owned.{last_held, option_held, options_held};
ghost use Rattle.program_frame.specs.Options.{AreOptions, BeginsWithOption, CheckOption as OptionOfCheck, CheckOptions as OptionsOfCheck, IsAbsent, with_option};

use crate::dates::date_of;
use crate::seconds::seconds_of;
use names_core::UtcDate;

/// The option `--list FILE SECONDS`.
#[derive(Clone, Copy, Debug)]
pub struct ListOption<'a> {
    /// The file with the trust list.
    pub file: &'a String,
    /// When the signer's CA must be on it, in seconds since 1601-01-01, UTC.
    pub seconds: i64,
}

/// An option of `check`.
#[derive(Clone, Copy, Debug)]
pub enum CheckOption<'a> {
    /// `--until DATE`: the other end of the interval.
    Until(UtcDate),
    /// `--no-before`: a certificate needn't have begun to be valid.
    NoBefore,
    /// `--no-after`: a certificate may have expired.
    NoAfter,
    /// `--no-chain`: the signer's certificate needn't be linked to those of its issuers.
    NoChain,
    /// `--list FILE SECONDS`: the signer's CA must be on a trust list.
    TrustList(ListOption<'a>),
}

/// The options given after DATE.
#[derive(Clone, Copy, Debug)]
pub struct CheckOptions<'a> {
    pub until: Option<UtcDate>,
    pub no_before: bool,
    pub no_after: bool,
    pub no_chain: bool,
    pub list: Option<ListOption<'a>>,
}

impl<'a> CheckOptions<'a> {
    /// The name of the file with the trust list, if there is one.
    pub fn list_file(&self) -> Option<&'a str>
        ensures { last_held result ≡ list_files (options_held self.now).list }
    {
        match self.list {
            Some(list) => Some(list.file.as_str()),
            None => None,
        }
    }

    /// The options with one more, None if it is given already.
    fn with(&self, option: &CheckOption<'a>) -> Option<CheckOptions<'a>>
        ensures { MatchOption result
            (IsAbsent (option_held option.now) (options_held self.now) → ⊥)
            (λ more. IsAbsent (option_held option.now) (options_held self.now)
            × (options_held more ≡ with_option (option_held option.now) (options_held self.now))) }
    {
        match option {
            CheckOption::Until(date) if self.until.is_none() => Some(CheckOptions {
                until: Some(*date),
                ..*self
            }),
            CheckOption::NoBefore if !self.no_before => Some(CheckOptions {
                no_before: true,
                ..*self
            }),
            CheckOption::NoAfter if !self.no_after => Some(CheckOptions {
                no_after: true,
                ..*self
            }),
            CheckOption::NoChain if !self.no_chain => Some(CheckOptions {
                no_chain: true,
                ..*self
            }),
            CheckOption::TrustList(list) if self.list.is_none() => Some(CheckOptions {
                list: Some(*list),
                ..*self
            }),
            _ => None,
        }
    }
}

/// Parses the words as options. None exactly if they aren't options, each at most once.
pub fn options_of(words: &[String]) -> Option<CheckOptions<'_>>
    ensures answer { MatchOption result
        ((options : OptionsOfCheck) → AreOptions (map string_bytes words.now) options → ⊥)
        (λ options. AreOptions (map string_bytes words.now) (options_held options)) }
    ensures only { (options : OptionsOfCheck) → AreOptions (map string_bytes words.now) options
        → option_map options_held result ≡ Some options }
{
    let mut options = CheckOptions {
        until: None,
        no_before: false,
        no_after: false,
        no_chain: false,
        list: None,
    };
    let mut rest = words;
    while let [word, others @ ..] = rest {
        let Some(FirstOption { option, behind }) = first_option(word.as_str(), others) else {
            return None;
        };
        let Some(more) = options.with(&option) else {
            return None;
        };
        options = more;
        rest = behind;
    }
    Some(options)
}

/// An option, and the words after it.
#[derive(Clone, Copy, Debug)]
struct FirstOption<'a> {
    option: CheckOption<'a>,
    behind: &'a [String],
}

/// The option at the start of the words: a word, and those after it.
fn first_option<'a>(word: &str, others: &'a [String]) -> Option<FirstOption<'a>>
    ensures first { IfSome result (λ first. BeginsWithOption (option_held first.option)
        (word.now ∷ map string_bytes others.now) (map string_bytes first.behind.now)) }
    ensures only { (option : OptionOfCheck) (rest : List (List ℕ))
        → BeginsWithOption option (word.now ∷ map string_bytes others.now) rest
        → MatchOption result ⊥ (λ first. (option_held first.option ≡ option)
        × (map string_bytes first.behind.now ≡ rest)) }
    ensures fewer { IfSome result (λ first. length first.behind.now ≤ length others.now) }
{
    let option = match word {
        "--until" => return until_of(others),
        "--no-before" => CheckOption::NoBefore,
        "--no-after" => CheckOption::NoAfter,
        "--no-chain" => CheckOption::NoChain,
        "--list" => return list_of(others),
        _ => return None,
    };
    Some(FirstOption {
        option,
        behind: others,
    })
}

/// The option `--until`, whose DATE is the first of the words.
fn until_of(words: &[String]) -> Option<FirstOption<'_>>
    ensures first { IfSome result (λ first. BeginsWithOption (option_held first.option)
        (codes "--until" ∷ map string_bytes words.now) (map string_bytes first.behind.now)) }
    ensures only { (option : OptionOfCheck) (rest : List (List ℕ))
        → BeginsWithOption option (codes "--until" ∷ map string_bytes words.now) rest
        → MatchOption result ⊥ (λ first. (option_held first.option ≡ option)
        × (map string_bytes first.behind.now ≡ rest)) }
    ensures fewer { IfSome result (λ first. length first.behind.now ≤ length words.now) }
{
    let [date, behind @ ..] = words else {
        return None;
    };
    let date = date_of(date.as_str())?;
    Some(FirstOption {
        option: CheckOption::Until(date),
        behind,
    })
}

/// The option `--list`, whose FILE and SECONDS are the first of the words.
fn list_of(words: &[String]) -> Option<FirstOption<'_>>
    ensures first { IfSome result (λ first. BeginsWithOption (option_held first.option)
        (codes "--list" ∷ map string_bytes words.now) (map string_bytes first.behind.now)) }
    ensures only { (option : OptionOfCheck) (rest : List (List ℕ))
        → BeginsWithOption option (codes "--list" ∷ map string_bytes words.now) rest
        → MatchOption result ⊥ (λ first. (option_held first.option ≡ option)
        × (map string_bytes first.behind.now ≡ rest)) }
    ensures fewer { IfSome result (λ first. length first.behind.now ≤ length words.now) }
{
    let [file, seconds, behind @ ..] = words else {
        return None;
    };
    let seconds = seconds_of(seconds.as_str())?;
    Some(FirstOption {
        option: CheckOption::TrustList(ListOption { file, seconds }),
        behind,
    })
}

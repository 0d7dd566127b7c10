//! The words of the program (docs/FORMATS.md, "Words").

ghost use Rattle.std.specs.Prelude.{◌≡◌, ◌≤◌, ◌↔◌, ℕ, Bool, IfSome, IsSomeAnd, Some, IsNone, IsTrue, List, [], length, map, string_bytes, option_map};
ghost use Rattle.std.specs.Fmt.{decimal};
ghost use Rattle.dp_base.specs.declared.ticks.TheConstants.{MAX_TICKS};
ghost use Rattle.dp_server.specs.Words.{IsPlain, IsShow, IsPipe, IsValue, PipeOption, Settings, AreOptions, with_option};
ghost use Rattle.dp_server.specs.Commands.{Form, form_of, IsForm, IsLawful, option_of, settings_of, IsNext, IsFree};

use dp_base::MAX_TICKS;
use dp_session::MAX_APP;

/// What the words ask for.
#[derive(Clone, Copy, Debug, PartialEq, Eq)]
pub enum Command<'a> {
    /// The listing at a moment in ticks, at most `MAX_TICKS`.
    Show { moment: u64 },
    /// A session of requests over a repository that starts empty.
    Pipe { options: PipeOptions<'a> },
}

/// What the options of `pipe` set.
#[derive(Clone, Copy, Debug, PartialEq, Eq)]
pub struct PipeOptions<'a> {
    /// Whether keys are made automatically.
    pub auto: bool,
    /// The name of the application, of at most `MAX_APP` bytes; empty where none is given.
    pub app: &'a str,
}

// An option of `pipe`.
#[derive(Clone, Copy)]
enum OptionView<'a> {
    NoAuto,
    App { name: &'a str },
}

// Whether the text has no sign, and no zero in front of more digits.
fn is_plain(text: &[u8]) -> bool
    ensures { IsTrue result ↔ IsPlain text.now }
{
    match text {
        [b'+', ..] | [b'0', _, ..] => false,
        _ => true,
    }
}

// The moment whose decimal text this is.
fn moment_of(text: &str) -> Option<u64>
    ensures value { IfSome result (λ n. (text.now ≡ decimal n) × (n ≤ MAX_TICKS)) }
    ensures only { (n : ℕ) → n ≤ MAX_TICKS → text.now ≡ decimal n → result ≡ Some n }
{
    if !is_plain(text.as_bytes()) {
        return None;
    }
    match text.parse::<u64>() {
        Ok(moment) if moment <= MAX_TICKS => Some(moment),
        _ => None,
    }
}

// Whether the text may be the value of an option.
fn is_value(text: &[u8]) -> bool
    ensures { IsTrue result ↔ IsValue text.now }
{
    match text {
        [] | [b'-', ..] => false,
        _ => true,
    }
}

// Whether the text may be the name of an application.
fn is_name(text: &str) -> bool
    ensures { IsTrue result ↔ (IsValue text.now × (length text.now ≤ MAX_APP)) }
{
    is_value(text.as_bytes()) && text.len() <= MAX_APP
}

// The option that the words begin with, and the words behind it.
fn option_at<'a>(words: &'a [String]) -> Option<(OptionView<'a>, &'a [String])>
    ensures value { IfSome result (λ x. IsNext (map string_bytes words.now) (option_of x.0)
        (map string_bytes x.1.now)) }
    ensures only { (option : PipeOption) (rest : List (List ℕ))
        → IsNext (map string_bytes words.now) option rest
        → IsSomeAnd result (λ x. (option_of x.0 ≡ option) × (map string_bytes x.1.now ≡ rest)) }
{
    match words {
        [flag, rest @ ..] if flag.as_str() == "--no-auto" => Some((OptionView::NoAuto, rest)),
        [flag, name, rest @ ..] if flag.as_str() == "--app" && is_name(name.as_str()) => {
            let name = name.as_str();
            Some((OptionView::App { name }, rest))
        }
        _ => None,
    }
}

impl<'a> PipeOptions<'a> {
    // With the option set; none where one of its kind is set already.
    fn with(self, option: OptionView<'a>) -> Option<PipeOptions<'a>>
        ensures value { IfSome result (λ o. IsFree (settings_of self.entry) (option_of option.entry)
            × (settings_of o ≡ with_option (option_of option.entry) (settings_of self.entry))) }
        ensures none { IsNone result ↔ ¬ IsFree (settings_of self.entry) (option_of option.entry) }
    {
        match option {
            OptionView::NoAuto if self.auto => Some(PipeOptions {
                auto: false,
                ..self
            }),
            OptionView::App { name } if self.app.is_empty() => {
                Some(PipeOptions { app: name, ..self })
            }
            _ => None,
        }
    }
}

// What the options set whose words these are.
fn options_of<'a>(words: &'a [String]) -> Option<PipeOptions<'a>>
    ensures value { IfSome result (λ o. AreOptions (map string_bytes words.now) (settings_of o)) }
    ensures only { (s : Settings) → AreOptions (map string_bytes words.now) s
        → option_map settings_of result ≡ Some s }
{
    let mut told = PipeOptions {
        auto: true,
        app: "",
    };
    let mut rest = words;
    while !rest.is_empty() {
        let (option, behind) = option_at(rest)?;
        told = told.with(option)?;
        rest = behind;
    }
    Some(told)
}

// The show that the words ask for.
fn show_of(words: &[String]) -> Option<u64>
    ensures value { IfSome result (IsShow (map string_bytes words.now)) }
    ensures only { (moment : ℕ) → IsShow (map string_bytes words.now) moment
        → result ≡ Some moment }
{
    match words {
        [command, moment] if command.as_str() == "show" => moment_of(moment.as_str()),
        _ => None,
    }
}

// The options of the pipe that the words ask for.
fn pipe_of<'a>(words: &'a [String]) -> Option<PipeOptions<'a>>
    ensures value { IfSome result (λ o. IsPipe (map string_bytes words.now) o.auto o.app.now) }
    ensures only { (auto : Bool) (app : List ℕ) → IsPipe (map string_bytes words.now) auto app
        → option_map settings_of result ≡ Some (record { auto = auto; app = app }) }
{
    match words {
        [command, options @ ..] if command.as_str() == "pipe" => options_of(options),
        _ => None,
    }
}

/// The command of the words: `show` and a moment, in decimal digits with no sign and no zero in
/// front; or `pipe` and its options in any order, each at most once: `--no-auto`, and `--app` with
/// a name behind it, which isn't empty, doesn't begin with `-` and has at most `MAX_APP` bytes.
pub fn command_of<'a>(words: &'a [String]) -> Option<Command<'a>>
    ensures value { IfSome result
        (λ command. IsForm (map string_bytes words.now) (form_of command)) }
    ensures only { (form : Form) → IsForm (map string_bytes words.now) form
        → option_map form_of result ≡ Some form }
    ensures none { IsNone result ↔ ¬ IsLawful (map string_bytes words.now) }
{
    if let Some(moment) = show_of(words) {
        return Some(Command::Show { moment });
    }
    let options = pipe_of(words)?;
    Some(Command::Pipe { options })
}

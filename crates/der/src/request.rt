//! What the arguments ask for.
ghost use Rattle.std.specs.Prelude.{◌≡◌, ◌≢◌, ◌<◌, ◌↔◌, IfOk, IfSome, IfNone, MatchOption, count_by, is_some, map};
ghost use Rattle.std.specs.Prelude.{codes, true};
ghost use Rattle.clap.specs.Words.{found_of, first_value};
ghost use Rattle.der.specs.Request.{HasForm, HasFormat, AreShowOptions, IsNoOffset, IsSignersRequest, IsWanted};
ghost use Rattle.der.specs.Request.{IsAction, IsNoAction, IsFaulty, IsInBer, is_dash, standard_inputs};
ghost use Rattle.der.specs.Request.{has_no_type, type_in_ber};

use clap::ArgMatches;
use der_program_base::{Form, Format, read_input, shown};
use der_read::{MessageType, type_of_word};
use der_show::ShowOptions;
use der_signers::LineEnds;
use std::io;

/// What is to be done with each message.
#[derive(Drop)]
pub struct Request {
    pub action: Action,
    /// The type of the messages, if they are in BER.
    pub ber: Option<MessageType>,
    /// What the files are, if that is given.
    pub form: Option<Form>,
    pub format: Format,
}

/// What is to be done with a message.
#[derive(Drop)]
pub enum Action {
    Show(ShowOptions),
    Read(Option<MessageType>),
    Cms(der_signers::Request),
    Certificate,
}

/// Returns what the arguments of the command with this name and these words ask for, or `None` after saying on standard
/// error what is wrong with them.
///
/// Returns the error of the system if that can't be written, and `OutOfMemory` if an allocation failed.
pub fn request_of(
    rt: &HostRuntime,
    name: &str,
    matches: &ArgMatches<'_>,
    words: &[&str],
) -> io::Result<Option<Request>>
    ensures action { IfOk result (λ r. IfSome r (λ request.
        IsAction name.now (found_of matches.now) (map (λ word. word.now) words.now) request.action)) }
    ensures ber { IfOk result (λ r. IfSome r (λ request. IsInBer (found_of matches.now) request.action request.ber)) }
    ensures form { IfOk result (λ r. IfSome r (λ request. HasForm (found_of matches.now) request.form)) }
    ensures format { IfOk result (λ r. IfSome r (λ request. HasFormat (found_of matches.now) request.format)) }
    ensures inputs { IfOk result (λ r. IfSome r (λ request.
        standard_inputs name.now (found_of matches.now) (map (λ word. word.now) words.now) < 2)) }
    ensures none { IfOk result (λ r. IfNone r
        (standard_inputs name.now (found_of matches.now) (map (λ word. word.now) words.now) < 2
        → IsFaulty name.now (found_of matches.now) (map (λ word. word.now) words.now))) }
{
    if standard_inputs(name, matches, words) > 1 {
        eprintln!(rt; "der: standard input is named more than once")?;
        return Ok(None);
    }
    let Some(action) = action_of(rt, name, matches, words)? else {
        return Ok(None);
    };
    let is_ber = matches.get_flag("ber");
    if is_ber && has_no_type(&action) {
        eprintln!(rt; "der: read --ber wants the word of a type, and files")?;
        return Ok(None);
    }
    let ber = type_in_ber(is_ber, &action);
    Ok(Some(Request {
        action,
        ber,
        form: form_of(matches),
        format: format_of(matches),
    }))
}

// What the command is to do, or `None` after saying what is wrong.
fn action_of(
    rt: &HostRuntime,
    name: &str,
    matches: &ArgMatches<'_>,
    words: &[&str],
) -> io::Result<Option<Action>>
    ensures action { IfOk result (λ r. IfSome r
        (IsAction name.now (found_of matches.now) (map (λ word. word.now) words.now))) }
    ensures none { IfOk result (λ r. IfNone r (IsNoAction name.now (found_of matches.now))) }
{
    match name {
        "show" => Ok(show_options(rt, matches)?.map(Action::Show)),
        "cms" => Ok(signers_request(rt, matches)?.map(Action::Cms)),
        "certificate" => Ok(Some(Action::Certificate)),
        _ => Ok(Some(Action::Read(wanted_type(words)))),
    }
}

// Whether messages are read, and no type is asked for.
fn has_no_type(action: &Action) -> bool
    ensures { result ≡ has_no_type action.now }
{
    match action {
        Action::Read(wanted) => wanted.is_none(),
        _ => false,
    }
}

// The type of the messages, if they are in BER.
fn type_in_ber(is_ber: bool, action: &Action) -> Option<MessageType>
    ensures { result ≡ type_in_ber is_ber action.now }
{
    match action {
        Action::Read(wanted) if is_ber => *wanted,
        Action::Cms(_) if is_ber => Some(MessageType::Cms),
        _ => None,
    }
}

// How many of the inputs are standard input. Two is as good as more.
fn standard_inputs(name: &str, matches: &ArgMatches<'_>, words: &[&str]) -> usize
    ensures { (result < 2) ↔ (standard_inputs name.now (found_of matches.now) (map (λ word. word.now) words.now) < 2) }
{
    let files = dashes(words);
    match matches.get_str("content") {
        Some(content) if name == "cms" && content == "-" => files.saturating_add(1),
        _ => files,
    }
}

// How many of the words are a dash.
fn dashes(words: &[&str]) -> usize
    ensures { result ≡ count_by is_dash (map (λ word. word.now) words.now) }
{
    words.iter().filter(|word| **word == "-").count()
}

/// Returns the type of messages that the first of several words names. A word alone is a file.
pub fn wanted_type(words: &[&str]) -> Option<MessageType>
    ensures { IsWanted (map (λ word. word.now) words.now) result }
{
    match words {
        [word, _, ..] => type_of_word(*word),
        _ => None,
    }
}

// What the files are, if a flag says it.
fn form_of(matches: &ArgMatches<'_>) -> Option<Form>
    ensures { HasForm (found_of matches.now) result }
{
    match (matches.get_flag("der"), matches.get_flag("pem")) {
        (true, _) => Some(Form::Der),
        (false, true) => Some(Form::Pem),
        (false, false) => None,
    }
}

// The format of the output.
fn format_of(matches: &ArgMatches<'_>) -> Format
    ensures { HasFormat (found_of matches.now) result }
{
    if matches.get_flag("json") {
        Format::Json
    } else {
        Format::Text
    }
}

// The options of `show`, or `None` after saying that the offset isn't one.
fn show_options(rt: &HostRuntime, matches: &ArgMatches<'_>) -> io::Result<Option<ShowOptions>>
    ensures { IfOk result (λ r. MatchOption r (IsNoOffset (first_value (found_of matches.now) (codes "at")))
        (AreShowOptions (found_of matches.now))) }
{
    let start = match matches.get_str("at") {
        None => 0,
        Some(text) => match text.parse::<usize>() {
            Ok(offset) => offset,
            Err(_) => {
                eprintln!(rt; "der: --at wants an offset in decimal digits")?;
                return Ok(None);
            }
        },
    };
    Ok(Some(ShowOptions {
        start,
        is_flat: matches.get_flag("flat"),
        is_short: matches.get_flag("short"),
        keeps_going: matches.get_flag("keep-going"),
    }))
}

// What `cms` is asked, or `None` after saying that the content can't be read.
fn signers_request(
    rt: &HostRuntime,
    matches: &ArgMatches<'_>,
) -> io::Result<Option<der_signers::Request>>
    ensures { IfOk result (λ r. MatchOption r (is_some (first_value (found_of matches.now) (codes "content")) ≡ true)
        (IsSignersRequest (found_of matches.now))) }
{
    let content = match matches.get_str("content") {
        None => None,
        Some(name) => match read_input(rt, name) {
            Ok(content) => Some(content),
            Err(error) => {
                let name = shown(rt.alloc(), name)?;
                eprintln!(rt; "der: {name}: {error}")?;
                return Ok(None);
            }
        },
    };
    let line_ends = if matches.get_flag("text") {
        LineEnds::CrLf
    } else {
        LineEnds::AsTheyAre
    };
    Ok(Some(der_signers::Request { content, line_ends }))
}

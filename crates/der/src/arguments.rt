//! The arguments of the program. Its texts and the words that it is given have one lifetime.

use clap::{Arg, ArgAction, Command};
use std::alloc::{AllocError, Global};

// What the help of each command ends with.
const STATUSES: &str =
    "Exit status: 0 if all was read and, where something was compared, at least one thing was and all \
                        agreed. 1 if something was refused or differs. 2 if the arguments are wrong, a file can't be \
                        read, the output can't be written, or there is too little memory. 3 if nothing was refused and \
                        nothing could be compared. Of several messages it is the status of the worst.";

/// The names of the commands.
pub const COMMANDS: [&str; 5] = ["show", "read", "cms", "certificate", "write"];

// The program and its commands.
pub fn command<'a>(alloc: Global) -> Result<Command<'a>, AllocError> {
    Command::new(alloc, "der")
        .version("0.1.0")
        .about("Shows DER, and reads messages in it")
        .after_help(STATUSES)
        .subcommand_required(true)
        .subcommand(show_command(alloc)?)?
        .subcommand(read_command(alloc)?)?
        .subcommand(cms_command(alloc)?)?
        .subcommand(certificate_command(alloc)?)?
        .subcommand(write_command(alloc)?)
}

fn show_command<'a>(alloc: Global) -> Result<Command<'a>, AllocError> {
    let command = Command::new(alloc, "show")
        .about("Lists the elements of DER, with the rule and its clause where something isn't DER")
        .arg(flag(alloc, "short", "Print at most 48 bytes of a value"))?
        .arg(flag(
            alloc,
            "flat",
            "Don't list the DER in an OCTET STRING or a BIT STRING",
        ))?
        .arg(flag(alloc, "keep-going", "Go on after an element that isn't DER"))?
        .arg(
            Arg::new(alloc, "at")
                .long("at")
                .value_name("OFFSET")
                .action(ArgAction::Set)
                .help("Begin with the element at this offset"),
        )?;
    with_inputs(alloc, command)
}

fn read_command<'a>(alloc: Global) -> Result<Command<'a>, AllocError> {
    let command = Command::new(alloc, "read").about(
        "Reads messages of a type: der read [TYPE] FILE... Without a TYPE it is that of the label of PEM, or each type is \
         tried",
    );
    let ber = flag(
        alloc,
        "ber",
        "Take each message as BER of the TYPE, and read its DER: der read --ber TYPE FILE...",
    );
    with_inputs(alloc, command.arg(ber)?)
}

fn cms_command<'a>(alloc: Global) -> Result<Command<'a>, AllocError> {
    let content = Arg::new(alloc, "content")
        .long("content")
        .value_name("FILE")
        .action(ArgAction::Set)
        .help("The content of messages that have none. That of others is compared with it");
    let text = flag(
        alloc,
        "text",
        "Compute digests as if each line of the content ended with CR LF",
    );
    let command = Command::new(alloc, "cms")
        .about("Reports on the signers of signed data of CMS (RFC 5652). No signature is verified")
        .arg(content)?
        .arg(text)?
        .arg(flag(
            alloc,
            "ber",
            "Take each message as BER, and report on its DER",
        ))?;
    with_inputs(alloc, command)
}

fn certificate_command<'a>(alloc: Global) -> Result<Command<'a>, AllocError> {
    let command = Command::new(alloc, "certificate").about(
        "Prints a line on each certificate (RFC 5280). No signature is verified",
    );
    with_inputs(alloc, command)
}

fn write_command<'a>(alloc: Global) -> Result<Command<'a>, AllocError> {
    let words = Arg::new(alloc, "FILE")
        .action(ArgAction::Append)
        .num_args(1..)
        .required(true)
        .help("The word of a type, and a file. Without a file, or for -, it is standard input");
    let ber = flag(
        alloc,
        "ber",
        "Take the file as BER of the message, in place of JSON",
    );
    Command::new(alloc, "write")
        .about(
            "Writes the DER of a message, from its JSON or its BER: der write [--ber] TYPE [FILE]. The JSON is the value \
             that der read --json prints",
        )
        .after_help(STATUSES)
        .arg(ber)?
        .arg(words)
}

// The command with what the other commands have: the form of the inputs and of the output, and the files.
fn with_inputs<'a>(alloc: Global, command: Command<'a>) -> Result<Command<'a>, AllocError> {
    let pem = flag(
        alloc,
        "pem",
        "Take each FILE as text with blocks of PEM, whatever it looks like",
    )
    .conflicts_with("der")?;
    let files = Arg::new(alloc, "FILE")
        .action(ArgAction::Append)
        .num_args(1..)
        .required(true)
        .help("A file of DER, or of text with blocks of PEM, or - for standard input");
    command
        .after_help(STATUSES)
        .arg(flag(alloc, "json", "Print objects of JSON, one a line"))?
        .arg(flag(
            alloc,
            "der",
            "Take each FILE as DER, whatever it looks like",
        ))?
        .arg(pem)?
        .arg(files)
}

// An option without a value.
fn flag<'a>(alloc: Global, name: &'a str, help: &'a str) -> Arg<'a> {
    Arg::new(alloc, name)
        .long(name)
        .action(ArgAction::SetTrue)
        .help(help)
}

//! What may stand after the name of a subcommand, as data, and how it is offered to `clap`.
ghost use Rattle.std.specs.Prelude.{◌≡◌, false, IfOk, map};
ghost use Rattle.clap.specs.Words.{app_of, rule_of};
ghost use Rattle.clap.specs.declared.builder.command.Command.TheViews.{out-Command as fields_of};
ghost use Rattle.command_line.specs.Parameters.{offered_app, offered_rule, parser_of};
ghost use Rattle.command_line.specs.Commands.{memory_of};
ghost use Rattle.command_line.specs.Internal.Computed.{parameter_of, values_of};

use crate::help::Help;
use crate::options::OptionNames;
use clap::builder::ValueParser;
use clap::{Arg, ArgAction, Command};
use std::alloc::{AllocError, Global};

/// A list of names, of which an option takes one.
#[derive(Clone, Copy)]
pub(crate) enum NameList {
    /// The names of the kinds of units.
    Units,
    /// Those of the memory models.
    Models,
    /// Those of the formats of a batch.
    Formats,
    /// Those of the formats of what is told of a run.
    RunFormats,
    /// Those of the names that the edges of a picture have.
    Edges,
}

/// What an option takes.
#[derive(Clone, Copy)]
pub(crate) enum Accepted {
    /// A number from the first to the second, in digits.
    Number(u64, u64),
    /// One of the names of a list.
    Name(NameList),
    /// Any text, as the name of a file.
    Text,
}

/// What may stand after the name of a subcommand. A text of help stands beside each.
#[derive(Clone, Copy)]
pub(crate) enum Parameter {
    /// `--name VALUE`, and the value where it is left out; with none, it may not be left out.
    Option {
        name: &'static str,
        value_name: &'static str,
        accepted: Accepted,
        default: Option<&'static str>,
        help: &'static str,
    },
    /// `--name VALUE`, which may be left out, and has no value then.
    Optional {
        name: &'static str,
        value_name: &'static str,
        accepted: Accepted,
        help: &'static str,
    },
    /// `--name`.
    Flag {
        name: &'static str,
        help: &'static str,
    },
    /// An argument by itself, and whether it may not be left out.
    Other {
        name: &'static str,
        value_name: &'static str,
        required: bool,
        help: &'static str,
    },
    /// Arguments by themselves, as many as there are.
    Several {
        name: &'static str,
        value_name: &'static str,
        help: &'static str,
    },
}

/// How a subcommand is written.
#[derive(Clone, Copy)]
pub(crate) struct Description {
    /// Its name, and the option that asks for its help.
    pub(crate) help_option: [&'static str; 2],
    /// What may stand after its name.
    pub(crate) parameters: &'static [Parameter],
}

/// The subcommand of this name, this description and this help.
pub(crate) fn subcommand_of<'a>(
    alloc: Global,
    names: OptionNames<'a>,
    name: &'static str,
    description: &'static Description,
    help: &'static Help,
) -> Result<Command<'a>, AllocError>
    ensures app { IfOk result (λ command. app_of command ≡ offered_app (memory_of names.entry) name.now (map parameter_of description.now.parameters.now)) }
    ensures local { IfOk result (λ command. (fields_of command).has_globals ≡ false) }
{
    let mut command = Command::new(alloc, name)
        .about(help.about)
        .after_help(help.text);
    for parameter in description.parameters {
        command = command.arg(argument(alloc, names, *parameter))?;
    }
    Ok(command)
}

/// A parameter as it is offered.
fn argument<'a>(alloc: Global, names: OptionNames<'a>, parameter: Parameter) -> Arg<'a>
    ensures rule { rule_of result ≡ offered_rule (memory_of names.entry) (parameter_of parameter) }
    ensures local { result.global ≡ false }
{
    match parameter {
        Parameter::Option {
            name,
            value_name,
            accepted,
            default,
            help,
        } => {
            let argument = Arg::new(alloc, name)
                .long(name)
                .value_name(value_name)
                .required(default.is_none())
                .value_parser(parser(names, accepted))
                .help(help);
            match default {
                Some(text) => argument.default_value(text),
                None => argument,
            }
        }
        Parameter::Optional {
            name,
            value_name,
            accepted,
            help,
        } => Arg::new(alloc, name)
            .long(name)
            .value_name(value_name)
            .value_parser(parser(names, accepted))
            .help(help),
        Parameter::Flag { name, help } => Arg::new(alloc, name)
            .long(name)
            .action(ArgAction::SetTrue)
            .help(help),
        Parameter::Other {
            name,
            value_name,
            required,
            help,
        } => Arg::new(alloc, name)
            .value_name(value_name)
            .required(required)
            .help(help),
        Parameter::Several {
            name,
            value_name,
            help,
        } => Arg::new(alloc, name)
            .value_name(value_name)
            .action(ArgAction::Append)
            .help(help),
    }
}

/// How `clap` checks what an option takes.
fn parser<'a>(names: OptionNames<'a>, accepted: Accepted) -> ValueParser<'a>
    ensures { result ≡ parser_of (memory_of names.entry) (values_of accepted) }
{
    match accepted {
        Accepted::Number(least, most) => ValueParser::Unsigned(least, most),
        Accepted::Name(NameList::Units) => ValueParser::Names(names.units),
        Accepted::Name(NameList::Models) => ValueParser::Names(names.models),
        Accepted::Name(NameList::Formats) => ValueParser::Names(names.formats),
        Accepted::Name(NameList::RunFormats) => ValueParser::Names(names.run_formats),
        Accepted::Name(NameList::Edges) => ValueParser::Names(names.edges),
        Accepted::Text => ValueParser::String,
    }
}

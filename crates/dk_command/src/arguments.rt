//! The arguments of the subcommands.
ghost use Rattle.std.specs.Prelude.{◌≡◌, false};
ghost use Rattle.clap.specs.Words.{rule_of};
ghost use Rattle.dk_command.specs.Grammar.{dir_rule, flag_rule, number_rule, required_number_rule, text_rule};

use clap::builder::ValueParser;
use clap::{Arg, ArgAction};
use std::alloc::Global;

/// `DIR`, which is required.
pub(crate) fn dir<'a>(alloc: Global) -> Arg<'a>
    ensures rule { rule_of result ≡ dir_rule }
    ensures local { result.global ≡ false }
{
    Arg::new(alloc, "DIR").required(true).action(ArgAction::Set)
}

/// `--NAME` with any text.
pub(crate) fn text<'a>(alloc: Global, name: &'a str) -> Arg<'a>
    ensures rule { rule_of result ≡ text_rule name.entry.now }
    ensures local { result.global ≡ false }
{
    Arg::new(alloc, name).long(name).action(ArgAction::Set)
}

/// `--NAME` with a number in these bounds.
pub(crate) fn number<'a>(alloc: Global, name: &'a str, least: u64, most: u64) -> Arg<'a>
    ensures rule { rule_of result ≡ number_rule name.entry.now least most }
    ensures local { result.global ≡ false }
{
    text(alloc, name).value_parser(ValueParser::unsigned(least, most))
}

/// The same, which is required.
pub(crate) fn required_number<'a>(alloc: Global, name: &'a str, least: u64, most: u64) -> Arg<'a>
    ensures rule { rule_of result ≡ required_number_rule name.entry.now least most }
    ensures local { result.global ≡ false }
{
    number(alloc, name, least, most).required(true)
}

/// The flag `--NAME`.
pub(crate) fn flag<'a>(alloc: Global, name: &'a str) -> Arg<'a>
    ensures rule { rule_of result ≡ flag_rule name.entry.now }
    ensures local { result.global ≡ false }
{
    Arg::new(alloc, name)
        .long(name)
        .action(ArgAction::SetTrue)
        .value_parser(ValueParser::bool())
}

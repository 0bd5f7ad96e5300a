//! The command as `clap` is told it: two words that are required, and seven options with a whole number each.
ghost use Rattle.std.specs.Prelude.{◌≡◌, ◌≤◌, ◌≤ℤ◌, false, pos, IfOk};
ghost use Rattle.clap.specs.Simple.{app_of};
ghost use Rattle.clap.specs.Walk.{rule_of};
ghost use Rattle.fx_words.specs.Command.{bare, ofxr, word_rule, number_rule};

use crate::order::{MOST_AHEAD, MOST_CACHE, MOST_SCALE, MOST_WORKERS};
use clap::{Arg, Command, value_parser};
use fx_base::limits::{LAST_FRAME, MOST_TILE_SIDE};
use std::alloc::{AllocError, Global};

// A word that is required.
fn word<'a>(alloc: Global, name: &'a str) -> Arg<'a>
    ensures rule { rule_of result ≡ word_rule name.entry.now }
    ensures local { result.global ≡ false }
{
    Arg::new(alloc, name).required(true)
}

// An option whose value is a whole number from the least to the most.
fn number<'a>(alloc: Global, name: &'a str, least: u32, most: u32) -> Arg<'a>
    requires { least ≤ most }
    ensures rule { rule_of result ≡ number_rule name.entry.now (pos least) (pos most) }
    ensures local { result.global ≡ false }
{
    wide_number(alloc, name, i64::from(least), i64::from(most))
}

// The same, by the numbers that clap compares.
fn wide_number<'a>(alloc: Global, name: &'a str, least: i64, most: i64) -> Arg<'a>
    requires low { pos 0 ≤ℤ least }
    requires some { least ≤ℤ most }
    requires high { most ≤ℤ pos 4294967295 }
    ensures rule { rule_of result ≡ number_rule name.entry.now least most }
    ensures local { result.global ≡ false }
{
    Arg::new(alloc, name)
        .long(name)
        .value_parser(value_parser!(u32).range(least..=most))
}

// The command without its words and options, a help and a version flag.
fn bare<'a>(alloc: Global) -> Command<'a>
    ensures { app_of result ≡ bare }
{
    Command::new(alloc, "ofxr")
        .no_binary_name(true)
        .disable_help_flag(true)
        .disable_version_flag(true)
}

/// The command, without a help and without a version flag.
pub(crate) fn command<'a>(alloc: Global) -> Result<Command<'a>, AllocError>
    ensures { IfOk result (λ c. app_of c ≡ ofxr) }
{
    bare(alloc)
        .arg(word(alloc, "mode"))?
        .arg(word(alloc, "graph"))?
        .arg(number(alloc, "first", 0, LAST_FRAME))?
        .arg(number(alloc, "last", 0, LAST_FRAME))?
        .arg(number(alloc, "tile", 1, MOST_TILE_SIDE))?
        .arg(number(alloc, "cache", 0, MOST_CACHE))?
        .arg(number(alloc, "workers", 1, MOST_WORKERS))?
        .arg(number(alloc, "ahead", 0, MOST_AHEAD))?
        .arg(number(alloc, "scale", 1, MOST_SCALE))
}

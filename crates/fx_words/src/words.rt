//! Reads the words: first by `clap`, then the mode's word, the numbers, and what two options bound together.
ghost use Rattle.std.specs.Prelude.{◌≡◌, ◌*◌, ◌≤◌, ◌^◌, codes, map, IfOk, IfErr, IfSome, IsErrOf, OnErr, IsTrue, MatchBool};
ghost use Rattle.fx_base.specs.declared.limits.TheConstants.{MOST_TILE_SIDE};
ghost use Rattle.std.specs.Prelude.{None, Some, option_and_then, string_bytes};
ghost use Rattle.std.specs.Char.{is_ascii_digit};
ghost use Rattle.std.specs.List.{list_all};
ghost use Rattle.clap.specs.Matches.{found_of};
ghost use Rattle.clap.specs.Walk.{first_of, one_of, rows_of};
ghost use Rattle.fx_words.specs.Order.{mode_of, is_bench_number, is_graph_for, fits_memory, default_cache, option_of};
ghost use Rattle.fx_words.specs.Order.{number_or, within, order_in, order_of};
ghost use Rattle.fx_words.specs.Ordered.{is_scale};
ghost use Rattle.fx_words.specs.Seen.{is_memory, Reads};
ghost use Rattle.fx_words.specs.declared.order.TheConstants.{MOST_CACHE};
ghost use Rattle.fx_words.specs.declared.words.WordFault.TheVariants.{Memory as OutOfMemory};

use crate::command::command;
use crate::order::{MOST_AHEAD, MOST_CACHE, MOST_SCALE, MOST_WORKERS, Mode, Order};
use clap::error::ErrorKind;
use clap::{ArgMatches, Error};
use fx_base::Name;
use fx_base::limits::{LAST_FRAME, MOST_TILE_SIDE};
use std::alloc::{AllocError, Global};

/// Why there is no order.
#[derive(Clone, Copy, Debug, PartialEq, Eq)]
pub enum WordFault {
    /// The words are no use of the command: a word too many or too few, an unknown or repeated option, a number
    /// out of its range, an unknown mode, too large a cache, a scale that is none of the four, or for bench a graph
    /// that is no number.
    Usage,
    /// Memory was wanting.
    Memory,
}

impl From<AllocError> for WordFault {
    ghost from_gives = { λ _ e. e ≡ OutOfMemory };

    fn from(_: AllocError) -> WordFault {
        WordFault::Memory
    }
}

fn mode_of(word: &str) -> Option<Mode>
    ensures { result ≡ mode_of word.now }
{
    match word {
        "render" => Some(Mode::Render),
        "check" => Some(Mode::Check),
        "bench" => Some(Mode::Bench),
        "migrate" => Some(Mode::Migrate),
        "takes" => Some(Mode::Takes),
        "plan" => Some(Mode::Plan),
        _ => None,
    }
}

fn are_digits(word: &[u8]) -> bool
    ensures { result ≡ list_all is_ascii_digit word.now }
{
    word.iter().all(|b| b.is_ascii_digit())
}

fn is_bench_number(word: &str) -> bool
    ensures { result ≡ is_bench_number word.now }
{
    1 <= word.len() && word.len() <= 6 && are_digits(word.as_bytes())
}

fn is_graph_for(mode: Mode, word: &str) -> bool
    ensures { result ≡ is_graph_for mode word.now }
{
    match mode {
        Mode::Render | Mode::Check | Mode::Migrate | Mode::Takes | Mode::Plan => true,
        Mode::Bench => is_bench_number(word),
    }
}

fn fits_memory(cache: u32, tile: u32) -> bool
    requires tiles { cache ≤ MOST_CACHE }
    requires side { tile ≤ MOST_TILE_SIDE }
    ensures value { result ≡ fits_memory cache tile }
    ensures fits { IsTrue result → cache * tile * tile * 8 ≤ 2 ^ 31 }
{
    u64::from(cache) * u64::from(tile) * u64::from(tile) * 8 <= 1 << 31
}

fn is_scale(number: u32) -> bool
    ensures { result ≡ is_scale number }
{
    matches!(number, 1 | 2 | 4 | 8)
}

fn default_cache(tile: u32) -> u32
    requires some { 1 ≤ tile }
    requires few { tile ≤ MOST_TILE_SIDE }
    ensures { result ≡ default_cache tile }
{
    4096.min((1 << 28) / (tile * tile))
}

// What is wrong where clap takes the words for no use of the command.
fn fault(error: &Error) -> WordFault
    ensures { MatchBool (is_memory error.now) (result ≡ WordFault.Memory) (result ≡ WordFault.Usage) }
{
    match error.kind() {
        ErrorKind::OutOfMemory => WordFault::Memory,
        _ => WordFault::Usage,
    }
}

fn word_in<'m>(matches: &'m ArgMatches<'_>, id: &str) -> Result<&'m str, WordFault>
    ensures ok { IfOk result (λ word. first_of id.now (rows_of (found_of matches.now)) ≡ Some word.now) }
    ensures err { IsErrOf result WordFault.Usage → first_of id.now (rows_of (found_of matches.now)) ≡ None }
{
    match matches.get_str(id) {
        Some(word) => Ok(word),
        None => Err(WordFault::Usage),
    }
}

fn number_in(matches: &ArgMatches<'_>, id: &str, default: u32) -> Result<u32, WordFault>
    ensures ok { IfOk result (λ n. number_or (one_of id.now (rows_of (found_of matches.now))) default ≡ Some n) }
    ensures err { IfErr result (λ e. e ≡ WordFault.Usage) }
    ensures usage { OnErr result (number_or (one_of id.now (rows_of (found_of matches.now))) default ≡ None) }
{
    match matches.try_get_one::<u32>(id) {
        Ok(Some(number)) => Ok(number),
        Ok(None) => Ok(default),
        Err(_) => Err(WordFault::Usage),
    }
}

fn within(least: u32, most: u32, number: u32) -> Option<u32>
    ensures value { result ≡ within least most number }
    ensures range { IfSome result (λ n. (least ≤ n) × (n ≤ most)) }
{
    if least <= number && number <= most {
        Some(number)
    } else {
        None
    }
}

fn option_of(
    matches: &ArgMatches<'_>,
    id: &str,
    least: u32,
    most: u32,
    default: u32,
) -> Result<u32, WordFault>
    ensures value { Reads result (option_of id.now least most default (rows_of (found_of matches.now))) }
    ensures range { IfOk result (λ n. (least ≤ n) × (n ≤ most)) }
{
    let number = number_in(matches, id, default)?;
    match within(least, most, number) {
        Some(number) => Ok(number),
        None => Err(WordFault::Usage),
    }
}

fn mode_in(matches: &ArgMatches<'_>) -> Result<Mode, WordFault>
    ensures { Reads result (option_and_then mode_of (first_of (codes "mode") (rows_of (found_of matches.now)))) }
{
    let word = word_in(matches, "mode")?;
    match mode_of(word) {
        Some(mode) => Ok(mode),
        None => Err(WordFault::Usage),
    }
}

// The order of what clap found.
fn order_in(alloc: Global, matches: &ArgMatches<'_>) -> Result<Order, WordFault>
    ensures { Reads result (order_in (rows_of (found_of matches.now))) }
{
    let mode = mode_in(matches)?;
    let graph = word_in(matches, "graph")?;
    let first = option_of(matches, "first", 0, LAST_FRAME, 0)?;
    let last = option_of(matches, "last", 0, LAST_FRAME, LAST_FRAME)?;
    let tile = option_of(matches, "tile", 1, MOST_TILE_SIDE, 64)?;
    let cache = option_of(matches, "cache", 0, MOST_CACHE, default_cache(tile))?;
    let workers = option_of(matches, "workers", 1, MOST_WORKERS, 4)?;
    let ahead = option_of(matches, "ahead", 0, MOST_AHEAD, 0)?;
    let scale = option_of(matches, "scale", 1, MOST_SCALE, 1)?;
    if !is_graph_for(mode, graph) || !fits_memory(cache, tile) || !is_scale(scale) {
        return Err(WordFault::Usage);
    }
    Ok(Order {
        mode,
        graph: Name::of(graph.to_string(alloc)?),
        first,
        last,
        tile,
        cache,
        workers,
        ahead,
        scale,
    })
}

/// What the words order, without the program's name; else that they are no use of the command, or that memory
/// was wanting.
pub fn read_words(alloc: Global, words: &[String]) -> Result<Order, WordFault>
    ensures { Reads result (order_of (map string_bytes words.now)) }
{
    let command = command(alloc)?;
    match command.try_get_matches_from(words) {
        Ok(matches) => order_in(alloc, &matches),
        Err(error) => Err(fault(&error)),
    }
}

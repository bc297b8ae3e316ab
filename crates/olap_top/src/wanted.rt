//! What the words of a command line want to run: a script from the source, in one of three ways, or
//! the generated one.
ghost use Rattle.std.specs.Prelude.{◌≡◌, codes, map, option_and_then, option_map, string_bytes};
ghost use Rattle.std.specs.Str.{bytes_eq};
ghost use Rattle.olap_top.specs.Wanted.{behind, given, given_alone, given_both, given_next, load_by, load_of, row_count_of, run_of, seed_of, skip_threads, step_of, threads_at_end, wanted};

use script_form::field::number;

/// What is to run.
#[derive(Clone, Copy, Debug, PartialEq, Eq)]
pub enum Wanted {
    /// A script from the source, on this thread, one command after the other: the word `step`.
    Step,
    /// A script from the source, on this thread, where a seed draws whose turn it is: `step` with
    /// the option `--seed`.
    Seeded(u64),
    /// A script from the source, with a thread for each actor: the word `run`.
    Run,
    /// The generated script of `rows` rows by a seed, run as `step` runs one, or as `run` where threads
    /// are wanted, and its summary: `load` with the options `--rows`, `--seed` and perhaps `--threads`.
    Load { rows: u64, seed: u64, threads: bool },
}

/// How many rows a generated script has at most.
const MOST_ROWS: u128 = 200_000;

/// Whether a word is this text.
fn is_word(word: &String, text: &str) -> bool
    ensures { result ≡ bytes_eq (string_bytes word.now) text.now }
{
    word.as_str() == text
}

/// The seed that a word spells: a number below 2^64, in at most 20 digits.
fn seed_of(word: &[u8]) -> Option<u64>
    ensures { result ≡ seed_of word.now }
{
    let value = number(word)?;
    if value < 1 << 64 {
        Some(value as u64)
    } else {
        None
    }
}

/// How many rows a word spells: a number from 1 to 200000, in at most 20 digits.
fn row_count_of(word: &[u8]) -> Option<u64>
    ensures { result ≡ row_count_of word.now }
{
    let value = number(word)?;
    if 1 <= value && value <= MOST_ROWS {
        Some(value as u64)
    } else {
        None
    }
}

/// What stands in a word behind the name of an option and an equals sign.
fn behind<'a>(word: &'a [u8], name: &[u8]) -> Option<&'a [u8]>
    ensures { option_map (λ text. text.now) result ≡ option_and_then (behind (codes "=")) (behind name.now word.now) }
{
    word.strip_prefix(name)?.strip_prefix(b"=".as_slice())
}

/// What the first of these words give an option: the text behind its name, as a word or behind an
/// equals sign; and the words behind that.
fn given<'a>(name: &str, words: &'a [String]) -> Option<(&'a [u8], &'a [String])>
    ensures { option_map (λ one. (one.0.now, map string_bytes one.1.now)) result ≡ given name.now (map string_bytes words.now) }
{
    let (word, rest) = words.split_first()?;
    if is_word(word, name) {
        let (text, rest) = rest.split_first()?;
        return Some((text.as_str().as_bytes(), rest));
    }
    let text = behind(word.as_str().as_bytes(), name.as_bytes())?;
    Some((text, rest))
}

/// What these words give an option, and nothing more.
fn given_alone<'a>(name: &str, words: &'a [String]) -> Option<&'a [u8]>
    ensures { option_map (λ text. text.now) result ≡ given_alone name.now (map string_bytes words.now) }
{
    let (text, rest) = given(name, words)?;
    if rest.is_empty() { Some(text) } else { None }
}

/// Takes the word `--threads` off the front of these words, where it has not been found before: whether
/// it has been found now, and the words behind.
fn skip_threads<'a>(found: bool, words: &'a [String]) -> (bool, &'a [String])
    ensures { (result.0, map string_bytes result.1.now) ≡ skip_threads found (map string_bytes words.now) }
{
    let Some((word, rest)) = words.split_first() else {
        return (found, words);
    };
    if !found && is_word(word, "--threads") {
        (true, rest)
    } else {
        (found, words)
    }
}

/// What the first of these words give an option, with `--threads` before it or not: the text, whether
/// `--threads` has been found, and the words behind.
fn given_next<'a>(
    name: &str,
    found: bool,
    words: &'a [String],
) -> Option<(&'a [u8], bool, &'a [String])>
    ensures { option_map (λ one. (one.0.now, one.1, map string_bytes one.2.now)) result ≡ given_next name.now found (map string_bytes words.now) }
{
    let (found, rest) = skip_threads(found, words);
    let (text, rest) = given(name, rest)?;
    Some((text, found, rest))
}

/// Whether `--threads` has been found at the end of the words; nothing where another word is left.
fn threads_at_end(found: bool, words: &[String]) -> Option<bool>
    ensures { result ≡ threads_at_end found (map string_bytes words.now) }
{
    let (found, rest) = skip_threads(found, words);
    if rest.is_empty() { Some(found) } else { None }
}

/// What these words give two options, in this order, and whether `--threads` stands before, between or
/// behind them.
fn given_both<'a>(
    first: &str,
    second: &str,
    words: &'a [String],
) -> Option<(&'a [u8], &'a [u8], bool)>
    ensures { option_map (λ both. (both.0.now, both.1.now, both.2)) result ≡ given_both first.now second.now (map string_bytes words.now) }
{
    let (one, found, rest) = given_next(first, false, words)?;
    let (two, found, rest) = given_next(second, found, rest)?;
    let threads = threads_at_end(found, rest)?;
    Some((one, two, threads))
}

/// What `step` with these options wants.
fn step_of(options: &[String]) -> Option<Wanted>
    ensures { result ≡ step_of (map string_bytes options.now) }
{
    if options.is_empty() {
        return Some(Wanted::Step);
    }
    let text = given_alone("--seed", options)?;
    seed_of(text).map(Wanted::Seeded)
}

/// What `run` with these options wants; it knows no option.
fn run_of(options: &[String]) -> Option<Wanted>
    ensures { result ≡ run_of (map string_bytes options.now) }
{
    if options.is_empty() {
        Some(Wanted::Run)
    } else {
        None
    }
}

/// The load of this number of rows by this seed, with threads or without.
fn load_by(rows: &[u8], seed: &[u8], threads: bool) -> Option<Wanted>
    ensures { result ≡ load_by rows.now seed.now threads }
{
    let rows = row_count_of(rows)?;
    let seed = seed_of(seed)?;
    Some(Wanted::Load {
        rows,
        seed,
        threads,
    })
}

/// What `load` with these options wants.
fn load_of(options: &[String]) -> Option<Wanted>
    ensures { result ≡ load_of (map string_bytes options.now) }
{
    if let Some((rows, seed, threads)) = given_both("--rows", "--seed", options) {
        return load_by(rows, seed, threads);
    }
    let (seed, rows, threads) = given_both("--seed", "--rows", options)?;
    load_by(rows, seed, threads)
}

/// What words want.
fn by_words(words: &[String]) -> Option<Wanted>
    ensures { result ≡ wanted (map string_bytes words.now) }
{
    let (first, options) = words.split_first()?;
    if is_word(first, "step") {
        step_of(options)
    } else if is_word(first, "run") {
        run_of(options)
    } else if is_word(first, "load") {
        load_of(options)
    } else {
        None
    }
}

impl Wanted {
    ghost use Rattle.std.specs.Prelude.{◌≡◌, IfSome, None, Some, map, string_bytes};
    ghost use Rattle.olap_top.specs.declared.wanted.Wanted.{Wanted};
    ghost use Rattle.olap_top.specs.Wanted.{AreFewRows};
    ghost use Rattle.olap_top.specs.Words.{Want};

    /// What these words want to run, where they leave out the program's own name; nothing where the
    /// program does not know them.
    pub fn of_words(words: &[String]) -> Option<Wanted>
        ensures some { IfSome result (Want (map string_bytes words.now)) }
        ensures sole { (w : Wanted) → Want (map string_bytes words.now) w → result ≡ Some w }
        ensures few { IfSome result AreFewRows }
        ensures none { result ≡ None → (w : Wanted) → ¬ Want (map string_bytes words.now) w }
    {
        by_words(words)
    }
}

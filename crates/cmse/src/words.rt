//! The command line.
ghost use Rattle.std.specs.Prelude.{◌≡◌, ◌≢◌, ◌<◌, IfOk, IfSome};
ghost use Rattle.std.specs.Option.{option_copied};
ghost use Rattle.cmse.specs.Words.{texts, word, is_name, is_word, name_at, value_at, differing_at, end_at, options_of, digit, number, number_at, steps_of, build_asked, run_asked, asked_of};
ghost use Rattle.cmse.specs.Steps.{Gives, asked_by, FilesDiffer};

/// What a command line asks for, with the names of its files.
#[derive(Clone, Copy, Debug)]
pub enum Command<'a> {
    /// Turn a source into an image and an import library.
    Build {
        image: &'a str,
        library: &'a str,
        source: &'a str,
    },
    /// Play an image against a script for at most some steps.
    Run {
        steps: u32,
        image: &'a str,
        script: &'a str,
    },
}

/// Word number k, counted from 1.
fn word(words: &[String], k: u32) -> Option<&str>
    requires { 0 < k }
    ensures { option_copied result ≡ word (texts words.now) k }
{
    let word = words.get(k as usize - 1)?;
    Some(word.as_str())
}

/// Whether a word names a file: it isn't empty and doesn't begin with `-`.
fn is_name(word: &str) -> bool
    ensures { result ≡ is_name word.now }
{
    match word.as_bytes() {
        [] => false,
        [first, ..] => *first != b'-',
    }
}

/// Whether word number k is this text.
fn is_word(words: &[String], k: u32, text: &str) -> bool
    requires { 0 < k }
    ensures { result ≡ is_word (texts words.now) k text.now }
{
    match word(words, k) {
        None => false,
        Some(word) => word == text,
    }
}

/// The name at place k, or k where no name is there.
fn name_at(words: &[String], k: u32) -> Result<&str, u32>
    requires { 0 < k }
    ensures { Gives (λ x. x.now) result (name_at (texts words.now) k) }
{
    match word(words, k) {
        Some(word) if is_name(word) => Ok(word),
        _ => Err(k),
    }
}

/// The value of an option that stands at place k.
fn value_at<'a>(words: &'a [String], k: u32, option: &str) -> Result<&'a str, u32>
    requires low { 0 < k }
    requires high { k < 100 }
    ensures { Gives (λ x. x.now) result (value_at (texts words.now) k option.now) }
{
    if !is_word(words, k, option) {
        return Err(k);
    }
    name_at(words, k + 1)
}

/// The same, where the value isn't `other`.
fn differing_at<'a>(words: &'a [String], k: u32, option: &str, other: &str) -> Result<&'a str, u32>
    requires low { 0 < k }
    requires high { k < 100 }
    ensures value { Gives (λ x. x.now) result (differing_at (texts words.now) k option.now other.now) }
    ensures differs { IfOk result (λ x. x.now ≢ other.now) }
{
    let value = value_at(words, k, option)?;
    if value == other {
        return Err(k + 1);
    }
    Ok(value)
}

/// That the words end before place k.
fn end_at(words: &[String], k: u32) -> Result<(), u32>
    requires { 0 < k }
    ensures { Gives (λ _. tt) result (end_at (texts words.now) k) }
{
    match word(words, k) {
        None => Ok(()),
        Some(_) => Err(k),
    }
}

/// The values of the options `-o` and `-l` of `build`, in either order.
#[tactic(auto, unfolding(crate::specs::Words::options_of))]
fn options_of(words: &[String]) -> Result<(&str, &str), u32>
    ensures value { Gives (λ x. (x.0.now, x.1.now)) result (options_of (texts words.now)) }
    ensures differ { IfOk result (λ x. x.0.now ≢ x.1.now) }
{
    if is_word(words, 2, "-l") {
        let library = value_at(words, 2, "-l")?;
        let image = differing_at(words, 4, "-o", library)?;
        Ok((image, library))
    } else {
        let image = value_at(words, 2, "-o")?;
        let library = differing_at(words, 4, "-l", image)?;
        Ok((image, library))
    }
}

/// The value of a decimal digit.
#[tactic(auto, unfolding(crate::specs::Words::digit))]
fn digit(c: u8) -> Option<u8>
    ensures value { result ≡ digit c }
    ensures small { IfSome result (λ d. d < 10) }
{
    match c {
        b'0'..=b'9' => Some(c - b'0'),
        _ => None,
    }
}

/// The number that one to ten decimal digits write, where 32 bits hold it.
#[tactic(auto, using(crate::proofs::NumberLaws::numbers), unfolding(crate::specs::Words::number))]
fn number(word: &[u8]) -> Option<u32>
    ensures { result ≡ number word.now }
{
    if word.is_empty() || word.len() > 10 {
        return None;
    }
    let mut n: u64 = 0;
    for c in word {
        n = 10 * n + u64::from(digit(*c)?);
    }
    if n > 4_294_967_295 {
        return None;
    }
    Some(n as u32)
}

/// The number at place k, or k where no number is there.
fn number_at(words: &[String], k: u32) -> Result<u32, u32>
    requires { 0 < k }
    ensures { Gives (λ n. n) result (number_at (texts words.now) k) }
{
    let Some(word) = word(words, k) else {
        return Err(k);
    };
    match number(word.as_bytes()) {
        Some(n) => Ok(n),
        None => Err(k),
    }
}

/// The number of steps, the value of the option `-n` of `run`.
fn steps_of(words: &[String]) -> Result<u32, u32>
    ensures { Gives (λ n. n) result (steps_of (texts words.now)) }
{
    if is_word(words, 2, "-n") {
        number_at(words, 3)
    } else {
        Err(2)
    }
}

#[tactic(auto, unfolding(crate::specs::Words::build_asked))]
fn build_asked(words: &[String]) -> Result<Command<'_>, u32>
    ensures value { Gives asked_by result (build_asked (texts words.now)) }
    ensures differ { IfOk result FilesDiffer }
{
    let (image, library) = options_of(words)?;
    let source = name_at(words, 6)?;
    end_at(words, 7)?;
    Ok(Command::Build {
        image,
        library,
        source,
    })
}

#[tactic(auto, unfolding(crate::specs::Words::run_asked))]
fn run_asked(words: &[String]) -> Result<Command<'_>, u32>
    ensures value { Gives asked_by result (run_asked (texts words.now)) }
    ensures differ { IfOk result FilesDiffer }
{
    let steps = steps_of(words)?;
    let image = name_at(words, 4)?;
    let script = name_at(words, 5)?;
    end_at(words, 6)?;
    Ok(Command::Run {
        steps,
        image,
        script,
    })
}

/// What the words after the program's name ask for, or the number of the first bad one, counted from 1: the first
/// word that no command allows there, or the number after the last word where words are missing.
#[tactic(auto, unfolding(crate::specs::Words::asked_of))]
pub fn read_words(words: &[String]) -> Result<Command<'_>, u32>
    ensures value { Gives asked_by result (asked_of (texts words.now)) }
    ensures differ { IfOk result FilesDiffer }
{
    if is_word(words, 1, "build") {
        build_asked(words)
    } else if is_word(words, 1, "run") {
        run_asked(words)
    } else {
        Err(1)
    }
}

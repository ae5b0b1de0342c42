//! What is wrong with a command line, in a sentence, and what is doubtful in it.

use cli_options::command;
use std::alloc::{AllocError, Global};
use std::net::IpAddr;

/// Returns what `clap` reports of the words of a command line: the first paragraph in one line, similar names, and the
/// usage. `clap` reports nothing of what the command itself rejects: then the text has the option, and what it takes or
/// needs.
pub fn refused_words(alloc: Global, words: &[String]) -> Result<String, AllocError> {
    let Err(error) = command(alloc)?.try_get_matches_from(words) else {
        return rejected_option(alloc, words);
    };
    let text = error.to_string(alloc)?;
    let mut said = first_paragraph(alloc, text.as_str())?;
    for line in text.as_str().lines() {
        if let Some(tip) = line
            .trim()
            .strip_prefix("tip: ")
            .filter(|tip| tip.contains(" exist"))
        {
            said.push_str("; ")?;
            said.push_str(tip)?;
        }
        if line.starts_with("Usage: ") {
            said.push_str(". ")?;
            said.push_str(line)?;
        }
    }
    Ok(said)
}

// Returns which option of a command line the command itself rejects, and why.
fn rejected_option(alloc: Global, words: &[String]) -> Result<String, AllocError> {
    let mut before = "";
    let subcommand = words.get(1).map_or("", |word| word.as_str());
    for word in words {
        let word = word.as_str();
        let (option, value) = match word.split_once('=') {
            Some(parts) if word.starts_with("--") => parts,
            _ => (before, word),
        };
        if let Some(expected) = expected_value(subcommand, option, value) {
            return format!(in alloc; "{option} {value}: expected {expected}");
        }
        before = word;
    }
    for (option, needed) in needs() {
        if is_given(words, option) && !is_given(words, needed) {
            return format!(in alloc; "{option} needs {needed}");
        }
    }
    let said = match words.get(1).map_or("", |word| word.as_str()) {
        "explain" if is_given(words, "--all") && !asks_for_page(words) =>
            "--all needs --format html",
        "explain" => "--around needs --only failures",
        "compare" => "compare needs two files: HOST.log EQUIPMENT.log",
        "capture" if is_given(words, "--log") => "--format json is of verdicts: leave out --log",
        "serve" if is_given(words, "--port-file") => "--port-file needs --link passive",
        "serve" if is_given(words, "--skip-silent") => "--skip-silent needs --link passive",
        "serve" => "--port 0 needs --link passive",
        _ => "run hsms COMMAND --help",
    };
    String::from_str(alloc, said)
}

// Returns true if these words of `hsms explain` request a page.
fn asks_for_page(words: &[String]) -> bool {
    words
        .iter()
        .any(|word| matches!(word.as_str(), "html" | "--format=html"))
}

// The options of which each needs another one, and these.
fn needs() -> [(&'static str, &'static str); 4] {
    [
        ("--bare", "--hex"),
        ("--once", "--reconnect"),
        ("--connections", "--reconnect"),
        ("--t5", "--reconnect"),
    ]
}

// Returns what a subcommand takes as the value of an option, if this value is another.
fn expected_value(subcommand: &str, option: &str, value: &str) -> Option<&'static str> {
    match option {
        "--role" | "--active" | "--log" => {
            (!matches!(value, "host" | "equipment")).then_some("host or equipment")
        }
        "--link" => (!matches!(value, "active" | "passive")).then_some("active or passive"),
        "--only" => (value != "failures").then_some("failures"),
        "--format" => expected_format(subcommand, value),
        "--peer" => value.parse::<IpAddr>().is_err().then_some("an IP address"),
        _ => None,
    }
}

// Returns the formats of a subcommand, if this is none of them.
fn expected_format(subcommand: &str, format: &str) -> Option<&'static str> {
    match subcommand {
        "audit" => (!matches!(format, "text" | "json" | "junit")).then_some("text, json or junit"),
        "capture" => (!matches!(format, "text" | "json")).then_some("text or json"),
        _ => (!matches!(format, "text" | "json" | "html")).then_some("text, json or html"),
    }
}

// Returns true if an option is on the command line.
fn is_given(words: &[String], option: &str) -> bool {
    words.iter().any(|word| {
        let word = word.as_str();
        word.split_once('=').map_or(word, |(name, _)| name) == option
    })
}

// Returns the first paragraph, in one line, without its first word.
fn first_paragraph(alloc: Global, text: &str) -> Result<String, AllocError> {
    let mut said = String::new(alloc);
    for line in text.lines() {
        let line = line.trim();
        if line.is_empty() {
            return Ok(said);
        }
        if !said.is_empty() {
            said.push(' ')?;
        }
        said.push_str(line.strip_prefix("error: ").unwrap_or(line))?;
    }
    Ok(said)
}

/// Returns a line for each option of these words whose time, in milliseconds, is less than a second.
pub fn doubtful_times(alloc: Global, words: &[String]) -> Result<String, AllocError> {
    let mut said = String::new(alloc);
    let mut before = "";
    for word in words {
        push_doubt(&mut said, before, word.as_str())?;
        before = word.as_str();
    }
    Ok(said)
}

// Appends a line if a word is a time of less than a second: the value of the option before it, or of its own.
fn push_doubt(said: &mut String, before: &str, word: &str) -> Result<(), AllocError> {
    let (option, value) = word.split_once('=').unwrap_or((before, word));
    if is_time(option)
        && value
            .parse::<u32>()
            .is_ok_and(|time| 0 < time && time < 1000)
    {
        write!(said, "hsms: {option} {value}: times are in milliseconds\n")?;
    }
    Ok(())
}

// Returns true if the value of an option is a time.
fn is_time(option: &str) -> bool {
    matches!(
        option,
        "--t3" | "--t5" | "--t6" | "--t7" | "--t8" | "--linktest"
    )
}

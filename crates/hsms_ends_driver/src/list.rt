//! Lists of inputs for an endpoint, read from lines.

use anyhow::anyhow;
use hsms_endpoint::Input;
use hsms_log::read_settings;
use hsms_machine::Settings;
use secs_text::read;
use std::alloc::Global;

/// An endpoint, and its inputs.
#[derive(Drop)]
pub struct List {
    pub settings: Option<Settings>,
    pub first_system: u32,
    /// Whether the handler is the obliging one, and not the one of the role.
    pub is_obliging: bool,
    pub model: Vec<u8>,
    pub revision: Vec<u8>,
    pub inputs: Vec<Input>,
}

impl List {
    /// Creates an empty list.
    pub fn new(alloc: Global) -> List {
        List {
            settings: None,
            first_system: 0,
            is_obliging: false,
            model: Vec::new(alloc),
            revision: Vec::new(alloc),
            inputs: Vec::new(alloc),
        }
    }

    /// Adds the content of a line.
    pub fn add(&mut self, alloc: Global, line: &str) -> Result<(), anyhow::Error> {
        let (word, rest) = line.split_once(' ').unwrap_or((line, ""));
        if word == "hsms-log" {
            self.settings = read_settings(line.as_bytes());
        } else if word == "desk" {
            self.add_desk(alloc, rest)?;
        } else if word == "obliging" {
            self.first_system = rest.parse::<u32>()?;
            self.is_obliging = true;
        } else {
            self.inputs.push(input_of(alloc, word, rest)?)?;
        }
        Ok(())
    }

    fn add_desk(&mut self, alloc: Global, words: &str) -> Result<(), anyhow::Error> {
        let (number, texts) = words.split_once(' ').ok_or_else(|| anyhow!("no texts"))?;
        let (model, revision) = texts.split_once(' ').ok_or_else(|| anyhow!("no revision"))?;
        self.first_system = number.parse::<u32>()?;
        self.model = octets_of(alloc, model)?;
        self.revision = octets_of(alloc, revision)?;
        Ok(())
    }
}

/// Returns the input that a line describes.
fn input_of(alloc: Global, word: &str, rest: &str) -> Result<Input, anyhow::Error> {
    match word {
        "start" => Ok(Input::Start(rest.parse::<u64>()?)),
        "tick" => Ok(Input::Tick(rest.parse::<u64>()?)),
        "bytes" => Ok(Input::Bytes(octets_of(alloc, rest)?)),
        "send" => Ok(Input::Send(read(alloc, rest.as_bytes(), 100)?)),
        "linktest" => Ok(Input::Linktest),
        "separate" => Ok(Input::Separate),
        "lost" => Ok(Input::Lost),
        _ => Err(anyhow!("no input")),
    }
}

/// Returns the bytes of a string of hexadecimal digits.
fn octets_of(alloc: Global, digits: &str) -> Result<Vec<u8>, anyhow::Error> {
    if digits == "-" {
        return Ok(Vec::new(alloc));
    }
    Ok(hex::decode(alloc, digits)?)
}

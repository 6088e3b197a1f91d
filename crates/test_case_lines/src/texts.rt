//! Texts as case files spell them, and those that have a name.
use crate::answers::Answer;
use crate::bytes::Bytes;
use crate::lines::{Line, Word};
use crate::mistake::Mistake;
use std::alloc::Global;
use std::collections::BTreeMap;

/// The texts that have a name.
#[derive(Drop)]
pub struct Texts {
    pub alloc: Global,
    named: BTreeMap<String, Vec<u8>>,
}

impl Texts {
    /// No text has a name yet.
    pub fn new(alloc: Global) -> Texts {
        Texts {
            alloc,
            named: BTreeMap::new(alloc),
        }
    }

    /// Gives a text a name, which it has from then on; says whether there was memory for that.
    pub fn name(&mut self, name: &str, bytes: Vec<u8>) -> bool {
        match String::from_str(self.alloc, name) {
            Ok(name) => self.named.insert(name, bytes).is_ok(),
            Err(_) => false,
        }
    }

    /// Adds the text of a name, `NAME*3` three times.
    fn add_named(&self, name: &str, bytes: &mut Bytes) {
        let (name, times) = name.split_once('*').unwrap_or((name, "1"));
        let Some(named) = self.named.get(name) else {
            bytes.fail(Mistake::Name);
            return;
        };
        let times = times.parse::<u32>().unwrap_or(0);
        if times == 0 {
            bytes.fail(Mistake::Number);
        }
        for _ in 0..times {
            bytes.put_bytes(named);
        }
    }

    /// Adds what `$` begins, where `{NAME}` stands after it a text with a name; gives the rest.
    fn add_after_dollar<'a>(&self, text: &'a str, bytes: &mut Bytes) -> &'a str {
        let Some(name) = text.strip_prefix('{') else {
            bytes.put("$");
            return text;
        };
        let Some((name, rest)) = name.split_once('}') else {
            bytes.fail(Mistake::Escape);
            return "";
        };
        self.add_named(name, bytes);
        rest
    }

    /// Adds what a text spells; says whether it doesn't end in a `\`.
    fn add(&self, text: &str, bytes: &mut Bytes) -> bool {
        let mut rest = text;
        for _ in 0..text.len() {
            let Some((plain, after)) = rest.split_once(['\\', '$']) else {
                break;
            };
            bytes.put(plain);
            if rest.as_bytes().get(plain.len()) == Some(&b'$') {
                rest = self.add_after_dollar(after, bytes);
            } else if after.is_empty() {
                return false;
            } else {
                rest = add_escaped(after, bytes);
            }
        }
        bytes.put(rest);
        true
    }

    /// Adds the bytes that a text spells.
    pub fn add_text(&self, text: &str, bytes: &mut Bytes) {
        let _ = self.add(text, bytes);
    }

    /// Adds the bytes of a line, with its end where it has no `\` there.
    pub fn add_line(&self, line: &str, bytes: &mut Bytes) {
        if self.add(line, bytes) {
            bytes.put("\n");
        }
    }

    /// The bytes that a text spells.
    pub fn bytes(&self, text: &str) -> Bytes {
        let mut bytes = Bytes::new(self.alloc);
        self.add_text(text, &mut bytes);
        bytes
    }

    /// The bytes of lines of an output, which no others may stand among.
    pub fn lines(&self, lines: &[Line<'_>]) -> Bytes {
        let mut bytes = Bytes::new(self.alloc);
        for line in lines {
            match line.word {
                Word::Written => self.add_line(line.rest, &mut bytes),
                _ => bytes.fail(Mistake::Unasked),
            }
        }
        bytes
    }

    /// The answer that lines want. Where they give no status it is this one.
    pub fn wanted(&self, lines: &[Line<'_>], status: u8) -> Answer {
        let mut answer = Answer::of(self.alloc, Bytes::new(self.alloc), status);
        for line in lines {
            self.want(line, &mut answer);
        }
        answer
    }

    /// Adds what a line wants.
    fn want(&self, line: &Line<'_>, answer: &mut Answer) {
        match line.word {
            Word::Written => self.add_line(line.rest, &mut answer.written),
            Word::Told => self.add_line(line.rest, &mut answer.told),
            Word::Status => match line.rest.parse::<u8>() {
                Ok(status) => answer.status = status,
                Err(_) => answer.told.fail(Mistake::Number),
            },
            _ => answer.told.fail(Mistake::Unasked),
        }
    }
}

/// What a letter stands for after a `\`.
const ESCAPES: &[(char, &str)] = &[
    ('\\', "\\"),
    ('n', "\n"),
    ('s', " "),
    ('t', "\t"),
    ('r', "\r"),
    ('$', "$"),
];

/// Adds what is escaped at the front of a text, which stands after a `\`; gives the rest.
fn add_escaped<'a>(text: &'a str, bytes: &mut Bytes) -> &'a str {
    for (letter, escaped) in ESCAPES {
        if let Some(rest) = text.strip_prefix(*letter) {
            bytes.put(*escaped);
            return rest;
        }
    }
    add_byte(text, bytes);
    text.get(3..).unwrap_or("")
}

/// Adds the byte of the two hex digits after an `x` at the front of a text.
fn add_byte(text: &str, bytes: &mut Bytes) {
    let digits = text.get(..3).unwrap_or("").strip_prefix('x').unwrap_or("");
    match u8::from_str_radix(digits, 16) {
        Ok(byte) if !digits.starts_with('+') => bytes.put_bytes(&[byte]),
        Ok(_) | Err(_) => bytes.fail(Mistake::Escape),
    }
}

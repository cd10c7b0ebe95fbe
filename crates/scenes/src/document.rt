//! A section of a document: a scene's name, its lines, and what they are to print.
use std::alloc::{AllocError, Global};
use std::io;
use std::io::Write;

/// A text that a scene is to print, and how often.
#[derive(Clone, Copy)]
struct Printed {
    text: &'static str,
    least: u64,
    most: u64,
    met: u64,
}

/// A scene of the document: its name, its lines, and the texts that it is to print.
#[derive(Drop)]
pub struct Section {
    name: &'static str,
    pub script: &'static str,
    texts: Vec<Printed>,
}

impl Section {
    /// The scene of a section, if it has one. Its first line is the name, its first fenced block has the
    /// lines, and the further ones the texts.
    pub fn read(alloc: Global, section: &'static str) -> Result<Option<Section>, AllocError> {
        let Some((name, script, rest)) = parts_of(section) else {
            return Ok(None);
        };
        let texts = blocks_of(alloc, rest)?;
        Ok(Some(Section {
            name,
            script,
            texts,
        }))
    }

    /// Notes what a run printed, and answers whether one more is to follow. Prints what isn't among the
    /// texts, which is noted too.
    pub fn goes_on<O: Write>(&mut self, run: u64, printed: &str, out: &mut O) -> io::Result<bool> {
        let texts = self.texts.as_mut_slice();
        if meets(texts, printed) {
            return Ok(!is_over(texts));
        }
        self.texts.clear();
        writeln!(out, "Run {run} prints otherwise:\n{printed}")?;
        Ok(false)
    }

    /// Prints whether the scene printed each text as often as it should, and answers it.
    pub fn tell<O: Write>(&self, out: &mut O) -> io::Result<bool> {
        let met = keeps_bounds(self.texts.as_slice());
        let word = if met { "ok" } else { "differs" };
        writeln!(out, "{} {word}", self.name)?;
        Ok(met)
    }
}

/// A section's name, the lines of its scene, and what comes after them.
fn parts_of(section: &'static str) -> Option<(&'static str, &'static str, &'static str)> {
    let (name, text) = section.split_once('\n')?;
    let (_before, text) = text.split_once("```\n")?;
    let (script, rest) = text.split_once("```\n")?;
    Some((name, script, rest))
}

/// How many texts a section has at most.
const MOST: u32 = 20;

/// The texts in what follows a section's lines: the further fenced blocks, each after a line `prints`, or
/// `prints LEAST to MOST times`.
fn blocks_of(alloc: Global, rest: &'static str) -> Result<Vec<Printed>, AllocError> {
    let mut texts = Vec::new(alloc);
    let mut rest = rest;
    for _ in 0..MOST {
        let Some(text) = next_block(&mut rest) else {
            break;
        };
        texts.push(text)?;
    }
    Ok(texts)
}

fn next_block(rest: &mut &'static str) -> Option<Printed> {
    let (_before, text) = rest.split_once("\nprints")?;
    let (bounds, text) = text.split_once("\n\n```\n")?;
    let (text, more) = text.split_once("```\n")?;
    *rest = more;
    let (least, most) = bounds_of(bounds);
    Some(Printed {
        text,
        least,
        most,
        met: 0,
    })
}

/// The numbers in ` LEAST to MOST times`; without them both are 1.
fn bounds_of(words: &str) -> (u64, u64) {
    let Some((least, most)) = words.split_once(" to ") else {
        return (1, 1);
    };
    let (most, _times) = most.split_once(' ').unwrap_or((most, ""));
    (number(least.trim_start()), number(most))
}

fn number(word: &str) -> u64 {
    word.parse::<u64>().unwrap_or(0)
}

/// Whether one of the texts is this, which is counted.
fn meets(texts: &mut [Printed], printed: &str) -> bool {
    for text in texts.iter_mut() {
        if text.text == printed {
            text.met = text.met.saturating_add(1);
            return true;
        }
    }
    false
}

/// Whether the last text was printed as often as it should be.
fn is_over(texts: &[Printed]) -> bool {
    match texts.last() {
        Some(last) => last.met >= last.least,
        None => true,
    }
}

/// Whether each text was printed as often as it should be.
fn keeps_bounds(texts: &[Printed]) -> bool {
    for text in texts {
        if text.met < text.least || text.met > text.most {
            return false;
        }
    }
    !texts.is_empty()
}

//! Signs that stand for texts, by which a file of scripts is short.
use std::alloc::{AllocError, Global};
use std::collections::BTreeMap;

/// What each sign stands for. A character that is no sign stands for itself.
#[derive(Drop)]
pub struct Signs<'a> {
    texts: BTreeMap<char, &'a str>,
}

impl<'a> Signs<'a> {
    /// Reads the lines that have a sign, a space and a text. Other lines say nothing of signs.
    pub fn read(alloc: Global, lines: &'a str) -> Result<Signs<'a>, AllocError> {
        let mut texts = BTreeMap::new(alloc);
        for line in lines.lines() {
            if let Some((sign, text)) = sign_of(line) {
                texts.insert(sign, text)?;
            }
        }
        Ok(Signs { texts })
    }

    /// Returns the text whose signs these are.
    pub fn spelled_out(&self, alloc: Global, signs: &str) -> Result<String, AllocError> {
        let mut text = String::new(alloc);
        for sign in signs.chars() {
            match self.texts.get(&sign) {
                Some(meaning) => push_meaning(&mut text, meaning)?,
                None => text.push(sign)?,
            }
        }
        Ok(text)
    }
}

/// The sign and its text, unless the line is a remark.
fn sign_of(line: &str) -> Option<(char, &str)> {
    let (sign, text) = line.split_once(' ')?;
    match sign.chars().next() {
        Some('#') | None => None,
        Some(sign) => Some((sign, text)),
    }
}

/// Appends what a sign's text means: in it `|` is a line feed and `_` a space.
fn push_meaning(text: &mut String, meaning: &str) -> Result<(), AllocError> {
    for character in meaning.chars() {
        let meant = match character {
            '|' => '\n',
            '_' => ' ',
            other => other,
        };
        text.push(meant)?;
    }
    Ok(())
}

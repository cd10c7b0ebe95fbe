//! What the program's words ask for.
ghost use Rattle.std.specs.Prelude.{◌≡◌, map, is_some};
ghost use Rattle.std.specs.String.{string_bytes};
ghost use Rattle.mirror_run.specs.FormView.{form_values};
ghost use Rattle.mirror_run.specs.Usage.{check_form, form_of, script_form, threads_form, ticks_of, watch_form};

use crate::script::read_number;
use std::alloc::Allocator;

/// A form of the program `mirror`.
#[derive(Clone, Copy, Debug, PartialEq, Eq)]
pub enum Form<'a> {
    /// `mirror SCRIPT`: the script is run.
    Run(&'a str),
    /// `mirror --check SCRIPT`: it is run, and its stream is checked.
    Check(&'a str),
    /// `mirror --watch DIR TICKS`: the folder is watched for so many ticks of a quarter of a second.
    Watch(&'a str, u64),
    /// `mirror --threads SCRIPT..`: the scripts that the words after the first name are run, each in a
    /// thread of its own.
    Threads,
}

impl<'a> Form<'a> {
    /// Returns the form that these words, which follow the program's name, ask for. A first word that
    /// begins with `--` names a form, and no script.
    pub fn of<A: Allocator>(words: &'a [String<A>]) -> Option<Form<'a>>
        ensures { form_values result ≡ form_of (map string_bytes words.now) }
    {
        match words {
            [] => None,
            [name] => script_form(name.as_str()),
            [form, name] => check_form(form.as_str(), name.as_str()),
            [form, folder, ticks] => watch_form(form.as_str(), folder.as_str(), ticks.as_str()),
            [form, _, _, _, ..] => threads_form(form.as_str()),
        }
    }
}

/// The form of one word: a script, unless it begins with two dashes.
fn script_form(name: &str) -> Option<Form<'_>>
    ensures { form_values result ≡ script_form name.now }
{
    if name.starts_with("--") {
        None
    } else {
        Some(Form::Run(name))
    }
}

/// The form of two words: a script whose stream is checked, or one in a thread.
fn check_form<'a>(form: &str, name: &'a str) -> Option<Form<'a>>
    ensures { form_values result ≡ check_form form.now name.now }
{
    if form == "--check" {
        Some(Form::Check(name))
    } else {
        threads_form(form)
    }
}

/// The form of three words: a folder that is watched for so many ticks, or scripts in threads.
fn watch_form<'a>(form: &str, folder: &'a str, ticks: &str) -> Option<Form<'a>>
    ensures { form_values result ≡ watch_form form.now folder.now ticks.now }
{
    if form != "--watch" {
        return threads_form(form);
    }
    match ticks_of(ticks) {
        Some(ticks) => Some(Form::Watch(folder, ticks)),
        None => None,
    }
}

/// The form of two words or more of which this is the first, if it is none of the others.
fn threads_form(word: &str) -> Option<Form<'static>>
    ensures { form_values result ≡ threads_form word.now }
{
    if word == "--threads" {
        Some(Form::Threads)
    } else {
        None
    }
}

/// The number of ticks that the word writes, if it is one from 1 to 100000.
fn ticks_of(word: &str) -> Option<u64>
    ensures { result ≡ ticks_of word.now }
{
    let ticks = read_number(word)?;
    if 0 < ticks && ticks < 100_001 {
        Some(ticks as u64)
    } else {
        None
    }
}

/// Whether these words, which follow the program's name, ask for a form of the program.
pub fn usage_ok<A: Allocator>(words: &[String<A>]) -> bool
    ensures { result ≡ is_some (form_of (map string_bytes words.now)) }
{
    Form::of(words).is_some()
}

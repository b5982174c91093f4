//! The forms of words, as far as they are built.
//! This project's own.
ghost use Rattle.std.specs.Prelude.{◌≡◌, is_some, option_map};
ghost use Rattle.rcp_top.specs.Forms as spec;
ghost use Rattle.rcp_top.specs.Number.{frames_of, number_of};

use crate::number::{frames_of, number_of};
use crate::request::JournalRequest;

/// Which layer a replay runs, by its last word.
#[derive(Clone, Copy)]
pub enum LayerWord {
    /// The replicas in one step.
    Rs,
    /// The replicas in phases, with mailboxes.
    Ds,
    /// The replicas on clocks of their own.
    Da,
}

/// Which of the events that are due at once is taken.
#[derive(Clone, Copy)]
pub enum EventOrder {
    First,
    Last,
}

/// What a run amounts to, in place of its frames.
#[derive(Clone, Copy)]
pub struct Summary;

/// A form of words.
#[derive(Clone, Copy)]
pub enum Form<'a> {
    Check {
        file: &'a str,
    },
    Thin {
        file: &'a str,
    },
    Ideal {
        file: &'a str,
        journal: &'a str,
    },
    Replay {
        file: &'a str,
        journal: &'a str,
        layer: LayerWord,
    },
    Events {
        file: &'a str,
        journal: &'a str,
        order: EventOrder,
    },
    Summary {
        file: &'a str,
        journal: &'a str,
    },
    Gen {
        file: &'a str,
        request: JournalRequest,
    },
}

/// The form that the words are, if they are one.
pub fn form_of(words: &[String]) -> Option<Form<'_>>
    ensures { option_map spec.form_in result ≡ spec.form_of (spec.bytes_of_words words.now) }
{
    match words {
        [word, file] => form_of_file(word.as_str(), file.as_str()),
        [word, file, journal] => form_of_journal(word.as_str(), file.as_str(), journal.as_str()),
        [word, file, journal, last] => {
            form_with_last(
                word.as_str(),
                file.as_str(),
                journal.as_str(),
                last.as_str(),
            )
        }
        _ => None,
    }
}

// The form of a word and a task file.
fn form_of_file<'a>(word: &str, file: &'a str) -> Option<Form<'a>>
    ensures { option_map spec.form_in result ≡ spec.form_of_file word.now file.now }
{
    if word == "check" {
        Some(Form::Check { file })
    } else if word == "thin" {
        Some(Form::Thin { file })
    } else {
        None
    }
}

// The form of a word, a task file and a journal.
fn form_of_journal<'a>(word: &str, file: &'a str, journal: &'a str) -> Option<Form<'a>>
    ensures { option_map spec.form_in result ≡ spec.form_of_journal word.now file.now journal.now }
{
    if word == "ideal" {
        Some(Form::Ideal { file, journal })
    } else if word == "replay" {
        Some(Form::Replay {
            file,
            journal,
            layer: LayerWord::Da,
        })
    } else if word == "summary" {
        Some(Form::Summary { file, journal })
    } else {
        None
    }
}

// The form of a word, a task file, a journal and one word more.
fn form_with_last<'a>(word: &str, file: &'a str, journal: &'a str, last: &str) -> Option<Form<'a>>
    ensures { option_map spec.form_in result
        ≡ spec.form_with_last word.now file.now journal.now last.now }
{
    if word == "replay" {
        let layer = layer_of(last)?;
        Some(Form::Replay {
            file,
            journal,
            layer,
        })
    } else if word == "events" {
        let order = order_of(last)?;
        Some(Form::Events {
            file,
            journal,
            order,
        })
    } else if word == "gen" {
        gen_form(file, journal, last)
    } else {
        None
    }
}

// The form that asks for a journal of a task file, if these words are a number and a number of frames.
fn gen_form<'a>(file: &'a str, number: &str, frames: &str) -> Option<Form<'a>>
    ensures { option_map spec.form_in result
        ≡ spec.gen_form file.now (number_of number.now) (frames_of frames.now) }
{
    let number = number_of(number)?;
    let frames = frames_of(frames)?;
    let request = JournalRequest { number, frames };
    Some(Form::Gen { file, request })
}

// The layer that a word names, if it names one.
fn layer_of(word: &str) -> Option<LayerWord>
    ensures { is_some result ≡ spec.names_layer word.now }
{
    match word {
        "rs" => Some(LayerWord::Rs),
        "ds" => Some(LayerWord::Ds),
        "da" => Some(LayerWord::Da),
        _ => None,
    }
}

// The order that a word names, if it names one.
fn order_of(word: &str) -> Option<EventOrder>
    ensures { result ≡ spec.order_named word.now }
{
    match word {
        "first" => Some(EventOrder::First),
        "last" => Some(EventOrder::Last),
        _ => None,
    }
}

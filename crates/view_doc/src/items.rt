ghost use Rattle.std.specs.Prelude.{◌↔◌, IsTrue, map};
ghost use Rattle.view_doc.specs.Inside.Statements.{blank_of};
ghost use Rattle.tab_words.specs.Words.{words_of};
ghost use Rattle.view_doc.specs.Items.{Fills, FitsForm, IsItem, report_form, round_form, vcpu_form, core_form, planned_form, refused_form};

use crate::numbers::is_number;
use tab_core::Name;
use tab_words::Words;

// What is at a place of a report's line.
#[derive(Clone, Copy, PartialEq, Eq)]
pub(crate) enum Blank {
    // This word.
    This(&'static [u8]),
    Number,
    Name,
    // Any word.
    Any,
}

// Whether the line is the first line of a report.
pub(crate) fn is_report(line: &[u8]) -> bool
    ensures { IsTrue result ↔ FitsForm (words_of line.now) report_form }
{
    fits(
        line,
        &[
            Blank::This(b"run"),
            Blank::Number,
            Blank::This(b"rounds"),
            Blank::Number,
            Blank::This(b"cores"),
            Blank::Number,
            Blank::This(b"events"),
        ],
    )
}

// Whether it is a line of a report between its first and its last.
pub(crate) fn is_item(line: &[u8]) -> bool
    ensures { IsTrue result ↔ IsItem (words_of line.now) }
{
    is_round_item(line)
        || is_vcpu_item(line)
        || is_core_item(line)
        || is_planned_item(line)
        || is_refused_item(line)
}

fn is_round_item(line: &[u8]) -> bool
    ensures { IsTrue result ↔ FitsForm (words_of line.now) round_form }
{
    fits(
        line,
        &[
            Blank::This(b"round"),
            Blank::Number,
            Blank::This(b"plan"),
            Blank::Number,
        ],
    )
}

fn is_vcpu_item(line: &[u8]) -> bool
    ensures { IsTrue result ↔ FitsForm (words_of line.now) vcpu_form }
{
    fits(
        line,
        &[
            Blank::This(b"vcpu"),
            Blank::Name,
            Blank::This(b"offered"),
            Blank::Number,
            Blank::This(b"slots"),
            Blank::Number,
            Blank::This(b"shared"),
            Blank::Number,
            Blank::This(b"gap"),
            Blank::Number,
        ],
    )
}

fn is_core_item(line: &[u8]) -> bool
    ensures { IsTrue result ↔ FitsForm (words_of line.now) core_form }
{
    fits(
        line,
        &[
            Blank::This(b"core"),
            Blank::Number,
            Blank::This(b"slots"),
            Blank::Number,
            Blank::This(b"shared"),
            Blank::Number,
            Blank::This(b"idle"),
            Blank::Number,
        ],
    )
}

fn is_planned_item(line: &[u8]) -> bool
    ensures { IsTrue result ↔ FitsForm (words_of line.now) planned_form }
{
    fits(
        line,
        &[
            Blank::This(b"change"),
            Blank::Number,
            Blank::This(b"at"),
            Blank::Any,
            Blank::This(b"planned"),
        ],
    )
}

fn is_refused_item(line: &[u8]) -> bool
    ensures { IsTrue result ↔ FitsForm (words_of line.now) refused_form }
{
    fits(
        line,
        &[
            Blank::This(b"change"),
            Blank::Number,
            Blank::This(b"at"),
            Blank::Any,
            Blank::This(b"no"),
            Blank::Any,
            Blank::This(b"for"),
            Blank::Name,
        ],
    )
}

// Whether each of the words fits its form.
fn fits(line: &[u8], form: &[Blank]) -> bool
    ensures { IsTrue result ↔ FitsForm (words_of line.now) (map blank_of form.now) }
{
    let mut words = Words::of(line);
    for blank in form {
        let Some(word) = words.next() else {
            return false;
        };
        if !fills(word, blank) {
            return false;
        }
    }
    words.next().is_none()
}

// Whether the word is there rightly.
fn fills(word: &[u8], blank: &Blank) -> bool
    ensures { IsTrue result ↔ Fills word.now (blank_of blank.now) }
{
    match *blank {
        Blank::This(other) => word == other,
        Blank::Number => is_number(word),
        Blank::Name => Name::has_form(word),
        Blank::Any => true,
    }
}

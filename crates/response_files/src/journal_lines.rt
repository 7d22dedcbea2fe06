// One line of a journal: its words, and what they say.
ghost use Rattle.std.specs.Prelude.{◌≡◌};
ghost use Rattle.std.specs.Fmt.{decimal};
ghost use Rattle.std.specs.Str.{bytes_eq};
ghost use Rattle.text_lines.specs.Lines.{words_of};
ghost use Rattle.journal_text.specs.Text.{answer_word};
ghost use Rattle.response_files.specs.JournalReading.{answer_among, answer_in, call_in, done_said, edit_said, number_in, places_in};
ghost use Rattle.response_files.specs.JournalWords.{AreWords};

use configfs_tree::Errno;
use itoa::Buffer as Digits;
use journal_text::{Answer, JournalLine};
use text_lines::cut_at;

// The words of a line, where there are as many as some line of a journal has.
#[derive(Drop)]
enum LineWords<'a> {
    Two(&'a [u8], &'a [u8]),
    Three(&'a [u8], &'a [u8], &'a [u8]),
    Four(&'a [u8], &'a [u8], &'a [u8], &'a [u8]),
    Other,
}

const ANSWERS: [Answer; 9] = [
    Answer::Accepted,
    Answer::Refused(Errno::EPERM),
    Answer::Refused(Errno::ENOENT),
    Answer::Refused(Errno::EACCES),
    Answer::Refused(Errno::EBUSY),
    Answer::Refused(Errno::EEXIST),
    Answer::Refused(Errno::EINVAL),
    Answer::Refused(Errno::ENOTEMPTY),
    Answer::Refused(Errno::ENOSPC),
];

fn line_words(line: &[u8]) -> LineWords<'_>
    ensures { AreWords (words_of line.now) result }
{
    let (kind, rest) = cut_at(b' ', line);
    let Some(rest) = rest else {
        return LineWords::Other;
    };
    let (first, rest) = cut_at(b' ', rest);
    let Some(rest) = rest else {
        return LineWords::Two(kind, first);
    };
    let (second, rest) = cut_at(b' ', rest);
    let Some(rest) = rest else {
        return LineWords::Three(kind, first, second);
    };
    let (third, rest) = cut_at(b' ', rest);
    match rest {
        None => LineWords::Four(kind, first, second, third),
        Some(_) => LineWords::Other,
    }
}

// Whether a word is the decimal text of a number.
fn spells(word: &[u8], number: u32) -> bool
    ensures { result ≡ bytes_eq word.now (decimal number) }
{
    let mut digits = Digits::new();
    word == digits.format(number).as_bytes()
}

// The number below 2^32 of which a word is the decimal text.
fn number(word: &[u8]) -> Option<u32>
    ensures { result ≡ number_in word.now }
{
    let Ok(text) = str::from_utf8(word) else {
        return None;
    };
    let Ok(number) = text.parse::<u32>() else {
        return None;
    };
    if spells(word, number) {
        return Some(number);
    }
    None
}

// The word for an answer.
fn answer_word(answer: Answer) -> &'static str
    ensures { result.now ≡ answer_word answer }
{
    match answer {
        Answer::Accepted => "ok",
        Answer::Refused(errno) => errno.name(),
    }
}

// Of these answers the one that a word stands for.
fn answer_among(word: &[u8], answers: &[Answer]) -> Option<Answer>
    ensures { result ≡ answer_among word.now answers.now }
{
    match answers {
        [] => None,
        [answer, rest @ ..] => {
            if word == answer_word(*answer).as_bytes() {
                return Some(*answer);
            }
            answer_among(word, rest)
        }
    }
}

// The answer that a word stands for.
fn answer(word: &[u8]) -> Option<Answer>
    ensures { result ≡ answer_in word.now }
{
    answer_among(word, &ANSWERS)
}

// The call that three words say.
#[tactic(auto, unfolding(crate::specs::JournalReading::done_said))]
fn done(kind: &[u8], place: &[u8], line: &[u8]) -> Option<JournalLine>
    ensures { result ≡ done_said kind.now place.now line.now }
{
    if kind != b"done".as_slice() {
        return None;
    }
    let place = number(place)?;
    let line = number(line)?;
    Some(JournalLine::Done { place, line })
}

// The call that four words say.
#[tactic(auto, unfolding(crate::specs::JournalReading::edit_said))]
fn edit(kind: &[u8], place: &[u8], line: &[u8], word: &[u8]) -> Option<JournalLine>
    ensures { result ≡ edit_said kind.now place.now line.now word.now }
{
    if kind != b"edit".as_slice() {
        return None;
    }
    let place = number(place)?;
    let line = number(line)?;
    let answer = answer(word)?;
    Some(JournalLine::Edit {
        place,
        line,
        answer,
    })
}

// The call that a line says.
pub(crate) fn call(line: &[u8]) -> Option<JournalLine>
    ensures { result ≡ call_in line.now }
{
    match line_words(line) {
        LineWords::Three(kind, place, line) => done(kind, place, line),
        LineWords::Four(kind, place, line, answer) => edit(kind, place, line, answer),
        LineWords::Two(..) | LineWords::Other => None,
    }
}

// The number of places that a line says.
pub(crate) fn places(line: &[u8]) -> Option<u32>
    ensures { result ≡ places_in line.now }
{
    let LineWords::Two(kind, word) = line_words(line) else {
        return None;
    };
    if kind != b"places".as_slice() {
        return None;
    }
    number(word)
}

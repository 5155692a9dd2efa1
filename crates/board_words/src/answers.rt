// An answer as eight words: which it is, its number and place, the counts of steps, cells and bytes, and the two words of a value.
ghost use Rattle.std.specs.Prelude.{◌≡◌, List, ℕ};
ghost use Rattle.board_words.specs.Overlay.{handed};
ghost use Rattle.board_words.specs.Answers.{report, which_number, which_done, which_refused, done, refusal, which_checked, report_checked, which_answer, report_answer};

use crate::overlay::{hand, words_of};
use answer::Answer;
use answer::reasons::{error_number, limit_number};
use machine::outcome::Used;
use meaning::refusal::Refusal;
use rooms::value::Value;

pub const ANSWER_WORDS: usize = 8;

// Which answer it is. Done: a table is accepted, a binding is brought in, a state is emptied.
#[derive(Clone, Copy, Debug, PartialEq, Eq)]
pub enum Which {
    Done,
    Value,
    Error,
    Exhausted,
    Refused,
}

impl Which {
    // Its number, by which a caller knows it.
    pub fn number(self) -> u8
        ensures { result ≡ which_number self }
    {
        match self {
            Which::Done => 0,
            Which::Value => 1,
            Which::Error => 2,
            Which::Exhausted => 3,
            Which::Refused => 4,
        }
    }
}

// What the words of an answer say.
#[derive(Clone, Copy)]
struct Report {
    which: Which,
    number: u8,
    place: usize,
    used: Used,
    value: Value,
}

impl Report {
    // That it is done, and nothing else.
    const DONE: Report = Report {
        which: Which::Done,
        number: 0,
        place: 0,
        used: Used {
            steps: 0,
            cells: 0,
            bytes: 0,
        },
        value: Value::Absent,
    };

    fn put(self, lent: &mut [u64]) -> u8
        ensures { ◌≡◌ {A = ℕ × List ℕ} (result, lent.new) (handed (which_number self.which) (report (which_number self.which) self.number self.place self.used self.value) lent.old) }
    {
        let which = self.which.number();
        let cell = words_of(self.value);
        let words = [
            u64::from(which),
            u64::from(self.number),
            self.place as u64,
            self.used.steps as u64,
            self.used.cells as u64,
            self.used.bytes as u64,
            cell[0],
            cell[1],
        ];
        hand(lent, &words, which)
    }
}

pub fn put_done(lent: &mut [u64]) -> u8
    ensures { ◌≡◌ {A = ℕ × List ℕ} (result, lent.new) (handed which_done done lent.old) }
{
    Report::DONE.put(lent)
}

pub fn put_refusal(lent: &mut [u64], number: u8, place: usize) -> u8
    ensures { ◌≡◌ {A = ℕ × List ℕ} (result, lent.new) (handed which_refused (refusal number place) lent.old) }
{
    let report = Report {
        which: Which::Refused,
        number,
        place,
        ..Report::DONE
    };
    report.put(lent)
}

pub fn put_checked(lent: &mut [u64], checked: Result<(), Refusal>) -> u8
    ensures { ◌≡◌ {A = ℕ × List ℕ} (result, lent.new) (handed (which_checked checked) (report_checked checked) lent.old) }
{
    match checked {
        Ok(()) => put_done(lent),
        Err(refusal) => put_refusal(lent, refusal.reason.number(), refusal.place),
    }
}

pub fn put_answer(lent: &mut [u64], answer: Answer) -> u8
    ensures { ◌≡◌ {A = ℕ × List ℕ} (result, lent.new) (handed (which_answer answer) (report_answer answer) lent.old) }
{
    let report = match answer {
        Answer::Refused(refusal) => Report {
            which: Which::Refused,
            number: refusal.reason.number(),
            place: refusal.place,
            ..Report::DONE
        },
        Answer::Value(value, used) => Report {
            which: Which::Value,
            value,
            used,
            ..Report::DONE
        },
        Answer::Error(error, place, used) => Report {
            which: Which::Error,
            number: error_number(error),
            place,
            used,
            ..Report::DONE
        },
        Answer::Exhausted(limit, used) => Report {
            which: Which::Exhausted,
            number: limit_number(limit),
            used,
            ..Report::DONE
        },
    };
    report.put(lent)
}

// What the static library's functions answer: a refusal's number, or 0, and five words.
#![tactic(auto)]

ghost use Rattle.std.specs.Prelude.{◌≡◌, ℕ, List};
ghost use Rattle.replies.specs.Replies.{Answered, answer_of, shape_words, task_words, start_words, step_words};
ghost use Rattle.replies.specs.Replies.{unit_words, found_words, forwarded_words, judged_words};

use changes::Task;
use forward::Forwarded;
use lists::Judged;
use netlist::Shape;
use refusals::Refusal;
use visit::{Found, Verdict};
use walk::{Start, Stepped};

// What an operation gives, as five words.
pub trait Words {
    ghost words_of: { Self → List ℕ };

    fn words(self) -> [usize; 5]
        ensures { result ≡ words_of self };
}

impl Words for Shape {
    ghost words_of = { shape_words };

    fn words(self) -> [usize; 5] {
        [
            self.inputs,
            self.gates,
            self.outputs,
            self.pins,
            self.entries,
        ]
    }
}

impl Words for Task {
    ghost words_of = { task_words };

    fn words(self) -> [usize; 5] {
        [self.changes, self.layout.width, self.layout.row, 0, 0]
    }
}

impl Words for Start {
    ghost words_of = { start_words };

    fn words(self) -> [usize; 5] {
        [self.number, self.place, self.count, 0, 0]
    }
}

impl Words for Stepped {
    ghost words_of = { step_words };

    fn words(self) -> [usize; 5] {
        [self.length, self.number, self.place, 0, 0]
    }
}

impl Words for () {
    ghost words_of = { unit_words };

    fn words(self) -> [usize; 5] {
        [0; 5]
    }
}

impl Words for Found {
    ghost words_of = { found_words };

    fn words(self) -> [usize; 5] {
        match self.verdict {
            Verdict::Clean { class } => [0, usize::from(class), self.gates, self.pins, 0],
            Verdict::Hazardous => [1, 0, self.gates, self.pins, 0],
        }
    }
}

impl Words for Forwarded {
    ghost words_of = { forwarded_words };

    fn words(self) -> [usize; 5] {
        [self.touched, self.visited, 0, 0, 0]
    }
}

impl Words for Judged {
    ghost words_of = { judged_words };

    fn words(self) -> [usize; 5] {
        [self.changes, self.width, self.first, self.second, 0]
    }
}

// Writes an outcome's words, or a refusal's place, into the answer, and returns the refusal's number, or 0.
pub fn reply<T: Words>(answer: &mut [u64; 5], outcome: Result<T, Refusal>) -> u32
    ensures { Answered (answer_of T.words_of outcome) result answer.new }
{
    let (number, words) = match outcome {
        Ok(value) => (0, value.words()),
        Err(refusal) => (refusal.number(), [refusal.place(), 0, 0, 0, 0]),
    };
    *answer = words.map(|word| word as u64);
    u32::from(number)
}

// What a command's bytes say, and what an answer says (document 01, commands, record, tally).
// What a command in place gives; what it does to a record's arrays is in acting and performing.
#![tactic(auto)]

ghost use Rattle.std.specs.Prelude.{◌≡◌, ◌<◌};
ghost use Rattle.commands.specs.Answers.{decoded_of, word_of, value_of, value_bound};
ghost use Rattle.commands.specs.Doing.{refused_in};

use format::{byte_at, word_at};
use net::{Key, Transition};

// A command that can be read.
#[derive(Clone, Copy)]
pub enum Command {
    Fire(Transition),
    UndoLast,
    Undo(Key),
}

// The answer to a command; Refused has the number of document 01's list.
#[derive(Clone, Copy)]
pub enum Answer {
    Fired,
    Undone,
    Refused(u8),
}

// What the first three bytes say, where they can be read. Nothing after them is read; bytes that are not there read as 0.
pub fn decode(bytes: &[u8]) -> Option<Command>
    ensures { result ≡ decoded_of bytes.now }
{
    let number = word_at(bytes, 1) as u16;
    match byte_at(bytes, 0) {
        1 => Some(Command::Fire(Transition(number))),
        2 if number == 0 => Some(Command::UndoLast),
        3 => Some(Command::Undo(Key(number))),
        _ => None,
    }
}

// The word that an answer says, which is also the tally's count that it adds to: 0 fired, 1 undone, 2 refused.
pub fn word_of(a: Answer) -> u8
    ensures { result ≡ word_of a }
{
    match a {
        Answer::Fired => 0,
        Answer::Undone => 1,
        Answer::Refused(_) => 2,
    }
}

// The number after the word: the key, or the refusal's number.
pub fn value_of(a: Answer, key: Key) -> u16
    ensures value { result ≡ value_of a key }
    ensures upper_bound { result < value_bound a }
{
    match a {
        Answer::Fired => key.0,
        Answer::Undone => key.0,
        Answer::Refused(n) => n as u16,
    }
}

// What a command in place gives: the answer, the key (0 where it is refused), and the highest key given then.
#[derive(Clone, Copy)]
pub struct Done {
    pub answer: Answer,
    pub key: Key,
    pub given: Key,
}

// A refused command changes nothing, and has key 0.
pub fn refused_in(n: u8, given: Key) -> Done
    ensures { result ≡ refused_in n given }
{
    Done {
        answer: Answer::Refused(n),
        key: Key(0),
        given,
    }
}

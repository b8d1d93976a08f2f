//! What a message says.

use std::str;

/// The numbers in a message: the line of a script, the fault, and the place. Each is 0 or none if the message has none. And
/// whether the place is one of standard input.
#[derive(Clone, Copy, Debug)]
pub struct Said {
    pub line: usize,
    pub fault: usize,
    pub place: Option<usize>,
    pub is_of_input: bool,
}

/// What the message says.
pub fn said_in(message: &[u8]) -> Said {
    let mut said = Said {
        line: 0,
        fault: 0,
        place: None,
        is_of_input: message.trim_ascii().ends_with(b" in standard input"),
    };
    let mut last = b"".as_slice();
    'words: for word in message.split(|byte| matches!(*byte, b' ' | b':' | b'\n')) {
        if let Some(number) = number_in(word) {
            said = with_number(said, last, number);
        }
        last = word;
    }
    said
}

/// What is said with one more number, which comes after this word.
fn with_number(said: Said, last: &[u8], number: usize) -> Said {
    if last == b"line".as_slice() {
        return Said {
            line: number,
            ..said
        };
    }
    if last == b"at".as_slice() {
        return Said {
            place: Some(number),
            ..said
        };
    }
    if said.fault == 0 {
        return Said {
            fault: number,
            ..said
        };
    }
    said
}

/// The number that a word is.
pub fn number_in(word: &[u8]) -> Option<usize> {
    str::from_utf8(word).ok()?.parse::<usize>().ok()
}

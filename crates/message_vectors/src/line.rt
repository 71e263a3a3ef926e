// A line of the input: a word, then pairs of hexadecimal digits.
// A "=" stands in front of the message's bytes, and a ":" in front of an answer.

// What a line holds.
#[derive(Clone, Copy)]
pub(crate) enum Word {
    // A message, by its command number; the null message has none, and 0 here.
    // A number and not an Option: `Fields` has 0 for the null message too.
    Message(u8),
    // A message of which only the reading is judged: whether it is a reply.
    Reading { to_host: bool },
    // A setting of source 001.
    Setting,
}

// The parts of a line behind its word.
#[derive(Clone, Copy)]
pub(crate) struct Parts<'a> {
    // The bytes in front of the "=".
    pub(crate) fields: &'a [u8],
    // The bytes behind it.
    pub(crate) bytes: &'a [u8],
    // The answer behind the ":", if there is one.
    pub(crate) answer: Option<u8>,
}

// Returns what a word says; no other word is known.
pub(crate) fn meaning(word: &[u8]) -> Option<Word> {
    match word {
        b"get" => Some(Word::Message(0x01)),
        b"set" => Some(Word::Message(0x03)),
        b"timing" => Some(Word::Message(0x07)),
        b"save" => Some(Word::Message(0x0C)),
        b"text" => Some(Word::Message(0xF3)),
        b"table-read" => Some(Word::Message(0xE2)),
        b"table-write" => Some(Word::Message(0xE7)),
        b"value" => Some(Word::Message(0x02)),
        b"timing-reply" => Some(Word::Message(0x4E)),
        b"text-fragment" => Some(Word::Message(0xE3)),
        b"table-fragment" => Some(Word::Message(0xE4)),
        b"null" => Some(Word::Message(0x00)),
        b"request" => Some(Word::Reading { to_host: false }),
        b"reply" => Some(Word::Reading { to_host: true }),
        b"setting" => Some(Word::Setting),
        _ => None,
    }
}

// Returns the parts of a line behind its word, their pairs as bytes in the buffer; nothing, where it is malformed.
pub(crate) fn read_parts<'a>(s: &[u8], buffer: &'a mut [u8]) -> Option<Parts<'a>> {
    let (fields, rest) = vector_line::split_once(s, b'=')?;
    let (fields, left) = vector_line::take(fields, buffer)?;
    let Some((bytes, answer)) = vector_line::split_once(rest, b':') else {
        let (bytes, _) = vector_line::take(rest, left)?;
        return Some(Parts {
            fields,
            bytes,
            answer: None,
        });
    };
    let (bytes, left) = vector_line::take(bytes, left)?;
    let (answer, _) = vector_line::take(answer, left)?;
    let [digits] = answer else {
        return None;
    };
    Some(Parts {
        fields,
        bytes,
        answer: Some(vector_line::answer(*digits)),
    })
}

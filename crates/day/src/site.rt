// A display at the end of its line.
use buffers::front;
use day_host::actions::Action;
use day_host::{actions, declared, morning, texts};
use day_line::Line;
use ddcci_display::{ddcci_display_set_all, ddcci_display_step};
use display_rules::Display;
use display_rules::limits::TABLE_ROOM;
use frames::Frame;
use message_rules::answer;
use settings_rules::Declaration;

// A display of the day, before it is started.
#[derive(Clone, Copy)]
pub(crate) struct Place {
    // Its number, as it is written.
    // A number and no enum: it is written as it is.
    pub(crate) number: u64,
    // The size of the fragments that it sends.
    pub(crate) size: u16,
    // The seed of the line to it.
    pub(crate) seed: u64,
}

// A display, the line to it, and what became of it.
#[derive(Drop)]
pub(crate) struct Site {
    // Its number, as it is written.
    pub(crate) number: u64,
    // The display.
    pub(crate) display: Display,
    // The memory of its table.
    pub(crate) table: [u8; TABLE_ROOM],
    // The line to it.
    pub(crate) line: Line,
    // Its last reply.
    pub(crate) reply: Frame,
    // Its last answer: a number, as the step for C answers.
    pub(crate) answer: u8,
    // Whether everything held so far.
    pub(crate) good: bool,
}

impl Site {
    // Returns the site of a display that was started at a place.
    pub(crate) fn start(place: Place) -> Site {
        let text = texts::capabilities();
        let string = front(&text, texts::capabilities_size(place.number));
        let started = display_start::start(declared::TIMING, string, place.size);
        Site {
            number: place.number,
            display: started.display,
            table: [0; TABLE_ROOM],
            line: day_line::quiet(place.seed),
            reply: Frame::EMPTY,
            answer: started.answer,
            good: started.answer == answer::DONE,
        }
    }

    // Declares a code.
    pub(crate) fn declare(&mut self, d: Declaration) {
        let declared = display_start::declare(self.display, d);
        self.display = declared.display;
        self.answer = declared.answer;
        self.also(declared.answer == answer::DONE);
    }

    // Returns the bytes of the table that the display holds.
    pub(crate) fn stored(&self) -> &[u8] {
        front(&self.table, usize::from(self.display.table.len))
    }

    // Judges once more: where it is not good, not everything held.
    pub(crate) fn also(&mut self, good: bool) {
        self.good = self.good && good;
    }

    // Hands a message to the display.
    pub(crate) fn deliver(&mut self, message: Frame) {
        let text = texts::capabilities();
        let string = front(&text, usize::from(self.display.capabilities.len));
        let mut reply = Frame::EMPTY;
        let stepped = ddcci_display_step(
            self.display,
            string,
            &mut self.table,
            message.as_slice(),
            &mut reply.bytes,
        );
        reply.len = stepped.len;
        self.reply = reply;
        self.display = stepped.display;
        self.answer = stepped.answer;
    }

    // Makes the tent's settings of the morning, in one call, and judges whether what is wanted came of them.
    pub(crate) fn set_all(&mut self) {
        let codes = morning::codes();
        let mut answers = [morning::NOT_ANSWERED; morning::ANSWERS_ROOM];
        let changed = ddcci_display_set_all(self.display, &codes, &morning::VALUES, &mut answers);
        self.display = changed.display;
        self.also(morning::judged(changed.answer, answers));
    }

    // Delivers an action of the tent, and judges whether what is wanted came of it.
    pub(crate) fn act(&mut self, a: Action) {
        self.deliver(actions::message(a));
        let good = actions::judged(a, self.answer, &self.reply, self.stored().len());
        self.also(good);
    }
}

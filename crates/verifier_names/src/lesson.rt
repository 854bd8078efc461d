//! What is told of a broken rule: why it is broken, where that is written, and how to mend it.

use crate::{Names, add_lock, spin_number};
use model::set::{Guard, QueueName};
use words::Words;

/// Why a rule is broken, where that is written, and how to mend it. In the words `$R` stands for
/// the register that they are about, `$Q` for the name of the queue, `$L` for the lock, `$A` and
/// `$E` for what acquires and releases it.
#[derive(Clone, Copy)]
pub struct Lesson {
    why: &'static str,
    source: &'static str,
    mend: &'static str,
    about: About,
}

/// What words are about, where they name it. Without the number of a spin lock, their lock is the
/// system cancel spin lock.
#[derive(Clone, Copy)]
pub struct About {
    pub register: Option<usize>,
    pub queue: Option<QueueName>,
    pub lock: Option<usize>,
}

impl About {
    /// A register, and nothing else.
    pub fn register(number: usize) -> About {
        About {
            register: Some(number),
            queue: None,
            lock: None,
        }
    }

    /// A queue, and nothing else.
    pub fn queue(name: QueueName) -> About {
        About {
            register: None,
            queue: Some(name),
            lock: None,
        }
    }

    /// A lock, and nothing else.
    pub fn lock(lock: &Guard) -> About {
        About {
            register: None,
            queue: None,
            lock: spin_number(lock),
        }
    }
}

impl Lesson {
    /// One whose words are about no register, queue or lock.
    pub fn of(why: &'static str, source: &'static str, mend: &'static str) -> Lesson {
        let about = About {
            register: None,
            queue: None,
            lock: None,
        };
        Lesson {
            why,
            source,
            mend,
            about,
        }
    }

    /// One whose words are about something.
    pub fn about(
        why: &'static str,
        source: &'static str,
        mend: &'static str,
        about: About,
    ) -> Lesson {
        Lesson {
            why,
            source,
            mend,
            about,
        }
    }

    /// Adds its three lines.
    pub fn add(&self, words: &mut Words, names: Names<'_, '_>) {
        words.add("why: ");
        self.add_words(words, names, self.why);
        words.add("\nsee: ");
        words.add(self.source);
        words.add("\nmend it: ");
        self.add_words(words, names, self.mend);
        words.add("\n")
    }

    /// Adds such words, with what they are about.
    fn add_words(&self, words: &mut Words, names: Names<'_, '_>, told: &str) {
        for (number, piece) in told.split('$').enumerate() {
            if number == 0 {
                words.add(piece);
            } else {
                self.add_piece(words, names, piece);
            }
        }
    }

    /// Adds what the first letter of a piece stands for, and the rest of the piece.
    fn add_piece(&self, words: &mut Words, names: Names<'_, '_>, piece: &str) {
        if let Some(rest) = piece.strip_prefix('R') {
            self.add_register(words);
            words.add(rest)
        } else if let Some(rest) = piece.strip_prefix('Q') {
            if let Some(queue) = self.about.queue {
                names.add_queue_alone(words, queue);
            }
            words.add(rest)
        } else {
            self.add_lock_piece(words, piece)
        }
    }

    /// Adds the register that the words are about.
    fn add_register(&self, words: &mut Words) {
        match self.about.register {
            Some(number) => {
                words.add("r");
                words.add_number(number as u64)
            }
            None => words.add("the register"),
        }
    }

    /// The same as `add_piece` for a piece about the lock.
    fn add_lock_piece(&self, words: &mut Words, piece: &str) {
        if let Some(rest) = piece.strip_prefix('A') {
            add_taking(words, "acquire l", "acqc", self.about.lock);
            words.add(rest)
        } else if let Some(rest) = piece.strip_prefix('E') {
            add_taking(words, "release l", "relc", self.about.lock);
            words.add(rest)
        } else if let Some(rest) = piece.strip_prefix('L') {
            add_lock(words, self.about.lock);
            words.add(rest)
        } else {
            words.add(piece)
        }
    }
}

/// Adds the instruction that acquires or releases a lock: by its words before the number of a spin
/// lock, or for the system cancel spin lock.
fn add_taking(words: &mut Words, device: &str, cancel: &str, spin: Option<usize>) {
    words.add("`");
    match spin {
        Some(number) => {
            words.add(device);
            words.add_number(number as u64);
        }
        None => words.add(cancel),
    }
    words.add("`")
}

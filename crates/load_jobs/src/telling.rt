// What comes of a load, and its refusal told.
use entity_manifest::{LoadRefusal, LoadReply, Refusal};
use files::{CommandLine, Failure, To};
use load_log::write_line;

// Why a load ends early: a failure was told, or a call refused what a word of the command line names, as it asked for ancestors or not.
#[derive(Drop)]
pub enum Stop {
    Told(Failure),
    Refused {
        word: usize,
        is_asking: bool,
        reply: LoadReply,
    },
}

impl From<Failure> for Stop {
    fn from(failure: Failure) -> Stop {
        Stop::Told(failure)
    }
}

// A refusal of what a word names, by a call that does not ask for ancestors.
pub fn refused(word: usize, reply: LoadReply) -> Stop {
    Stop::Refused {
        word,
        is_asking: false,
        reply,
    }
}

// What came of a call that hands nothing out.
pub fn called(word: usize, reply: LoadReply) -> Result<(), Stop> {
    match reply {
        Ok(_) => Ok(()),
        _ => Err(refused(word, reply)),
    }
}

// Ends the log with the numbers of a refusal.
fn end_log(to: To, reply: LoadReply) -> Result<(), Failure> {
    match reply {
        Ok(_) => Ok(()),
        Err(LoadRefusal::Refused(refusal)) => write_line(
            to,
            b'R',
            &[refusal.number, refusal.place],
        ),
        Err(LoadRefusal::Counted { expected, got }) => write_line(
            to,
            b'R',
            &[12, 0, expected, got],
        ),
    }
}

// Says a refusal of what a word names.
fn say(line: CommandLine, word: usize, is_asking: bool, reply: LoadReply) {
    let err = line.to.err;
    let name = line.word(word);
    let refusal = match reply {
        Err(LoadRefusal::Refused(refusal)) => refusal,
        Ok(_) | Err(LoadRefusal::Counted { .. }) => Refusal {
            number: 12,
            place: 0,
        },
    };
    messages::say_unloaded(err, name.bytes(), refusal, is_asking);
}

// What a load comes to; a refusal ends its log, and is said.
pub fn tell(line: CommandLine, ran: Result<(), Stop>) -> Result<(), Failure> {
    match ran {
        Ok(()) => Ok(()),
        Err(Stop::Told(failure)) => Err(failure),
        Err(
            Stop::Refused {
                word,
                is_asking,
                reply,
            },
        ) => {
            end_log(line.to, reply)?;
            say(line, word, is_asking, reply);
            Err(Failure::Refused)
        }
    }
}

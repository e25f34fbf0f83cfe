//! What exports answer.
ghost use Rattle.std.specs.Prelude.{◌≡◌, length};
ghost use Rattle.bin_history.specs.declared.call.Reply.TheVariants.{Truth};
ghost use Rattle.facing_maps.specs.Answers.{answered, code_of, status_of, found_by, reply_by, answer_by};
ghost use Rattle.facing_maps.specs.Rooms.{copied, reply_room, room_of, IsWhole, IsShownWhole};
ghost use Rattle.facing_maps.specs.Stages.{status_in};

use crate::copying::copy_into;
use crate::shared::SharedBytes;
use bin_history::Reply;
use chm::Fault;

/// The most bytes of a key.
pub const MOST_BYTES: usize = 65_536;
/// The most bytes of a value: 2^29.
pub const MOST_VALUE: usize = 536_870_912;

/// It was done.
pub const DONE: u32 = 0;
/// It was not done: another thread was in its way.
pub const BUSY: u32 = 1;
/// Out of memory.
pub const NO_MEMORY: u32 = 2;
/// Refused: the client made all the calls that it may, 2^62 divided by the number of clients.
pub const CLIENT_FULL: u32 = 3;
/// Refused: the capacity is not 1 to 2^26; or there are more than 2^32 - 1 pairs to open with.
pub const BAD_CAPACITY: u32 = 4;
/// Refused: there are not 1 to 65,536 clients.
pub const BAD_CLIENTS: u32 = 5;
/// Refused: a client is out of the map that was to be closed.
pub const CLIENT_OUT: u32 = 6;
/// The map ends: bins of it were not found.
pub const BIN_MISSING: u32 = 7;
/// Refused: the handle is null, or stands for something else.
pub const WRONG_HANDLE: u32 = 8;
/// Refused: the number is no place of a walk over the map.
pub const BAD_PLACE: u32 = 9;
/// Refused: the key has more than 65,536 bytes, or a value more than 2^29.
pub const TOO_LONG: u32 = 10;
/// Refused: no client is free.
pub const NO_CLIENT: u32 = 11;
/// There is not room enough. (12 is an answer of the headers alone.)
pub const NO_ROOM: u32 = 13;

/// What came of a call that was to be tried: its reply or why it was refused, or none where another
/// thread was in its way; or the status for which it was not tried.
pub type CallOutcome<V> = Result<Option<Result<Reply<V>, Fault>>, u32>;

/// What an export answers beside its status: whether there is a value, or whether it was so, as 1 or
/// 0; and the value, or how many bytes it has, or 0.
#[repr(C)]
#[derive(Clone, Copy, PartialEq, Eq, Debug)]
pub struct FacingAnswer {
    pub found: u32,
    pub value: u64,
}

impl FacingAnswer {
    /// No value, or that it was not so.
    pub fn none() -> FacingAnswer
        ensures { result ≡ record { found = 0; value = 0 } }
    {
        FacingAnswer { found: 0, value: 0 }
    }

    /// A value, or a number.
    pub fn some(value: u64) -> FacingAnswer
        ensures { result ≡ record { found = 1; value = value } }
    {
        FacingAnswer { found: 1, value }
    }

    /// A value, where there is one.
    pub fn of(value: Option<u64>) -> FacingAnswer
        ensures { result ≡ found_by (λ v. v) value }
    {
        match value {
            Some(value) => FacingAnswer::some(value),
            None => FacingAnswer::none(),
        }
    }

    /// Whether it was so.
    fn truth(truth: bool) -> FacingAnswer
        ensures { result ≡ reply_by (λ v. v) (Truth truth) }
    {
        if truth {
            FacingAnswer::some(0)
        } else {
            FacingAnswer::none()
        }
    }
}

/// The status of a refusal.
pub fn code_of(fault: Fault) -> u32
    ensures { result ≡ code_of fault }
{
    match fault {
        Fault::NoMemory => NO_MEMORY,
        Fault::BadCapacity => BAD_CAPACITY,
        Fault::BadClients => BAD_CLIENTS,
        Fault::PassFull => CLIENT_FULL,
        Fault::NoClient => NO_CLIENT,
        Fault::PassMissing => CLIENT_OUT,
        Fault::BinMissing => BIN_MISSING,
    }
}

/// What was answered. What stands for something else than was asked for answers nothing, and is a wrong
/// handle.
pub fn answered<T>(asked: Option<Result<T, u32>>) -> Result<T, u32>
    ensures { result ≡ answered asked }
{
    match asked {
        Some(answer) => answer,
        None => Err(WRONG_HANDLE),
    }
}

/// The status of what was done, or the one for which it was not.
pub fn status_in(done: Result<(), u32>) -> u32
    ensures { result ≡ status_in done }
{
    match done {
        Ok(()) => DONE,
        Err(status) => status,
    }
}

/// Tells what came of a call on a number: its status, and its answer. Where it was not made, the
/// answer is as it was.
pub fn tell(tried: CallOutcome<u64>, answer: &mut FacingAnswer) -> u32
    ensures status { result ≡ status_of tried }
    ensures answer { answer.new ≡ answer_by (λ v. v) tried answer.old }
{
    match tried {
        Ok(Some(Ok(Reply::Value(value)))) => {
            *answer = FacingAnswer::of(value);
            DONE
        }
        Ok(Some(Ok(Reply::Truth(truth)))) => {
            *answer = FacingAnswer::truth(truth);
            DONE
        }
        Ok(Some(Err(fault))) => code_of(fault),
        Ok(None) => BUSY,
        Err(status) => status,
    }
}

/// Shows a value: its bytes as far as there is room for them, and how many it has.
fn show(value: &SharedBytes, room: &mut [u8], answer: &mut FacingAnswer)
    ensures room { room.new ≡ copied value.now room.old }
    ensures answer { answer.new ≡ record { found = 1; value = length value.now } }
{
    let bytes = value.bytes();
    copy_into(bytes, room);
    *answer = FacingAnswer::some(bytes.len() as u64);
}

/// Shows a value that finds room, and how many bytes it has; where it finds none the room is as it
/// was.
pub fn show_whole(
    value: &SharedBytes,
    room: &mut [u8],
    answer: &mut FacingAnswer,
) -> Result<(), u32>
    ensures whole { IsWhole value.now room.old room.new (status_in result) }
    ensures answer { answer.new ≡ record { found = 1; value = length value.now } }
{
    let bytes = value.bytes();
    *answer = FacingAnswer::some(bytes.len() as u64);
    if bytes.len() > room.len() {
        return Err(NO_ROOM);
    }
    copy_into(bytes, room);
    Ok(())
}

/// Shows a reply.
fn show_reply(reply: Reply<SharedBytes>, room: &mut [u8], answer: &mut FacingAnswer)
    ensures room { room.new ≡ reply_room reply room.old }
    ensures answer { answer.new ≡ reply_by length reply }
{
    match reply {
        Reply::Value(Some(value)) => show(&value, room, answer),
        Reply::Value(None) => *answer = FacingAnswer::none(),
        Reply::Truth(true) => *answer = FacingAnswer::some(0),
        Reply::Truth(false) => *answer = FacingAnswer::none(),
    }
}

/// Tells what came of a call: its status, its answer, and the value as far as there is room for it.
/// Where it was not made, nothing is touched.
pub fn tell_bytes(
    tried: CallOutcome<SharedBytes>,
    room: &mut [u8],
    answer: &mut FacingAnswer,
) -> u32
    ensures status { result ≡ status_of tried }
    ensures room { room.new ≡ room_of tried room.old }
    ensures answer { answer.new ≡ answer_by length tried answer.old }
{
    match tried {
        Ok(Some(Ok(reply))) => {
            show_reply(reply, room, answer);
            DONE
        }
        Ok(Some(Err(fault))) => code_of(fault),
        Ok(None) => BUSY,
        Err(status) => status,
    }
}

/// Tells what came of a call: its status, and its answer. Where it was not made, the answer is as it
/// was.
pub fn tell_length(tried: CallOutcome<SharedBytes>, answer: &mut FacingAnswer) -> u32
    ensures status { result ≡ status_of tried }
    ensures answer { answer.new ≡ answer_by length tried answer.old }
{
    match tried {
        Ok(Some(Ok(reply))) => {
            *answer = match reply {
                Reply::Value(Some(value)) => FacingAnswer::some(value.bytes().len() as u64),
                Reply::Value(None) => FacingAnswer::none(),
                Reply::Truth(true) => FacingAnswer::some(0),
                Reply::Truth(false) => FacingAnswer::none(),
            };
            DONE
        }
        Ok(Some(Err(fault))) => code_of(fault),
        Ok(None) => BUSY,
        Err(status) => status,
    }
}

/// Tells what came of a look: the value where it finds room, and how many bytes it has.
pub fn tell_whole(
    tried: CallOutcome<SharedBytes>,
    room: &mut [u8],
    answer: &mut FacingAnswer,
) -> u32
    ensures whole { IsShownWhole tried room.old room.new result }
    ensures answer { answer.new ≡ answer_by length tried answer.old }
{
    match tried {
        Ok(Some(Ok(Reply::Value(Some(value))))) => status_in(show_whole(&value, room, answer)),
        others => tell_length(others, answer),
    }
}

//! Whole inputs and whole outputs, over the calls of a source and a sink.
//!
//! An input is read to its end before anything is made of it, since a description says nothing before it is whole. How
//! many bytes a call gives says nothing either: a source may give fewer than there is room for and have more. Only a call
//! that gives none is the end. So one buffer is made, reads go into it one after the other, and what each gave is put
//! behind what there is. A read asks for at most one byte more than the limit leaves. An input of the very length of the
//! limit is thus read to its end, and a longer one shows by one byte: it is refused there, and what follows is neither read
//! nor held.
//!
//! An output is one text that is there before the first byte is written, so that nothing but the sink can fail while it is
//! written; writing takes no memory. A sink may take a part of a piece, and is then handed the rest of it, until nothing is
//! left. One that takes none of some bytes could be asked for ever: that is a failure. What was taken isn't taken back, so
//! after a failure the sink has a prefix of the text.
//!
//! The first call that fails ends the reading or the writing. The device has counted it, which is how a caller's contract
//! tells a failure that happened from one that was made up.

ghost use Rattle.std.specs.Prelude.{◌≡◌, ◌+◌, ◌≤◌, ◌<◌, [], drop, length, take, vec_len, IfOk, IfSome, OnErr, OnOk, IsErrOf};
ghost use Rattle.std.specs.Io.KnownBytes.{Consumes, IsAtEnd};
ghost use Rattle.lk_devices.specs.Device.{Appends, AppendsPrefix, HasCause};
ghost use Rattle.lk_devices.specs.ReadAll.{HoldsExactly, HoldsMore, ReadAllHasCause};

use crate::sink::Sink;
use crate::source::{Failed, Source};
use std::alloc::{AllocError, Global};

/// The most bytes that one read of `read_all` asks for.
const CHUNK: usize = 65536;

/// Why an input was not read to its end.
#[derive(Clone, Copy, Debug, PartialEq, Eq)]
pub enum ReadAllError {
    /// The source holds more bytes than the limit.
    TooLong,
    /// A read failed.
    Failed,
    /// Memory ran out.
    NoMemory,
}

impl From<Failed> for ReadAllError {
    ghost use Rattle.lk_devices.specs.declared.transfer.ReadAllError.TheVariants as E;

    ghost from_gives = { λ _ e. e ≡ E.Failed };

    fn from(_error: Failed) -> ReadAllError {
        ReadAllError::Failed
    }
}

impl From<AllocError> for ReadAllError {
    ghost use Rattle.lk_devices.specs.declared.transfer.ReadAllError.TheVariants as E;

    ghost from_gives = { λ _ e. e ≡ E.NoMemory };

    fn from(_error: AllocError) -> ReadAllError {
        ReadAllError::NoMemory
    }
}

/// Reads the source to its end, which is at most `limit` bytes away. Of a longer input it reads one byte past the
/// limit; the rest stays unread.
pub fn read_all<S: Source>(
    alloc: Global,
    source: &mut S,
    limit: u64,
) -> Result<Vec<u8>, ReadAllError>
    ensures whole { IfOk result (λ bytes. HoldsExactly (S.state source.old).left bytes.items) }
    ensures to_its_end { OnOk result (IfSome (S.state source.old).left (λ _. (S.state source.new).left ≡ Some [])) }
    ensures within { IfOk result (λ bytes. vec_len bytes ≤ limit) }
    ensures too_long { IsErrOf result ReadAllError.TooLong → HoldsMore (S.state source.old).left limit }
    ensures rest_unread { IsErrOf result ReadAllError.TooLong →
        IfSome (S.state source.old).left (λ held. (S.state source.new).left ≡ Some (drop (limit + 1) held)) }
    ensures cause { ReadAllHasCause result (S.state source.old).faults (S.state source.new).faults }
{
    let mut chunk = new_chunk(alloc)?;
    let mut bytes = Vec::new(alloc);
    loop {
        let room = limit - bytes.len() as u64;
        let count = read_turn(source, &mut chunk, room)?;
        if count == 0 {
            return Ok(bytes);
        }
        if count as u64 > room {
            return Err(ReadAllError::TooLong);
        }
        bytes.extend_from_slice(&chunk[..count])?;
    }
}

/// The buffer that reads go into.
fn new_chunk(alloc: Global) -> Result<Vec<u8>, AllocError>
    ensures { IfOk result (λ chunk. 0 < vec_len chunk) }
{
    let mut chunk = Vec::new(alloc);
    chunk.resize(CHUNK, 0)?;
    Ok(chunk)
}

/// One read into the front of `chunk`, of one byte more than there is room for, so that too long an input shows.
fn read_turn<S: Source>(source: &mut S, chunk: &mut [u8], room: u64) -> Result<usize, Failed>
    requires { 0 < length chunk.old }
    ensures within { IfOk result (λ n. (n ≤ length chunk.new) × (n ≤ room + 1)) }
    ensures cause { HasCause result (S.state source.old).faults (S.state source.new).faults }
    ensures bytes { IfOk result (λ n. Consumes (S.state source.old).left (S.state source.new).left (take n chunk.new)) }
    ensures end { IfOk result (λ n. n ≡ 0 → IsAtEnd (S.state source.old).left) }
{
    let most = chunk.len().min(room.saturating_add(1) as usize);
    source.read(&mut chunk[..most])
}

/// Writes the whole text, in as many calls as the sink needs. After a failed call the sink has a prefix of the text.
/// Takes no memory.
#[tactic(auto, using(crate::proofs::Written::goes_on))]
pub fn write_all<K: Sink>(sink: &mut K, text: &[u8]) -> Result<(), Failed>
    ensures whole { OnOk result (Appends (K.state sink.old).taken (K.state sink.new).taken text.now) }
    ensures prefix { OnErr result (AppendsPrefix (K.state sink.old).taken (K.state sink.new).taken text.now) }
    ensures cause { HasCause result (K.state sink.old).faults (K.state sink.new).faults }
{
    let mut at = 0;
    while at < text.len() {
        let (_, rest) = text.split_at(at);
        let count = sink.write(rest)?;
        if count == 0 {
            return Err(Failed);
        }
        at += count;
    }
    Ok(())
}

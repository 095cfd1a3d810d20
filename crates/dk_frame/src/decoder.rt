//! A client's bytes in pieces, as frames.
ghost use Rattle.std.specs.Prelude.{◌≡◌, ◌+◌, ◌-◌, ◌^◌, ◌<◌, ◌≤◌, [], ◌++◌, ℕ, List, Option, Some, None, Err, IfOk, IfErr, OnErr, MatchOption, MatchResult, length, map, drop, option_map};
ghost use Rattle.dk_model.specs.Frames.{Frame, Begun, length_most};
ghost use Rattle.dk_frame.specs.declared.frame.FrameFault.{FrameFault};
ghost use Rattle.dk_frame.specs.Meanings.{frame_of, fault_of, stage_of};
ghost use Rattle.dk_frame.specs.Fronts.{IsRead};
ghost use Rattle.dk_frame.specs.Behind.{behind, gone_on, IsReadBehind};
ghost use Rattle.dk_frame.specs.Decoding.{HasDecoded, Refuses, IsNotBegun, following};

use crate::frame::{ClientFrame, FrameFault, FrameRefused, Truncated};
use crate::frames::Frames;
use crate::front::length_of;
use crate::limits::STREAM_MOST_BYTES;
use crate::stage::Stage;
use bytes::BytesMut;
use dk_types::NoMemory;
use std::alloc::Global;
use std::marker::Model;

/// Takes a client's bytes piece by piece and gives the frames that they complete. Between two pieces it holds less
/// than one frame.
#[derive(Drop)]
pub struct Decoder {
    fed: u64,
    at: u64,
    stage: Stage,
    held: BytesMut,
    fault: Option<FrameFault>,
    alloc: Global,
}

impl Model for Decoder {
    ghost use Rattle.std.specs.Prelude.{◌+◌, ◌<◌, ◌≤◌, length, option_map};
    ghost use Rattle.dk_model.specs.Frames.{length_most};
    ghost use Rattle.dk_frame.specs.Meanings.{fault_of, stage_of};
    ghost use Rattle.dk_frame.specs.Decoding.{Decoding};

    ghost Value = { Decoding };

    ghost view = { λ d. record { fed = d.fed; at = d.at; stage = stage_of d.stage; held = d.held.items; fault = option_map fault_of d.fault } };

    ghost invariant = { λ d. d.at + length d.held.items ≤ d.fed };
}

impl Decoder {
    /// A decoder that was fed nothing. Takes no memory.
    pub fn new(alloc: Global) -> Decoder
        ensures { HasDecoded result [] [] }
    {
        Decoder {
            fed: 0,
            at: 0,
            stage: Stage::AtLogin,
            held: BytesMut::new(alloc),
            fault: None,
            alloc,
        }
    }

    /// How many bytes it was fed.
    pub fn fed(&self) -> u64
        ensures { result ≡ self.now.fed }
    {
        self.fed
    }

    /// The frames that this piece completes. Where a bad frame follows them the next call tells of it, and so does each
    /// further one.
    pub fn feed(&mut self, piece: &[u8]) -> Result<Vec<ClientFrame>, FrameRefused>
        requires { self.old.fed + length piece.now ≤ STREAM_MOST_BYTES }
        ensures ok { IfOk result (λ frames. (stream : List ℕ) (given : List Frame) → HasDecoded self.old stream given
            → HasDecoded self.new (stream ++ piece.now) (given ++ map frame_of frames.items)) }
        // Where no frame comes, a bad one is not passed over.
        ensures told { IfOk result (λ frames. frames.items ≡ [] → self.new.fault ≡ None) }
        ensures refused { IfErr result (Refuses self.old piece.now self.new) }
        // After a fault every call gives the same one.
        ensures again { (why : FrameFault) → self.old.fault ≡ Some (fault_of why) → result ≡ Err (FrameRefused.BadFrame self.old.at why) }
    {
        if let Some(why) = self.fault {
            self.fed += piece.len() as u64;
            return Err(FrameRefused::BadFrame { at: self.at, why });
        }
        if self.stage == Stage::LoggedOut {
            self.fed += piece.len() as u64;
            return Ok(Vec::new(self.alloc));
        }
        let read = self.read(piece)?;
        read.answer(self.at)
    }

    /// Refuses where the stream ends within a frame.
    pub fn end(&self) -> Result<(), Truncated>
        ensures { MatchResult result (λ _. IsNotBegun (following self.now)) (λ e. following self.now ≡ Begun e.at) }
    {
        if self.fault.is_none() && !self.held.is_empty() {
            return Err(Truncated { at: self.at });
        }
        Ok(())
    }

    // Takes in the piece: reads the whole frames at the front of all that is there then, and goes on behind them. Where the
    // piece completes the frame that is held, what follows it is read where it stands.
    fn read(&mut self, piece: &[u8]) -> Result<Frames, NoMemory>
        requires { self.old.fed + length piece.now ≤ STREAM_MOST_BYTES }
        ensures ok { IfOk result (λ read. (self.new ≡ behind self.old piece.now read) × IsRead self.old.stage (self.old.held ++ piece.now) read) }
        ensures err { OnErr result (self.new ≡ self.old) }
    {
        let (front, later) = piece.split_at(self.missing(piece.len()));
        if later.is_empty() {
            return self.read_joined(piece);
        }
        match self.read_apart(front, later)? {
            Some(read) => Ok(read),
            None => self.read_joined(piece),
        }
    }

    // How many bytes of a piece of so many complete the frame that is held; all of them where its length is not there yet.
    fn missing(&self, piece_len: usize) -> usize
        ensures { result ≤ piece_len }
    {
        let held = self.held.as_slice();
        if held.is_empty() {
            return 0;
        }
        match length_of(held) {
            None => piece_len,
            Some((len, behind)) => (len as usize).saturating_sub(behind.len()).min(piece_len),
        }
    }

    // Reads what is held and the piece, which is put behind it.
    fn read_joined(&mut self, piece: &[u8]) -> Result<Frames, NoMemory>
        requires { self.old.fed + length piece.now ≤ STREAM_MOST_BYTES }
        ensures ok { IfOk result (λ read. (self.new ≡ behind self.old piece.now read) × IsRead self.old.stage (self.old.held ++ piece.now) read) }
        ensures err { OnErr result (self.new ≡ self.old) }
    {
        let before = self.held.len();
        self.held.extend_from_slice(piece)?;
        match Frames::of(self.alloc, self.stage, self.held.as_slice()) {
            Ok(read) => {
                self.fed += piece.len() as u64;
                self.pass(read.taken, &read);
                Ok(read)
            }
            Err(NoMemory) => {
                self.held.truncate(before);
                Err(NoMemory)
            }
        }
    }

    // Reads what is held and a piece of two parts, of which the second is read where it stands. Nothing where the first does
    // not make what is held into whole frames.
    fn read_apart(&mut self, front: &[u8], later: &[u8]) -> Result<Option<Frames>, NoMemory>
        requires { self.old.fed + (length front.now + length later.now) ≤ STREAM_MOST_BYTES }
        ensures ok { IfOk result (λ found. MatchOption found (self.new ≡ self.old) (λ read. (self.new ≡ behind self.old (front.now ++ later.now) read) × IsRead self.old.stage (self.old.held ++ (front.now ++ later.now)) read)) }
        ensures err { OnErr result (self.new ≡ self.old) }
    {
        let begun = self.held.len();
        self.held.extend_from_slice(front)?;
        let whole = self.held.len();
        match read_behind(self.alloc, self.stage, &mut self.held, later) {
            Ok(Some(read)) => {
                self.fed += (front.len() + later.len()) as u64;
                self.pass(whole, &read);
                Ok(Some(read))
            }
            other => {
                self.held.truncate(begun);
                other
            }
        }
    }

    // Goes on behind the frames that were read, of which so many bytes are held. Nothing is held where no frame can follow.
    fn pass(&mut self, held: usize, read: &Frames)
        requires within { held ≤ length self.old.held }
        requires place { self.old.at + read.now.taken + (length self.old.held - held) ≤ self.old.fed }
        ensures { self.new ≡ gone_on self.old held read.now }
    {
        self.at += read.taken as u64;
        self.stage = read.stage;
        self.fault = read.fault;
        if read.fault.is_some() || read.stage == Stage::LoggedOut {
            self.held.clear();
        } else {
            self.held.advance(held);
        }
    }
}

// Reads what is held, where it is whole frames, and what comes later. Then what follows the frames is held too.
fn read_behind(
    alloc: Global,
    stage: Stage,
    held: &mut BytesMut,
    later: &[u8],
) -> Result<Option<Frames>, NoMemory>
    requires { length held.old.items + length later.now < 2 ^ 64 }
    ensures ok { IfOk result (λ found. MatchOption found (held.new.items ≡ held.old.items) (IsReadBehind (stage_of stage) held.old.items later.now held.new.items)) }
    ensures err { OnErr result (held.new.items ≡ held.old.items) }
{
    let Some(read) = Frames::of_both(alloc, stage, held.as_slice(), later)? else {
        return Ok(None);
    };
    let (_, rest) = later.split_at(read.taken - held.len());
    held.extend_from_slice(rest)?;
    Ok(Some(read))
}

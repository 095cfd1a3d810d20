//! What follows from the definition of frames. The functions do nothing; their contracts are the theorems.
ghost use Rattle.std.specs.Prelude.{ℕ, ◌+◌, ◌<◌, List, length};
ghost use Rattle.dk_model.specs.Frames.{Frame, length_most};
ghost use Rattle.dk_frame.specs.Decoding.{Decoding, HasDecoded};
ghost use Rattle.dk_frame.specs.FrameLaws.{OneSpelling, OneSpellingOut, OneReading, LongerStream, FaultsLast};

/// Each frame has a spelling of its own, and no spelling begins another.
pub fn spellings_are_apart()
    ensures client { OneSpelling }
    ensures server { OneSpellingOut }
{}

/// A decoder that stands for a stream holds less than the longest frame.
pub fn less_than_a_frame_is_held()
    ensures { (d : Decoding) (stream : List ℕ) (frames : List Frame) → HasDecoded d stream frames → length d.held < 4 + length_most }
{}

/// A stream has one reading.
pub fn streams_have_one_reading()
    ensures { OneReading }
{}

/// The frames of a longer stream begin with those of a shorter one, and a bad frame stays the fault of all that begins so.
pub fn longer_streams_go_on()
    ensures frames { LongerStream }
    ensures fault { FaultsLast }
{}
